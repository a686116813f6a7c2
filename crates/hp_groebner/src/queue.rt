//! The critical pairs that are to be divided.

ghost use Rattle.std.specs.Prelude.{◌≡◌, ℕ, ◌+◌, ◌++◌, ◌≤◌, [], ◌∷◌, All, IfOk, length};
ghost use Rattle.hp_mono.specs.Monomials.{IsMonomialUpTo, degree, max_degree};
ghost use Rattle.hp_groebner.specs.LimitRules.{most_degree, most_pairs, AreLimits};
ghost use Rattle.hp_groebner.specs.NewPairs.{AreAdded, pairs_of};
ghost use Rattle.hp_groebner.specs.PairQueues.{IsCompanion, IsLonger, IsQueue, bucket};

use crate::cofactors::{companions, is_high_with, minimal_cofactors};
use crate::limits::Limits;
use hp_algebra::NoMem;
use hp_mono::{Mono, Term};
use std::alloc::Global;
use std::marker::Model;

/// Pairs of places, the earlier one first.
#[derive(Drop)]
pub(crate) struct Bucket {
    pairs: Vec<(usize, usize)>,
}

impl Model for Bucket {
    ghost use Rattle.std.specs.Prelude.{ℕ, List};

    ghost Value = { List (ℕ × ℕ) };

    ghost view = { λ b. b.pairs.items };
}

impl Bucket {
    /// No pair.
    fn new(alloc: Global) -> Bucket
        ensures { result ≡ [] }
    {
        Bucket {
            pairs: Vec::new(alloc),
        }
    }

    /// The pairs in order.
    fn pairs(&self) -> &[(usize, usize)]
        ensures { result.now ≡ self.now }
    {
        self.pairs.as_slice()
    }

    /// Adds a pair.
    fn push(&mut self, earlier: usize, later: usize) -> Result<(), NoMem>
        ensures { IfOk result (λ _. self.new ≡ self.old ++ (earlier, later) ∷ []) }
    {
        self.pairs.push((earlier, later))?;
        Ok(())
    }
}

/// The leads in the order in which they were found, and the pairs of them that are to be divided, by the degree of the
/// least common multiple. It counts all critical pairs, and knows whether one is above the limit of degrees.
#[derive(Drop)]
pub(crate) struct Queue {
    leads: Vec<Term>,
    due: Vec<Bucket>,
    pairs: usize,
    high: bool,
}

impl Model for Queue {
    ghost use Rattle.hp_groebner.specs.PairQueues.{Queue};

    ghost Value = { Queue };

    ghost view = { λ q. record { leads = q.leads.items; due = q.due.items; pairs = q.pairs; high = q.high } };
}

impl Queue {
    /// No lead yet.
    ///
    /// Errors: `NoMem` where memory is out.
    pub(crate) fn new(alloc: Global, limits: &Limits) -> Result<Queue, NoMem>
        ensures queue { IfOk result (IsQueue limits.now) }
        ensures leads { IfOk result (λ q. q.leads ≡ []) }
    {
        Ok(Queue {
            leads: Vec::new(alloc),
            due: no_pairs(alloc, limits.degree)?,
            pairs: 0,
            high: false,
        })
    }

    /// The leads in order.
    pub(crate) fn leads(&self) -> &[Term]
        ensures { result.now ≡ self.now.leads }
    {
        self.leads.as_slice()
    }

    /// The pairs of a degree.
    pub(crate) fn due(&self, degree: u32) -> &[(usize, usize)]
        ensures { result.now ≡ bucket self.now degree }
    {
        match self.due.get(degree as usize) {
            Some(bucket) => bucket.pairs(),
            None => &[],
        }
    }

    /// How many critical pairs the leads have.
    pub(crate) fn pairs(&self) -> usize
        ensures { result ≡ self.now.pairs }
    {
        self.pairs
    }

    /// Whether the least common multiple of a pair has a degree above the limit.
    pub(crate) fn is_high(&self) -> bool
        ensures { result ≡ self.now.high }
    {
        self.high
    }

    /// Adds a lead, and lists those of its pairs that no other covers.
    ///
    /// Errors: `NoMem` where memory is out.
    pub(crate) fn push(&mut self, alloc: Global, limits: &Limits, t: Term) -> Result<(), NoMem>
        requires queue { IsQueue limits.now self.old }
        requires few { self.old.pairs ≤ most_pairs }
        requires degree { degree t.mono ≤ most_degree }
        requires degrees { All (λ s. degree s.mono ≤ most_degree) self.old.leads }
        ensures queue { IfOk result (λ _. IsQueue limits.now self.new) }
        ensures longer { IfOk result (λ _. IsLonger self.old t self.new) }
    {
        let leads = self.leads.as_slice();
        let kept = minimal_cofactors(alloc, leads, &t)?;
        add_pairs(&mut self.due, leads, &t, limits.degree, kept.as_slice())?;
        self.high = self.high || is_high_with(leads, &t, limits.degree);
        self.pairs += companions(leads, &t);
        self.leads.push(t)?;
        Ok(())
    }
}

/// No pair of a degree up to the limit.
///
/// Errors: `NoMem` where memory is out.
fn no_pairs(alloc: Global, limit: u32) -> Result<Vec<Bucket>, NoMem>
    ensures long { IfOk result (λ due. length due.items ≡ limit + 1) }
    ensures empty { IfOk result (λ due. (e : ℕ) → pairs_of due.items e ≡ []) }
{
    let mut due = Vec::new(alloc);
    for _e in 0..limit as usize + 1 {
        due.push(Bucket::new(alloc))?;
    }
    Ok(due)
}

/// Lists the pairs of a new lead with these companions, whose least common multiples have a degree within the limit.
///
/// Errors: `NoMem` where memory is out.
fn add_pairs(
    due: &mut Vec<Bucket>,
    leads: &[Term],
    t: &Term,
    limit: u32,
    kept: &[(Mono, usize)],
) -> Result<(), NoMem>
    requires long { length due.old.items ≡ limit + 1 }
    requires companions { All (λ x. IsCompanion leads.now t.now x.1) kept.now }
    requires degrees { All (λ s. degree s.mono + degree t.now.mono ≤ max_degree) leads.now }
    ensures { IfOk result (λ _. AreAdded leads.now t.now limit kept.now (length kept.now) due.old.items due.new.items) }
{
    for k in 0..kept.len() {
        let j = kept[k].1;
        let e = leads[j].mono.lcm(&t.mono).degree();
        if e <= limit {
            due[e as usize].push(j, leads.len())?;
        }
    }
    Ok(())
}
