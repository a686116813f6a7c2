//! The pairs of leads whose relations are needed.

ghost use Rattle.std.specs.Prelude.{◌≡◌, ◌<◌, ◌≤◌, ◌++◌, ◌∷◌, [], ℕ, suc, cond, not, filter, IfOk, length, slice_index_or};
ghost use Rattle.hp_mono.specs.Monomials.{IsMonomial, degree, lcm, max_degree};
ghost use Rattle.hp_module.specs.Leads.{no_term};
ghost use Rattle.hp_syzygy.specs.DividingTests.{keep_next, some_divides, term_divides};
ghost use Rattle.hp_syzygy.specs.FrameLevels.{ArePairs, ArePairsAt};

use hp_algebra::NoMem;
use hp_mono::Term;
use std::alloc::Global;

/// The pairs of leads of one component that are not covered by others, each by the lead of its relation and the place of
/// the earlier lead.
///
/// Errors: `NoMem` where memory is out.
pub(crate) fn pairs_of(
    alloc: Global,
    leads: &[Term],
    ranks: &[usize],
) -> Result<Vec<(Term, usize)>, NoMem>
    requires ranked { length ranks.now ≡ length leads.now }
    requires monomials { (i : ℕ) → i < length leads.now → IsMonomial (slice_index_or leads.now i no_term).mono }
    requires low { (i j : ℕ) → i < length leads.now → j < length leads.now → degree (lcm (slice_index_or leads.now i no_term).mono (slice_index_or leads.now j no_term).mono) ≤ max_degree }
    ensures { IfOk result (λ r. ArePairs leads.now ranks.now r.items) }
{
    let mut pairs = Vec::new(alloc);
    for i in 0..leads.len() {
        let block = pairs_at(alloc, leads, ranks, i)?;
        add_all(&mut pairs, block.as_slice())?;
    }
    Ok(pairs)
}

/// Adds pairs at the end of a list.
fn add_all(pairs: &mut Vec<(Term, usize)>, others: &[(Term, usize)]) -> Result<(), NoMem>
    ensures { IfOk result (λ _. pairs.new.items ≡ pairs.old.items ++ others.now) }
{
    for k in 0..others.len() {
        pairs.push(others[k])?;
    }
    Ok(())
}

/// Those whose later lead is at place `i`.
///
/// Errors: `NoMem` where memory is out.
fn pairs_at(
    alloc: Global,
    leads: &[Term],
    ranks: &[usize],
    i: usize,
) -> Result<Vec<(Term, usize)>, NoMem>
    requires ranked { length ranks.now ≡ length leads.now }
    requires place { i < length leads.now }
    requires monomials { (i : ℕ) → i < length leads.now → IsMonomial (slice_index_or leads.now i no_term).mono }
    requires low { (i j : ℕ) → i < length leads.now → j < length leads.now → degree (lcm (slice_index_or leads.now i no_term).mono (slice_index_or leads.now j no_term).mono) ≤ max_degree }
    ensures { IfOk result (λ r. ArePairsAt leads.now ranks.now i (length leads.now) r.items) }
{
    let mut kept = Vec::new(alloc);
    for j in 0..leads.len() {
        consider(alloc, leads, ranks, i, j, &mut kept)?;
    }
    Ok(kept)
}

/// Considers one earlier lead more.
///
/// Errors: `NoMem` where memory is out.
fn consider(
    alloc: Global,
    leads: &[Term],
    ranks: &[usize],
    i: usize,
    j: usize,
    kept: &mut Vec<(Term, usize)>,
) -> Result<(), NoMem>
    requires ranked { length ranks.now ≡ length leads.now }
    requires later { i < length leads.now }
    requires earlier { j < length leads.now }
    requires monomials { (i : ℕ) → i < length leads.now → IsMonomial (slice_index_or leads.now i no_term).mono }
    requires low { (i j : ℕ) → i < length leads.now → j < length leads.now → degree (lcm (slice_index_or leads.now i no_term).mono (slice_index_or leads.now j no_term).mono) ≤ max_degree }
    requires kept { ArePairsAt leads.now ranks.now i j kept.old.items }
    ensures { IfOk result (λ _. ArePairsAt leads.now ranks.now i (suc j) kept.new.items) }
{
    if ranks[j] >= ranks[i] || leads[j].comp != leads[i].comp {
        return Ok(());
    }
    let lead = Term {
        mono: leads[i].mono.cofactor(&leads[j].mono),
        comp: i + 1,
    };
    keep(alloc, kept, lead, j)
}

/// Keeps a candidate unless a kept one divides it, and no longer keeps what it divides.
///
/// Errors: `NoMem` where memory is out.
fn keep(alloc: Global, kept: &mut Vec<(Term, usize)>, t: Term, j: usize) -> Result<(), NoMem>
    ensures { IfOk result (λ _. kept.new.items ≡ keep_next kept.old.items t j) }
{
    if is_divided(kept.as_slice(), &t) {
        return Ok(());
    }
    let mut rest = undivided(alloc, kept.as_slice(), &t)?;
    rest.push((t, j))?;
    *kept = rest;
    Ok(())
}

/// Those that t doesn't divide.
///
/// Errors: `NoMem` where memory is out.
fn undivided(alloc: Global, kept: &[(Term, usize)], t: &Term) -> Result<Vec<(Term, usize)>, NoMem>
    ensures { IfOk result (λ r. r.items ≡ filter (λ q. not (term_divides t.now q.0)) kept.now) }
{
    let mut rest = Vec::new(alloc);
    for k in 0..kept.len() {
        let q = kept[k];
        push_where(&mut rest, !divides(t, &q.0), q.0, q.1)?;
    }
    Ok(rest)
}

/// Adds a pair to the list where the test is passed.
///
/// Errors: `NoMem` where memory is out.
fn push_where(list: &mut Vec<(Term, usize)>, passed: bool, t: Term, j: usize) -> Result<(), NoMem>
    ensures { IfOk result (λ _. list.new.items ≡ list.old.items ++ cond passed ((t, j) ∷ []) []) }
{
    if passed {
        list.push((t, j))?;
    }
    Ok(())
}

/// Whether one of the terms divides t.
fn is_divided(kept: &[(Term, usize)], t: &Term) -> bool
    ensures { result ≡ some_divides kept.now t.now }
{
    kept.iter().any(|k| divides(&k.0, t))
}

/// Whether s divides t.
fn divides(s: &Term, t: &Term) -> bool
    ensures { result ≡ term_divides s.now t.now }
{
    s.comp == t.comp && s.mono.divides(&t.mono)
}
