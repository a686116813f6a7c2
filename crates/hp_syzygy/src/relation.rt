//! The relation of a pair of members of a level.

ghost use Rattle.std.specs.Prelude.{◌≡◌, ◌<◌, ◌+◌, ◌++◌, ◌∷◌, [], ℕ, suc, IfOk, length, map};
ghost use Rattle.hp_mono.specs.Monomials.{cofactor, degree};
ghost use Rattle.hp_poly.specs.Polynomials.{poly_neg};
ghost use Rattle.hp_module.specs.CriticalPairs.{pair_vector};
ghost use Rattle.hp_module.specs.FreeModules.{plus_term};
ghost use Rattle.hp_module.specs.FallingTerms.{AreDivisors, with_leads as divisor_leads};
ghost use Rattle.hp_syzygy.specs.ChainOrders.{chain_order};
ghost use Rattle.hp_syzygy.specs.VariableTests.{first_terms, in_first, negated_firsts};
ghost use Rattle.hp_syzygy.specs.FrameLevels.{IsLevel, IsPair, IsRelationOf, level_lead, level_width, pair_lead, with_leads};

use crate::level::Level;
use hp_algebra::{Field, Module, NoMem, Ring};
use hp_module::{Divisors, ModVec};
use hp_mono::{Mono, Term, TermOrder, VARS};
use hp_poly::Poly;
use std::alloc::Global;

/// The members of a level as vectors to divide by.
///
/// Errors: `NoMem` where memory is out.
pub(crate) fn divisors_of<F: Field>(alloc: Global, level: &Level<F>) -> Result<Divisors<F>, NoMem>
    requires level { IsLevel F.ring F.inverse level.now }
    ensures divisors { IfOk result (λ d. AreDivisors F.ring (chain_order level.now.chain) (level_width level.now) d) }
    ensures leads { IfOk result (λ d. divisor_leads F.ring d ≡ with_leads level.now) }
{
    let width = level.order.width();
    let mut divisors = Divisors::new(alloc, width)?;
    for k in 0..level.members.len() {
        divisors.push(alloc, &level.order, &level.members[k])?;
    }
    Ok(divisors)
}

/// Whether only the variables x_1, .., x_l occur.
fn is_in_first(l: usize, m: &Mono) -> bool
    ensures { result ≡ in_first l m.now }
{
    let _degree = m.degree();
    for i in l..VARS {
        if m.exp(i as u32 + 1) != 0 {
            return false;
        }
    }
    true
}

/// Adds the negative of a term to the list, where only x_1, .., x_l occur in it.
///
/// Errors: `NoMem` where memory is out.
fn push_negated<F: Field>(terms: &mut Vec<(Mono, F)>, l: usize, m: Mono, c: F) -> Result<(), NoMem>
    ensures { IfOk result (λ _. terms.new.items ≡ terms.old.items ++ map (λ t. (t.0, F.ring.neg t.1)) (first_terms l ((m, c) ∷ []))) }
{
    if !is_in_first(l, &m) {
        return Ok(());
    }
    terms.push((m, c.negate()))?;
    Ok(())
}

/// The negatives of the terms of a polynomial in which only x_1, .., x_l occur.
///
/// Errors: `NoMem` where memory is out.
fn negated_first<F: Field>(alloc: Global, l: usize, p: &Poly<F>) -> Result<Poly<F>, NoMem>
    ensures { IfOk result (λ r. r ≡ poly_neg F.ring (first_terms l p.now)) }
{
    let all = p.terms();
    let mut terms = Vec::new(alloc);
    for k in 0..all.len() {
        let t = all[k];
        push_negated(&mut terms, l, t.0, t.1)?;
    }
    Poly::from_terms(alloc, terms)
}

/// The same of each entry of a vector.
///
/// Errors: `NoMem` where memory is out.
fn negated<F: Field>(alloc: Global, l: usize, entries: &[Poly<F>]) -> Result<Vec<Poly<F>>, NoMem>
    ensures { IfOk result (λ r. r.items ≡ negated_firsts F.ring l entries.now) }
{
    let mut negatives = Vec::new(alloc);
    for k in 0..entries.len() {
        negatives.push(negated_first(alloc, l, &entries[k])?)?;
    }
    Ok(negatives)
}

/// Adds c m to an entry.
///
/// Errors: `NoMem` where memory is out.
fn add_term<F: Field>(
    alloc: Global,
    entries: &mut Vec<Poly<F>>,
    place: usize,
    m: Mono,
    c: F,
) -> Result<(), NoMem>
    requires { place < length entries.old.items }
    ensures { IfOk result (λ _. entries.new.items ≡ plus_term F.ring entries.old.items (record { mono = m; comp = suc place }) c) }
{
    let mut terms = Vec::new(alloc);
    terms.push((m, c))?;
    let term = Poly::from_terms(alloc, terms)?;
    let sum = entries[place].add(alloc, &term)?;
    entries[place] = sum;
    Ok(())
}

/// The vector of a pair: the difference of the two multiples of members that have the lcm of the leads as lead.
///
/// Errors: `NoMem` where memory is out.
fn difference_of<F: Field>(
    alloc: Global,
    level: &Level<F>,
    later: usize,
    up: Mono,
    earlier: usize,
    down: Mono,
) -> Result<ModVec<F>, NoMem>
    requires level { IsLevel F.ring F.inverse level.now }
    requires pair { (ranks : _) × IsPair level.now.leads ranks earlier later }
    requires up { up ≡ cofactor (level_lead level.now later).mono (level_lead level.now earlier).mono }
    requires down { down ≡ cofactor (level_lead level.now earlier).mono (level_lead level.now later).mono }
    ensures { IfOk result (λ r. r ≡ pair_vector F.ring (with_leads level.now) earlier later F.ring.one F.ring.one) }
{
    let left = level.members[later].times_term(alloc, F::unit(), up)?;
    let right = level.members[earlier].times_term(alloc, F::unit().negate(), down)?;
    left.m_add(alloc, &right)
}

/// The relation of a pair: the two multiples of members that have the lcm of the leads as lead, less what their difference is
/// by a division. Terms in other variables than the first are left out of the quotients.
///
/// Errors: `NoMem` where memory is out.
pub(crate) fn relation_of<F: Field>(
    alloc: Global,
    level: &Level<F>,
    divisors: &Divisors<F>,
    lead: &Term,
    earlier: usize,
) -> Result<ModVec<F>, NoMem>
    requires level { IsLevel F.ring F.inverse level.now }
    requires divisors { AreDivisors F.ring (chain_order level.now.chain) (level_width level.now) divisors.now }
    requires leads { divisor_leads F.ring divisors.now ≡ with_leads level.now }
    requires pair { (ranks : _) × (i : ℕ) × IsPair level.now.leads ranks earlier i × (lead.now ≡ pair_lead level.now.leads i earlier) }
    ensures { IfOk result (λ r. (h : IsLevel F.ring F.inverse level.now) → IsRelationOf F.ring F.inverse h (lead.now, earlier) r) }
{
    let later = lead.comp - 1;
    let up = lead.mono;
    let down = level.leads[earlier].mono.cofactor(&level.leads[later].mono);
    let difference = difference_of(alloc, level, later, up, earlier, down)?;
    let divided = divisors.divide(alloc, &level.order, &level.grading, &difference)?;
    let mut entries = negated(alloc, level.order.first_width(), divided.0.as_slice())?;
    add_term(alloc, &mut entries, earlier, down, F::unit().negate())?;
    add_term(alloc, &mut entries, later, up, F::unit())?;
    Ok(ModVec::new(entries))
}
