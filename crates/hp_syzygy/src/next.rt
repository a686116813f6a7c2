//! From one level of a frame to the next.

ghost use Rattle.std.specs.Prelude.{◌≡◌, ◌<◌, ℕ, [], IfOk, length, map, slice_index_or};
ghost use Rattle.hp_module.specs.Leads.{no_term};
ghost use Rattle.hp_syzygy.specs.ChainOrders.{full};
ghost use Rattle.hp_syzygy.specs.FrameLevels.{ArePairs, IsLevel, IsNextLevel, IsRelationOf, full_lead, member_degrees};

use crate::level::Level;
use crate::order::SchreyerOrder;
use crate::pairs::pairs_of;
use crate::ranks::ranks_of;
use crate::relation::{divisors_of, relation_of};
use hp_algebra::{Field, List, NoMem};
use hp_module::{Grading, ModVec};
use hp_mono::Term;
use std::alloc::Global;

/// The term of the first module for which a lead stands.
fn full_lead_of<F: Field>(level: &Level<F>, k: usize) -> Term
    requires level { IsLevel F.ring F.inverse level.now }
    requires place { k < length level.now.leads }
    ensures { result ≡ full_lead level.now k }
{
    let lead = level.leads[k];
    level.order.full(&lead)
}

/// The degrees of the members of a level.
///
/// Errors: `NoMem` where memory is out.
pub(crate) fn degrees_of<F: Field>(alloc: Global, level: &Level<F>) -> Result<Vec<u32>, NoMem>
    requires level { IsLevel F.ring F.inverse level.now }
    ensures { IfOk result (λ r. r.items ≡ member_degrees level.now) }
{
    let mut degrees = Vec::new(alloc);
    for k in 0..level.leads.len() {
        degrees.push(full_lead_of(level, k).mono.degree())?;
    }
    Ok(degrees)
}

/// The terms of the first module for which the leads of a level stand.
///
/// Errors: `NoMem` where memory is out.
fn tops_of<F: Field>(alloc: Global, level: &Level<F>) -> Result<Vec<Term>, NoMem>
    requires level { IsLevel F.ring F.inverse level.now }
    ensures { IfOk result (λ r. r.items ≡ map (full level.now.chain) level.now.leads) }
{
    let mut terms = Vec::new(alloc);
    for k in 0..level.leads.len() {
        terms.push(full_lead_of(level, k))?;
    }
    Ok(terms)
}

/// The leads of the relations of pairs.
///
/// Errors: `NoMem` where memory is out.
fn leads_of(alloc: Global, pairs: &[(Term, usize)]) -> Result<Vec<Term>, NoMem>
    ensures { IfOk result (λ r. r.items ≡ map (λ q. q.0) pairs.now) }
{
    let mut leads = Vec::new(alloc);
    for k in 0..pairs.len() {
        leads.push(pairs[k].0)?;
    }
    Ok(leads)
}

/// The relations of pairs.
///
/// Errors: `NoMem` where memory is out.
fn relations_of<F: Field>(
    alloc: Global,
    level: &Level<F>,
    pairs: &[(Term, usize)],
) -> Result<Vec<ModVec<F>>, NoMem>
    requires level { IsLevel F.ring F.inverse level.now }
    requires pairs { (ranks : _) × ArePairs level.now.leads ranks pairs.now }
    ensures count { IfOk result (λ r. length r.items ≡ length pairs.now) }
    ensures each { IfOk result (λ r. (h : IsLevel F.ring F.inverse level.now) (p : ℕ) → p < length pairs.now → IsRelationOf F.ring F.inverse h (slice_index_or pairs.now p (no_term, 0)) (slice_index_or r.items p [])) }
{
    let divisors = divisors_of(alloc, level)?;
    let mut relations = Vec::new(alloc);
    for p in 0..pairs.len() {
        let q = pairs[p];
        relations.push(relation_of(alloc, level, &divisors, &q.0, q.1)?)?;
    }
    Ok(relations)
}

/// The next level: the relations of the pairs that are not covered. It has no members exactly where the members of this
/// level have no relation but zero.
///
/// Errors: `NoMem` where memory is out.
pub(crate) fn next_level<F: Field>(alloc: Global, level: &Level<F>) -> Result<Level<F>, NoMem>
    requires level { IsLevel F.ring F.inverse level.now }
    ensures { IfOk result (λ r. IsNextLevel F.ring F.inverse level.now r) }
{
    let ranks = ranks_of(alloc, level)?;
    let pairs = pairs_of(alloc, level.leads.as_slice(), ranks.as_slice())?;
    let members = relations_of(alloc, level, pairs.as_slice())?;
    let leads = leads_of(alloc, pairs.as_slice())?;
    let tops = tops_of(alloc, level)?;
    let degrees = degrees_of(alloc, level)?;
    Ok(Level {
        order: SchreyerOrder::new(level.order.first_width(), tops, ranks),
        left: level.left.saturating_sub(1),
        grading: Grading {
            shifts: List::of(degrees),
        },
        members,
        leads,
    })
}
