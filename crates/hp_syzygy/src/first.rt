//! The first level of a frame: the basis itself.

ghost use Rattle.std.specs.Prelude.{◌≡◌, ◌≤◌, ℕ, All, IfOk, length, replicate};
ghost use Rattle.hp_mono.specs.declared.term.Term.{Term as TermOf};
ghost use Rattle.hp_mono.specs.Monomials.{degree};
ghost use Rattle.hp_module.specs.Derivations.{IsVectorInVariables};
ghost use Rattle.hp_module.specs.ElimOrders.{elimination_order};
ghost use Rattle.hp_module.specs.Leads.{IsGreatestTerm};
ghost use Rattle.hp_syzygy.specs.ChainOrders.{first_chain};
ghost use Rattle.hp_syzygy.specs.FrameLevels.{AreLeadsOf, IsLevel, level_width, most_lead};

use crate::level::Level;
use crate::order::SchreyerOrder;
use hp_algebra::{Field, List, NoMem};
use hp_module::{Basis, ElimOrder, Grading, ModVec};
use hp_mono::{Mono, Term};
use std::alloc::Global;

/// The order in which each component stands for itself.
///
/// Errors: `NoMem` where memory is out.
fn first_order(alloc: Global, width: usize) -> Result<SchreyerOrder, NoMem>
    ensures { IfOk result (λ o. o ≡ first_chain width) }
{
    let mut tops = Vec::new(alloc);
    let mut ranks = Vec::new(alloc);
    for k in 0..width {
        tops.push(Term {
            mono: Mono::one(),
            comp: k + 1,
        })?;
        ranks.push(k + 1)?;
    }
    Ok(SchreyerOrder::new(width, tops, ranks))
}

/// So many zeros.
///
/// Errors: `NoMem` where memory is out.
fn zeros(alloc: Global, count: usize) -> Result<Vec<u32>, NoMem>
    ensures { IfOk result (λ r. r.items ≡ replicate count 0) }
{
    let mut degrees = Vec::new(alloc);
    for _ in 0..count {
        degrees.push(0)?;
    }
    Ok(degrees)
}

/// Second ones of vectors.
///
/// Errors: `NoMem` where memory is out.
fn copies<F: Field>(alloc: Global, vectors: &[ModVec<F>]) -> Result<Vec<ModVec<F>>, NoMem>
    ensures { IfOk result (λ r. r.items ≡ vectors.now) }
{
    let mut copies = Vec::new(alloc);
    for k in 0..vectors.len() {
        copies.push(vectors[k].copy(alloc)?)?;
    }
    Ok(copies)
}

/// The leads of vectors in the elimination order with split 0, and the term 1 in the first component for zero.
///
/// Errors: `NoMem` where memory is out.
fn leads_in<F: Field>(
    alloc: Global,
    width: usize,
    vectors: &[ModVec<F>],
) -> Result<Vec<Term>, NoMem>
    requires { All (λ v. length v ≡ width) vectors.now }
    ensures { IfOk result (λ r. AreLeadsOf (elimination_order 0) vectors.now r.items) }
{
    let order = ElimOrder { split: 0, width };
    let mut leads = Vec::new(alloc);
    for k in 0..vectors.len() {
        leads.push(lead_in(&order, &vectors[k]))?;
    }
    Ok(leads)
}

/// The lead of a vector, and the term 1 in the first component for zero.
fn lead_in<F: Field>(order: &ElimOrder, v: &ModVec<F>) -> Term
    requires { order.now.width ≡ length v.now }
    ensures { ((t : TermOf) (c : F) → IsGreatestTerm (elimination_order order.now.split) v.now t c → t ≡ result) }
{
    let _width = v.width();
    match v.lead(order) {
        Some((lead, _)) => lead,
        None => Term {
            mono: Mono::one(),
            comp: 1,
        },
    }
}

/// The members of a basis as the first level: each component stands for itself.
///
/// Errors: `NoMem` where memory is out.
pub(crate) fn first_level<F: Field>(alloc: Global, basis: &Basis<F>) -> Result<Level<F>, NoMem>
    requires split { basis.now.split ≡ 0 }
    requires variables { All (IsVectorInVariables F.ring basis.now.width basis.now.width) basis.now.members }
    requires leads { All (λ g. (t : TermOf) (c : F) → IsGreatestTerm (elimination_order 0) g t c → degree t.mono ≤ most_lead) basis.now.members }
    ensures level { IfOk result (λ r. IsLevel F.ring F.inverse r) }
    ensures members { IfOk result (λ r. r.members ≡ basis.now.members) }
    ensures first_width { IfOk result (λ r. r.chain.width ≡ basis.now.width) }
    ensures width { IfOk result (λ r. level_width r ≡ basis.now.width) }
    ensures left { IfOk result (λ r. r.left ≡ basis.now.width) }
    ensures degrees { IfOk result (λ r. r.degrees ≡ replicate basis.now.width 0) }
{
    let width = basis.width();
    let order = first_order(alloc, width)?;
    let members = copies(alloc, basis.members())?;
    let leads = leads_in(alloc, width, basis.members())?;
    let degrees = zeros(alloc, width)?;
    Ok(Level {
        order,
        left: width,
        grading: Grading {
            shifts: List::of(degrees),
        },
        members,
        leads,
    })
}
