//! The terms of a vector, for each component.

ghost use Rattle.std.specs.Prelude.{◌≡◌, ◌⊎◌, ◌-◌, ◌≤◌, ◌++◌, List, [], ◌∷◌, All, IfOk, IfSome, length, slice_index_or};
ghost use Rattle.hp_mono.specs.declared.term.Term.{Term as TermOf};
ghost use Rattle.hp_mono.specs.TermOrders.{IsTermWithin};
ghost use Rattle.hp_poly.specs.Polynomials.{Poly as PolyOf};
ghost use Rattle.hp_module.specs.Vectors.{zero_vector};
ghost use Rattle.hp_module.specs.FreeModules.{terms};
ghost use Rattle.hp_module.specs.LeadSearch.{IsGreatestOf, component_terms};
ghost use Rattle.hp_module.specs.FallingTerms.{AreFalling, IsFalling, vector_of};

use crate::merging::sorted;
use crate::terms::Terms;
use crate::vector::{ModVec, is_above};
use hp_algebra::{Field, NoMem};
use hp_mono::{Mono, Term, TermOrder};
use hp_poly::Poly;
use std::alloc::Global;

/// No term in each of so many components.
pub(crate) fn no_terms<F: Field>(alloc: Global, width: usize) -> Result<Vec<Terms<F>>, NoMem>
    ensures { IfOk result (λ r. r.items ≡ zero_vector F.ring width) }
{
    let mut parts = Vec::new(alloc);
    for _ in 0..width {
        parts.push(Terms::new(alloc))?;
    }
    Ok(parts)
}

/// The terms of a vector, falling in the order in each component.
pub(crate) fn parts_of<F: Field, O: TermOrder>(
    alloc: Global,
    order: &O,
    v: &ModVec<F>,
) -> Result<Vec<Terms<F>>, NoMem>
    requires { O.components order.now ≡ length v.now }
    ensures falling { IfOk result (λ r. AreFalling F.ring (O.order order.now) (O.components order.now) r.items) }
    ensures value { IfOk result (λ r. vector_of F.ring r.items ≡ v.now) }
{
    let _width = order.width();
    let entries = v.entries();
    let mut parts = Vec::new(alloc);
    for k in 0..entries.len() {
        let terms = sorted(alloc, order, k + 1, entries[k].terms())?;
        parts.push(Terms::of(terms))?;
    }
    Ok(parts)
}

/// The polynomials with these terms.
pub(crate) fn polynomials<F: Field>(
    alloc: Global,
    parts: &[Terms<F>],
) -> Result<Vec<Poly<F>>, NoMem>
    ensures { IfOk result (λ r. r.items ≡ vector_of F.ring parts.now) }
{
    let mut entries = Vec::new(alloc);
    for k in 0..parts.len() {
        let terms = Vec::from_slice(alloc, parts[k].as_slice())?;
        entries.push(Poly::from_terms(alloc, terms)?)?;
    }
    Ok(entries)
}

/// The greatest of all terms, which is the first of its component, and none where there is no term.
pub(crate) fn lead_of<F: Field, O: TermOrder>(order: &O, parts: &[Terms<F>]) -> Option<(Term, F)>
    requires { AreFalling F.ring (O.order order.now) (O.components order.now) parts.now }
    ensures within { IfSome result (λ l. IsTermWithin (O.components order.now) l.0) }
    ensures first { IfSome result (λ l. (p : PolyOf F) × (slice_index_or parts.now (l.0.comp - 1) [] ≡ (l.0.mono, l.1) ∷ p)) }
    ensures greatest { IsGreatestOf (O.order order.now) (terms parts.now) result }
{
    let _width = order.width();
    let mut lead = None;
    for k in (0..parts.len()).rev() {
        lead = higher(order, lead, k + 1, parts[k].as_slice());
    }
    lead
}

/// The greatest of these falling terms of a component and of the terms of later ones, of which the greatest is given.
fn higher<F: Field, O: TermOrder>(
    order: &O,
    later: Option<(Term, F)>,
    comp: usize,
    terms: &[(Mono, F)],
) -> Option<(Term, F)>
    requires counted { 1 ≤ comp }
    requires within { comp ≤ O.components order.now }
    requires later { IfSome later (λ l. IsTermWithin (O.components order.now) l.0) }
    requires falling { IsFalling F.ring (O.order order.now) comp terms.now }
    ensures within { IfSome result (λ l. IsTermWithin (O.components order.now) l.0) }
    ensures first { (result ≡ later) ⊎ IfSome result (λ l. (l.0.comp ≡ comp) × ((p : PolyOf F) × (terms.now ≡ (l.0.mono, l.1) ∷ p))) }
    ensures greatest { (xs : List (TermOf × F)) → All (λ t. IsTermWithin (O.components order.now) t.0) xs → IsGreatestOf (O.order order.now) xs later → IsGreatestOf (O.order order.now) (component_terms comp terms.now ++ xs) result }
{
    let _width = order.width();
    match terms.split_first() {
        None => later,
        Some((first, _others)) => {
            let _degree = first.0.degree();
            let t = Term {
                mono: first.0,
                comp,
            };
            if is_above(order, &t, &later) {
                Some((t, first.1))
            } else {
                later
            }
        }
    }
}
