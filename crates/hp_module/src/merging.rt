//! Falling terms of one component: sums by merging, and sorting.

ghost use Rattle.std.specs.Prelude.{◌≡◌, ◌≢◌, ◌+◌, ◌≤◌, IfOk, length};
ghost use Rattle.hp_mono.specs.Monomials.{degree, max_degree};
ghost use Rattle.hp_sums.specs.FiniteSums.{plus};
ghost use Rattle.hp_poly.specs.Polynomials.{multiple, poly_degree, poly_of};
ghost use Rattle.hp_module.specs.FallingTerms.{IsFalling, IsTerms, component_order};

use crate::component::InComponent;
use hp_algebra::{Field, NoMem};
use hp_mono::{Mono, TermOrder};
use std::alloc::Global;

/// The sum of falling terms of a component and others.
pub(crate) fn merged<F: Field, O: TermOrder>(
    alloc: Global,
    order: &O,
    comp: usize,
    left: &[(Mono, F)],
    right: &[(Mono, F)],
) -> Result<Vec<(Mono, F)>, NoMem>
    requires counted { 1 ≤ comp }
    requires within { comp ≤ O.components order.now }
    requires left { IsFalling F.ring (O.order order.now) comp left.now }
    requires right { IsFalling F.ring (O.order order.now) comp right.now }
    ensures value { IfOk result (λ r. r.items ≡ plus (component_order (O.order order.now) comp) F.ring left.now right.now) }
    ensures answer { IfOk result (λ r. IsFalling F.ring (O.order order.now) comp r.items) }
{
    let _width = order.width();
    let basis = InComponent { order, comp };
    let sum = hp_sums::merged(alloc, &basis, left, right)?;
    Ok(sum)
}

/// Writes to a buffer, of which only the memory is kept, the sum of falling terms of a component and c m times others.
pub(crate) fn merge_multiple<F: Field, O: TermOrder>(
    order: &O,
    comp: usize,
    left: &[(Mono, F)],
    c: F,
    m: Mono,
    right: &[(Mono, F)],
    buffer: &mut Vec<(Mono, F)>,
) -> Result<(), NoMem>
    requires counted { 1 ≤ comp }
    requires within { comp ≤ O.components order.now }
    requires left { IsFalling F.ring (O.order order.now) comp left.now }
    requires right { IsFalling F.ring (O.order order.now) comp right.now }
    requires nonzero { c ≢ F.ring.zero }
    requires degrees { degree m + poly_degree F.ring right.now ≤ max_degree }
    ensures value { IfOk result (λ _. buffer.new.items ≡ plus (component_order (O.order order.now) comp) F.ring left.now (multiple F.ring c m right.now)) }
    ensures answer { IfOk result (λ _. IsFalling F.ring (O.order order.now) comp buffer.new.items) }
{
    let _width = order.width();
    let _degree = m.degree();
    let basis = InComponent { order, comp };
    hp_sums::merge_multiple(buffer, &basis, left, c, m, right)?;
    Ok(())
}

/// The terms sorted, the greatest first. Where they stand so already, they are copied.
pub(crate) fn sorted<F: Field, O: TermOrder>(
    alloc: Global,
    order: &O,
    comp: usize,
    terms: &[(Mono, F)],
) -> Result<Vec<(Mono, F)>, NoMem>
    requires counted { 1 ≤ comp }
    requires within { comp ≤ O.components order.now }
    requires terms { IsTerms F.ring terms.now }
    ensures same { IfOk result (λ r. poly_of F.ring r.items ≡ poly_of F.ring terms.now) }
    ensures answer { IfOk result (λ r. IsFalling F.ring (O.order order.now) comp r.items) }
{
    let _width = order.width();
    let basis = InComponent { order, comp };
    if terms.len() <= 1 || hp_sums::is_sum(&basis, terms) {
        let few = Vec::from_slice(alloc, terms)?;
        return Ok(few);
    }
    let (front, back) = terms.split_at(terms.len() / 2);
    let left = sorted(alloc, order, comp, front)?;
    let right = sorted(alloc, order, comp, back)?;
    let sum = merged(alloc, order, comp, left.as_slice(), right.as_slice())?;
    Ok(sum)
}
