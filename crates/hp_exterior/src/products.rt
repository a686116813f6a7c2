//! The terms of wedge products and of boundaries.

ghost use Rattle.std.specs.Prelude.{◌≡◌, ◌++◌, IfOk};
ghost use Rattle.hp_exterior.specs.Exterior.{IsExt, boundary, boundary_terms, inversions, sign, wedge, wedge_terms};

use crate::terms::collected;
use hp_algebra::{Field, NoMem};
use hp_sets::HSet;
use std::alloc::Global;

/// In how many pairs the member of the second set is smaller than that of the first.
pub(crate) fn crossings(s: HSet, t: HSet) -> u32
    ensures { result ≡ inversions (s ++ t) }
{
    let _first = s.is_empty();
    let _second = t.is_empty();
    let mut count = 0;
    let mut rest = s;
    while let Some(i) = rest.least() {
        count += t.meet(HSet::first(i - 1)).len();
        rest = rest.without(i);
    }
    count
}

/// c times (-1)^n.
#[tactic(auto, using(crate::proofs::ProductSteps::signed_even, crate::proofs::ProductSteps::signed_odd))]
pub(crate) fn signed<F: Field>(c: F, n: u32) -> F
    ensures value { result ≡ F.ring.mul c (sign F.ring n) }
    ensures of { F.ring.IsValue c }
{
    let _zero = c.is_nil();
    if n % 2 == 0 { c } else { c.negate() }
}

/// Writes the terms of c e_S times an element.
pub(crate) fn append_products<F: Field>(
    out: &mut Vec<(HSet, F)>,
    s: HSet,
    c: F,
    terms: &[(HSet, F)],
) -> Result<(), NoMem>
    ensures { IfOk result (λ _. out.new.items ≡ out.old.items ++ wedge_terms F.ring s c terms.now) }
{
    let _members = s.is_empty();
    let mut rest = terms;
    while let Some((t, more)) = rest.split_first() {
        if s.meet(t.0).is_empty() {
            let turned = signed(c.times(t.1), crossings(s, t.0));
            out.push((s.union(t.0), turned))?;
        }
        rest = more;
    }
    Ok(())
}

/// The wedge product of two elements.
pub(crate) fn multiplied<F: Field>(
    alloc: Global,
    left: &[(HSet, F)],
    right: &[(HSet, F)],
) -> Result<Vec<(HSet, F)>, NoMem>
    ensures value { IfOk result (λ r. r.items ≡ wedge F.ring left.now right.now) }
    ensures answer { IfOk result (λ r. IsExt F.ring r.items) }
{
    let mut out = Vec::new(alloc);
    let mut rest = left;
    while let Some((t, more)) = rest.split_first() {
        append_products(&mut out, t.0, t.1, right)?;
        rest = more;
    }
    let product = collected(alloc, out.as_slice())?;
    Ok(product)
}

/// Writes the terms of c times the boundary of e_S.
pub(crate) fn append_boundary<F: Field>(
    out: &mut Vec<(HSet, F)>,
    s: HSet,
    c: F,
) -> Result<(), NoMem>
    ensures { IfOk result (λ _. out.new.items ≡ out.old.items ++ boundary_terms F.ring s c) }
{
    let _members = s.is_empty();
    let _zero = c.is_nil();
    let mut rest = s;
    let mut turned = c;
    while let Some(i) = rest.least() {
        out.push((s.without(i), turned))?;
        turned = turned.negate();
        rest = rest.without(i);
    }
    Ok(())
}

/// The boundary of an element.
pub(crate) fn boundary_of<F: Field>(
    alloc: Global,
    terms: &[(HSet, F)],
) -> Result<Vec<(HSet, F)>, NoMem>
    ensures value { IfOk result (λ r. r.items ≡ boundary F.ring terms.now) }
    ensures answer { IfOk result (λ r. IsExt F.ring r.items) }
{
    let mut out = Vec::new(alloc);
    let mut rest = terms;
    while let Some((t, more)) = rest.split_first() {
        append_boundary(&mut out, t.0, t.1)?;
        rest = more;
    }
    let sum = collected(alloc, out.as_slice())?;
    Ok(sum)
}
