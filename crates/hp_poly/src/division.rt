//! Division by a factor.

ghost use Rattle.std.specs.Prelude.{◌≡◌, ◌≢◌, [], IfOk, IfSome, IfNone};
ghost use Rattle.hp_algebra.specs.Ring.{power};
ghost use Rattle.hp_poly.specs.Factors.{IsFactor};
ghost use Rattle.hp_poly.specs.Polynomials.{IsPoly, poly_ring, poly_times};

use crate::poly::Poly;
use hp_algebra::{Field, NoMem};
use std::alloc::Global;

/// The quotient by a polynomial that isn't zero, and none where that is no factor.
///
/// Each step takes the first term of what is left, and takes away the multiple of the divisor that has this term. Where
/// the divisor is a factor, its first monomial divides that of each of its multiples.
pub(crate) fn divided<F: Field>(
    alloc: Global,
    p: &Poly<F>,
    by: &Poly<F>,
) -> Result<Option<Poly<F>>, NoMem>
    requires { by.now ≢ [] }
    ensures some { IfOk result (λ o. IfSome o (λ q. p.now ≡ poly_times F.ring by.now q)) }
    ensures none { IfOk result (λ o. IfNone o (¬ (IsFactor (poly_ring F.ring) by.now p.now))) }
    ensures answer { IfOk result (λ o. IfSome o (IsPoly F.ring)) }
{
    let lead = match by.terms().split_first() {
        None => return Ok(None),
        Some((lead, _tail)) => *lead,
    };
    let inverse = match lead.1.inv() {
        None => return Ok(None),
        Some(inverse) => inverse,
    };
    let _polynomial = p.terms();
    let mut terms = Vec::new(alloc);
    let mut rest = p.copy(alloc)?;
    while let Some((first, _others)) = rest.terms().split_first() {
        let m = match first.0.quotient(&lead.0) {
            None => return Ok(None),
            Some(m) => m,
        };
        let c = first.1.times(inverse);
        terms.push((m, c))?;
        rest = rest.minus_multiple(alloc, c, m, by)?;
    }
    let quotient = Poly::from_terms(alloc, terms)?;
    let _terms = quotient.terms();
    Ok(Some(quotient))
}

/// The quotient by a power of a polynomial that isn't zero, and none where that is no factor.
pub(crate) fn divided_by_power<F: Field>(
    alloc: Global,
    p: &Poly<F>,
    by: &Poly<F>,
    exponent: u32,
) -> Result<Option<Poly<F>>, NoMem>
    requires { by.now ≢ [] }
    ensures some { IfOk result (λ o. IfSome o (λ q. p.now ≡ poly_times F.ring (power (poly_ring F.ring) by.now exponent) q)) }
    ensures none { IfOk result (λ o. IfNone o (¬ (IsFactor (poly_ring F.ring) (power (poly_ring F.ring) by.now exponent) p.now))) }
{
    let _dividend = p.terms();
    let _divisor = by.terms();
    let mut quotient = p.copy(alloc)?;
    for _ in 0..exponent {
        let next = divided(alloc, &quotient, by)?;
        match next {
            None => return Ok(None),
            Some(next) => quotient = next,
        }
    }
    Ok(Some(quotient))
}
