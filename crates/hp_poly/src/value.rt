//! Values of polynomials at points.

ghost use Rattle.std.specs.Prelude.{◌≡◌, ◌≤◌, drop, length};
ghost use Rattle.hp_algebra.specs.Ring.{power};
ghost use Rattle.hp_mono.specs.Monomials.{vars};
ghost use Rattle.hp_poly.specs.Polynomials.{monomial_value, poly_value};

use hp_algebra::Field;
use hp_mono::{Mono, VARS};

/// x multiplied n times.
fn power<F: Field>(x: F, n: u16) -> F
    ensures { result ≡ power F.ring x n }
{
    let mut value = F::unit();
    for _ in 0..n {
        value = x.times(value);
    }
    value
}

/// The value of a monomial. A variable that has no coordinate counts for 1.
fn monomial_value<F: Field>(point: &[F], m: &Mono) -> F
    ensures { result ≡ monomial_value F.ring point.now m.now }
{
    let _degree = m.degree();
    let mut value = F::unit();
    for k in (0..point.len().min(VARS)).rev() {
        value = power(point[k], m.exp(k as u32 + 1)).times(value);
    }
    value
}

/// The value of a sum of terms. A variable that has no coordinate counts for 1.
pub(crate) fn terms_value<F: Field>(point: &[F], terms: &[(Mono, F)]) -> F
    ensures value { result ≡ poly_value F.ring point.now terms.now }
    ensures answer { F.ring.IsValue result }
{
    let mut value = F::nil();
    for k in (0..terms.len()).rev() {
        let (m, c) = terms[k];
        value = c.times(monomial_value(point, &m)).plus(value);
    }
    value
}
