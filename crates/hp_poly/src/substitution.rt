//! Substitution of polynomials for the variables.

ghost use Rattle.std.specs.Prelude.{◌≡◌, ◌≢◌, ℕ, ◌≤◌, ◌∷◌, [], All, IfOk, length, take};
ghost use Rattle.hp_algebra.specs.Ring.{power};
ghost use Rattle.hp_mono.specs.Monomials.{max_degree};
ghost use Rattle.hp_poly.specs.Polynomials.{IsPoly, poly_degree, poly_ring};
ghost use Rattle.hp_poly.specs.Substitutions.{image_of, substituted};

use crate::poly::Poly;
use crate::terms::{merged, merged_multiple};
use hp_algebra::{Field, NoMem, Ring};
use hp_mono::{Mono, VARS};
use std::alloc::Global;

/// A polynomial of degree at most 1 multiplied n times.
fn power_of<F: Field>(alloc: Global, x: &Poly<F>, n: u16) -> Result<Poly<F>, NoMem>
    requires linear { poly_degree F.ring x.now ≤ 1 }
    requires most { n ≤ max_degree }
    ensures value { IfOk result (λ r. r ≡ power (poly_ring F.ring) x.now n) }
    ensures degree { IfOk result (λ r. poly_degree F.ring r ≤ n) }
{
    let mut value = Poly::one(alloc)?;
    for _ in 0..n {
        value = x.mul(alloc, &value)?;
    }
    Ok(value)
}

/// The product of the powers of the polynomials that stand for the variables.
fn image_of<F: Field>(alloc: Global, xs: &[Poly<F>], m: &Mono) -> Result<Poly<F>, NoMem>
    requires { All (λ x. poly_degree F.ring x ≤ 1) xs.now }
    ensures value { IfOk result (λ r. r ≡ image_of F.ring xs.now m.now) }
    ensures degree { IfOk result (λ r. poly_degree F.ring r ≤ max_degree) }
{
    let _degree = m.degree();
    let mut value = Poly::one(alloc)?;
    for k in (0..xs.len().min(VARS)).rev() {
        let factor = power_of(alloc, &xs[k], m.exp(k as u32 + 1))?;
        value = factor.mul(alloc, &value)?;
    }
    Ok(value)
}

/// Looks at each polynomial, so that all are known to be polynomials.
fn look_at<F: Field>(xs: &[Poly<F>])
    ensures { All (IsPoly F.ring) xs.now }
{
    for k in 0..xs.len() {
        let _terms = xs[k].terms();
    }
}

/// A term with the polynomials in place of the variables: c times the product of the powers.
fn image_of_term<F: Field>(
    alloc: Global,
    xs: &[Poly<F>],
    m: &Mono,
    c: F,
) -> Result<Vec<(Mono, F)>, NoMem>
    requires linear { All (λ x. poly_degree F.ring x ≤ 1) xs.now }
    requires nonzero { c ≢ F.ring.zero }
    ensures value { IfOk result (λ r. r.items ≡ substituted F.ring xs.now ((m.now, c) ∷ [])) }
    ensures answer { IfOk result (λ r. IsPoly F.ring r.items) }
{
    look_at(xs);
    let _zero = c.is_nil();
    let none = Vec::new(alloc);
    let image = image_of(alloc, xs, m)?;
    let terms = merged_multiple(alloc, none.as_slice(), c, Mono::one(), image.terms())?;
    Ok(terms)
}

/// The terms of the polynomial with the polynomials of the list, of degrees of at most 1, in place of x_1, x_2, ..: the
/// sum of the two halves.
///
/// Errors: `NoMem` where memory is out.
pub(crate) fn substituted_terms<F: Field>(
    alloc: Global,
    p: &[(Mono, F)],
    xs: &[Poly<F>],
) -> Result<Vec<(Mono, F)>, NoMem>
    requires linear { All (λ x. poly_degree F.ring x ≤ 1) xs.now }
    requires terms { All (λ t. F.ring.IsValue t.1 × (t.1 ≢ F.ring.zero)) p.now }
    ensures polys { All (IsPoly F.ring) xs.now }
    ensures value { IfOk result (λ r. r.items ≡ substituted F.ring xs.now p.now) }
    ensures answer { IfOk result (λ r. IsPoly F.ring r.items) }
{
    look_at(xs);
    if p.len() == 0 {
        return Ok(Vec::new(alloc));
    }
    if p.len() == 1 {
        let out = image_of_term(alloc, xs, &p[0].0, p[0].1)?;
        return Ok(out);
    }
    let (front, back) = p.split_at(p.len() / 2);
    let left = substituted_terms(alloc, front, xs)?;
    let right = substituted_terms(alloc, back, xs)?;
    let sum = merged(alloc, left.as_slice(), right.as_slice())?;
    Ok(sum)
}
