//! Polynomials over a field.

ghost use Rattle.std.specs.Prelude.{◌≡◌, ◌≢◌, ◌↔◌, ℕ, ◌+◌, ◌≤◌, [], All, length, slice_get, IfOk, IfSome, IfNone, IsNone, IsTrue};
ghost use Rattle.hp_mono.specs.Monomials.{degree, max_degree, vars};
ghost use Rattle.hp_poly.specs.Polynomials.{IsPoly, IsHomogeneous, coefficient_of, form_power, linear_form, poly_of, poly_plus, poly_times, poly_neg, poly_degree, poly_ring, poly_value, term_poly};
ghost use Rattle.hp_poly.specs.Factors.{IsFactor};
ghost use Rattle.hp_poly.specs.PolyRing.{poly_is_ring, poly_commutes};
ghost use Rattle.hp_poly.specs.PolyDomain.{poly_is_domain};
ghost use Rattle.hp_poly.specs.Degrees.{poly_weights};
ghost use Rattle.hp_poly.specs.Substitutions.{substituted};

use crate::division::divided_by_power;
use crate::order::FromGreatest;
use crate::substitution::substituted_terms;
use crate::terms::{
    coefficient, collected, have_degree, merged, merged_multiple, multiplied, terms_of_form,
};
use crate::value::terms_value;
use hp_algebra::{CommRing, Domain, Field, NoMem, Ring};
use hp_mono::{MAX_DEGREE, Mono};
use hp_sums::{is_sum, negated, same_terms};
use std::alloc::Global;
use std::marker::Model;

/// A polynomial of degree at most `MAX_DEGREE`, seen as the list of its terms, the greatest monomial in grevlex first.
#[derive(Drop)]
pub struct Poly<F: Field> {
    terms: Vec<(Mono, F)>,
}

impl<F: Field> Model for Poly<F> {
    ghost use Rattle.hp_poly.specs.Polynomials.{Poly as PolyOf, IsPoly};

    ghost Value = { PolyOf F };

    ghost view = { λ p. p.terms.items };

    ghost invariant = { λ p. IsPoly F.ring p.terms.items };
}

impl<F: Field> Poly<F> {
    /// The sum of these terms, in any order: equal monomials are added, and zeros left out.
    ///
    /// Errors: `NoMem` where memory is out.
    pub fn from_terms(alloc: Global, terms: Vec<(Mono, F)>) -> Result<Poly<F>, NoMem>
        ensures { IfOk result (λ r. r ≡ poly_of F.ring terms.items) }
    {
        if is_sum(&FromGreatest, terms.as_slice()) {
            return Ok(Poly { terms });
        }
        Ok(Poly {
            terms: collected(alloc, terms.as_slice())?,
        })
    }

    /// The form c_1 x_1 + .. + c_l x_l with these coefficients, at most `VARS`.
    ///
    /// Errors: `NoMem` where memory is out.
    pub fn linear(alloc: Global, form: &[F]) -> Result<Poly<F>, NoMem>
        requires { length form.now ≤ vars }
        ensures { IfOk result (λ r. r ≡ linear_form F.ring form.now) }
    {
        let terms = terms_of_form(alloc, form)?;
        Poly::from_terms(alloc, terms)
    }

    /// A second one.
    ///
    /// Errors: `NoMem` where memory is out.
    pub fn copy(&self, alloc: Global) -> Result<Poly<F>, NoMem>
        ensures { IfOk result (λ r. r ≡ self.now) }
    {
        Ok(Poly {
            terms: Vec::from_slice(alloc, self.terms.as_slice())?,
        })
    }

    /// The terms, the greatest monomial first.
    pub fn terms(&self) -> &[(Mono, F)]
        ensures value { result.now ≡ self.now }
        ensures of { IsPoly F.ring self.now }
    {
        self.terms.as_slice()
    }

    /// The coefficient of a monomial, which is zero where there is no such term.
    pub fn coeff(&self, m: &Mono) -> F
        ensures { result ≡ coefficient_of F.ring self.now m.now }
    {
        coefficient(self.terms.as_slice(), m)
    }

    /// How many terms there are.
    pub fn len(&self) -> usize
        ensures { result ≡ length self.now }
    {
        self.terms.len()
    }

    /// The term that has `k` greater ones, and none where there are at most `k` terms.
    pub fn term(&self, k: usize) -> Option<(Mono, F)>
        ensures { result ≡ slice_get self.now k }
    {
        self.terms.get(k).copied()
    }

    /// The degree, and none exactly of zero.
    pub fn degree(&self) -> Option<u32>
        ensures none { IsNone result ↔ (self.now ≡ []) }
        ensures some { IfSome result (λ d. d ≡ poly_degree F.ring self.now) }
        ensures most { poly_degree F.ring self.now ≤ max_degree }
    {
        match self.terms.split_first() {
            None => None,
            Some((t, _others)) => Some(t.0.degree()),
        }
    }

    /// Whether all monomials have one degree, as they have in zero.
    pub fn is_homogeneous(&self) -> bool
        ensures { IsTrue result ↔ ((d : ℕ) × IsHomogeneous F.ring d self.now) }
    {
        match self.terms.split_first() {
            None => true,
            Some((t, others)) => have_degree(others, t.0.degree()),
        }
    }

    /// The value at a point. A variable that has no coordinate counts for 1.
    pub fn eval(&self, point: &[F]) -> F
        ensures value { result ≡ poly_value F.ring point.now self.now }
        ensures answer { F.ring.IsValue result }
    {
        terms_value(point, self.terms.as_slice())
    }

    /// The polynomial with the polynomials of the list, of degrees of at most 1, in place of x_1, x_2, ..
    ///
    /// Errors: `NoMem` where memory is out.
    pub fn substituted(&self, alloc: Global, xs: &[Poly<F>]) -> Result<Poly<F>, NoMem>
        requires { All (λ x. poly_degree F.ring x ≤ 1) xs.now }
        ensures { IfOk result (λ r. r ≡ substituted F.ring xs.now self.now) }
    {
        let terms = substituted_terms(alloc, self.terms(), xs)?;
        Ok(Poly { terms })
    }

    /// The quotient by a power of a form with at most `VARS` coefficients, and none where that is no factor. Where the
    /// form is zero and the power is a factor, the answer is this polynomial.
    ///
    /// Errors: `NoMem` where memory is out.
    pub fn div_by_form(
        &self,
        alloc: Global,
        form: &[F],
        power: u32,
    ) -> Result<Option<Poly<F>>, NoMem>
        requires { length form.now ≤ vars }
        ensures some { IfOk result (λ o. IfSome o (λ q. self.now ≡ poly_times F.ring (form_power F.ring form.now power) q)) }
        ensures none { IfOk result (λ o. IfNone o (¬ (IsFactor (poly_ring F.ring) (form_power F.ring form.now power) self.now))) }
    {
        let _dividend = self.terms();
        let by = Poly::linear(alloc, form)?;
        if !by.is_zero() {
            let quotient = divided_by_power(alloc, self, &by, power)?;
            return Ok(quotient);
        }
        if power > 0 && !self.is_zero() {
            return Ok(None);
        }
        let quotient = self.copy(alloc)?;
        Ok(Some(quotient))
    }

    /// This polynomial and c m times the other, by one merge. The degree of the product is at most `MAX_DEGREE`.
    ///
    /// Errors: `NoMem` where memory is out.
    pub fn plus_multiple(
        &self,
        alloc: Global,
        c: F,
        m: Mono,
        other: &Poly<F>,
    ) -> Result<Poly<F>, NoMem>
        requires nonzero { c ≢ F.ring.zero }
        requires degrees { degree m + poly_degree F.ring other.now ≤ max_degree }
        ensures { IfOk result (λ r. r ≡ poly_plus F.ring self.now (poly_times F.ring (term_poly F.ring c m) other.now)) }
    {
        Ok(Poly {
            terms: merged_multiple(alloc, self.terms.as_slice(), c, m, other.terms.as_slice())?,
        })
    }

    /// This polynomial less c m times the other, by one merge. The degree of the product is at most `MAX_DEGREE`.
    ///
    /// Errors: `NoMem` where memory is out.
    pub fn minus_multiple(
        &self,
        alloc: Global,
        c: F,
        m: Mono,
        other: &Poly<F>,
    ) -> Result<Poly<F>, NoMem>
        requires nonzero { c ≢ F.ring.zero }
        requires degrees { degree m + poly_degree F.ring other.now ≤ max_degree }
        ensures { IfOk result (λ r. r ≡ poly_plus F.ring self.now (poly_neg F.ring (poly_times F.ring (term_poly F.ring c m) other.now))) }
    {
        let _degree = m.degree();
        let turned = c.negate();
        Ok(Poly {
            terms: merged_multiple(
                alloc,
                self.terms.as_slice(),
                turned,
                m,
                other.terms.as_slice(),
            )?,
        })
    }
}

impl<F: Field> Ring for Poly<F> {
    ghost ring = { poly_ring F.ring };

    ghost MOST = { max_degree };

    const MOST: u32 = MAX_DEGREE;

    fn zero(alloc: Global) -> Result<Self, NoMem> {
        Ok(Poly {
            terms: Vec::new(alloc),
        })
    }

    fn one(alloc: Global) -> Result<Self, NoMem> {
        let mut terms = Vec::new(alloc);
        terms.push((Mono::one(), F::unit()))?;
        Ok(Poly { terms })
    }

    fn add(&self, alloc: Global, other: &Self) -> Result<Self, NoMem> {
        Ok(Poly {
            terms: merged(alloc, self.terms.as_slice(), other.terms.as_slice())?,
        })
    }

    fn neg(&self, alloc: Global) -> Result<Self, NoMem> {
        Ok(Poly {
            terms: negated(alloc, self.terms.as_slice())?,
        })
    }

    fn mul(&self, alloc: Global, other: &Self) -> Result<Self, NoMem> {
        Ok(Poly {
            terms: multiplied(alloc, self.terms.as_slice(), other.terms.as_slice())?,
        })
    }

    fn is_zero(&self) -> bool {
        self.terms.is_empty()
    }

    fn equal(&self, other: &Self) -> bool {
        same_terms(&FromGreatest, self.terms.as_slice(), other.terms.as_slice())
    }

    fn weight(&self) -> u32 {
        match self.terms.split_first() {
            None => 0,
            Some((t, _others)) => t.0.degree(),
        }
    }

    ghost ring_laws = { poly_is_ring F.ring_laws F.commutes };

    ghost weights = { poly_weights F.ring_laws F.commutes };
}

impl<F: Field> CommRing for Poly<F> {
    ghost commutes = { poly_commutes F.ring_laws F.commutes };
}

impl<F: Field> Domain for Poly<F> {
    ghost domain_laws = { poly_is_domain F.ring_laws F.commutes F.domain_laws };
}
