//! The order of the monomials of a polynomial.

ghost use Rattle.hp_mono.specs.Monomials.{IsMonomial, product};
ghost use Rattle.hp_poly.specs.Polynomials.{from_greatest};
ghost use Rattle.hp_poly.specs.PolySetting.{HaveProduct, from_greatest_basis, from_greatest_keeps};

use hp_mono::Mono;
use hp_sums::{Basis, OrderedProducts};
use std::cmp::Ordering;

/// Monomials, the greatest in grevlex first.
#[derive(Clone, Copy)]
pub(crate) struct FromGreatest;

impl Basis<Mono> for FromGreatest {
    ghost IsValue = { λ _. Unit {0} };

    ghost IsKey = { IsMonomial };

    ghost order = { λ _. from_greatest };

    fn key(&self, k: &Mono) {
        let _degree = k.degree();
    }

    fn cmp(&self, a: &Mono, b: &Mono) -> Ordering {
        b.grevlex(a)
    }

    fn same(&self, a: &Mono, b: &Mono) -> bool {
        a == b
    }

    ghost ordered = { λ b v. from_greatest_basis };
}

impl OrderedProducts<Mono> for FromGreatest {
    ghost Fits = { HaveProduct };

    ghost product = { product };

    fn product(&self, m: &Mono, k: &Mono) -> Mono {
        m.product(k)
    }

    ghost keeps = { λ b v m. from_greatest_keeps m };
}
