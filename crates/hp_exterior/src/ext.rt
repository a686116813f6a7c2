//! Elements of the exterior algebra.

ghost use Rattle.std.specs.Prelude.{◌≡◌, ℕ, ◌≤◌, [], length, slice_get, IfOk};
ghost use Rattle.hp_exterior.specs.Exterior.{HasProductRule, IsExt, boundary, ext_coefficient, ext_of, ext_ring, generator};
ghost use Rattle.hp_exterior.specs.ExteriorRing.{ext_is_ring, ext_weights};

use crate::order::AsListed;
use crate::products::{boundary_of, multiplied};
use crate::terms::{coefficient, collected, merged};
use hp_algebra::{Field, NoMem, Ring};
use hp_sets::HSet;
use hp_sums::{negated, same_terms};
use std::alloc::Global;
use std::marker::Model;

/// An element of the exterior algebra on generators e_1 to e_64, seen as the list of its terms, each a set with its
/// coefficient, in the order in which sets are listed.
#[derive(Drop)]
pub struct Ext<F: Field> {
    terms: Vec<(HSet, F)>,
}

impl<F: Field> Model for Ext<F> {
    ghost use Rattle.hp_exterior.specs.Exterior.{Ext as ExtOf, IsExt};

    ghost Value = { ExtOf F };

    ghost view = { λ x. x.terms.items };

    ghost invariant = { λ x. IsExt F.ring x.terms.items };
}

impl<F: Field> Ext<F> {
    /// The sum of these terms, in any order: equal sets are added, and zeros left out.
    ///
    /// Errors: `NoMem` where memory is out.
    pub fn from_terms(alloc: Global, terms: Vec<(HSet, F)>) -> Result<Ext<F>, NoMem>
        ensures { IfOk result (λ r. r ≡ ext_of F.ring terms.items) }
    {
        Ok(Ext {
            terms: collected(alloc, terms.as_slice())?,
        })
    }

    /// The generator e_i, with i from 1 to 64.
    ///
    /// Errors: `NoMem` where memory is out.
    pub fn generator(alloc: Global, i: u32) -> Result<Ext<F>, NoMem>
        requires low { 1 ≤ i }
        requires high { i ≤ 64 }
        ensures { IfOk result (λ r. r ≡ generator F.ring i) }
    {
        let mut terms = Vec::new(alloc);
        terms.push((HSet::single(i), F::unit()))?;
        Ok(Ext { terms })
    }

    /// A second one.
    ///
    /// Errors: `NoMem` where memory is out.
    pub fn copy(&self, alloc: Global) -> Result<Ext<F>, NoMem>
        ensures { IfOk result (λ r. r ≡ self.now) }
    {
        Ok(Ext {
            terms: Vec::from_slice(alloc, self.terms.as_slice())?,
        })
    }

    /// The terms, in the order in which sets are listed.
    pub fn terms(&self) -> &[(HSet, F)]
        ensures value { result.now ≡ self.now }
        ensures of { IsExt F.ring self.now }
    {
        self.terms.as_slice()
    }

    /// The coefficient of e_S, which is zero where there is no such term.
    pub fn coeff(&self, s: HSet) -> F
        ensures { result ≡ ext_coefficient F.ring self.now s }
    {
        coefficient(self.terms.as_slice(), s)
    }

    /// How many terms there are.
    pub fn len(&self) -> usize
        ensures { result ≡ length self.now }
    {
        self.terms.len()
    }

    /// The term that stands after `k` others, and none where there are at most `k` terms.
    pub fn term(&self, k: usize) -> Option<(HSet, F)>
        ensures { result ≡ slice_get self.now k }
    {
        self.terms.get(k).copied()
    }

    /// The boundary: the linear map that sends e_S, with members s_1 < .. < s_k, to the sum over j of (-1)^(j-1) times
    /// e of S without s_j. Its own boundary is zero, and it is a derivation.
    ///
    /// Errors: `NoMem` where memory is out.
    pub fn boundary(&self, alloc: Global) -> Result<Ext<F>, NoMem>
        ensures value { IfOk result (λ r. r ≡ boundary F.ring self.now) }
        ensures twice { IfOk result (λ r. boundary F.ring r ≡ []) }
        ensures rule { HasProductRule F.ring self.now }
    {
        Ok(Ext {
            terms: boundary_of(alloc, self.terms.as_slice())?,
        })
    }
}

/// The ring of the exterior algebra. Its product is the wedge product, and the weight of every element is 0.
impl<F: Field> Ring for Ext<F> {
    ghost ring = { ext_ring F.ring };

    ghost MOST = { 0 };

    const MOST: u32 = 0;

    fn zero(alloc: Global) -> Result<Self, NoMem> {
        Ok(Ext {
            terms: Vec::new(alloc),
        })
    }

    fn one(alloc: Global) -> Result<Self, NoMem> {
        let mut terms = Vec::new(alloc);
        terms.push((HSet::empty(), F::unit()))?;
        Ok(Ext { terms })
    }

    fn add(&self, alloc: Global, other: &Self) -> Result<Self, NoMem> {
        Ok(Ext {
            terms: merged(alloc, self.terms.as_slice(), other.terms.as_slice())?,
        })
    }

    fn neg(&self, alloc: Global) -> Result<Self, NoMem> {
        Ok(Ext {
            terms: negated(alloc, self.terms.as_slice())?,
        })
    }

    fn mul(&self, alloc: Global, other: &Self) -> Result<Self, NoMem> {
        Ok(Ext {
            terms: multiplied(alloc, self.terms.as_slice(), other.terms.as_slice())?,
        })
    }

    fn is_zero(&self) -> bool {
        self.terms.is_empty()
    }

    fn equal(&self, other: &Self) -> bool {
        same_terms(&AsListed, self.terms.as_slice(), other.terms.as_slice())
    }

    fn weight(&self) -> u32 {
        let _terms = self.terms();
        0
    }

    ghost ring_laws = { ext_is_ring F.ring_laws F.commutes };

    ghost weights = { ext_weights F.ring_laws F.commutes };
}
