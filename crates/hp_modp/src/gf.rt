//! The field of the residues modulo a prime.

ghost use Rattle.std.specs.Prelude.{◌≡◌, ◌≢◌, ◌↔◌, ℕ, ◌+◌, ◌≤◌, ◌<◌, IfOk, IsOk, IsTrue, IfSome, IsNone, refl};
ghost use Rattle.hp_modp.specs.Residues.{residue_ring, inverse_mod, residue_numbers};
ghost use Rattle.hp_modp.specs.ResidueLaws.{residues-IsRing, residues-IsWeighted, residues-IsWeightless, residues-IsCommutative, residues-IsDomain, residues-IsField, residues-IsNumbering};

use crate::modulus::Modulus;
use hp_algebra::{CommRing, Domain, Field, FiniteField, NoMem, Ring};
use std::alloc::{AllocError, Global};
use std::marker::{Model, PhantomData};

/// A residue modulo the prime of the marker.
pub struct Gf<M: Modulus> {
    residue: u32,
    modulus: PhantomData<M>,
}

impl<M: Modulus> Model for Gf<M> {
    ghost Value = { ℕ };

    ghost view = { λ a. a.residue };

    ghost invariant = { λ a. a.residue < M.P };

    ghost inverse = { λ n. record { residue = n; modulus = record {} } };
}

impl<M: Modulus> Clone for Gf<M> {
    fn clone(&self) -> Result<Self, AllocError>
        ensures value { IfOk result (λ r. r ≡ self.now) }
        ensures always { IsOk result }
    {
        Ok(Gf {
            residue: self.residue,
            modulus: PhantomData,
        })
    }
}

impl<M: Modulus> Copy for Gf<M> {}

impl<M: Modulus> Gf<M> {
    /// The residue r.
    pub fn new(r: u32) -> Self
        requires { r < M.P }
        ensures { result ≡ r }
    {
        Gf {
            residue: r,
            modulus: PhantomData,
        }
    }

    /// Its number below the prime.
    pub fn residue(self) -> u32
        ensures below { result < M.P }
        ensures value { result ≡ self }
    {
        self.residue
    }
}

impl<M: Modulus> Ring for Gf<M> {
    ghost ring = { residue_ring M.P };

    ghost MOST = { 0 };

    const MOST: u32 = 0;

    fn zero(alloc: Global) -> Result<Self, NoMem>
        ensures value { IfOk result (λ r. r ≡ (residue_ring M.P).zero) }
        ensures answer { IfOk result (residue_ring M.P).IsValue }
        ensures always { IsOk result }
    {
        Ok(Gf::new(0))
    }

    fn one(alloc: Global) -> Result<Self, NoMem>
        ensures value { IfOk result (λ r. r ≡ (residue_ring M.P).one) }
        ensures answer { IfOk result (residue_ring M.P).IsValue }
        ensures always { IsOk result }
    {
        Ok(Gf::new(1))
    }

    fn add(&self, alloc: Global, other: &Self) -> Result<Self, NoMem>
        ensures left { (residue_ring M.P).IsValue self.now }
        ensures right { (residue_ring M.P).IsValue other.now }
        ensures value { IfOk result (λ r. r ≡ (residue_ring M.P).add self.now other.now) }
        ensures answer { IfOk result (residue_ring M.P).IsValue }
        ensures always { IsOk result }
    {
        Ok(self.plus(*other))
    }

    fn neg(&self, alloc: Global) -> Result<Self, NoMem>
        ensures of { (residue_ring M.P).IsValue self.now }
        ensures value { IfOk result (λ r. r ≡ (residue_ring M.P).neg self.now) }
        ensures answer { IfOk result (residue_ring M.P).IsValue }
        ensures always { IsOk result }
    {
        Ok(self.negate())
    }

    fn mul(&self, alloc: Global, other: &Self) -> Result<Self, NoMem>
        requires { (residue_ring M.P).weight self.now + (residue_ring M.P).weight other.now ≤ 0 }
        ensures left { (residue_ring M.P).IsValue self.now }
        ensures right { (residue_ring M.P).IsValue other.now }
        ensures value { IfOk result (λ r. r ≡ (residue_ring M.P).mul self.now other.now) }
        ensures answer { IfOk result (residue_ring M.P).IsValue }
        ensures always { IsOk result }
    {
        Ok(self.times(*other))
    }

    fn is_zero(&self) -> bool {
        self.residue == 0
    }

    fn equal(&self, other: &Self) -> bool {
        self.residue == other.residue
    }

    fn weight(&self) -> u32 {
        let _residue = self.residue;
        0
    }

    ghost ring_laws = { residues-IsRing M.P M.prime.above_one };

    ghost weights = { residues-IsWeighted M.P M.prime.above_one };
}

impl<M: Modulus> CommRing for Gf<M> {
    ghost commutes = { residues-IsCommutative M.P M.prime.above_one };
}

impl<M: Modulus> Domain for Gf<M> {
    ghost domain_laws = { residues-IsDomain M.prime };
}

impl<M: Modulus> Field for Gf<M> {
    ghost inverse = { inverse_mod M.P };

    fn nil() -> Self {
        Gf::new(0)
    }

    fn unit() -> Self {
        Gf::new(1)
    }

    fn plus(self, other: Self) -> Self {
        let p = M::P;
        let sum = self.residue + other.residue;
        if sum < p {
            return Gf::new(sum);
        }
        Gf::new(sum - p)
    }

    fn minus(self, other: Self) -> Self {
        self.plus(other.negate())
    }

    fn negate(self) -> Self {
        if self.is_nil() {
            return self;
        }
        Gf::new(M::P - self.residue)
    }

    fn times(self, other: Self) -> Self {
        Gf::new(((self.residue as u64 * other.residue as u64) % M::P as u64) as u32)
    }

    fn inv(self) -> Option<Self> {
        if self.residue == 0 {
            return None;
        }
        let p = M::P;
        let mut rest = self.residue;
        let mut factor = 1;
        while rest > 1 {
            let by = p - p / rest;
            factor = ((factor as u64 * by as u64) % p as u64) as u32;
            rest = p % rest;
        }
        Some(Gf::new(factor))
    }

    fn is_nil(self) -> bool {
        self.residue == 0
    }

    ghost field_laws = { residues-IsField M.prime };

    ghost weightless = { residues-IsWeightless M.P M.prime.above_one };
}

impl<M: Modulus> FiniteField for Gf<M> {
    ghost numbers = { residue_numbers M.P };

    ghost ORDER = { M.P };

    const ORDER: u32 = M::P;

    fn nth(k: u32) -> Self {
        Gf::new(k)
    }

    fn place(self) -> u32 {
        self.residue
    }

    fn from_i64(v: i64) -> Self {
        let size = Gf::new((v.unsigned_abs() % M::P as u64) as u32);
        if v < 0 { size.negate() } else { size }
    }

    ghost order = { refl };

    ghost numbering = { residues-IsNumbering M.P M.prime.above_one };
}
