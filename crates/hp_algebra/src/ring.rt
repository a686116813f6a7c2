//! Rings, commutative rings and domains.

ghost use Rattle.std.specs.Prelude.{◌≡◌, ◌↔◌, ℕ, ◌+◌, ◌≤◌, IfOk, IsTrue};
ghost use Rattle.hp_algebra.specs.Ring.{RingOf, IsRing, IsWeighted, IsCommutative, IsDomain};

use crate::memory::NoMem;
use std::alloc::Global;

/// A ring with one, whose product need not commute.
///
/// Each call promises that what it was lent and what it answers are values of the ring, so that generic code learns
/// this of a value in hand.
pub trait Ring: Sized + Drop {
    /// The operations on plain data, and which data are values.
    ghost ring: { RingOf Self };

    ghost MOST: { ℕ };

    /// The greatest weight of a product.
    const MOST: u32;

    /// Zero.
    fn zero(alloc: Global) -> Result<Self, NoMem>
        ensures value { IfOk result (λ r. r ≡ ring.zero) }
        ensures answer { IfOk result ring.IsValue };

    /// One.
    fn one(alloc: Global) -> Result<Self, NoMem>
        ensures value { IfOk result (λ r. r ≡ ring.one) }
        ensures answer { IfOk result ring.IsValue };

    /// The sum.
    fn add(&self, alloc: Global, other: &Self) -> Result<Self, NoMem>
        ensures left { ring.IsValue self.now }
        ensures right { ring.IsValue other.now }
        ensures value { IfOk result (λ r. r ≡ ring.add self.now other.now) }
        ensures answer { IfOk result ring.IsValue };

    /// The negative.
    fn neg(&self, alloc: Global) -> Result<Self, NoMem>
        ensures of { ring.IsValue self.now }
        ensures value { IfOk result (λ r. r ≡ ring.neg self.now) }
        ensures answer { IfOk result ring.IsValue };

    /// The product, of values whose weights together are at most `MOST`.
    fn mul(&self, alloc: Global, other: &Self) -> Result<Self, NoMem>
        requires { ring.weight self.now + ring.weight other.now ≤ MOST }
        ensures left { ring.IsValue self.now }
        ensures right { ring.IsValue other.now }
        ensures value { IfOk result (λ r. r ≡ ring.mul self.now other.now) }
        ensures answer { IfOk result ring.IsValue };

    /// Whether the value is zero.
    fn is_zero(&self) -> bool
        ensures of { ring.IsValue self.now }
        ensures value { result ≡ ring.is_zero self.now };

    /// Whether the two values are equal.
    fn equal(&self, other: &Self) -> bool
        ensures left { ring.IsValue self.now }
        ensures right { ring.IsValue other.now }
        ensures value { IsTrue result ↔ (self.now ≡ other.now) };

    /// The weight, which a product adds up at most, as the degree of a polynomial does.
    fn weight(&self) -> u32
        ensures of { ring.IsValue self.now }
        ensures value { result ≡ ring.weight self.now };

    /// The laws of a ring.
    ghost ring_laws: { IsRing ring };

    /// The laws of the weight.
    ghost weights: { IsWeighted ring };
}

/// A ring whose product commutes.
pub trait CommRing: Ring {
    /// The product commutes.
    ghost commutes: { IsCommutative Self.ring };
}

/// A commutative ring in which 0 and 1 differ and a product is zero only where a factor is.
pub trait Domain: CommRing {
    /// There are no zero divisors.
    ghost domain_laws: { IsDomain Self.ring };
}
