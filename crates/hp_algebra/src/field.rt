//! Fields, and finite fields with their elements numbered.

ghost use Rattle.std.specs.Prelude.{◌≡◌, ◌↔◌, ℕ, ◌<◌, IfSome, IsNone, pos};
ghost use Rattle.hp_algebra.specs.Ring.{IsField, IsWeightless, Numbering, IsNumbering, integer};

use crate::ring::Domain;

/// A field whose values are plain copies. No call takes memory, and the weight of every value is 0.
pub trait Field: Domain + Copy {
    /// The inverse of every value but zero.
    ghost inverse: { Self → Self };

    /// Zero.
    fn nil() -> Self
        ensures value { result ≡ Self.ring.zero }
        ensures answer { Self.ring.IsValue result };

    /// One.
    fn unit() -> Self
        ensures value { result ≡ Self.ring.one }
        ensures answer { Self.ring.IsValue result };

    /// The sum.
    fn plus(self, other: Self) -> Self
        ensures left { Self.ring.IsValue self }
        ensures right { Self.ring.IsValue other }
        ensures value { result ≡ Self.ring.add self other }
        ensures answer { Self.ring.IsValue result };

    /// The difference.
    fn minus(self, other: Self) -> Self
        ensures left { Self.ring.IsValue self }
        ensures right { Self.ring.IsValue other }
        ensures value { result ≡ Self.ring.add self (Self.ring.neg other) }
        ensures answer { Self.ring.IsValue result };

    /// The negative.
    fn negate(self) -> Self
        ensures of { Self.ring.IsValue self }
        ensures value { result ≡ Self.ring.neg self }
        ensures answer { Self.ring.IsValue result };

    /// The product.
    fn times(self, other: Self) -> Self
        ensures left { Self.ring.IsValue self }
        ensures right { Self.ring.IsValue other }
        ensures value { result ≡ Self.ring.mul self other }
        ensures answer { Self.ring.IsValue result };

    /// The inverse, and none exactly of zero.
    fn inv(self) -> Option<Self>
        ensures of { Self.ring.IsValue self }
        ensures none { IsNone result ↔ (self ≡ Self.ring.zero) }
        ensures some { IfSome result (λ r. r ≡ inverse self) }
        ensures answer { IfSome result Self.ring.IsValue };

    /// Whether the value is zero.
    fn is_nil(self) -> bool
        ensures of { Self.ring.IsValue self }
        ensures value { result ≡ Self.ring.is_zero self };

    /// The laws of a field.
    ghost field_laws: { IsField Self.ring inverse };

    /// The weight of every value is 0.
    ghost weightless: { IsWeightless Self.ring };
}

/// A field of finitely many elements, which are the multiples of one, numbered from 0.
pub trait FiniteField: Field {
    /// The order of the field, the element of each number, and the number of each element.
    ghost numbers: { Numbering Self };

    ghost ORDER: { ℕ };

    /// How many elements the field has.
    const ORDER: u32;

    /// Element `k`, which is `k` times one.
    fn nth(k: u32) -> Self
        requires { k < ORDER }
        ensures value { result ≡ numbers.nth k }
        ensures answer { Self.ring.IsValue result };

    /// The number of the element, from 0 to `ORDER - 1`.
    fn place(self) -> u32
        ensures of { Self.ring.IsValue self }
        ensures value { result ≡ numbers.place self };

    /// `v` times one. For `v` from 0 to `ORDER - 1` it is element `v`.
    fn from_i64(v: i64) -> Self
        ensures multiple { result ≡ integer Self.ring v }
        ensures element { (k : ℕ) → v ≡ pos k → k < ORDER → result ≡ numbers.nth k }
        ensures answer { Self.ring.IsValue result };

    /// There are `ORDER` elements.
    ghost order: { numbers.order ≡ ORDER };

    /// The elements are numbered by the multiples of one.
    ghost numbering: { IsNumbering Self.ring numbers };
}
