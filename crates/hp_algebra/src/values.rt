//! What the laws give in every ring and every domain.

ghost use Rattle.std.specs.Prelude.{◌≡◌, ◌⊎◌, ◌↔◌, IsTrue, All};
ghost use Rattle.hp_algebra.specs.Ring.{greatest_weight_of};

use crate::ring::{Domain, Ring};

/// The greatest weight among these values, and 0 where there are none.
pub fn greatest_weight<R: Ring>(values: &[R]) -> u32
    ensures values { All R.ring.IsValue values.now }
    ensures greatest { result ≡ greatest_weight_of R.ring values.now }
{
    let mut greatest = 0;
    for k in (0..values.len()).rev() {
        greatest = values[k].weight().max(greatest);
    }
    greatest
}

/// Whether the product of the two values is zero. It is so exactly where a factor is, and no product is computed.
pub fn product_is_zero<D: Domain>(left: &D, right: &D) -> bool
    ensures factor { IsTrue result ↔ ((left.now ≡ D.ring.zero) ⊎ (right.now ≡ D.ring.zero)) }
    ensures product { IsTrue result ↔ (D.ring.mul left.now right.now ≡ D.ring.zero) }
{
    let left_is_zero = left.is_zero();
    let right_is_zero = right.is_zero();
    left_is_zero || right_is_zero
}
