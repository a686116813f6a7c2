//! One step of a sum of products.

ghost use Rattle.std.specs.Prelude.{◌≡◌, ◌+◌, ◌≤◌, IfOk};

use hp_algebra::{NoMem, Ring};
use std::alloc::Global;

/// The product of `c` and `x`, plus the sum. Nothing is computed where a factor is zero.
///
/// Errors: `NoMem` where memory is out.
pub(crate) fn plus_product<R: Ring>(alloc: Global, sum: R, c: &R, x: &R) -> Result<R, NoMem>
    requires sum { R.ring.IsValue sum }
    requires weights { R.ring.weight c.now + R.ring.weight x.now ≤ R.MOST }
    ensures left { R.ring.IsValue c.now }
    ensures right { R.ring.IsValue x.now }
    ensures value { IfOk result (λ r. r ≡ R.ring.add (R.ring.mul c.now x.now) sum) }
    ensures answer { IfOk result R.ring.IsValue }
{
    let c_is_zero = c.is_zero();
    let x_is_zero = x.is_zero();
    if c_is_zero || x_is_zero {
        return Ok(sum);
    }
    c.mul(alloc, x)?.add(alloc, &sum)
}
