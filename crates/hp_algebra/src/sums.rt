//! Sums of products.

ghost use Rattle.std.specs.Prelude.{◌≡◌, ℕ, ◌+◌, ◌≤◌, IfOk, OnOk, All, length, slice_get, Some};
ghost use Rattle.hp_algebra.specs.Ring.{dot_of};

use crate::field::Field;
use crate::memory::NoMem;
use crate::ring::Ring;
use std::alloc::Global;

/// The sum of the products at equal places of two lists of one length.
///
/// Errors: `NoMem` where memory is out.
pub fn dot<R: Ring>(alloc: Global, a: &[R], b: &[R]) -> Result<R, NoMem>
    requires lengths { length a.now ≡ length b.now }
    requires weights { (k : ℕ) (x y : R) → slice_get a.now k ≡ Some x → slice_get b.now k ≡ Some y → R.ring.weight x + R.ring.weight y ≤ R.MOST }
    ensures left { OnOk result (All R.ring.IsValue a.now) }
    ensures right { OnOk result (All R.ring.IsValue b.now) }
    ensures value { IfOk result (λ r. r ≡ dot_of R.ring a.now b.now) }
    ensures answer { IfOk result R.ring.IsValue }
{
    let mut sum = R::zero(alloc)?;
    for k in (0..a.len()).rev() {
        sum = a[k].mul(alloc, &b[k])?.add(alloc, &sum)?;
    }
    Ok(sum)
}

/// The value of a form at a point, which may have fewer coordinates than the form has coefficients: those left over
/// count for nothing.
pub fn form_value<F: Field>(form: &[F], point: &[F]) -> F
    requires { length point.now ≤ length form.now }
    ensures point { All F.ring.IsValue point.now }
    ensures value { result ≡ dot_of F.ring form.now point.now }
    ensures answer { F.ring.IsValue result }
{
    let mut value = F::nil();
    for k in (0..point.len()).rev() {
        value = form[k].times(point[k]).plus(value);
    }
    value
}
