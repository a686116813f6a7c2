//! Modules over a ring, and combinations of their values.

ghost use Rattle.std.specs.Prelude.{◌≡◌, ◌↔◌, ℕ, ◌+◌, ◌≤◌, All, IfOk, IsTrue, OnOk, length, slice_get, Some};
ghost use Rattle.hp_algebra.specs.Modules.{ModuleOf, IsModule, AreWeighted, combination_of};

use crate::memory::NoMem;
use crate::ring::Ring;
use std::alloc::Global;

/// A left module over a ring, or rather one for each width: values of one width can be added.
///
/// Each call promises that what it was lent and what it answers are values, so that generic code learns this of a
/// value in hand.
pub trait Module<R: Ring>: Sized + Drop {
    /// The operations on plain data, and which data are values.
    ghost vectors: { ModuleOf R Self };

    /// Zero of this width.
    fn m_zero(alloc: Global, width: usize) -> Result<Self, NoMem>
        ensures value { IfOk result (λ r. r ≡ vectors.zero width) }
        ensures answer { IfOk result vectors.IsValue };

    /// The sum, of values of one width.
    fn m_add(&self, alloc: Global, other: &Self) -> Result<Self, NoMem>
        requires { vectors.width self.now ≡ vectors.width other.now }
        ensures left { vectors.IsValue self.now }
        ensures right { vectors.IsValue other.now }
        ensures value { IfOk result (λ r. r ≡ vectors.add self.now other.now) }
        ensures answer { IfOk result vectors.IsValue };

    /// The multiple, by a scalar whose weight and that of the value together are at most the greatest of the ring.
    fn m_scale(&self, alloc: Global, by: &R) -> Result<Self, NoMem>
        requires { R.ring.weight by.now + vectors.weight self.now ≤ R.MOST }
        ensures scalar { R.ring.IsValue by.now }
        ensures of { vectors.IsValue self.now }
        ensures value { IfOk result (λ r. r ≡ vectors.scale by.now self.now) }
        ensures answer { IfOk result vectors.IsValue };

    /// Whether the two values are equal.
    fn m_equal(&self, other: &Self) -> bool
        ensures left { vectors.IsValue self.now }
        ensures right { vectors.IsValue other.now }
        ensures value { IsTrue result ↔ (self.now ≡ other.now) };

    /// The laws of a left module.
    ghost module_laws: { IsModule R.ring vectors };

    /// The laws of the weight.
    ghost module_weights: { AreWeighted R.ring vectors };
}

/// The combination c_1 v_1 + .. + c_s v_s of values of one width. Each coefficient may scale its value.
///
/// Errors: `NoMem` where memory is out.
pub fn combine<R: Ring, M: Module<R>>(
    alloc: Global,
    width: usize,
    c: &[R],
    v: &[M],
) -> Result<M, NoMem>
    requires lengths { length c.now ≡ length v.now }
    requires widths { All (λ x. M.vectors.width x ≡ width) v.now }
    requires weights { (k : ℕ) (x : R) (y : M) → slice_get c.now k ≡ Some x → slice_get v.now k ≡ Some y → R.ring.weight x + M.vectors.weight y ≤ R.MOST }
    ensures scalars { OnOk result (All R.ring.IsValue c.now) }
    ensures values { OnOk result (All M.vectors.IsValue v.now) }
    ensures value { IfOk result (λ r. r ≡ combination_of M.vectors width c.now v.now) }
    ensures answer { IfOk result M.vectors.IsValue }
    ensures width { IfOk result (λ r. M.vectors.width r ≡ width) }
{
    let mut sum = M::m_zero(alloc, width)?;
    for k in (0..c.len()).rev() {
        sum = v[k].m_scale(alloc, &c[k])?.m_add(alloc, &sum)?;
    }
    Ok(sum)
}
