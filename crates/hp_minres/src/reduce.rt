//! Cancelling all unit entries.

ghost use Rattle.std.specs.Prelude.{◌≡◌, ◌≢◌, ◌-◌, ◌<◌, ◌≤◌, ℕ, All, IfOk, IfNone, IfSome, [], length, slice_index_or};
ghost use Rattle.hp_minres.specs.Reductions.{AreSteps, IsGradedExact, IsReduced, IsStep, rows_at};

use crate::cancel::cancel;
use hp_algebra::{Field, NoMem};
use hp_lists::List;
use hp_poly::Poly;
use std::alloc::Global;

/// A row of degree `d` whose entry in column `c` is not zero.
fn unit_row<F: Field>(rows: &[List<Poly<F>>], degrees: &[u32], c: usize, d: u32) -> Option<usize>
    requires lengths { length degrees.now ≡ length rows.now }
    requires widths { All (λ row. c < length row) rows.now }
    ensures some { IfSome result (λ r. (r < length rows.now) × (slice_index_or degrees.now r 0 ≡ d) × (slice_index_or (slice_index_or rows.now r []) c [] ≢ [])) }
    ensures none { IfNone result ((i : ℕ) → i < length rows.now → slice_index_or degrees.now i 0 ≡ d → slice_index_or (slice_index_or rows.now i []) c [] ≡ []) }
{
    for r in 0..rows.len() {
        if degrees[r] == d && rows[r].as_slice()[c].len() > 0 {
            return Some(r);
        }
    }
    None
}

/// Cancels the unit in column `c` of map `k`, if there is one.
///
/// Errors: `NoMem` where memory is out.
fn reduce_column<F: Field>(
    alloc: Global,
    maps: &mut Vec<List<List<Poly<F>>>>,
    degrees: &mut Vec<List<u32>>,
    k: usize,
    c: usize,
) -> Result<(), NoMem>
    requires complex { (width : ℕ) × IsGradedExact F.ring width maps.old.items degrees.old.items }
    requires later { 1 ≤ k }
    requires within { k < length maps.old.items }
    requires column { c < length (rows_at maps.old.items (k - 1)) }
    ensures { IfOk result (λ _. IsStep F.ring maps.old.items degrees.old.items k c maps.new.items degrees.new.items) }
{
    let d = degrees[k - 1].as_slice()[c];
    let found = unit_row(maps[k].as_slice(), degrees[k].as_slice(), c, d);
    match found {
        None => Ok(()),
        Some(r) => cancel(alloc, maps, degrees, k - 1, r, c),
    }
}

/// Cancels the units of map `k`, from the last column to the first.
///
/// Errors: `NoMem` where memory is out.
fn reduce_map<F: Field>(
    alloc: Global,
    maps: &mut Vec<List<List<Poly<F>>>>,
    degrees: &mut Vec<List<u32>>,
    k: usize,
) -> Result<(), NoMem>
    requires complex { (width : ℕ) × IsGradedExact F.ring width maps.old.items degrees.old.items }
    requires later { 1 ≤ k }
    requires within { k < length maps.old.items }
    ensures { IfOk result (λ _. AreSteps F.ring maps.old.items degrees.old.items k (length (rows_at maps.old.items (k - 1))) maps.new.items degrees.new.items k 0) }
{
    let many = maps[k - 1].as_slice().len();
    for c in (0..many).rev() {
        reduce_column(alloc, maps, degrees, k, c)?;
    }
    Ok(())
}

/// Cancels all units: map after map, and in each map from the last column to the first.
///
/// Errors: `NoMem` where memory is out.
pub(crate) fn reduce<F: Field>(
    alloc: Global,
    maps: &mut Vec<List<List<Poly<F>>>>,
    degrees: &mut Vec<List<u32>>,
) -> Result<(), NoMem>
    requires { (width : ℕ) × IsGradedExact F.ring width maps.old.items degrees.old.items }
    ensures { IfOk result (λ _. (width : ℕ) → IsGradedExact F.ring width maps.old.items degrees.old.items → IsReduced F.ring width (rows_at maps.old.items 0) maps.new.items degrees.new.items) }
{
    for k in 1..maps.len() {
        reduce_map(alloc, maps, degrees, k)?;
    }
    Ok(())
}
