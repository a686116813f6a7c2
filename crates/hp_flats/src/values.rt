//! The values of all rows, and of the last coordinate, at points of the cone, and what they say of the covers of a flat.

ghost use Rattle.std.specs.Prelude.{◌≡◌, ◌≢◌, ◌↔◌, ℕ, ◌+◌, ◌++◌, ◌⊎◌, ◌<◌, ◌≤◌, IfOk, IfSome, OnOk, IsNone, IsTrue, false, All, Contains, length, map, remove, slice_index_or, []};
ghost use Rattle.hp_lists.specs.Lists.{one_to};
ghost use Rattle.hp_flats.specs.Levels.{AreParallel, IsParallelFrom, at_form, reduced, values_of};
ghost use Rattle.hp_algebra.specs.Rows.{IsRow, unit_row, row_plus, row_scale};
ghost use Rattle.hp_arr.specs.Arrangement.{max_forms};
ghost use Rattle.hp_arr.specs.Operations.{cone};
ghost use Rattle.hp_sets.specs.Sets.{IsSetWithin, contains};

use crate::closing::with_if;
use hp_algebra::{Field, FiniteField, List, NoMem, form_value, unit_row};
use hp_arr::Aff;
use hp_sets::HSet;
use std::alloc::Global;

/// The values of all forms of the cone at its unit vectors.
pub fn unit_values<K: FiniteField>(alloc: Global, aff: &Aff<K>) -> Result<List<List<K>>, NoMem>
    ensures { let coned = cone K.ring aff.now.dim aff.now.forms in
        IfOk result (λ rows. rows ≡ map (λ k. values_of K.ring coned (unit_row K.ring (aff.now.dim + 1) k)) (one_to (aff.now.dim + 1))) }
{
    let mut rows = Vec::new(alloc);
    let width = aff.dim() as usize + 1;
    for k in 0..width {
        let point = unit_row(alloc, width, k + 1)?;
        rows.push(values_at(alloc, aff, &point)?)?;
    }
    Ok(List::of(rows))
}

/// The values of all rows at the point of the cone, and its last coordinate.
fn values_at<K: FiniteField>(alloc: Global, aff: &Aff<K>, point: &[K]) -> Result<List<K>, NoMem>
    requires { IsRow K.ring (aff.now.dim + 1) point.now }
    ensures { IfOk result (λ row. row ≡ values_of K.ring (cone K.ring aff.now.dim aff.now.forms) point.now) }
{
    let dim = aff.dim() as usize;
    let mut row = Vec::new(alloc);
    for j in 0..aff.len() {
        row.push(form_value(aff.row(j + 1), point))?;
    }
    row.push(point[dim])?;
    Ok(List::of(row))
}

/// The value of form `j` among those of all forms at a point.
fn value_of<K: Field>(row: &List<K>, j: u32) -> K
    requires low { 1 ≤ j }
    requires high { j ≤ length row.now }
    ensures { result ≡ at_form K.ring j row.now }
{
    row.as_slice()[j as usize - 1]
}

/// The first of the points at which form `j` is not zero.
pub fn place_off<K: Field>(rows: &[List<K>], j: u32) -> Option<usize>
    requires low { 1 ≤ j }
    requires widths { All (λ row. j ≤ length row) rows.now }
    ensures none { IsNone result → All (λ row. at_form K.ring j row ≡ K.ring.zero) rows.now }
    ensures some { IfSome result (λ q. q < length rows.now) }
    ensures off { IfSome result (λ q. at_form K.ring j (slice_index_or rows.now q []) ≢ K.ring.zero) }
{
    for (q, row) in rows.iter().enumerate() {
        if !value_of(row, j).is_nil() {
            return Some(q);
        }
    }
    None
}

/// Whether the values of forms `i` and `j` are proportional. Form `i` is not zero at point `q`.
fn are_parallel<K: Field>(rows: &[List<K>], q: usize, i: u32, j: u32) -> bool
    requires inside { q < length rows.now }
    requires low_i { 1 ≤ i }
    requires low_j { 1 ≤ j }
    requires widths_i { All (λ row. i ≤ length row) rows.now }
    requires widths_j { All (λ row. j ≤ length row) rows.now }
    ensures { IsTrue result ↔ AreParallel K.ring rows.now q i j }
{
    let of_i = value_of(&rows[q], i);
    let of_j = value_of(&rows[q], j);
    for row in rows {
        if !of_i
            .times(value_of(row, j))
            .equal(&of_j.times(value_of(row, i)))
        {
            return false;
        }
    }
    true
}

/// Whether hyperplane `k` is not covered and parallel to H_i. Form `i` is not zero at point `q`.
fn is_of_class<K: Field>(covered: HSet, rows: &[List<K>], q: usize, i: u32, k: u32) -> bool
    requires inside { q < length rows.now }
    requires low_i { 1 ≤ i }
    requires low_k { 1 ≤ k }
    requires widths_i { All (λ row. i ≤ length row) rows.now }
    requires widths_k { All (λ row. k ≤ length row) rows.now }
    ensures { IsTrue result ↔ ((contains covered k ≡ false) × AreParallel K.ring rows.now q i k) }
{
    !covered.contains(k) && are_parallel(rows, q, i, k)
}

/// The set, with the hyperplanes from the one number to the other that are not covered and are parallel to H_i. Form `i`
/// is not zero at point `q`.
pub fn with_parallel<K: Field>(
    set: HSet,
    covered: HSet,
    rows: &[List<K>],
    q: usize,
    i: u32,
    from: u32,
    to: u32,
) -> HSet
    requires low { 1 ≤ i }
    requires high { i ≤ to + 1 }
    requires from { 1 ≤ from }
    requires to { to ≤ max_forms }
    requires set { IsSetWithin to set }
    requires inside { q < length rows.now }
    requires widths { All (λ row. length row ≡ to + 1) rows.now }
    ensures set { IsSetWithin to result }
    ensures members { (k : ℕ) → Contains result k ↔ (Contains set k ⊎ IsParallelFrom K.ring rows.now covered q i from to k) }
{
    let mut found = set;
    for k in from..to + 1 {
        found = with_if(found, k, is_of_class(covered, rows, q, i, k));
    }
    found
}

/// The values at points that decide in H_i, from those at such points: each point but `q`, at which form `i` is not
/// zero, moved into H_i.
pub fn reduced_values<K: Field>(
    alloc: Global,
    rows: &[List<K>],
    q: usize,
    i: u32,
) -> Result<List<List<K>>, NoMem>
    requires inside { q < length rows.now }
    requires low { 1 ≤ i }
    requires inside_i { i ≤ length (slice_index_or rows.now q []) }
    requires widths { All (λ row. length row ≡ length (slice_index_or rows.now q [])) rows.now }
    ensures { IfOk result (λ made. made ≡ map (reduced K.ring (slice_index_or rows.now q []) i) (remove rows.now q)) }
{
    let pivot = &rows[q];
    let mut made = Vec::new(alloc);
    push_reduced(alloc, &mut made, &rows[..q], pivot, i)?;
    push_reduced(alloc, &mut made, &rows[q + 1..], pivot, i)?;
    Ok(List::of(made))
}

/// Adds the reduced values of these rows.
fn push_reduced<K: Field>(
    alloc: Global,
    made: &mut Vec<List<K>>,
    rows: &[List<K>],
    pivot: &List<K>,
    i: u32,
) -> Result<(), NoMem>
    requires low { 1 ≤ i }
    requires inside { i ≤ length pivot.now }
    requires widths { All (λ row. length row ≡ length pivot.now) rows.now }
    ensures { OnOk result (made.new.items ≡ made.old.items ++ map (reduced K.ring pivot.now i) rows.now) }
{
    for row in rows {
        let factor = value_of(row, i).negate();
        let moved = combined(
            alloc,
            value_of(pivot, i),
            row.as_slice(),
            factor,
            pivot.as_slice(),
        )?;
        made.push(moved)?;
    }
    Ok(())
}

/// The row `a x + b y`.
fn combined<K: Field>(alloc: Global, a: K, x: &[K], b: K, y: &[K]) -> Result<List<K>, NoMem>
    requires { length x.now ≡ length y.now }
    ensures { IfOk result (λ sum. sum ≡ row_plus K.ring (row_scale K.ring a x.now) (row_scale K.ring b y.now)) }
{
    let mut sum = Vec::with_capacity(alloc, x.len())?;
    for k in 0..x.len() {
        sum.push(a.times(x[k]).plus(b.times(y[k])))?;
    }
    Ok(List::of(sum))
}
