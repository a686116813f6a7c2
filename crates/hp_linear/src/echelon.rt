//! Elimination: rows in reduced form, to which one row at a time is added.

ghost use Rattle.std.specs.Prelude.{◌≡◌, ◌↔◌, ◌∷◌, ℕ, ◌+◌, ◌^◌, ◌<◌, ◌≤◌, IfOk, IfSome, IsNone, All, Contains, length, map, slice_index_or};
ghost use Rattle.hp_algebra.specs.Rows.{zero_row};
ghost use Rattle.hp_linear.specs.Spaces.{HaveSameSpan};
ghost use Rattle.hp_linear.specs.Echelon.{PivotRow, IsReduced, IsReductionOf, IsMonic, rows_of, cleared};

use crate::pivot::Pivoted;
use crate::row::leading;
use hp_algebra::{Field, NoMem, scaled};
use std::alloc::Global;

/// The row plus the combination of the kept rows that makes its entries in all pivot columns zero.
fn reduced<F: Field>(kept: &[Pivoted<F>], mut row: Vec<F>) -> Vec<F>
    requires reduced { IsReduced F.ring (length row.items) kept.now }
    requires values { All F.ring.IsValue row.items }
    ensures { IsReductionOf F.ring (length row.items) kept.now row.items result.items }
{
    for p in kept {
        p.clear_in(&mut row);
    }
    row
}

/// The multiple of the row whose first entry other than zero is 1, with the column of that entry. None of a zero row.
fn pivot_of<F: Field>(row: Vec<F>) -> Option<Pivoted<F>>
    requires { All F.ring.IsValue row.items }
    ensures none { IsNone result ↔ (row.items ≡ zero_row F.ring (length row.items)) }
    ensures some { IfSome result (IsMonic F.ring F.inverse row.items) }
{
    let column = leading(&row)?;
    let factor = row[column].inv().unwrap();
    Some(Pivoted::new(column, scaled(row, factor)))
}

/// The rows, in each of which the column of the pivot is cleared.
fn cleared<F: Field>(mut kept: Vec<Pivoted<F>>, pivot: &Pivoted<F>) -> Vec<Pivoted<F>>
    requires widths { All (λ p. length p.entries ≡ length pivot.now.entries) kept.items }
    requires inside { pivot.now.column < length pivot.now.entries }
    requires values { All (λ p. All F.ring.IsValue p.entries) kept.items }
    requires pivot { All F.ring.IsValue pivot.now.entries }
    ensures { result.items ≡ map (cleared F.ring pivot.now) kept.items }
{
    for p in kept.iter_mut() {
        p.clear(pivot);
    }
    kept
}

/// How many of the rows, whose pivots rise, have a pivot before the column.
fn place<F: Field>(kept: &[Pivoted<F>], column: usize) -> usize
    ensures within { result ≤ length kept.now }
    ensures before { (k : ℕ) (p : PivotRow F) → k < result → (slice_index_or kept.now k p).column < column }
    ensures after { (p : PivotRow F) → result < length kept.now → column ≤ (slice_index_or kept.now result p).column }
{
    for k in 0..kept.len() {
        if column <= kept[k].column() {
            return k;
        }
    }
    kept.len()
}

/// Adds a row, so that the rows stay reduced.
///
/// Errors: `NoMem` where memory is out.
pub fn insert<F: Field>(kept: Vec<Pivoted<F>>, row: Vec<F>) -> Result<Vec<Pivoted<F>>, NoMem>
    requires reduced { IsReduced F.ring (length row.items) kept.items }
    requires values { All F.ring.IsValue row.items }
    ensures reduced { IfOk result (λ more. IsReduced F.ring (length row.items) more.items) }
    ensures span { IfOk result (λ more. HaveSameSpan F.ring (length row.items) (row.items ∷ rows_of F.ring kept.items) (rows_of F.ring more.items)) }
{
    let row = reduced(&kept, row);
    let Some(pivot) = pivot_of(row) else {
        return Ok(kept);
    };
    let mut kept = cleared(kept, &pivot);
    let at = place(&kept, pivot.column());
    kept.insert(at, pivot)?;
    Ok(kept)
}

/// The columns of the pivots, counted from 1.
pub fn numbers_of<F: Field>(alloc: Global, kept: &[Pivoted<F>]) -> Result<Vec<usize>, NoMem>
    requires { All (λ p. p.column + 1 < 2 ^ 64) kept.now }
    ensures { IfOk result (λ numbers. numbers.items ≡ map (λ p. p.column + 1) kept.now) }
{
    let mut numbers = Vec::new(alloc);
    for p in kept {
        numbers.push(p.column() + 1)?;
    }
    Ok(numbers)
}

/// The rows without their pivots.
pub fn entries_of<F: Field>(alloc: Global, kept: Vec<Pivoted<F>>) -> Result<Vec<Vec<F>>, NoMem>
    ensures { IfOk result (λ rows. map (λ row. row.items) rows.items ≡ rows_of F.ring kept.items) }
{
    let mut rows = Vec::new(alloc);
    for p in kept {
        rows.push(p.into_entries())?;
    }
    Ok(rows)
}
