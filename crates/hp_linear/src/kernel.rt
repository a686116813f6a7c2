//! Solutions that are read off rows in reduced form.

ghost use Rattle.std.specs.Prelude.{◌≡◌, ◌≢◌, ◌↔◌, ℕ, ◌+◌, ◌<◌, ◌≤◌, IfOk, IsTrue, All, Contains, length, map, drop, replicate, slice_index_or};
ghost use Rattle.hp_linear.specs.Echelon.{PivotRow, IsReduced, IsFreeSolution};

use crate::pivot::Pivoted;
use hp_algebra::{Field, NoMem};
use std::alloc::Global;

/// Whether some row has its pivot in the column.
pub fn has_pivot<F: Field>(kept: &[Pivoted<F>], column: usize) -> bool
    ensures { IsTrue result ↔ ((p : PivotRow F) × Contains kept.now p × (p.column ≡ column)) }
{
    for p in kept {
        if p.column() == column {
            return true;
        }
    }
    false
}

/// A row of zeros.
pub fn zeros<F: Field>(alloc: Global, width: usize) -> Result<Vec<F>, NoMem>
    ensures { IfOk result (λ row. row.items ≡ replicate width F.ring.zero) }
{
    let mut row = Vec::new(alloc);
    for _ in 0..width {
        row.push(F::nil())?;
    }
    Ok(row)
}

/// The solution of the rows with 1 at a column without pivot and 0 at the others without pivot.
///
/// Errors: `NoMem` where memory is out.
pub fn free_solution<F: Field>(
    alloc: Global,
    kept: &[Pivoted<F>],
    width: usize,
    free: usize,
) -> Result<Vec<F>, NoMem>
    requires reduced { IsReduced F.ring width kept.now }
    requires inside { free < width }
    requires apart { (p : PivotRow F) → Contains kept.now p → p.column ≢ free }
    ensures { IfOk result (λ c. IsFreeSolution F.ring width kept.now free c.items) }
{
    let mut c = zeros(alloc, width)?;
    c[free] = F::unit();
    for p in kept {
        c[p.column()] = p.entries()[free].negate();
    }
    Ok(c)
}

/// Whether there are so many rows, with their pivots in the first columns.
pub fn fill_columns<F: Field>(kept: &[Pivoted<F>], count: usize) -> bool
    ensures { IsTrue result ↔ ((length kept.now ≡ count) × ((k : ℕ) (p : PivotRow F) → k < count → (slice_index_or kept.now k p).column ≡ k)) }
{
    for (k, p) in kept.iter().enumerate() {
        if p.column() != k {
            return false;
        }
    }
    kept.len() == count
}

/// The entries of each row from a column on.
pub fn rests_of<F: Field>(
    alloc: Global,
    kept: &[Pivoted<F>],
    from: usize,
) -> Result<Vec<Vec<F>>, NoMem>
    requires { All (λ p. from ≤ length p.entries) kept.now }
    ensures { IfOk result (λ rows. map (λ row. row.items) rows.items ≡ map (λ p. drop from p.entries) kept.now) }
{
    let mut rows = Vec::new(alloc);
    for p in kept {
        rows.push(Vec::from_slice(alloc, &p.entries()[from..])?)?;
    }
    Ok(rows)
}
