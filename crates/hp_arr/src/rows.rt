//! Lists of rows, and the test of a row for zero.

ghost use Rattle.std.specs.Prelude.{◌≡◌, ◌<◌, IfOk, All, map};
ghost use Rattle.hp_algebra.specs.Rows.{is_zero_row};
ghost use Rattle.hp_arr.specs.Arrangement.{max_dim};
ghost use Rattle.hp_arr.specs.Operations.{cone};

use hp_algebra::{Field, List, NoMem, unit_row};
use std::alloc::Global;

/// The rows as lists.
pub fn lists_of<T: Drop>(alloc: Global, rows: Vec<Vec<T>>) -> Result<Vec<List<T>>, NoMem>
    ensures { IfOk result (λ lists. lists.items ≡ map (λ row. row.items) rows.items) }
{
    Ok(rows.into_iter().map(|row| List::of(row)).collect(alloc)?)
}

/// Copies of the lists.
pub fn copies<T: Copy>(alloc: Global, lists: &[List<T>]) -> Result<Vec<List<T>>, NoMem>
    ensures { IfOk result (λ copies. copies.items ≡ lists.now) }
{
    let mut copies = Vec::new(alloc);
    for list in lists {
        copies.push(List::of(copy_of(alloc, list.as_slice())?))?;
    }
    Ok(copies)
}

/// A copy of the row.
fn copy_of<T: Copy>(alloc: Global, row: &[T]) -> Result<Vec<T>, NoMem>
    ensures { IfOk result (λ copy. copy.items ≡ row.now) }
{
    Ok(row.iter().copied().collect(alloc)?)
}

/// The forms of the cone over these rows, which each have `l` coefficients and the constant: the rows, and behind them
/// the last coordinate.
pub fn cone_forms<K: Field>(alloc: Global, l: u32, rows: Vec<Vec<K>>) -> Result<Vec<List<K>>, NoMem>
    requires { l < max_dim }
    ensures { IfOk result (λ forms. forms.items ≡ (cone K.ring l (map (λ row. row.items) rows.items)).forms) }
{
    let width = l as usize + 1;
    let mut forms = lists_of(alloc, rows)?;
    forms.push(List::of(unit_row(alloc, width, width)?))?;
    Ok(forms)
}

/// Whether each entry is zero. It looks at all of them, so that each is known to be a value.
pub fn is_zero<K: Field>(row: &[K]) -> bool
    ensures values { All K.ring.IsValue row.now }
    ensures zero { result ≡ is_zero_row K.ring row.now }
{
    let mut zero = true;
    for entry in row {
        zero &= entry.is_nil();
    }
    zero
}
