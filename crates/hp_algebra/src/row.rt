//! Rows over a field: multiples, and the unit rows.

ghost use Rattle.std.specs.Prelude.{◌≡◌, ◌+◌, ◌==◌, if◌then◌else◌, IfOk};
ghost use Rattle.hp_algebra.specs.Rows.{row_scale, unit_row};

use crate::field::Field;
use crate::memory::NoMem;
use std::alloc::Global;

/// The row times c. Takes no memory.
pub fn scaled<F: Field>(mut row: Vec<F>, c: F) -> Vec<F>
    ensures { result.items ≡ row_scale F.ring c row.items }
{
    for k in 0..row.len() {
        row[k] = c.times(row[k]);
    }
    row
}

/// The coordinate x_i in `l` variables, `i` counted from 1: the row with 1 at the place of x_i, and 0 elsewhere.
///
/// Errors: `NoMem` where memory is out.
pub fn unit_row<F: Field>(alloc: Global, l: usize, i: usize) -> Result<Vec<F>, NoMem>
    ensures { IfOk result (λ row. row.items ≡ unit_row F.ring l i) }
{
    let mut row = Vec::new(alloc);
    for k in 0..l {
        row.push(unit_entry(k + 1, i))?;
    }
    Ok(row)
}

/// One where the places are the same, and else zero.
fn unit_entry<F: Field>(k: usize, i: usize) -> F
    ensures { result ≡ (if k == i then F.ring.one else F.ring.zero) }
{
    if k == i { F::unit() } else { F::nil() }
}
