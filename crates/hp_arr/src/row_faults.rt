//! The search for the fault of a list of rows with constants.

ghost use Rattle.std.specs.Prelude.{◌≡◌, ◌+◌, ◌≤◌, ◌<◌, ◌^◌, IfNone, IfOk, All, length, map, take};
ghost use Rattle.hp_algebra.specs.Rows.{is_zero_row};
ghost use Rattle.hp_arr.specs.FormFaults.{affine_fault, zero_fault};

use crate::fault::{ArrFault, MAX_FORMS};
use crate::fault_search::find_repeated;
use crate::rows::is_zero;
use hp_algebra::{Field, FiniteField, List, NoMem};
use std::alloc::Global;

/// The fault of the rows, which have `l` coefficients and the constant. Where there is none, the entries are values.
///
/// Errors: `NoMem` where memory is out.
pub fn find_row_fault<K: FiniteField>(
    alloc: Global,
    l: u32,
    rows: &[List<K>],
) -> Result<Option<ArrFault>, NoMem>
    requires count { length rows.now < 2 ^ 32 }
    requires widths { All (λ row. length row ≡ l + 1) rows.now }
    ensures fault { IfOk result (λ fault. fault ≡ affine_fault K.ring K.numbers l rows.now) }
    ensures values { IfOk result (λ fault. IfNone fault (All (All K.ring.IsValue) rows.now)) }
{
    if let Some(fault) = find_constant(l as usize, rows) {
        return Ok(Some(fault));
    }
    if let Some(fault) = find_repeated(alloc, rows)? {
        return Ok(Some(fault));
    }
    let count = rows.len() as u32;
    if count > MAX_FORMS || count >= K::ORDER {
        return Ok(Some(ArrFault::TooMany(count)));
    }
    Ok(None)
}

/// The first row whose first `l` entries are all zero.
fn find_constant<K: Field>(l: usize, rows: &[List<K>]) -> Option<ArrFault>
    requires count { length rows.now < 2 ^ 32 }
    requires widths { All (λ row. l ≤ length row) rows.now }
    ensures fault { result ≡ zero_fault K.ring (map (take l) rows.now) }
    ensures values { IfNone result (All (All K.ring.IsValue) rows.now) }
{
    for k in 0..rows.len() as u32 {
        if is_constant(l, rows[k as usize].as_slice()) {
            return Some(ArrFault::ZeroForm(k + 1));
        }
    }
    None
}

/// Whether the first `l` entries are all zero. It looks at the others too, so that each is known to be a value.
fn is_constant<K: Field>(l: usize, row: &[K]) -> bool
    requires { l ≤ length row.now }
    ensures values { All K.ring.IsValue row.now }
    ensures zero { result ≡ is_zero_row K.ring (take l row.now) }
{
    let _rest = is_zero(&row[l..]);
    is_zero(&row[..l])
}
