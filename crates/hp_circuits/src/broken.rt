//! What breaks a set: a lower form in the span of some of its forms.

ghost use Rattle.std.specs.Prelude.{ℕ, ◌<◌, IfOk, IfSome, IsFalse, IsNone, IsTrue, All, length};
ghost use Rattle.hp_algebra.specs.Rows.{IsRow, is_zero_row};
ghost use Rattle.hp_arr.specs.Circuits.{is_nbc};
ghost use Rattle.hp_circuits.specs.BrokenParts.{IsBrokenBy};
ghost use Rattle.hp_circuits.specs.NbcSearch.{are_nonzero, row_at, rows_below};
ghost use Rattle.hp_sets.specs.Sets.{IsSetWithin};

use crate::nbc_search::{forms, remainders_below, with_front};
use crate::rows::{first_entry, is_zero, reduced};
use hp_algebra::{FiniteField, List, NoMem};
use hp_arr::Arr;
use hp_sets::HSet;
use std::alloc::Global;

/// A form and the members of the set from some member on, where the form lies in the span of these members' forms and
/// below all of them; it is the least such form. There is none exactly where the set contains no broken circuit.
///
/// Errors: `NoMem` where memory is out.
pub fn broken_part<K: FiniteField>(
    alloc: Global,
    arr: &Arr<K>,
    s: HSet,
) -> Result<Option<(u32, HSet)>, NoMem>
    requires { IsSetWithin (length arr.now.forms) s }
    ensures some { IfOk result (λ answer. IfSome answer (λ w. IsBrokenBy K.ring K.numbers arr.now s w.0 w.1)) }
    ensures none { IfOk result (λ answer. IsNone answer → IsTrue (is_nbc K.ring K.numbers arr.now s)) }
{
    let mut rows = forms(alloc, arr)?;
    let mut part = HSet::empty();
    for m in (0..arr.len()).rev() {
        if !s.contains(m + 1) {
            continue;
        }
        let longer = with_front(part, m + 1);
        match remainders_below(alloc, arr, &rows, m as usize)? {
            Some(below) => {
                rows = below;
                part = longer;
            }
            None => {
                let k = first_zero(alloc, arr, &rows, m as usize)?;
                return Ok(Some((k as u32 + 1, longer)));
            }
        }
    }
    Ok(None)
}

/// The first row, counted from 0, that becomes zero less the multiple of row m.
fn first_zero<K: FiniteField>(
    alloc: Global,
    arr: &Arr<K>,
    rows: &[List<K>],
    m: usize,
) -> Result<usize, NoMem>
    requires rows { All (IsRow K.ring arr.now.dim) rows.now }
    requires nonzero { All (λ row. IsFalse (is_zero_row K.ring row)) rows.now }
    requires within { m < length rows.now }
    requires zero { IsFalse (are_nonzero K.ring (rows_below K.ring K.inverse m rows.now)) }
    ensures below { IfOk result (λ k. k < m) }
    ensures zero { IfOk result (λ k. IsTrue (is_zero_row K.ring (row_at (rows_below K.ring K.inverse m rows.now) k))) }
    ensures first { IfOk result (λ k. (j : ℕ) → j < k → IsFalse (is_zero_row K.ring (row_at (rows_below K.ring K.inverse m rows.now) j))) }
{
    let _lawful = arr.len();
    let top = rows[m].as_slice();
    let (place, inverse) = first_entry(top);
    for k in 0..m {
        let rest = reduced(alloc, place, inverse, top, rows[k].as_slice())?;
        if is_zero(rest.as_slice()) {
            return Ok(k);
        }
    }
    unreachable!()
}
