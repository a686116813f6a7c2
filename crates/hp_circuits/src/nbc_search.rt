//! The search for sets without broken circuit.
//!
//! Members are put in front in falling order. With a set go the remainders of all forms below its least member modulo
//! the span of its forms. A form below makes one more such set exactly where none of the remainders below it becomes
//! zero, so each set that is tried is an answer.

ghost use Rattle.std.specs.Prelude.{◌≡◌, ◌⊎◌, ◌<◌, ◌≤◌, [], ◌∷◌, ◌++◌, IfOk, IfErr, IfSome, OnOk, IsFalse, IsTrue, IsNone, All, length, map, filter, take, false};
ghost use Rattle.hp_algebra.specs.Rows.{IsRow, is_zero_row};
ghost use Rattle.hp_arr.specs.Arrangement.{max_forms};
ghost use Rattle.hp_arr.specs.Circuits.{nbc_sets};
ghost use Rattle.hp_circuits.specs.NbcSearch.{are_nonzero, is_wanted, rows_below, wanted_from};
ghost use Rattle.hp_sets.specs.Sets.{IsSetWithin};

use crate::rows::{first_entry, is_zero, reduced};
use crate::stop::NbcStop;
use hp_algebra::{Field, FiniteField, List, NoMem};
use hp_arr::Arr;
use hp_sets::HSet;
use std::alloc::Global;

/// The sets without broken circuit, of the wanted size where one is given: each once, by size and then in lexicographic
/// order.
///
/// Errors: `TooMany` exactly where there are more than `most`; `Memory` where memory is out.
pub fn wanted_sets<K: FiniteField>(
    alloc: Global,
    arr: &Arr<K>,
    wanted: Option<u32>,
    most: u32,
) -> Result<Vec<HSet>, NbcStop>
    ensures value { IfOk result (λ sets. sets.items ≡ filter (is_wanted wanted) (nbc_sets K.ring K.numbers arr.now)) }
    ensures few { OnOk result (length (filter (is_wanted wanted) (nbc_sets K.ring K.numbers arr.now)) ≤ most) }
    ensures stop { IfErr result (λ e. (e ≡ NbcStop.Memory) ⊎ (most < length (filter (is_wanted wanted) (nbc_sets K.ring K.numbers arr.now)))) }
{
    let _lawful = arr.len();
    let rows = forms(alloc, arr)?;
    let mut found = Vec::new(alloc);
    extend(alloc, arr, HSet::empty(), &rows, wanted, most, &mut found)?;
    found.sort()?;
    Ok(found)
}

/// The forms.
pub fn forms<K: FiniteField>(alloc: Global, arr: &Arr<K>) -> Result<Vec<List<K>>, NoMem>
    ensures { IfOk result (λ rows. rows.items ≡ arr.now.forms) }
{
    let mut rows = Vec::with_capacity(alloc, arr.len() as usize)?;
    for j in 0..arr.len() {
        rows.push(copy_of(alloc, arr.form(j + 1))?)?;
    }
    Ok(rows)
}

/// A list with the same entries.
fn copy_of<K: Field>(alloc: Global, row: &[K]) -> Result<List<K>, NoMem>
    ensures { IfOk result (λ copy. copy ≡ row.now) }
{
    let copy: Vec<K> = row.iter().copied().collect(alloc)?;
    Ok(List::of(copy))
}

/// Adds the set, and the sets that it makes with some of the forms that the rows are remainders of: those of the wanted
/// size, at most `most` with those that stand there.
fn extend<K: FiniteField>(
    alloc: Global,
    arr: &Arr<K>,
    set: HSet,
    rows: &[List<K>],
    wanted: Option<u32>,
    most: u32,
    found: &mut Vec<HSet>,
) -> Result<(), NbcStop>
    requires rows { All (IsRow K.ring arr.now.dim) rows.now }
    requires nonzero { All (λ row. IsFalse (is_zero_row K.ring row)) rows.now }
    requires few { length rows.now ≤ max_forms }
    requires above { All (λ i. length rows.now < i) set }
    requires room { length found.old.items ≤ most }
    ensures value { OnOk result (found.new.items ≡ found.old.items ++ wanted_from K.ring K.inverse wanted (length rows.now) set rows.now) }
    ensures room { OnOk result (length found.new.items ≤ most) }
    ensures stop { IfErr result (λ e. (e ≡ NbcStop.Memory) ⊎ (most < length (found.old.items ++ wanted_from K.ring K.inverse wanted (length rows.now) set rows.now))) }
{
    put(found, set, wanted, most)?;
    if is_full(set, wanted) {
        return Ok(());
    }
    for m in 0..rows.len() {
        if let Some(below) = remainders_below(alloc, arr, rows, m)? {
            let more = with_front(set, m as u32 + 1);
            extend(alloc, arr, more, &below, wanted, most, found)?;
        }
    }
    Ok(())
}

/// The set with a member below all others.
pub(crate) fn with_front(set: HSet, i: u32) -> HSet
    requires low { 1 ≤ i }
    requires high { i ≤ 64 }
    requires above { All (λ j. i < j) set }
    ensures value { result ≡ i ∷ set }
    ensures above { All (λ j. i ≤ j) result }
{
    let _set = set.len();
    set.with(i)
}

/// Whether no greater set is wanted.
fn is_full(set: HSet, wanted: Option<u32>) -> bool
    ensures none { IsNone wanted → IsFalse result }
    ensures some { IfSome wanted (λ k. IsTrue result → k ≤ length set) }
{
    match wanted {
        Some(k) => k <= set.len(),
        None => false,
    }
}

/// Adds the set where it is of the wanted size.
fn put(found: &mut Vec<HSet>, set: HSet, wanted: Option<u32>, most: u32) -> Result<(), NbcStop>
    requires room { length found.old.items ≤ most }
    ensures value { OnOk result (found.new.items ≡ found.old.items ++ filter (is_wanted wanted) (set ∷ [])) }
    ensures room { OnOk result (length found.new.items ≤ most) }
    ensures stop { IfErr result (λ e. (e ≡ NbcStop.Memory) ⊎ (most < length (found.old.items ++ filter (is_wanted wanted) (set ∷ [])))) }
{
    if is_wanted(set, wanted) {
        if found.len() >= most as usize {
            return Err(NbcStop::TooMany);
        }
        found.push(set)?;
    }
    Ok(())
}

/// Whether the set is of the wanted size.
fn is_wanted(set: HSet, wanted: Option<u32>) -> bool
    ensures { result ≡ is_wanted wanted set }
{
    match wanted {
        Some(k) => set.len() == k,
        None => true,
    }
}

/// The rows before row m less the multiples of row m that make them zero at its first place, unless one becomes zero.
pub fn remainders_below<K: FiniteField>(
    alloc: Global,
    arr: &Arr<K>,
    rows: &[List<K>],
    m: usize,
) -> Result<Option<Vec<List<K>>>, NoMem>
    requires rows { All (IsRow K.ring arr.now.dim) rows.now }
    requires nonzero { All (λ row. IsFalse (is_zero_row K.ring row)) rows.now }
    requires within { m < length rows.now }
    ensures some { IfOk result (λ answer. IfSome answer (λ below. below.items ≡ rows_below K.ring K.inverse m rows.now)) }
    ensures free { IfOk result (λ answer. IfSome answer (λ below. IsTrue (are_nonzero K.ring (rows_below K.ring K.inverse m rows.now)))) }
    ensures long { IfOk result (λ answer. IfSome answer (λ below. length below.items ≡ m)) }
    ensures rows { IfOk result (λ answer. IfSome answer (λ below. All (IsRow K.ring arr.now.dim) below.items)) }
    ensures nonzero { IfOk result (λ answer. IfSome answer (λ below. All (λ row. IsFalse (is_zero_row K.ring row)) below.items)) }
    ensures none { IfOk result (λ answer. IsNone answer → IsFalse (are_nonzero K.ring (rows_below K.ring K.inverse m rows.now))) }
{
    let _lawful = arr.len();
    let top = rows[m].as_slice();
    let (place, inverse) = first_entry(top);
    let mut below = Vec::with_capacity(alloc, m)?;
    for k in 0..m {
        let rest = reduced(alloc, place, inverse, top, rows[k].as_slice())?;
        if is_zero(rest.as_slice()) {
            return Ok(None);
        }
        below.push(rest)?;
    }
    Ok(Some(below))
}
