//! The sets of hyperplanes that contain no broken circuit.

ghost use Rattle.std.specs.Prelude.{◌≡◌, ◌⊎◌, ℕ, ◌<◌, ◌≤◌, ◌==◌, pos, ◌*ℤ◌, IfOk, IfErr, OnOk, length, filter};
ghost use Rattle.std.specs.List.Sorted.{IsStrictlySortedBy};
ghost use Rattle.hp_algebra.specs.Integers.{sign};
ghost use Rattle.hp_arr.specs.Circuits.{is_nbc, nbc_sets, nbc_sets_of_size};
ghost use Rattle.hp_arr.specs.Moebius.{rank_sum};
ghost use Rattle.hp_circuits.specs.Bounds.{most_nbc};
ghost use Rattle.hp_sets.specs.Sets.{IsSetWithin, cmp_listed};

use crate::nbc_search::{forms, remainders_below, wanted_sets};
use crate::stop::{MOST_NBC, NbcStop};
use hp_algebra::{FiniteField, NoMem};
use hp_arr::Arr;
use hp_sets::HSet;
use std::alloc::Global;

/// Whether the set contains no broken circuit.
///
/// Errors: `NoMem` where memory is out.
pub fn is_nbc<K: FiniteField>(alloc: Global, arr: &Arr<K>, s: HSet) -> Result<bool, NoMem>
    requires { IsSetWithin (length arr.now.forms) s }
    ensures { IfOk result (λ answer. answer ≡ is_nbc K.ring K.numbers arr.now s) }
{
    let mut rows = forms(alloc, arr)?;
    for m in (0..arr.len()).rev() {
        if !s.contains(m + 1) {
            continue;
        }
        match remainders_below(alloc, arr, &rows, m as usize)? {
            Some(below) => rows = below,
            None => return Ok(false),
        }
    }
    Ok(true)
}

/// The sets of hyperplanes that contain no broken circuit: each once, by size and then in lexicographic order. Those of
/// size k are as many as the coefficient of degree k of the Poincaré polynomial says.
///
/// Errors: `TooMany` exactly where there are more than `MOST_NBC`; `Memory` where memory is out.
pub fn nbc<K: FiniteField>(alloc: Global, arr: &Arr<K>) -> Result<Vec<HSet>, NbcStop>
    ensures value { IfOk result (λ sets. sets.items ≡ nbc_sets K.ring K.numbers arr.now) }
    ensures rising { IfOk result (λ sets. IsStrictlySortedBy cmp_listed sets.items) }
    ensures counts { IfOk result (λ sets. (k : ℕ) → pos (length (filter (λ s. length s == k) sets.items)) ≡ rank_sum K.ring K.numbers arr.now k *ℤ sign k) }
    ensures few { OnOk result (length (nbc_sets K.ring K.numbers arr.now) ≤ most_nbc) }
    ensures stop { IfErr result (λ e. (e ≡ NbcStop.Memory) ⊎ (most_nbc < length (nbc_sets K.ring K.numbers arr.now))) }
{
    let _lawful = arr.len();
    wanted_sets(alloc, arr, None, MOST_NBC)
}

/// The sets of one size that contain no broken circuit: each once, in lexicographic order. They are as many as the
/// coefficient of that degree of the Poincaré polynomial says.
///
/// Errors: `TooMany` exactly where there are more than `most`; `Memory` where memory is out.
pub fn nbc_of_size<K: FiniteField>(
    alloc: Global,
    arr: &Arr<K>,
    size: u32,
    most: u32,
) -> Result<Vec<HSet>, NbcStop>
    ensures value { IfOk result (λ sets. sets.items ≡ nbc_sets_of_size K.ring K.numbers arr.now size) }
    ensures count { IfOk result (λ sets. pos (length sets.items) ≡ rank_sum K.ring K.numbers arr.now size *ℤ sign size) }
    ensures few { OnOk result (length (nbc_sets_of_size K.ring K.numbers arr.now size) ≤ most) }
    ensures stop { IfErr result (λ e. (e ≡ NbcStop.Memory) ⊎ (most < length (nbc_sets_of_size K.ring K.numbers arr.now size))) }
{
    let _lawful = arr.len();
    wanted_sets(alloc, arr, Some(size), most)
}
