//! The Möbius values of the flats.

ghost use Rattle.std.specs.Prelude.{◌≡◌, ◌≢◌, ◌⊎◌, ◌<◌, ◌≤◌, ◌+ℤ◌, neg_ℤ, Contains, IfOk, IfErr, OnOk, length, map};
ghost use Rattle.std.specs.List.{AllPairs};
ghost use Rattle.hp_arr.specs.Flats.{flats};
ghost use Rattle.hp_arr.specs.Moebius.{IsMobius, mobius};
ghost use Rattle.hp_flats.specs.Bounds.{most_flats};
ghost use Rattle.hp_mobius.specs.Partial.{IsAddedUp, IsShared, IsSmall, misses_least, noted, value_from};
ghost use Rattle.hp_sets.specs.Sets.{Set};

use hp_algebra::{FiniteField, NoMem};
use hp_arr::Aff;
use hp_flats::{FlatStop, flats_with_covers};
use hp_sets::{Flat, HSet};
use std::alloc::Global;
use std::collections::BTreeMap;

/// Every flat of the arrangement once, by rank and then as sets are listed, with its Möbius value: 1 for the empty
/// flat, and for every other flat minus the sum of the values of the flats properly within it.
///
/// It takes one addition for each flat and one that covers it: of the flats of one rank less within a flat, those count
/// that miss its least member.
///
/// Errors: `TooMany` exactly where there are more than `MOST_FLATS` flats; `Memory` where memory is out.
pub fn moebius<K: FiniteField>(alloc: Global, aff: &Aff<K>) -> Result<Vec<(Flat, i64)>, FlatStop>
    ensures value { IfOk result (λ values. values.items ≡ map (λ f. (f, mobius K.ring K.numbers aff.now f.set)) (flats K.ring K.numbers aff.now)) }
    ensures equations { IsMobius K.ring K.numbers aff.now (mobius K.ring K.numbers aff.now) }
    ensures few { OnOk result (length (flats K.ring K.numbers aff.now) ≤ most_flats) }
    ensures stop { IfErr result (λ e. (e ≡ FlatStop.Memory) ⊎ (most_flats < length (flats K.ring K.numbers aff.now))) }
{
    let covered = flats_with_covers(alloc, aff)?;
    let mut sums = BTreeMap::new(alloc);
    let mut values = Vec::new(alloc);
    for k in 0..covered.len() {
        let this = &covered[k];
        let flat = this.flat;
        let value = value_from(&sums, flat.set);
        share_value(&mut sums, flat.set, value, this.covers.as_slice())?;
        values.push((flat, value))?;
    }
    Ok(values)
}

/// The value of a flat, by its sum.
fn value_from(sums: &BTreeMap<HSet, i64>, set: HSet) -> i64
    ensures { result ≡ value_from sums.now set }
{
    if set.is_empty() {
        return 1;
    }
    noted(sums, set)
}

/// The sum noted for a set, and 0 where none is.
fn noted(sums: &BTreeMap<HSet, i64>, set: HSet) -> i64
    ensures { result ≡ noted sums.now set }
{
    match sums.get(&set) {
        Some(sum) => *sum,
        None => 0,
    }
}

/// Takes the value of the set `f` off the sums of those of its covers of which it misses the least member.
fn share_value(
    sums: &mut BTreeMap<HSet, i64>,
    f: HSet,
    value: i64,
    covers: &[HSet],
) -> Result<(), NoMem>
    requires once { AllPairs (λ g h. g ≢ h) covers.now }
    requires sums { (g : Set) → Contains covers.now g → IsSmall (noted sums.old g) }
    requires value { IsSmall value }
    ensures { OnOk result (IsShared f value covers.now (noted sums.old) (noted sums.new)) }
{
    for k in 0..covers.len() {
        let cover = covers[k];
        if misses_least(f, cover) {
            take_off(sums, cover, value)?;
        }
    }
    Ok(())
}

/// Whether `f` misses the least member of `g`; the empty set has none.
fn misses_least(f: HSet, g: HSet) -> bool
    ensures { result ≡ misses_least f g }
{
    match g.least() {
        Some(i) => !f.contains(i),
        None => true,
    }
}

/// Takes the value off the sum of the set.
fn take_off(sums: &mut BTreeMap<HSet, i64>, set: HSet, value: i64) -> Result<(), NoMem>
    requires sum { IsSmall (noted sums.old set) }
    requires value { IsSmall value }
    ensures taken { OnOk result (noted sums.new set ≡ noted sums.old set +ℤ neg_ℤ value) }
    ensures others { OnOk result ((h : Set) → h ≢ set → noted sums.new h ≡ noted sums.old h) }
{
    let sum = noted(sums, set);
    sums.insert(set, sum - value)?;
    Ok(())
}
