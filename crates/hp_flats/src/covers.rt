//! The covers of one flat.

ghost use Rattle.std.specs.Prelude.{◌≡◌, ◌≢◌, ◌↔◌, ◌⊎◌, ℕ, ◌+◌, ◌<◌, ◌≤◌, IfOk, IfErr, OnOk, All, Contains, length, map, remove, slice_index_or, []};
ghost use Rattle.std.specs.BTreeMap.{keys};
ghost use Rattle.hp_arr.specs.Flats.{flats_of_rank, rank};
ghost use Rattle.hp_flats.specs.Levels.{AreOfRank, IsEntry, reduced};
ghost use Rattle.hp_flats.specs.Covers.{IsCoverList};
ghost use Rattle.hp_sets.specs.Sets.{Set};

use crate::stop::FlatStop;
use crate::values::{place_off, reduced_values, with_parallel};
use hp_algebra::{FiniteField, List};
use hp_arr::Aff;
use hp_sets::HSet;
use std::alloc::Global;
use std::collections::BTreeMap;

/// The flats that cover a flat, each once, in the order of the least hyperplane that comes in. Those that are new are
/// put to the flats of the next rank, with values; of these there are at most `room`.
pub fn covers_of<K: FiniteField>(
    alloc: Global,
    aff: &Aff<K>,
    set: HSet,
    rows: &[List<K>],
    next: &mut BTreeMap<HSet, List<List<K>>>,
    room: usize,
) -> Result<List<HSet>, FlatStop>
    requires entry { IsEntry K.ring K.numbers aff.now (rank K.ring K.numbers aff.now set) set rows.now }
    requires next { AreOfRank K.ring K.numbers aff.now (rank K.ring K.numbers aff.now set + 1) next.old.entries }
    requires room { length next.old.entries ≤ room }
    ensures covers { IfOk result (IsCoverList K.ring K.numbers aff.now set) }
    ensures next { OnOk result (AreOfRank K.ring K.numbers aff.now (rank K.ring K.numbers aff.now set + 1) next.new.entries) }
    ensures grows { OnOk result ((g : Set) → Contains (keys next.old) g → Contains (keys next.new) g) }
    ensures added { IfOk result (All (Contains (keys next.new))) }
    ensures room { OnOk result (length next.new.entries ≤ room) }
    ensures stop { IfErr result (λ e. (e ≡ FlatStop.Memory) ⊎ (room < length (flats_of_rank K.ring K.numbers aff.now (rank K.ring K.numbers aff.now set + 1)))) }
{
    let count = aff.len();
    let Some(p) = place_off(rows, count + 1) else {
        unreachable!()
    };
    let mut covered = with_parallel(set, set, rows, p, count + 1, 1, count);
    let mut covers = Vec::new(alloc);
    for i in 1..count + 1 {
        if covered.contains(i) {
            continue;
        }
        let Some(q) = place_off(rows, i) else {
            unreachable!()
        };
        let cover = with_parallel(set, covered, rows, q, i, i, count);
        put(alloc, aff, cover, rows, q, i, next, room)?;
        covered = covered.union(cover);
        covers.push(cover)?;
    }
    Ok(List::of(covers))
}

/// Puts the cover to the flats of its rank, unless it is there. Its values come from those of the flat that it covers.
fn put<K: FiniteField>(
    alloc: Global,
    aff: &Aff<K>,
    cover: HSet,
    rows: &[List<K>],
    q: usize,
    i: u32,
    next: &mut BTreeMap<HSet, List<List<K>>>,
    room: usize,
) -> Result<(), FlatStop>
    requires inside { q < length rows.now }
    requires low { 1 ≤ i }
    requires inside_i { i ≤ length (slice_index_or rows.now q []) }
    requires widths { All (λ row. length row ≡ length (slice_index_or rows.now q [])) rows.now }
    requires entry { IsEntry K.ring K.numbers aff.now (rank K.ring K.numbers aff.now cover) cover (map (reduced K.ring (slice_index_or rows.now q []) i) (remove rows.now q)) }
    requires next { AreOfRank K.ring K.numbers aff.now (rank K.ring K.numbers aff.now cover) next.old.entries }
    requires room { length next.old.entries ≤ room }
    ensures next { OnOk result (AreOfRank K.ring K.numbers aff.now (rank K.ring K.numbers aff.now cover) next.new.entries) }
    ensures keys { OnOk result ((g : Set) → Contains (keys next.new) g ↔ (Contains (keys next.old) g ⊎ (cover ≡ g))) }
    ensures room { OnOk result (length next.new.entries ≤ room) }
    ensures stop { IfErr result (λ e. (e ≡ FlatStop.Memory) ⊎ (room < length (flats_of_rank K.ring K.numbers aff.now (rank K.ring K.numbers aff.now cover)))) }
{
    let _lawful = aff.len();
    if next.contains_key(&cover) {
        return Ok(());
    }
    if next.len() >= room {
        return Err(FlatStop::TooMany);
    }
    next.insert(cover, reduced_values(alloc, rows, q, i)?)?;
    Ok(())
}
