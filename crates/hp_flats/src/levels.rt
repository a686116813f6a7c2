//! All flats with their covers, rank by rank.

ghost use Rattle.std.specs.Prelude.{◌≡◌, ◌⊎◌, ◌+◌, ◌<◌, ◌≤◌, IfOk, IfErr, OnOk, All, length, map};
ghost use Rattle.hp_arr.specs.Arrangement.{IsAffineArrangement};
ghost use Rattle.hp_arr.specs.Flats.{flats};
ghost use Rattle.hp_flats.specs.Covers.{IsCoverList};
ghost use Rattle.hp_flats.specs.Levels.{IsLevel, flats_below};
ghost use Rattle.hp_flats.specs.Bounds.{most_flats};

use crate::covers::covers_of;
use crate::stop::{FlatStop, MOST_FLATS};
use crate::values::unit_values;
use hp_algebra::{FiniteField, List, NoMem};
use hp_arr::Aff;
use hp_sets::{Flat, HSet};
use std::alloc::Global;
use std::collections::BTreeMap;

/// A flat, and the flats that cover it: those of one rank more that contain it.
#[derive(Drop)]
pub struct Covered {
    pub flat: Flat,
    pub covers: List<HSet>,
}

/// Every flat once, in the order of `flats`, each with the flats that cover it, of which each is named once.
///
/// Rank by rank: with each flat the values of all rows, and of the last coordinate, at points of the cone that decide which
/// hyperplanes contain it are kept. Where these values are proportional, two rows outside come in together, so they give all
/// covers of the flat at once; a row with values proportional to those of the last coordinate does not meet the flat.
///
/// Errors: `TooMany` exactly where there are more than `MOST_FLATS` flats; `Memory` where memory is out.
pub fn flats_with_covers<K: FiniteField>(
    alloc: Global,
    aff: &Aff<K>,
) -> Result<Vec<Covered>, FlatStop>
    ensures flats { IfOk result (λ cs. map (λ c. c.flat) cs.items ≡ flats K.ring K.numbers aff.now) }
    ensures covers { IfOk result (λ cs. All (λ c. IsCoverList K.ring K.numbers aff.now c.flat.set c.covers) cs.items) }
    ensures few { OnOk result (length (flats K.ring K.numbers aff.now) ≤ most_flats) }
    ensures stop { IfErr result (λ e. (e ≡ FlatStop.Memory) ⊎ (most_flats < length (flats K.ring K.numbers aff.now))) }
    ensures lawful { IsAffineArrangement K.ring K.numbers aff.now }
{
    let dim = aff.dim();
    let mut listed = Vec::new(alloc);
    let mut level = Vec::new(alloc);
    level.push((HSet::empty(), unit_values(alloc, aff)?))?;
    for rank in 0..dim + 1 {
        level = next_level(alloc, aff, rank, &level, &mut listed)?;
    }
    Ok(listed)
}

/// Lists the flats of this rank with their covers, and answers the flats of the next rank, in order and with values.
fn next_level<K: FiniteField>(
    alloc: Global,
    aff: &Aff<K>,
    rank: u32,
    level: &[(HSet, List<List<K>>)],
    listed: &mut Vec<Covered>,
) -> Result<Vec<(HSet, List<List<K>>)>, FlatStop>
    requires rank { rank ≤ aff.now.dim }
    requires level { IsLevel K.ring K.numbers aff.now rank level.now }
    requires few { length listed.old.items + length level.now ≤ most_flats }
    requires flats { map (λ c. c.flat) listed.old.items ≡ flats_below K.ring K.numbers aff.now rank }
    requires covers { All (λ c. IsCoverList K.ring K.numbers aff.now c.flat.set c.covers) listed.old.items }
    ensures level { IfOk result (λ next. IsLevel K.ring K.numbers aff.now (rank + 1) next.items) }
    ensures few { IfOk result (λ next. length listed.new.items + length next.items ≤ most_flats) }
    ensures flats { OnOk result (map (λ c. c.flat) listed.new.items ≡ flats_below K.ring K.numbers aff.now (rank + 1)) }
    ensures covers { OnOk result (All (λ c. IsCoverList K.ring K.numbers aff.now c.flat.set c.covers) listed.new.items) }
    ensures stop { IfErr result (λ e. (e ≡ FlatStop.Memory) ⊎ (most_flats < length (flats K.ring K.numbers aff.now))) }
{
    let _lawful = aff.len();
    let room = MOST_FLATS - listed.len() - level.len();
    let mut next = BTreeMap::new(alloc);
    for entry in level {
        let set = entry.0;
        let covers = covers_of(alloc, aff, set, entry.1.as_slice(), &mut next, room)?;
        let flat = Flat { rank, set };
        listed.push(Covered { flat, covers })?;
    }
    Ok(entries_of(alloc, next)?)
}

/// The entries of the map in order.
fn entries_of<V: Drop>(alloc: Global, map: BTreeMap<HSet, V>) -> Result<Vec<(HSet, V)>, NoMem>
    ensures { IfOk result (λ entries. entries.items ≡ map.entries) }
{
    Ok(map.into_iter().collect(alloc)?)
}
