//! All flats of an arrangement.

ghost use Rattle.std.specs.Prelude.{◌≡◌, ◌⊎◌, ◌<◌, ◌≤◌, ◌↔◌, IfOk, IfErr, OnOk, Contains, length, map};
ghost use Rattle.std.specs.List.Sorted.{IsStrictlySortedBy};
ghost use Rattle.hp_arr.specs.Flats.{cmp_ranked, flats, rank, IsFlat};
ghost use Rattle.hp_flats.specs.Bounds.{most_flats};
ghost use Rattle.hp_sets.specs.declared.flat.Flat.{Flat};

use crate::levels::{Covered, flats_with_covers};
use crate::stop::FlatStop;
use hp_algebra::{FiniteField, NoMem};
use hp_arr::Aff;
use hp_sets::Flat;
use std::alloc::Global;

/// Every flat of the arrangement once, with its rank, by rank and then as sets are listed.
///
/// Errors: `TooMany` exactly where there are more than `MOST_FLATS` flats; `Memory` where memory is out.
pub fn flats<K: FiniteField>(alloc: Global, aff: &Aff<K>) -> Result<Vec<Flat>, FlatStop>
    ensures value { IfOk result (λ fs. fs.items ≡ flats K.ring K.numbers aff.now) }
    ensures members { IfOk result (λ fs. (f : Flat) → Contains fs.items f ↔ (IsFlat K.ring K.numbers aff.now f.set × (f.rank ≡ rank K.ring K.numbers aff.now f.set))) }
    ensures rising { IfOk result (λ fs. IsStrictlySortedBy cmp_ranked fs.items) }
    ensures few { OnOk result (length (flats K.ring K.numbers aff.now) ≤ most_flats) }
    ensures stop { IfErr result (λ e. (e ≡ FlatStop.Memory) ⊎ (most_flats < length (flats K.ring K.numbers aff.now))) }
{
    let covered = flats_with_covers(alloc, aff)?;
    Ok(flats_of(alloc, &covered)?)
}

/// The flats without their covers.
fn flats_of(alloc: Global, covered: &[Covered]) -> Result<Vec<Flat>, NoMem>
    ensures { IfOk result (λ fs. fs.items ≡ map (λ c. c.flat) covered.now) }
{
    let mut flats = Vec::with_capacity(alloc, covered.len())?;
    for one in covered {
        flats.push(one.flat)?;
    }
    Ok(flats)
}
