//! All circuits of an arrangement.

ghost use Rattle.std.specs.Prelude.{◌≡◌, ◌⊎◌, ◌<◌, ◌≤◌, ◌↔◌, IfOk, IfErr, OnOk, IsTrue, Contains, length};
ghost use Rattle.std.specs.List.Sorted.{IsStrictlySortedBy};
ghost use Rattle.hp_arr.specs.Circuits.{circuits};
ghost use Rattle.hp_arr.specs.Flats.{is_circuit};
ghost use Rattle.hp_circuits.specs.Bounds.{most_circuits};
ghost use Rattle.hp_sets.specs.Sets.{Set, IsSetWithin, cmp_listed};

use crate::circuit_search::{all_forms, extend};
use crate::stop::CircuitStop;
use hp_algebra::FiniteField;
use hp_arr::Arr;
use hp_sets::HSet;
use std::alloc::Global;

/// The circuits of the arrangement, which are its minimal dependent sets: each once, by size and then in lexicographic
/// order.
///
/// Errors: `TooMany` exactly where there are more than `MOST_CIRCUITS` circuits; `Memory` where memory is out.
pub fn circuits<K: FiniteField>(alloc: Global, arr: &Arr<K>) -> Result<Vec<HSet>, CircuitStop>
    ensures value { IfOk result (λ sets. sets.items ≡ circuits K.ring K.numbers arr.now) }
    ensures members { IfOk result (λ sets. (s : Set) → Contains sets.items s ↔ (IsSetWithin (length arr.now.forms) s × IsTrue (is_circuit K.ring K.numbers arr.now s))) }
    ensures rising { IfOk result (λ sets. IsStrictlySortedBy cmp_listed sets.items) }
    ensures few { OnOk result (length (circuits K.ring K.numbers arr.now) ≤ most_circuits) }
    ensures stop { IfErr result (λ e. (e ≡ CircuitStop.Memory) ⊎ (most_circuits < length (circuits K.ring K.numbers arr.now))) }
{
    let _lawful = arr.len();
    let later = all_forms(alloc, arr)?;
    let mut found = Vec::new(alloc);
    extend(alloc, HSet::empty(), &later, &mut found)?;
    found.sort_unstable();
    Ok(found)
}
