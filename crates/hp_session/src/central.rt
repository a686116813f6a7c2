//! The rank, the flats and the polynomials of a central arrangement: those of its forms with constants zero.

ghost use Rattle.std.specs.Prelude.{◌≡◌, ◌⊎◌, ◌≤◌, ◌<◌, IfOk, IfErr, OnOk, length};
ghost use Rattle.hp_arr.specs.Flats.{flats, total_rank};
ghost use Rattle.hp_arr.specs.Moebius.{characteristic, poincare};
ghost use Rattle.hp_arr.specs.Operations.{deletion, restriction};
ghost use Rattle.hp_flats.specs.Bounds.{most_flats};

use hp_algebra::{FiniteField, NoMem};
use hp_arr::{Aff, Arr};
use hp_flats::FlatStop;
use hp_mobius::TriplePi;
use hp_sets::Flat;
use std::alloc::Global;

/// The rank of the arrangement.
pub fn total_rank<K: FiniteField>(alloc: Global, arr: &Arr<K>) -> Result<u32, NoMem>
    ensures { IfOk result (λ r. r ≡ total_rank K.ring K.numbers arr.now) }
{
    let _lawful = arr.len();
    let aff = Aff::of(alloc, arr)?;
    hp_flats::total_rank(alloc, &aff)
}

/// Its flats.
pub fn flats<K: FiniteField>(alloc: Global, arr: &Arr<K>) -> Result<Vec<Flat>, FlatStop>
    ensures value { IfOk result (λ fs. fs.items ≡ flats K.ring K.numbers arr.now) }
    ensures few { OnOk result (length (flats K.ring K.numbers arr.now) ≤ most_flats) }
    ensures stop { IfErr result (λ e. (e ≡ FlatStop.Memory) ⊎ (most_flats < length (flats K.ring K.numbers arr.now))) }
{
    let _lawful = arr.len();
    let aff = Aff::of(alloc, arr)?;
    hp_flats::flats(alloc, &aff)
}

/// The coefficients of its Poincaré polynomial.
pub fn poincare<K: FiniteField>(alloc: Global, arr: &Arr<K>) -> Result<Vec<i64>, FlatStop>
    ensures value { IfOk result (λ pi. pi.items ≡ poincare K.ring K.numbers arr.now) }
    ensures few { OnOk result (length (flats K.ring K.numbers arr.now) ≤ most_flats) }
    ensures stop { IfErr result (λ e. (e ≡ FlatStop.Memory) ⊎ (most_flats < length (flats K.ring K.numbers arr.now))) }
{
    let _lawful = arr.len();
    let aff = Aff::of(alloc, arr)?;
    hp_mobius::poincare(alloc, &aff)
}

/// The coefficients of its characteristic polynomial.
pub fn characteristic<K: FiniteField>(alloc: Global, arr: &Arr<K>) -> Result<Vec<i64>, FlatStop>
    ensures value { IfOk result (λ chi. chi.items ≡ characteristic K.ring K.numbers arr.now) }
    ensures few { OnOk result (length (flats K.ring K.numbers arr.now) ≤ most_flats) }
    ensures stop { IfErr result (λ e. (e ≡ FlatStop.Memory) ⊎ (most_flats < length (flats K.ring K.numbers arr.now))) }
{
    let _lawful = arr.len();
    let aff = Aff::of(alloc, arr)?;
    hp_mobius::characteristic(alloc, &aff)
}

/// The Poincaré polynomials of the arrangement, of its deletion and of its restriction at hyperplane `i`.
pub fn triple<K: FiniteField>(alloc: Global, arr: &Arr<K>, i: u32) -> Result<TriplePi, FlatStop>
    requires low { 1 ≤ i }
    requires high { i ≤ length arr.now.forms }
    requires dim { 2 ≤ arr.now.dim }
    ensures whole { IfOk result (λ t. t.whole ≡ poincare K.ring K.numbers arr.now) }
    ensures deleted { IfOk result (λ t. t.deleted ≡ poincare K.ring K.numbers (deletion arr.now i)) }
    ensures restricted { IfOk result (λ t. t.restricted ≡ poincare K.ring K.numbers (restriction K.ring K.inverse arr.now i)) }
    ensures few { OnOk result (length (flats K.ring K.numbers arr.now) ≤ most_flats) }
    ensures stop { IfErr result (λ e. (e ≡ FlatStop.Memory) ⊎ (most_flats < length (flats K.ring K.numbers arr.now))) }
{
    let _lawful = arr.len();
    let aff = Aff::of(alloc, arr)?;
    hp_mobius::triple(alloc, &aff, i)
}
