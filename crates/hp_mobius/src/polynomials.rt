//! The Poincaré and the characteristic polynomial of an arrangement.

ghost use Rattle.std.specs.Prelude.{◌≡◌, ◌⊎◌, ◌<◌, ◌≤◌, ◌==◌, if◌then◌else◌, pos, ◌+ℤ◌, ◌*ℤ◌, IfOk, IfErr, OnOk, length, map};
ghost use Rattle.hp_algebra.specs.Integers.{sign};
ghost use Rattle.hp_arr.specs.Arrangement.{IsAffineArrangement};
ghost use Rattle.hp_arr.specs.Flats.{flats};
ghost use Rattle.hp_arr.specs.Moebius.{characteristic, mobius, poincare, rank_sum};
ghost use Rattle.hp_flats.specs.Bounds.{most_flats};
ghost use Rattle.hp_mobius.specs.Partial.{IsSmall};

use crate::values::moebius;
use hp_algebra::FiniteField;
use hp_arr::Aff;
use hp_flats::{FlatStop, total_rank};
use hp_sets::Flat;
use std::alloc::Global;

/// The coefficients of the Poincaré polynomial, from degree 0 to the rank of the arrangement: that of degree k is
/// (-1)^k times the sum of the Möbius values of the flats of rank k.
///
/// Errors: `TooMany` exactly where there are more than `MOST_FLATS` flats; `Memory` where memory is out.
pub fn poincare<K: FiniteField>(alloc: Global, aff: &Aff<K>) -> Result<Vec<i64>, FlatStop>
    ensures value { IfOk result (λ pi. pi.items ≡ poincare K.ring K.numbers aff.now) }
    ensures few { OnOk result (length (flats K.ring K.numbers aff.now) ≤ most_flats) }
    ensures stop { IfErr result (λ e. (e ≡ FlatStop.Memory) ⊎ (most_flats < length (flats K.ring K.numbers aff.now))) }
{
    let values = moebius(alloc, aff)?;
    let _dim = aff.dim();
    let rank = total_rank(alloc, aff)?;
    let mut coefficients = Vec::new(alloc);
    for k in 0..rank + 1 {
        coefficients.push(signed(rank_total(aff, &values, k), k))?;
    }
    Ok(coefficients)
}

/// The coefficients of the characteristic polynomial, from degree 0 to the dimension: that of the dimension less k is
/// the sum of the Möbius values of the flats of rank k.
///
/// Errors: `TooMany` exactly where there are more than `MOST_FLATS` flats; `Memory` where memory is out.
pub fn characteristic<K: FiniteField>(alloc: Global, aff: &Aff<K>) -> Result<Vec<i64>, FlatStop>
    ensures value { IfOk result (λ chi. chi.items ≡ characteristic K.ring K.numbers aff.now) }
    ensures few { OnOk result (length (flats K.ring K.numbers aff.now) ≤ most_flats) }
    ensures stop { IfErr result (λ e. (e ≡ FlatStop.Memory) ⊎ (most_flats < length (flats K.ring K.numbers aff.now))) }
{
    let values = moebius(alloc, aff)?;
    let dim = aff.dim();
    let mut coefficients = Vec::new(alloc);
    for k in 0..dim + 1 {
        coefficients.push(rank_total(aff, &values, dim - k))?;
    }
    Ok(coefficients)
}

/// The sum of the values of the flats of one rank.
fn rank_total<K: FiniteField>(aff: &Aff<K>, values: &[(Flat, i64)], rank: u32) -> i64
    requires { values.now ≡ map (λ f. (f, mobius K.ring K.numbers aff.now f.set)) (flats K.ring K.numbers aff.now) }
    ensures value { result ≡ rank_sum K.ring K.numbers aff.now rank }
    ensures small { IsSmall result }
    ensures lawful { IsAffineArrangement K.ring K.numbers aff.now }
{
    let _dim = aff.dim();
    let mut total = 0;
    for k in 0..values.len() {
        total = sum_of(total, value_at(values[k], rank));
    }
    total
}

/// The value of the flat where it has this rank, and else 0.
fn value_at(entry: (Flat, i64), rank: u32) -> i64
    ensures { result ≡ (if entry.0.rank == rank then entry.1 else pos 0) }
{
    let (flat, value) = entry;
    if flat.rank == rank { value } else { 0 }
}

/// The sum, which is small.
fn sum_of(a: i64, b: i64) -> i64
    requires { IsSmall (a +ℤ b) }
    ensures { result ≡ a +ℤ b }
{
    a + b
}

/// (-1)^k times the number.
fn signed(x: i64, k: u32) -> i64
    requires { IsSmall x }
    ensures { result ≡ x *ℤ sign k }
{
    if k % 2 == 0 { x } else { -x }
}
