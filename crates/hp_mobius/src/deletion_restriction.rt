//! The Poincaré polynomials of an arrangement, of its deletion and of its restriction.

ghost use Rattle.std.specs.Prelude.{◌≡◌, ◌⊎◌, ◌<◌, ◌≤◌, IfOk, IfErr, OnOk, length};
ghost use Rattle.hp_arr.specs.Flats.{flats};
ghost use Rattle.hp_arr.specs.Moebius.{poincare};
ghost use Rattle.hp_arr.specs.Operations.{restriction, deletion};
ghost use Rattle.hp_flats.specs.Bounds.{most_flats};
ghost use Rattle.hp_mobius.specs.Triples.{AddsUp};

use crate::polynomials::poincare;
use hp_algebra::{FiniteField, List};
use hp_arr::Aff;
use hp_flats::FlatStop;
use std::alloc::Global;

/// The coefficients of the Poincaré polynomials of an arrangement, of its deletion and of its restriction, each from
/// degree 0 to the rank.
#[derive(Drop)]
pub struct TriplePi {
    pub whole: List<i64>,
    pub deleted: List<i64>,
    pub restricted: List<i64>,
}

/// The Poincaré polynomials of the arrangement, of the arrangement without hyperplane `i`, and of the restriction to
/// it, with `i` from 1. Coefficient k of the first is the sum of coefficient k of the second and coefficient k - 1 of
/// the third.
///
/// Errors: `TooMany` exactly where the arrangement has more than `MOST_FLATS` flats; `Memory` where memory is out.
pub fn triple<K: FiniteField>(alloc: Global, aff: &Aff<K>, i: u32) -> Result<TriplePi, FlatStop>
    requires low { 1 ≤ i }
    requires high { i ≤ length aff.now.forms }
    requires dim { 2 ≤ aff.now.dim }
    ensures whole { IfOk result (λ t. t.whole ≡ poincare K.ring K.numbers aff.now) }
    ensures deleted { IfOk result (λ t. t.deleted ≡ poincare K.ring K.numbers (deletion aff.now i)) }
    ensures restricted { IfOk result (λ t. t.restricted ≡ poincare K.ring K.numbers (restriction K.ring K.inverse aff.now i)) }
    ensures law { IfOk result (λ t. AddsUp t.whole t.deleted t.restricted) }
    ensures few { OnOk result (length (flats K.ring K.numbers aff.now) ≤ most_flats) }
    ensures stop { IfErr result (λ e. (e ≡ FlatStop.Memory) ⊎ (most_flats < length (flats K.ring K.numbers aff.now))) }
{
    let _dim = aff.dim();
    let whole = List::of(poincare(alloc, aff)?);
    let deletion = aff.delete(alloc, i)?;
    let deleted = pi_of_smaller(alloc, aff, &deletion)?;
    let restriction = aff.restrict(alloc, i)?;
    let restricted = pi_of_smaller(alloc, aff, &restriction)?;
    Ok(TriplePi {
        whole,
        deleted,
        restricted,
    })
}

/// The coefficients of the Poincaré polynomial of an arrangement that has no more flats than the first.
fn pi_of_smaller<K: FiniteField>(
    alloc: Global,
    _aff: &Aff<K>,
    smaller: &Aff<K>,
) -> Result<List<i64>, FlatStop>
    requires { length (flats K.ring K.numbers smaller.now) ≤ length (flats K.ring K.numbers _aff.now) }
    ensures value { IfOk result (λ pi. pi ≡ poincare K.ring K.numbers smaller.now) }
    ensures stop { IfErr result (λ e. (e ≡ FlatStop.Memory) ⊎ (most_flats < length (flats K.ring K.numbers _aff.now))) }
{
    match poincare(alloc, smaller) {
        Ok(pi) => Ok(List::of(pi)),
        Err(stop) => Err(stop),
    }
}
