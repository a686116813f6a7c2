//! The dimensions of the cohomology.

ghost use Rattle.std.specs.Prelude.{◌≡◌, ◌⊎◌, ◌<◌, ◌≤◌, IfOk, IfErr, OnOk, length};
ghost use Rattle.hp_arr.specs.Arrangement.{max_dim};
ghost use Rattle.hp_arr.specs.Circuits.{nbc_sets_of_size};
ghost use Rattle.hp_arr.specs.Flats.{total_rank};
ghost use Rattle.hp_aomoto.specs.AomotoCohomology.{AreAomotoNumbers, HasManyNbcSets, HasFewNbcSets};

use crate::products::{form, product_matrix};
use crate::stop::{AomotoStop, MOST_SETS};
use hp_algebra::{FiniteField, NoMem};
use hp_arr::{Aff, Arr};
use hp_circuits::{NbcStop, nbc_of_size};
use hp_flats::total_rank;
use hp_sets::HSet;
use std::alloc::Global;

/// The sets without broken circuit of one size, where they are at most 1,000.
fn sets_of<K: FiniteField>(alloc: Global, arr: &Arr<K>, k: u32) -> Result<Vec<HSet>, AomotoStop>
    ensures value { IfOk result (λ sets. sets.items ≡ nbc_sets_of_size K.ring K.numbers arr.now k) }
    ensures few { OnOk result (length (nbc_sets_of_size K.ring K.numbers arr.now k) ≤ 1000) }
    ensures stop { IfErr result (λ e. (e ≡ AomotoStop.Memory) ⊎ (1000 < length (nbc_sets_of_size K.ring K.numbers arr.now k))) }
{
    match nbc_of_size(alloc, arr, k, MOST_SETS) {
        Ok(sets) => Ok(sets),
        Err(NbcStop::TooMany) => Err(AomotoStop::TooMany),
        Err(NbcStop::Memory) => Err(AomotoStop::Memory),
    }
}

/// The greatest degree: the rank of the arrangement.
fn top_degree<K: FiniteField>(alloc: Global, arr: &Arr<K>) -> Result<u32, NoMem>
    ensures value { IfOk result (λ r. r ≡ total_rank K.ring K.numbers arr.now) }
    ensures low { IfOk result (λ r. r ≤ max_dim) }
{
    let _lawful = arr.len();
    let aff = Aff::of(alloc, arr)?;
    Ok(total_rank(alloc, &aff)?)
}

/// The dimensions of the cohomology of the Orlik-Solomon algebra under left multiplication by the sum of w_i e_i, for the
/// degrees from 0 to the rank. There is a weight for each hyperplane, in order.
///
/// Errors: `TooMany` exactly where for some k there are more than 1,000 sets of size k without broken circuit; `Memory`
/// where memory is out.
pub fn aomoto<K: FiniteField>(
    alloc: Global,
    arr: &Arr<K>,
    weights: &[K],
) -> Result<Vec<u32>, AomotoStop>
    requires many { length weights.now ≡ length arr.now.forms }
    ensures value { IfOk result (λ dimensions. AreAomotoNumbers K.ring K.numbers arr.now weights.now dimensions.items) }
    ensures few { OnOk result (HasFewNbcSets K.ring K.numbers arr.now 1000) }
    ensures stop { IfErr result (λ e. (e ≡ AomotoStop.Memory) ⊎ HasManyNbcSets K.ring K.numbers arr.now 1000) }
{
    let _lawful = arr.len();
    let top = top_degree(alloc, arr)?;
    let omega = form(alloc, arr, weights)?;
    let mut out: Vec<u32> = Vec::new(alloc);
    let mut sets = sets_of(alloc, arr, 0)?;
    let mut before: usize = 0;
    for k in 0..top + 1 {
        let next = sets_of(alloc, arr, k + 1)?;
        let m = product_matrix(
            alloc,
            arr,
            weights,
            &omega,
            sets.as_slice(),
            next.as_slice(),
            k,
        )?;
        let after = m.rank(alloc)?;
        out.push((sets.len() - before - after) as u32)?;
        before = after;
        sets = next;
    }
    Ok(out)
}
