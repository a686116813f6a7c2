//! The multiplicities of a question about derivations.

ghost use Rattle.std.specs.Prelude.{◌≡◌, ◌≤◌, All, IfErr, IfOk, None, OnOk, length, map, replicate, true};
ghost use Rattle.hp_lists.specs.Lists.{list_all};
ghost use Rattle.hp_der.specs.DerivationModules.{most_multiplicity};
ghost use Rattle.hp_session.specs.Multiplicities.{is_multiplicity, multiplicities, multiplicities_refusal, multiplicity};
ghost use Rattle.hp_session.specs.Stops.{StopsBy};

use crate::stop::Stop;
use hp_algebra::{FiniteField, NoMem};
use hp_arr::Arr;
use hp_render::Refusal;
use hp_script::Row;
use std::alloc::Global;

/// The greatest multiplicity.
const MOST_MULTIPLICITY: i64 = 20;

/// The multiplicities that are written, or else 1 for each hyperplane; refused where they are not as many as the
/// hyperplanes, or one is not from 0 to 20.
pub(crate) fn multiplicities<K: FiniteField>(
    alloc: Global,
    arr: &Arr<K>,
    row: &Option<Row>,
) -> Result<Vec<u32>, Stop>
    ensures accepted { OnOk result (multiplicities_refusal arr.now row.now ≡ None) }
    ensures value { IfOk result (λ m. m.items ≡ multiplicities arr.now row.now) }
    ensures many { IfOk result (λ m. length m.items ≡ length arr.now.forms) }
    ensures within { IfOk result (λ m. All (λ n. n ≤ most_multiplicity) m.items) }
    ensures stop { IfErr result (StopsBy (multiplicities_refusal arr.now row.now)) }
{
    match row {
        None => Ok(ones(alloc, arr.len())?),
        Some(row) => {
            let numbers = row.numbers();
            if numbers.len() != arr.len() as usize || !are_multiplicities(numbers) {
                return Err(Stop::Refused(Refusal::BadList));
            }
            Ok(taken(alloc, numbers)?)
        }
    }
}

/// That many ones.
fn ones(alloc: Global, many: u32) -> Result<Vec<u32>, NoMem>
    ensures { IfOk result (λ m. m.items ≡ replicate many 1) }
{
    let mut ones = Vec::new(alloc);
    for _ in 0..many {
        ones.push(1)?;
    }
    Ok(ones)
}

/// Whether each integer is from 0 to 20.
fn are_multiplicities(numbers: &[i64]) -> bool
    ensures { result ≡ list_all is_multiplicity numbers.now }
{
    for n in numbers {
        if !is_multiplicity(*n) {
            return false;
        }
    }
    true
}

/// Whether the integer is from 0 to 20.
fn is_multiplicity(n: i64) -> bool
    ensures { result ≡ is_multiplicity n }
{
    0 <= n && n <= MOST_MULTIPLICITY
}

/// The integers as numbers.
fn taken(alloc: Global, numbers: &[i64]) -> Result<Vec<u32>, NoMem>
    requires { list_all is_multiplicity numbers.now ≡ true }
    ensures { IfOk result (λ m. m.items ≡ map multiplicity numbers.now) }
{
    let mut taken = Vec::with_capacity(alloc, numbers.len())?;
    for n in numbers {
        taken.push(number(*n))?;
    }
    Ok(taken)
}

/// A multiplicity as a number.
fn number(n: i64) -> u32
    requires { is_multiplicity n ≡ true }
    ensures { result ≡ multiplicity n }
{
    n as u32
}
