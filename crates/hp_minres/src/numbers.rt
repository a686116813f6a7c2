//! Betti numbers.

ghost use Rattle.std.specs.Prelude.{◌≡◌, ◌==◌, IfOk, map};
ghost use Rattle.hp_module.specs.Divisions.{tally};
ghost use Rattle.hp_resolution.specs.Resolutions.{betti_numbers, degree_counts, highest};

use hp_algebra::{Field, NoMem};
use hp_resolution::MinRes;
use std::alloc::Global;

/// The greatest of the degrees, and 0 where there is none.
fn highest(degrees: &[u32]) -> u32
    ensures { result ≡ highest degrees.now }
{
    let mut most = 0;
    for k in (0..degrees.len()).rev() {
        most = degrees[k].max(most);
    }
    most
}

/// How many of the degrees are `d`.
fn count(degrees: &[u32], d: usize) -> usize
    ensures { result ≡ tally (λ e. e == d) degrees.now }
{
    let mut many = 0;
    for k in (0..degrees.len()).rev() {
        if degrees[k] as usize == d {
            many += 1;
        }
    }
    many
}

/// How many of the degrees are d, for d from 0 up to the highest.
///
/// Errors: `NoMem` where memory is out.
fn counts(alloc: Global, degrees: &[u32]) -> Result<Vec<usize>, NoMem>
    ensures { IfOk result (λ r. r.items ≡ degree_counts degrees.now) }
{
    let most = highest(degrees) as usize;
    let mut numbers = Vec::new(alloc);
    for d in 0..most + 1 {
        numbers.push(count(degrees, d))?;
    }
    Ok(numbers)
}

/// The Betti numbers: for each map, how many rows it has of each degree, from 0 up to the highest.
///
/// Errors: `NoMem` where memory is out.
pub fn betti<F: Field>(alloc: Global, res: &MinRes<F>) -> Result<Vec<Vec<usize>>, NoMem>
    ensures { IfOk result (λ r. map (λ numbers. numbers.items) r.items ≡ betti_numbers res.now) }
{
    let mut numbers = Vec::new(alloc);
    let all = res.degrees();
    for degrees in all {
        let row = counts(alloc, degrees.as_slice())?;
        numbers.push(row)?;
    }
    Ok(numbers)
}
