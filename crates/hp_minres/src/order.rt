//! Degrees in order.

ghost use Rattle.std.specs.Prelude.{◌≡◌, ◌<◌, All, IfOk, IsTrue, length};
ghost use Rattle.std.specs.List.Sorted.{IsNonDecreasing};
ghost use Rattle.hp_lists.specs.Lists.{below};
ghost use Rattle.hp_minres.specs.Reductions.{IsDegreeOrder, degrees_in};

use hp_algebra::NoMem;
use hp_lists::List;
use std::alloc::Global;

/// The numbers below n.
///
/// Errors: `NoMem` where memory is out.
pub(crate) fn places(alloc: Global, n: usize) -> Result<Vec<usize>, NoMem>
    ensures { IfOk result (λ r. r.items ≡ below n) }
{
    let mut numbers = Vec::new(alloc);
    for k in 0..n {
        numbers.push(k)?;
    }
    Ok(numbers)
}

/// The places of the degrees, lower degrees first.
///
/// Errors: `NoMem` where memory is out.
fn by_degree(alloc: Global, degrees: &[u32]) -> Result<Vec<usize>, NoMem>
    ensures { IfOk result (λ r. IsDegreeOrder degrees.now r.items) }
{
    let mut keys = Vec::new(alloc);
    for k in 0..degrees.len() {
        keys.push((degrees[k], k))?;
    }
    keys.sort_unstable();
    let mut order = Vec::new(alloc);
    for k in 0..keys.len() {
        order.push(keys[k].1)?;
    }
    Ok(order)
}

/// An order in which the degrees do not fall. It is the one that they have, where it is to be kept.
///
/// Errors: `NoMem` where memory is out.
pub(crate) fn degree_order(alloc: Global, degrees: &[u32], keep: bool) -> Result<List<usize>, NoMem>
    requires { IsTrue keep → IsNonDecreasing degrees.now }
    ensures order { IfOk result (λ r. IsDegreeOrder degrees.now r) }
    ensures kept { IfOk result (λ r. IsTrue keep → r ≡ below (length degrees.now)) }
{
    if keep {
        let kept = places(alloc, degrees.len())?;
        return Ok(List::of(kept));
    }
    let sorted = by_degree(alloc, degrees)?;
    Ok(List::of(sorted))
}

/// The degrees in this order.
///
/// Errors: `NoMem` where memory is out.
pub(crate) fn degrees_in_order(
    alloc: Global,
    degrees: &[u32],
    order: &[usize],
) -> Result<List<u32>, NoMem>
    requires { All (λ i. i < length degrees.now) order.now }
    ensures { IfOk result (λ r. r ≡ degrees_in degrees.now order.now) }
{
    let mut sorted = Vec::new(alloc);
    for i in order {
        sorted.push(degrees[*i])?;
    }
    Ok(List::of(sorted))
}
