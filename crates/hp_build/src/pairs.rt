//! The pairs of numbers from 1 to l.

ghost use Rattle.std.specs.Prelude.{◌≡◌, ◌≤◌, ◌++◌, nat_lt, map, filter, IfOk, IsOk};
ghost use Rattle.hp_lists.specs.Lists.{one_to};
ghost use Rattle.hp_build.specs.Families.{pairs};

use hp_algebra::NoMem;
use std::alloc::Global;

/// The pairs i < j of 1 to `l`, in lexicographic order.
pub fn pairs(alloc: Global, l: u32) -> Result<Vec<(u64, u64)>, NoMem>
    ensures { IfOk result (λ found. found.items ≡ pairs l) }
{
    let mut found = Vec::new(alloc);
    for i in 1..l as u64 + 1 {
        found.append(&mut pairs_from(alloc, l, i)?)?;
    }
    Ok(found)
}

/// Those whose first number is i.
fn pairs_from(alloc: Global, l: u32, i: u64) -> Result<Vec<(u64, u64)>, NoMem>
    ensures { IfOk result (λ found. found.items ≡ map (λ j. (i, j)) (filter (nat_lt i) (one_to l))) }
{
    Ok(
        (1..l as u64 + 1)
            .filter(|j| i < *j)
            .map(|j| (i, j))
            .collect(alloc)?,
    )
}
