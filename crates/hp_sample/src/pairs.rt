//! The pairs of vertices.

ghost use Rattle.std.specs.Prelude.{◌≡◌, ◌++◌, nat_lt, map, filter, IfOk};
ghost use Rattle.hp_lists.specs.Lists.{one_to};
ghost use Rattle.hp_sample.specs.Sample.{vertex_pairs};

use hp_algebra::NoMem;
use std::alloc::Global;

/// The pairs a < b of 1 to `v`, in lexicographic order.
pub fn vertex_pairs(alloc: Global, v: u32) -> Result<Vec<(u64, u64)>, NoMem>
    ensures { IfOk result (λ found. found.items ≡ vertex_pairs v) }
{
    let mut found = Vec::new(alloc);
    for a in 1..v as u64 + 1 {
        found.append(&mut pairs_from(alloc, v, a)?)?;
    }
    Ok(found)
}

/// Those whose first vertex is a.
fn pairs_from(alloc: Global, v: u32, a: u64) -> Result<Vec<(u64, u64)>, NoMem>
    ensures { IfOk result (λ found. found.items ≡ map (λ b. (a, b)) (filter (nat_lt a) (one_to v))) }
{
    Ok(
        (1..v as u64 + 1)
            .filter(|b| a < *b)
            .map(|b| (a, b))
            .collect(alloc)?,
    )
}
