//! The edges of a graph, and the first that makes it no simple graph.

ghost use Rattle.std.specs.Prelude.{◌≡◌, ◌-◌, ◌<◌, ◌≤◌, ◌^◌, ◌&&◌, nat_le, min, max, map, length, take, slice_index_or, IfOk};
ghost use Rattle.hp_lists.specs.Lists.{list_any};
ghost use Rattle.hp_build.specs.Families.{graphic};
ghost use Rattle.hp_build.specs.Graphs.{same_edge, is_bad_edge, bad_edge};

use crate::rows::differences;
use hp_algebra::{Field, List, NoMem};
use std::alloc::Global;

/// The number of the first bad edge, counted from 1.
pub fn find_bad_edge(v: u32, edges: &[(u64, u64)]) -> Option<u32>
    requires { length edges.now < 2 ^ 32 - 1 }
    ensures { result ≡ bad_edge v edges.now }
{
    for k in 1..edges.len() as u32 + 1 {
        let place = k as usize - 1;
        if is_bad_edge(v, &edges[..place], edges[place]) {
            return Some(k);
        }
    }
    None
}

/// Whether the edge is a loop, has an end outside 1 to `v`, or joins the vertices of an earlier one.
fn is_bad_edge(v: u32, earlier: &[(u64, u64)], edge: (u64, u64)) -> bool
    ensures { result ≡ is_bad_edge v earlier.now edge }
{
    edge.0 == edge.1 || !is_inside(v, edge) || repeats(earlier, edge)
}

/// Whether both ends are from 1 to `v`.
fn is_inside(v: u32, edge: (u64, u64)) -> bool
    ensures { result ≡ nat_le 1 (min edge.0 edge.1) && nat_le (max edge.0 edge.1) v }
{
    1 <= edge.0.min(edge.1) && edge.0.max(edge.1) <= v as u64
}

/// Whether one of the earlier edges joins the same vertices.
fn repeats(earlier: &[(u64, u64)], edge: (u64, u64)) -> bool
    ensures { result ≡ list_any (same_edge edge) earlier.now }
{
    earlier.iter().any(|e| same_edge(edge, *e))
}

/// Whether the two edges join the same vertices.
fn same_edge(left: (u64, u64), right: (u64, u64)) -> bool
    ensures { result ≡ same_edge left right }
{
    left.0.min(left.1) == right.0.min(right.1) && left.0.max(left.1) == right.0.max(right.1)
}

/// The ends of each edge, the lesser one first.
fn rising_ends(alloc: Global, edges: &[(u64, u64)]) -> Result<Vec<(u64, u64)>, NoMem>
    ensures { IfOk result (λ ends. ends.items ≡ map (λ e. (min e.0 e.1, max e.0 e.1)) edges.now) }
{
    Ok(
        edges
            .iter()
            .map(|e| (e.0.min(e.1), e.0.max(e.1)))
            .collect(alloc)?,
    )
}

/// For each edge, with ends i < j, x_i - x_j in `v` variables.
pub fn edge_forms<K: Field>(
    alloc: Global,
    v: u32,
    edges: &[(u64, u64)],
) -> Result<Vec<List<K>>, NoMem>
    ensures { IfOk result (λ forms. forms.items ≡ (graphic K.ring v edges.now).forms) }
{
    let ends = rising_ends(alloc, edges)?;
    differences(alloc, v, &ends)
}
