//! The arrangement of a graph.

ghost use Rattle.std.specs.Prelude.{◌≡◌, ◌-◌, ◌<◌, ◌≤◌, ◌^◌, IfOk, IfErr, OnOk, None, length};
ghost use Rattle.hp_arr.specs.Arrangement.{IsArrangement, max_dim};
ghost use Rattle.hp_arr.specs.FormFaults.{form_fault};
ghost use Rattle.hp_build.specs.Families.{graphic};
ghost use Rattle.hp_build.specs.Graphs.{bad_edge};
ghost use Rattle.hp_build.specs.Faults.{IsGraphFault};

use crate::built::built;
use crate::edges::{edge_forms, find_bad_edge};
use crate::fault::{BuildFault, GraphFault};
use hp_algebra::FiniteField;
use hp_arr::Arr;
use std::alloc::Global;

/// The arrangement of the graph with `v` vertices and these edges: for each edge, with ends i < j, the form x_i - x_j in
/// `v` variables, in the order given.
///
/// Errors, the first that holds: `BadGraph(k)` for the first edge, counted from 1, that is a loop, has an end outside 1
/// to `v`, or joins the same vertices as an earlier one; `TooMany(n)` for more than `MAX_FORMS` edges or no fewer than
/// the field has elements. `Memory` may come in place of any answer.
pub fn graphic<K: FiniteField>(
    alloc: Global,
    v: u32,
    edges: &[(u64, u64)],
) -> Result<Arr<K>, GraphFault>
    requires low { 1 ≤ v }
    requires high { v ≤ max_dim }
    requires count { length edges.now < 2 ^ 32 - 1 }
    ensures value { IfOk result (λ a. a ≡ graphic K.ring v edges.now) }
    ensures lawful { IfOk result (IsArrangement K.ring K.numbers) }
    ensures simple { OnOk result (bad_edge v edges.now ≡ None) }
    ensures faultless { OnOk result (form_fault K.ring K.numbers (graphic K.ring v edges.now).forms ≡ None) }
    ensures fault { IfErr result (IsGraphFault K.ring K.numbers v edges.now) }
{
    if let Some(k) = find_bad_edge(v, edges) {
        return Err(GraphFault::BadGraph(k));
    }
    let forms = edge_forms(alloc, v, edges)?;
    match built(v, forms) {
        Ok(arr) => Ok(arr),
        Err(BuildFault::TooMany(n)) => Err(GraphFault::TooMany(n)),
        Err(BuildFault::Memory) => Err(GraphFault::Memory),
    }
}
