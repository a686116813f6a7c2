//! Draws, and the edges that are drawn.

ghost use Rattle.std.specs.Prelude.{◌≡◌, length, IfOk};
ghost use Rattle.hp_sample.specs.Sample.{bit_of, drawn, next_state, state_after, vertex_pairs};

use crate::pairs::vertex_pairs;
use hp_algebra::NoMem;
use std::alloc::Global;

/// The edges of a graph, and the state after it is drawn.
#[derive(Drop)]
pub struct Drawn {
    pub edges: Vec<(u64, u64)>,
    pub state: u32,
}

/// The state after a draw.
fn next_state(state: u32) -> u32
    ensures { result ≡ next_state state }
{
    ((state as u64 * 1_103_515_245 + 12_345) % 2_147_483_648) as u32
}

/// The bit of a draw, by the state after it.
fn bit_of(state: u32) -> u32
    ensures { result ≡ bit_of state }
{
    state / 65_536 % 2
}

/// A graph on v vertices, drawn from a state.
pub fn drawn_graph(alloc: Global, v: u32, state: u32) -> Result<Drawn, NoMem>
    ensures edges { IfOk result (λ graph. graph.edges.items ≡ drawn (vertex_pairs v) state) }
    ensures state { IfOk result (λ graph. graph.state ≡ state_after (length (vertex_pairs v)) state) }
{
    let pairs = vertex_pairs(alloc, v)?;
    drawn_from(alloc, &pairs, state)
}

/// Those of the pairs that are drawn from a state.
fn drawn_from(alloc: Global, pairs: &[(u64, u64)], mut state: u32) -> Result<Drawn, NoMem>
    ensures edges { IfOk result (λ graph. graph.edges.items ≡ drawn pairs.now state) }
    ensures state { IfOk result (λ graph. graph.state ≡ state_after (length pairs.now) state) }
{
    let mut edges = Vec::new(alloc);
    for (a, b) in pairs {
        state = next_state(state);
        if bit_of(state) == 1 {
            edges.push((*a, *b))?;
        }
    }
    Ok(Drawn { edges, state })
}
