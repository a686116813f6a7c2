//! The circuits of an arrangement, and the sets of hyperplanes that contain no broken circuit.
#![tactic(auto)]

mod broken;
mod circuit_list;
mod circuit_search;
mod nbc_search;
mod nbc_sets;
mod rows;
mod stop;

pub use broken::broken_part;
pub use circuit_list::circuits;
pub use nbc_sets::{is_nbc, nbc, nbc_of_size};
pub use stop::{CircuitStop, MOST_CIRCUITS, MOST_NBC, NbcStop};
