//! The arrangements of the classical families: braid, B, D, coordinate hyperplanes, and graphs.
#![tactic(auto)]

mod built;
mod edges;
mod families;
mod fault;
mod graphs;
mod pairs;
mod rows;

pub use families::{boolean, type_a, type_b, type_d};
pub use fault::{BuildFault, GraphFault};
pub use graphs::graphic;
