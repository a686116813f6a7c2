//! The sample script: thirty graphs, drawn one after another from a number, and what is asked of each.
//!
//! A state begins at the number k. A draw sets the state s to (s * 1103515245 + 12345) mod 2^31 and gives the bit (s / 65536) mod 2. A graph on v
//! vertices goes through the pairs a < b of 1 to v in lexicographic order; each takes one draw, and is an edge where the bit is 1. Graphs 1 to 20
//! have 5 vertices, and graphs 21 to 30 have 8. They are drawn in order from one state.
#![tactic(auto)]

mod draws;
mod lines;
mod pairs;
mod script;

pub use script::sample_text;
