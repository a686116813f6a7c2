//! Finite sets of the numbers 1 to 64, in one word each, with the order in which sets are listed.
#![tactic(auto)]

mod flat;
mod set;

pub use flat::Flat;
pub use set::HSet;
