//! Minimal resolutions and their Betti numbers, by cancelling the unit entries of a resolution.
//!
//! An entry of a later map that is a constant other than zero is a unit. Its row and its column are cancelled: after one
//! step of elimination both are left out, and with them a row of the map before and a column of the map behind. The
//! complex stays exact and homogeneous. Where the columns are taken from the last to the first, the rows that are left of
//! the first map are those that the rows before them don't generate.
#![tactic(auto)]

mod cancel;
mod finish;
mod minimal;
mod numbers;
mod order;
mod reduce;
mod start;

pub use minimal::minimise;
pub use numbers::betti;
