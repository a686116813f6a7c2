//! Complexes of free modules over every ring, given by matrices: what it means that they are exact, and the test
//! whether each map times the one before it is zero.
//!
//! A matrix acts on row vectors: c times the matrix is the combination of its rows with the coefficients c. So the
//! columns of a map belong to the rows of the map before it.
#![tactic(auto)]

mod complex;
mod matrix;
mod sums;

pub use complex::Complex;
pub use matrix::Mat;
