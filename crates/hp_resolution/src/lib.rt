//! Resolutions over the polynomials: exact complexes of homogeneous maps, with a degree for each row, and minimal ones.
#![tactic(auto)]

mod frame;
mod matrix;
mod minimal;

pub use frame::Frame;
pub use matrix::matrix_of;
pub use minimal::MinRes;
