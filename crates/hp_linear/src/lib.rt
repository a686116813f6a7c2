//! Linear algebra over every field: reduced row echelon form, rank, kernel, solutions and inverse of a matrix.
//!
//! Everything comes from one elimination, which keeps the rows read so far in reduced form and adds one row at a time.
#![tactic(auto)]

mod echelon;
mod growing;
mod kernel;
mod matrix;
mod pivot;
mod row;

pub use growing::GrowingForm;
pub use matrix::Matrix;
