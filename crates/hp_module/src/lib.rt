//! Vectors of polynomials: their module, leads, and division with remainder.
//!
//! A division keeps for each component the terms that are left in one vector, which falls in the order of terms. Each
//! step merges a multiple of a member into the components where the member isn't zero.
#![tactic(auto)]

mod basis;
mod component;
mod division;
mod divisors;
mod merging;
mod order;
mod parts;
mod steps;
mod terms;
mod vector;

pub use basis::{Basis, Grading};
pub use division::divide;
pub use divisors::Divisors;
pub use order::ElimOrder;
pub use vector::ModVec;
