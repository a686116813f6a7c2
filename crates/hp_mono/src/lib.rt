//! Monomials in ten variables, terms of vectors of polynomials, and orders of terms with their laws.
#![tactic(auto)]

mod mono;
mod order;
mod term;

pub use mono::{MAX_DEGREE, Mono, VARS};
pub use order::TermOrder;
pub use term::Term;
