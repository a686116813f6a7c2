//! Polynomials over a field, and their ring, which is a domain.
//!
//! A polynomial is one vector of its terms, the greatest monomial in grevlex first. Sums and products merge such
//! vectors; nothing is kept in a tree and nothing is sorted twice.
#![tactic(auto)]

mod division;
mod order;
mod poly;
mod substitution;
mod terms;
mod value;

pub use poly::Poly;
