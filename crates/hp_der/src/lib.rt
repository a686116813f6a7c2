//! The module of logarithmic derivations of an arrangement with multiplicities: its reduced Gröbner basis, by elimination
//! in a larger module, and minimal generators of what a basis generates.
#![tactic(auto)]

mod basis;
mod carried;
mod coordinates;
mod cover;
mod generators;
mod minimal;
mod prepared;

pub use basis::{Derivations, der_basis};
pub use minimal::min_gens;
