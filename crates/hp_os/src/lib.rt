//! The Orlik-Solomon algebra of an arrangement: the exterior algebra modulo the ideal of the boundaries of dependent
//! sets, and the normal form of its elements over the sets without broken circuit.
#![tactic(auto)]

mod normal;
mod support;
mod terms;

pub use normal::{congruent, normal_form};
pub use support::is_supported;
