//! Freeness of the module of logarithmic derivations of an arrangement with multiplicities, with its certificate.
#![tactic(auto)]

mod answer;
mod freeness;
mod generators;

pub use answer::FreeAnswer;
pub use freeness::free_answer;
pub use generators::{free_by_generators, short_resolution};
