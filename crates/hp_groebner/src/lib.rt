//! Reduced Gröbner bases of homogeneous vectors, with limits that speak of the submodule alone.
//!
//! The generators and the critical pairs are taken degree by degree, and each is divided by the members so far. So the
//! leads that are known after a degree are the least leads up to this degree, and the limits are tested on them.
#![tactic(auto)]

mod basis;
mod cofactors;
mod degrees;
mod limits;
mod queue;
mod setting;
mod sorting;
mod state;
mod tails;
mod terms_added;

pub use basis::groebner;
pub use cofactors::minimal_cofactors;
pub use limits::{Limits, MOST_DEGREE, MOST_PAIRS, Stop};
