//! Exact frames of reduced Gröbner bases: a resolution of their members, level by level.
//!
//! The relations of the critical pairs of a Gröbner basis are one again, in the order that the leads induce. Where the
//! members of each component are ranked by their exponents, the last variable first, the leads of the next level have one
//! variable less. So the frame ends after as many levels as there are variables.
#![tactic(auto)]

mod first;
mod frames;
mod level;
mod next;
mod order;
mod pairs;
mod ranks;
mod relation;

pub use frames::{MAX_LEAD_DEGREE, frame};
pub use order::SchreyerOrder;
