//! Finite sums of basis elements with coefficients in a ring: their definitions, the laws that polynomials and other
//! algebras over a basis share, and their sums by merging.
#![tactic(auto)]

mod basis;
mod merging;

pub use basis::{Basis, OrderedProducts};
pub use merging::{
    collected_terms, is_sum, merge_multiple, merged, merged_multiple, negated, same_terms,
};
