//! Arrangements of hyperplanes over a finite field, central and affine, the faults of a list of forms or rows, the least
//! point off them, and deletion, restriction and cone.
#![tactic(auto)]

mod affine;
mod arrangement;
mod fault;
mod fault_search;
mod normal;
mod point_search;
mod restricted_rows;
mod restriction;
mod row_faults;
mod rows;

pub use affine::Aff;
pub use arrangement::Arr;
pub use fault::{ArrFault, MAX_DIM, MAX_FORMS};
