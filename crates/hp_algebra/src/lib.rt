//! Rings, fields and finite fields as traits with laws, and what holds in all of them.
//!
//! The meaning of a value is the value itself as contracts see it. A trait has one ghost record of operations on
//! these data, which also says which data are values, and the laws are records of equations on values.
#![tactic(auto)]

mod field;
mod memory;
mod module;
mod ring;
mod row;
mod sums;
mod values;

pub use field::{Field, FiniteField};
pub use hp_lists::List;
pub use memory::NoMem;
pub use module::{Module, combine};
pub use ring::{CommRing, Domain, Ring};
pub use row::{scaled, unit_row};
pub use sums::{dot, form_value};
pub use values::{greatest_weight, product_is_zero};
