//! The exterior algebra over a field, with its wedge product and its boundary.
//!
//! An element is one vector of its terms, in the order in which sets are listed. Sums merge such vectors; products and
//! boundaries write down all terms and collect them by merging halves.
#![tactic(auto)]

mod ext;
mod order;
mod products;
mod terms;

pub use ext::Ext;
