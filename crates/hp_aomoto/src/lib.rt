//! The Aomoto complex of an arrangement: the Orlik-Solomon algebra under left multiplication by an element of degree one,
//! and the dimensions of its cohomology.
#![tactic(auto)]

mod numbers;
mod products;
mod stop;

pub use numbers::aomoto;
pub use stop::AomotoStop;
