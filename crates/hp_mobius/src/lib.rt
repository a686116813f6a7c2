//! The Möbius values of the flats of an arrangement, its Poincaré and characteristic polynomials, and those of a
//! triple of arrangement, deletion and restriction.
#![tactic(auto)]

mod deletion_restriction;
mod polynomials;
mod values;

pub use deletion_restriction::{TriplePi, triple};
pub use polynomials::{characteristic, poincare};
pub use values::moebius;
