//! Residues modulo a prime, as a finite field.
#![tactic(auto)]

mod gf;
mod modulus;

pub use gf::Gf;
pub use modulus::{Modulus, P5, P7, P13, P31, P101, P251, P32003, listed};
