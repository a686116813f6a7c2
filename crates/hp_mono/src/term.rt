//! A term of a vector of polynomials.

use crate::mono::Mono;

/// A monomial in a component, which is counted from 1.
#[derive(Clone, Copy, Debug, PartialEq, Eq)]
pub struct Term {
    pub mono: Mono,
    pub comp: usize,
}
