//! Tests of the public calls on monomials, polynomials, vectors of polynomials and their bases, a file a crate: of those
//! that take memory, each once, and of values worked by hand. It has no code of its own, and nothing stands on it.
#![tactic(auto)]

#[cfg(test)]
mod groebner;
#[cfg(test)]
mod module;
#[cfg(test)]
mod mono;
#[cfg(test)]
mod poly;
