//! Tests of the public calls of the crates, a file a crate: of those that take memory, each once, and of values worked by
//! hand. What a script reaches is tested by scripts, on the built program, and polynomials and their vectors have a crate
//! of tests of their own. It has no code of its own: the crates below are proved once, without tests, and what their
//! tests share stands here.
#![tactic(auto)]

#[cfg(test)]
mod affine;
#[cfg(test)]
mod algebra;
#[cfg(test)]
mod circuits;
#[cfg(test)]
mod complex;
#[cfg(test)]
mod exterior;
#[cfg(test)]
mod flats;
#[cfg(test)]
mod linear;
#[cfg(test)]
mod modp;
#[cfg(test)]
mod orlik_solomon;
#[cfg(test)]
mod sample;
#[cfg(test)]
mod samples;
