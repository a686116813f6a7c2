//! Tests of whole runs and of what they read from and write to. It has no code of its own.
#![tactic(auto)]

#[cfg(test)]
mod channels;
#[cfg(test)]
mod filled;
#[cfg(test)]
mod session;
#[cfg(test)]
mod top;
