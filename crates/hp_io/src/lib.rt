//! Sources and sinks of bytes, whose faults are counted.
//!
//! A source may tell which bytes it has left, and a sink which bytes it was given. Each counts its
//! faults, from 0 when it is made, and an error for a fault comes only where this count rose.
#![tactic(auto)]

mod calls;
mod firm;
mod memory;
mod sink;
mod source;
mod standard;

pub use firm::{FirmSink, FirmSource};
pub use memory::{MemSink, MemSource};
pub use sink::{Sink, SinkEnd, WriteEnd, write_all};
pub use source::{Failed, ReadEnd, Source, read_all};
pub use standard::{StdinSource, StdoutSink};
