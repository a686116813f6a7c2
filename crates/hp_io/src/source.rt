//! What gives bytes, and the reading of all that it has.
ghost use Rattle.std.specs.Prelude.{ℕ, ◌-◌, ◌^◌, ◌<◌, ◌≤◌, List, length, IfOk, IsErr, IsErrOf, OnErr};
ghost use Rattle.std.specs.declared.option.Option.{Option};
ghost use Rattle.hp_io.specs.Bytes.{TookAll, TookOverExactly, TookSome, ReadTakes};
ghost use Rattle.hp_io.specs.Causes.{HasCause};

use std::alloc::Global;
use thiserror::Error;

/// A source or a sink of the outside has failed.
#[derive(Clone, Copy, Debug, PartialEq, Eq, Error)]
#[error("a read or a write has failed")]
pub struct Failed;

/// What stops a reading before its end.
#[derive(Clone, Copy, Debug, PartialEq, Eq, Error)]
pub enum ReadEnd {
    #[error("the input could not be read")]
    Fault,
    #[error("the input is too long")]
    TooLong,
    #[error("out of memory")]
    Memory,
}

/// Gives bytes, a buffer at a time.
pub trait Source {
    /// What is left, where the source tells it.
    ghost left: { Self → Option (List ℕ) };

    /// How often it has failed.
    ghost faults: { Self → ℕ };

    /// Moves some of what is left to the front of `buf`, and answers how many bytes these are: none
    /// only at the end of the input.
    fn read(&mut self, buf: &mut [u8]) -> Result<usize, Failed>
        requires { 0 < length buf.old }
        ensures bound { IfOk result (λ count. count ≤ length buf.new) }
        ensures bytes { ReadTakes (left self.old) (left self.new) result buf.new }
        ensures counted { HasCause (faults self.old) (faults self.new) (IsErr result) };

    /// A count stands still at the end of a `u64`.
    ghost count_fits: { (source : Self) → faults source ≤ 2 ^ 64 - 1 };
}

/// How many bytes are asked of a source at once.
const BUFFER: usize = 8192;

/// Reads all that is left, if that is at most `max` bytes, in at most `max + 1` reads.
///
/// What was taken before an error is gone from the source.
pub fn read_all<S: Source>(alloc: Global, src: &mut S, max: usize) -> Result<Vec<u8>, ReadEnd>
    requires { max < 2 ^ 64 - 1 }
    ensures short { IfOk result (λ all. length all.items ≤ max) }
    ensures whole { IfOk result (λ all. TookAll (S.left src.old) (S.left src.new) all.items) }

    ensures too_long { TookOverExactly (S.left src.old) (S.left src.new) max
        (IsErrOf result ReadEnd.TooLong) }
    ensures rest { OnErr result (TookSome (S.left src.old) (S.left src.new)) }
    ensures counted { HasCause (S.faults src.old) (S.faults src.new)
        (IsErrOf result ReadEnd.Fault) }
{
    let mut all = Vec::new(alloc);
    let mut buf = [0; BUFFER];
    // Each read but the last takes a byte.
    for _ in 0..max + 1 {
        let Ok(count) = src.read(&mut buf) else {
            return Err(ReadEnd::Fault);
        };
        if count == 0 {
            return Ok(all);
        }
        if count > max - all.len() {
            return Err(ReadEnd::TooLong);
        }
        if all.extend_from_slice(&buf[..count]).is_err() {
            return Err(ReadEnd::Memory);
        }
    }
    unreachable!()
}
