//! What takes bytes, and the writing of many.
ghost use Rattle.std.specs.Prelude.{ℕ, ◌-◌, ◌^◌, ◌<◌, ◌≤◌, List, length, IfOk, IsErrOf, OnOk, OnErr};
ghost use Rattle.std.specs.declared.option.Option.{Option};
ghost use Rattle.hp_io.specs.Bytes.{Gave, GavePart, WriteGives};
ghost use Rattle.hp_io.specs.Causes.{HasCause};

use thiserror::Error;

/// Why a sink took nothing.
#[derive(Clone, Copy, Debug, PartialEq, Eq, Error)]
pub enum SinkEnd {
    #[error("the write has failed")]
    Failed,
    #[error("out of memory")]
    Memory,
}

/// What stops a writing before its end.
#[derive(Clone, Copy, Debug, PartialEq, Eq, Error)]
pub enum WriteEnd {
    #[error("the output could not be written")]
    Fault,
    #[error("out of memory")]
    Memory,
}

/// Takes bytes, a piece at a time.
pub trait Sink {
    /// What was written, where the sink tells it.
    ghost written: { Self → Option (List ℕ) };

    /// How often it has failed.
    ghost faults: { Self → ℕ };

    /// Takes bytes from the front of `piece`, one or more, and answers how many.
    fn write(&mut self, piece: &[u8]) -> Result<usize, SinkEnd>
        requires { 0 < length piece.now }
        ensures bound { IfOk result (λ count. (0 < count) × (count ≤ length piece.now)) }
        ensures bytes { WriteGives (written self.old) (written self.new) result piece.now }
        ensures counted { HasCause (faults self.old) (faults self.new) (IsErrOf result SinkEnd.Failed) };

    /// A count stands still at the end of a `u64`.
    ghost count_fits: { (sink : Self) → faults sink ≤ 2 ^ 64 - 1 };
}

/// Writes all the bytes, and takes no memory itself.
///
/// What was written before an error stays written.
pub fn write_all<T: Sink>(out: &mut T, bytes: &[u8]) -> Result<(), WriteEnd>
    ensures whole { OnOk result (Gave (T.written out.old) (T.written out.new) bytes.now) }
    ensures part { OnErr result (GavePart (T.written out.old) (T.written out.new) bytes.now) }
    ensures counted { HasCause (T.faults out.old) (T.faults out.new)
        (IsErrOf result WriteEnd.Fault) }
{
    let mut at = 0;
    while at < bytes.len() {
        match out.write(&bytes[at..]) {
            Ok(count) => at += count,
            Err(SinkEnd::Failed) => return Err(WriteEnd::Fault),
            Err(SinkEnd::Memory) => return Err(WriteEnd::Memory),
        }
    }
    Ok(())
}
