//! A source over std's readers and a sink over std's writers: the edge to the outside.
ghost use Rattle.std.specs.Prelude.{◌≡◌, ℕ, ◌-◌, ◌^◌, ◌<◌, ◌≤◌, min, length, take, None, IfOk, OnOk, IsErr, IsErrOf};
ghost use Rattle.std.specs.Io.KnownBytes.{ReadConsumes, Appends};
ghost use Rattle.std.proofs.Math.Nat.{min-le_right};
ghost use Rattle.hp_io.specs.Bytes.{ReadTakes, WriteGives};
ghost use Rattle.hp_io.specs.Causes.{HasCause};

use super::{Failed, Sink, SinkEnd, Source};
use std::io::{ErrorKind, Read, Write};
use std::marker::Model;

/// Reads over a reader. It tells nothing of its bytes, and is seen as its count of faults.
#[derive(Drop)]
pub struct StdinSource<I: Read + Drop> {
    from: I,
    faults: u64,
}

impl<I: Read + Drop> Model for StdinSource<I> {
    ghost Value = { ℕ };

    ghost view = { λ source. source.faults };
}

impl<I: Read + Drop> StdinSource<I> {
    /// A source over `from`, with no fault yet.
    pub fn new(from: I) -> StdinSource<I>
        ensures { result ≡ 0 }
    {
        StdinSource { from, faults: 0 }
    }
}

impl<I: Read + Drop> Source for StdinSource<I> {
    ghost left = { λ _. None };

    // A law may not lean on the range of a u64, so the end of it stands here.
    ghost faults = { λ source. min source (2 ^ 64 - 1) };

    ghost count_fits = { λ source. min-le_right source (2 ^ 64 - 1) };

    fn read(&mut self, buf: &mut [u8]) -> Result<usize, Failed>
        requires { 0 < length buf.old }
        ensures bound { IfOk result (λ count. count ≤ length buf.new) }
        ensures bytes { ReadTakes None None result buf.new }
        ensures counted { HasCause (min self.old (2 ^ 64 - 1)) (min self.new (2 ^ 64 - 1)) (IsErr result) }
        // Without a fault the count stays.
        ensures stays { OnOk result (self.new ≡ self.old) }
    {
        let faults = self.faults;
        let answer = read_some(&mut self.from, buf);
        if answer.is_err() {
            self.faults = faults.saturating_add(1);
        }
        answer
    }
}

/// Reads once, and again after each interruption.
fn read_some<I: Read>(from: &mut I, buf: &mut [u8]) -> Result<usize, Failed>
    ensures bound { IfOk result (λ count. count ≤ length buf.new) }
    ensures known { ReadConsumes (I.remaining from.old) (I.remaining from.new) result buf.new }
{
    for _ in 0..u64::MAX {
        match from.read(buf) {
            Ok(count) => return Ok(count),
            Err(error) if error.kind() == ErrorKind::Interrupted => {}
            Err(_) => return Err(Failed),
        }
    }
    Err(Failed)
}

/// Writes over a writer, and holds nothing back. It tells nothing of its bytes, and is seen as its
/// count of faults.
#[derive(Drop)]
pub struct StdoutSink<W: Write + Drop> {
    to: W,
    faults: u64,
}

impl<W: Write + Drop> Model for StdoutSink<W> {
    ghost Value = { ℕ };

    ghost view = { λ sink. sink.faults };
}

impl<W: Write + Drop> StdoutSink<W> {
    /// A sink over `to`, with no fault yet.
    pub fn new(to: W) -> StdoutSink<W>
        ensures { result ≡ 0 }
    {
        StdoutSink { to, faults: 0 }
    }
}

impl<W: Write + Drop> Sink for StdoutSink<W> {
    ghost written = { λ _. None };

    // As above.
    ghost faults = { λ sink. min sink (2 ^ 64 - 1) };

    ghost count_fits = { λ sink. min-le_right sink (2 ^ 64 - 1) };

    fn write(&mut self, piece: &[u8]) -> Result<usize, SinkEnd>
        requires { 0 < length piece.now }
        ensures bound { IfOk result (λ count. (0 < count) × (count ≤ length piece.now)) }
        ensures bytes { WriteGives None None result piece.now }
        ensures counted { HasCause (min self.old (2 ^ 64 - 1)) (min self.new (2 ^ 64 - 1))
            (IsErrOf result SinkEnd.Failed) }
        // Without a fault the count stays.
        ensures stays { OnOk result (self.new ≡ self.old) }
        // It takes no memory.
        ensures never_memory { ¬ (IsErrOf result SinkEnd.Memory) }
    {
        let faults = self.faults;
        match hand_over(&mut self.to, piece) {
            Ok(count) => Ok(count),
            Err(Failed) => {
                self.faults = faults.saturating_add(1);
                Err(SinkEnd::Failed)
            }
        }
    }
}

/// Writes once, and again after each interruption, and flushes what was taken. A writer that takes
/// nothing has failed.
fn hand_over<W: Write>(to: &mut W, piece: &[u8]) -> Result<usize, Failed>
    ensures bound { IfOk result (λ count. (0 < count) × (count ≤ length piece.now)) }
    ensures known { IfOk result (λ count. Appends (W.contents to.old) (W.contents to.new) (take count piece.now)) }
{
    for _ in 0..u64::MAX {
        match to.write(piece) {
            Ok(0) => return Err(Failed),
            Ok(count) => {
                return match to.flush() {
                    Ok(()) => Ok(count),
                    Err(_) => Err(Failed),
                };
            }
            Err(error) if error.kind() == ErrorKind::Interrupted => {}
            Err(_) => return Err(Failed),
        }
    }
    Err(Failed)
}
