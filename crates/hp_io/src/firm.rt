//! A source and a sink in memory that tell their bytes and never fail.
ghost use Rattle.std.specs.Prelude.{◌≡◌, ℕ, ◌<◌, ◌≤◌, min, List, [], length, None, Some, IfOk, IsOk, IsErr, IsErrOf};
ghost use Rattle.std.proofs.Common.{lit≤};
ghost use Rattle.hp_io.specs.Bytes.{ReadTakes, WriteGives};
ghost use Rattle.hp_io.specs.Causes.{HasCause};

use super::{Failed, Sink, SinkEnd, Source};
use std::alloc::Global;
use std::marker::Model;

/// Gives the bytes that it was made of, and never fails. It is seen as the bytes that are left.
#[derive(Drop)]
pub struct FirmSource {
    bytes: Vec<u8>,
    at: usize,
}

impl Model for FirmSource {
    ghost use Rattle.std.specs.Prelude.{List, ℕ, ◌≤◌, drop, length};

    ghost Value = { List ℕ };

    ghost view = { λ source. drop source.at source.bytes.items };

    ghost invariant = { λ source. source.at ≤ length source.bytes.items };
}

impl FirmSource {
    /// A source of these bytes.
    pub fn new(bytes: Vec<u8>) -> FirmSource
        ensures { result ≡ bytes.items }
    {
        FirmSource { bytes, at: 0 }
    }
}

impl Source for FirmSource {
    ghost left = { λ source. Some source };

    ghost faults = { λ _. 0 };

    ghost count_fits = { λ _. lit≤ tt };

    fn read(&mut self, buf: &mut [u8]) -> Result<usize, Failed>
        requires { 0 < length buf.old }
        ensures bound { IfOk result (λ count. count ≤ length buf.new) }
        ensures bytes { ReadTakes (Some self.old) (Some self.new) result buf.new }
        ensures counted { HasCause 0 0 (IsErr result) }
        ensures always { IsOk result }
        // It takes as many bytes as it may.
        ensures all { IfOk result (λ count. count ≡ min (length buf.old) (length self.old)) }
    {
        let left = self.bytes.len() - self.at;
        let count = left.min(buf.len());
        buf[..count].copy_from_slice(&self.bytes[self.at..self.at + count]);
        self.at += count;
        Ok(count)
    }
}

/// Keeps what it is given, and never fails. It is seen as the bytes that were written.
#[derive(Drop)]
pub struct FirmSink {
    kept: Vec<u8>,
}

impl Model for FirmSink {
    ghost Value = { List ℕ };

    ghost view = { λ sink. sink.kept.items };
}

impl FirmSink {
    /// A sink to which nothing was written yet.
    pub fn new(alloc: Global) -> FirmSink
        ensures { result ≡ [] }
    {
        FirmSink {
            kept: Vec::new(alloc),
        }
    }

    /// What was written.
    pub fn written(&self) -> &[u8]
        ensures { result.now ≡ self.now }
    {
        self.kept.as_slice()
    }
}

impl Sink for FirmSink {
    ghost written = { λ sink. Some sink };

    ghost faults = { λ _. 0 };

    ghost count_fits = { λ _. lit≤ tt };

    fn write(&mut self, piece: &[u8]) -> Result<usize, SinkEnd>
        requires { 0 < length piece.now }
        ensures bound { IfOk result (λ count. (0 < count) × (count ≤ length piece.now)) }
        ensures bytes { WriteGives (Some self.old) (Some self.new) result piece.now }
        ensures counted { HasCause 0 0 (IsErrOf result SinkEnd.Failed) }
        // It takes all bytes, or memory is out.
        ensures all { IfOk result (λ count. count ≡ length piece.now) }
        ensures never_failed { ¬ (IsErrOf result SinkEnd.Failed) }
    {
        match self.kept.extend_from_slice(piece) {
            Ok(()) => Ok(piece.len()),
            Err(_) => Err(SinkEnd::Memory),
        }
    }
}
