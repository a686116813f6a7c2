//! A source and a sink in memory that tell their bytes, move at most so many of them a call, and fail at chosen calls.
ghost use Rattle.std.specs.Prelude.{◌≡◌, ℕ, ◌-◌, ◌^◌, ◌<◌, ◌≤◌, min, List, [], length, Some, IfOk, IsErr, IsErrOf};
ghost use Rattle.std.proofs.Math.Nat.{min-le_right};
ghost use Rattle.hp_io.specs.Bytes.{ReadTakes, WriteGives};
ghost use Rattle.hp_io.specs.Calls.{GoesOn, no_calls};
ghost use Rattle.hp_io.specs.Causes.{HasCause};

use super::{Failed, FirmSink, FirmSource, Sink, SinkEnd, Source};
use crate::calls::Plan;
use std::alloc::Global;
use std::marker::Model;

/// Gives the bytes that it was made of, at most so many a call, and fails at the calls of chosen numbers.
#[derive(Drop)]
pub struct MemSource {
    from: FirmSource,
    plan: Plan,
}

impl Model for MemSource {
    ghost use Rattle.hp_io.specs.Calls.{Supply};

    ghost Value = { Supply };

    ghost view = { λ source. record { left = source.from; calls = source.plan } };
}

impl MemSource {
    /// A source of these bytes, at most `most` of them a call. The calls whose numbers, counted from 1, stand in `fail_at`
    /// fail and take nothing. The numbers end at 2^64 - 1: no call after that one fails.
    pub fn new(bytes: Vec<u8>, most: usize, fail_at: Vec<u64>) -> MemSource
        requires { 0 < most }
        ensures { result ≡ record { left = bytes.items; calls = no_calls most fail_at.items } }
    {
        MemSource {
            from: FirmSource::new(bytes),
            plan: Plan::new(most, fail_at),
        }
    }
}

impl Source for MemSource {
    ghost left = { λ source. Some source.left };

    // A law may not lean on the range of a u64, so the end of it stands here.
    ghost faults = { λ source. min source.calls.faults (2 ^ 64 - 1) };

    ghost count_fits = { λ source. min-le_right source.calls.faults (2 ^ 64 - 1) };

    fn read(&mut self, buf: &mut [u8]) -> Result<usize, Failed>
        requires { 0 < length buf.old }
        ensures bound { IfOk result (λ count. count ≤ length buf.new) }
        ensures bytes { ReadTakes (Some self.old.left) (Some self.new.left) result buf.new }
        ensures counted { HasCause (min self.old.calls.faults (2 ^ 64 - 1)) (min self.new.calls.faults (2 ^ 64 - 1)) (IsErr result) }
        // It takes as many bytes as it may.
        ensures all { IfOk result (λ count. count ≡ min (min self.old.calls.most (length buf.old)) (length self.old.left)) }
        // It fails exactly where its number is chosen.
        ensures calls { GoesOn self.old.calls self.new.calls (IsErr result) }
    {
        if self.plan.fails() {
            return Err(Failed);
        }
        let room = self.plan.most().min(buf.len());
        self.from.read(&mut buf[..room])
    }
}

/// Keeps what it is given, at most so many bytes a call, and fails at the calls of chosen numbers.
#[derive(Drop)]
pub struct MemSink {
    to: FirmSink,
    plan: Plan,
}

impl Model for MemSink {
    ghost use Rattle.hp_io.specs.Calls.{Store};

    ghost Value = { Store };

    ghost view = { λ sink. record { written = sink.to; calls = sink.plan } };
}

impl MemSink {
    /// A sink to which nothing was written yet, and which takes at most `most` bytes a call. The calls whose numbers,
    /// counted from 1, stand in `fail_at` fail and take nothing. The numbers end at 2^64 - 1: no call after that one fails.
    pub fn new(alloc: Global, most: usize, fail_at: Vec<u64>) -> MemSink
        requires { 0 < most }
        ensures { result ≡ record { written = []; calls = no_calls most fail_at.items } }
    {
        MemSink {
            to: FirmSink::new(alloc),
            plan: Plan::new(most, fail_at),
        }
    }

    /// What was written.
    pub fn written(&self) -> &[u8]
        ensures { result.now ≡ self.now.written }
    {
        self.to.written()
    }
}

impl Sink for MemSink {
    ghost written = { λ sink. Some sink.written };

    // As above.
    ghost faults = { λ sink. min sink.calls.faults (2 ^ 64 - 1) };

    ghost count_fits = { λ sink. min-le_right sink.calls.faults (2 ^ 64 - 1) };

    fn write(&mut self, piece: &[u8]) -> Result<usize, SinkEnd>
        requires { 0 < length piece.now }
        ensures bound { IfOk result (λ count. (0 < count) × (count ≤ length piece.now)) }
        ensures bytes { WriteGives (Some self.old.written) (Some self.new.written) result piece.now }
        ensures counted { HasCause (min self.old.calls.faults (2 ^ 64 - 1)) (min self.new.calls.faults (2 ^ 64 - 1))
            (IsErrOf result SinkEnd.Failed) }
        // It takes as many bytes as it may.
        ensures all { IfOk result (λ count. count ≡ min self.old.calls.most (length piece.now)) }
        // It fails exactly where its number is chosen; without memory the call is counted all the same.
        ensures calls { GoesOn self.old.calls self.new.calls (IsErrOf result SinkEnd.Failed) }
    {
        if self.plan.fails() {
            return Err(SinkEnd::Failed);
        }
        let room = self.plan.most().min(piece.len());
        self.to.write(&piece[..room])
    }
}
