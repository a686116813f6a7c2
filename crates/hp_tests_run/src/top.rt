//! Whole runs, over sources and sinks in memory, with texts and statuses worked by hand.

use crate::filled::FilledSink;
use hp_io::{FirmSink, FirmSource, MemSink, MemSource};
use hp_top::{Status, run};
use std::alloc::Global;
use std::test::Fail;

const FIRST: &[u8] = b"field 31\nlet A = forms 2 [1 0, 0 1, 1 -1]\npoint A\n";

const TEXT: &[u8] = b"point A: 1 2\n";

/// What a run of the script ends with and writes.
fn outcome(alloc: Global, script: &[u8]) -> Result<(Status, FirmSink), Fail> {
    let mut source = FirmSource::new(Vec::from_slice(alloc, script)?);
    let mut sink = FirmSink::new(alloc);
    let status = run(alloc, &[], &mut source, &mut sink);
    Ok((status, sink))
}

/// One script of each kind of end, and what a run writes. Many more are run on the built program, by tests/run-scripts.
#[test]
fn answers_and_refusals(rt: HostRuntime) -> Result<(), Fail> {
    for (script, status, written) in [
        (FIRST, Status::Done, TEXT),
        (b"", Status::Done, b""),
        (
            b"rank A\npoint",
            Status::ScriptRefused,
            b"refused line 2: syntax 6\n",
        ),
        (
            b"field 5\nlet B = typeB 2\nrank B\nrank A",
            Status::ScriptRefused,
            b"rank B: 2\nrefused line 4: unknown name A\n",
        ),
        (
            b"\xff",
            Status::ScriptRefused,
            b"refused line 1: syntax 1\n",
        ),
    ] {
        let (ended, sink) = outcome(rt.alloc(), script)?;
        assert_eq!(rt; ended, status, "{script:?}");
        assert_eq!(rt; sink.written(), written, "{script:?}");
    }
    Ok(())
}

#[test]
fn words_are_refused(rt: HostRuntime) -> Result<(), Fail> {
    let alloc = rt.alloc();
    for word in ["sample", "help", ""] {
        let words = vec![in alloc; word.to_string(alloc)?]?;
        let mut source = FirmSource::new(Vec::from_slice(alloc, FIRST)?);
        let mut sink = FirmSink::new(alloc);
        assert_eq!(rt;
            run(alloc, &words, &mut source, &mut sink),
            Status::WordsRefused
        );
        assert_eq!(rt; sink.written(), b"".as_slice());
        assert_eq!(rt; run(alloc, &[], &mut source, &mut sink), Status::Done);
        assert_eq!(rt; sink.written(), TEXT);
    }
    Ok(())
}

/// A fault at each read in turn, of a byte each: it is answered as one, and nothing is written.
#[test]
fn failing_reads(rt: HostRuntime) -> Result<(), Fail> {
    let alloc = rt.alloc();
    for call in 1..53 {
        let bytes = Vec::from_slice(alloc, FIRST)?;
        let mut source = MemSource::new(bytes, 1, vec![in alloc; call]?);
        let mut sink = FirmSink::new(alloc);
        let status = run(alloc, &[], &mut source, &mut sink);
        if call < 52 {
            assert_eq!(rt; status, Status::ReadFault, "{call}");
            assert_eq!(rt; sink.written(), b"".as_slice(), "{call}");
        } else {
            assert_eq!(rt; status, Status::Done, "{call}");
            assert_eq!(rt; sink.written(), TEXT, "{call}");
        }
    }
    Ok(())
}

/// What a run of the script ends with over this sink, and the sink.
fn outcome_over(alloc: Global, script: &[u8], sink: MemSink) -> Result<(Status, MemSink), Fail> {
    let mut sink = sink;
    let mut source = FirmSource::new(Vec::from_slice(alloc, script)?);
    let status = run(alloc, &[], &mut source, &mut sink);
    Ok((status, sink))
}

/// A fault at each write in turn, of a byte each, and some others: it is answered as one, and nothing more is written.
#[test]
fn failing_writes(rt: HostRuntime) -> Result<(), Fail> {
    let alloc = rt.alloc();
    for call in 1..15 {
        let sink = MemSink::new(alloc, 1, vec![in alloc; call]?);
        let (status, sink) = outcome_over(alloc, FIRST, sink)?;
        let wanted = if call < 14 {
            Status::WriteFault
        } else {
            Status::Done
        };
        assert_eq!(rt; status, wanted, "{call}");
        assert_eq!(rt; sink.written().len() as u64, call - 1, "{call}");
        assert!(rt; TEXT.starts_with(sink.written()), "{call}");
    }
    for (script, most, call, written) in [
        (FIRST, 4, 2, b"poin".as_slice()),
        (b"field 31\nlet A = forms 2 [1 2, 2 4]", 1, 5, b"refu"),
        (b"field 31\nlet A = forms 2 [1 2, 2 4", 7, 1, b""),
    ] {
        let sink = MemSink::new(alloc, most, vec![in alloc; call]?);
        let (status, sink) = outcome_over(alloc, script, sink)?;
        assert_eq!(rt; status, Status::WriteFault, "{script:?}");
        assert_eq!(rt; sink.written(), written, "{script:?}");
    }
    Ok(())
}

/// Want of memory at each write in turn, of a byte each, is the end of the run too.
#[test]
fn sinks_without_memory(rt: HostRuntime) -> Result<(), Fail> {
    let alloc = rt.alloc();
    for room in 0..TEXT.len() {
        let mut source = FirmSource::new(Vec::from_slice(alloc, FIRST)?);
        let mut sink = FilledSink {
            sink: FirmSink::new(alloc),
            room,
        };
        assert_eq!(rt;
            run(alloc, &[], &mut source, &mut sink),
            Status::OutOfMemory,
            "{room}"
        );
        assert_eq!(rt; sink.sink.written(), &TEXT[..room]);
    }
    Ok(())
}

/// A script of the greatest length is read, and one byte more is too long.
#[test]
fn the_longest_script(rt: HostRuntime) -> Result<(), Fail> {
    let alloc = rt.alloc();
    for (length, status) in [(1_048_576, Status::Done), (1_048_577, Status::TooLong)] {
        let mut source = MemSource::new(vec![in alloc; b'#'; length]?, 4096, Vec::new(alloc));
        let mut sink = FirmSink::new(alloc);
        assert_eq!(rt; run(alloc, &[], &mut source, &mut sink), status, "{length}");
        assert_eq!(rt; sink.written(), b"".as_slice());
    }
    Ok(())
}

#[test]
fn codes_of_statuses(rt: HostRuntime) {
    for (status, code) in [
        (Status::Done, 0),
        (Status::ScriptRefused, 1),
        (Status::ReadFault, 2),
        (Status::WriteFault, 3),
        (Status::TooLong, 4),
        (Status::WordsRefused, 5),
        (Status::OutOfMemory, 6),
    ] {
        assert_eq!(rt; status.code(), code);
    }
}
