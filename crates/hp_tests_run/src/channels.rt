//! Reading and writing, over memory, over the library's readers and writers, and over what fails once.

ghost use Rattle.std.specs.Prelude.{◌≤◌, IfOk};

use hp_io::{
    Failed, FirmSink, FirmSource, MemSink, MemSource, ReadEnd, Sink, SinkEnd, Source, StdinSource,
    StdoutSink, read_all, write_all,
};
use std::alloc::Global;
use std::io;
use std::io::{ErrorKind, Read, Write};
use std::test::Fail;

#[test]
fn gives_back_what_it_was_given(rt: HostRuntime) -> Result<(), Fail> {
    let alloc = rt.alloc();
    let mut sink = FirmSink::new(alloc);
    write_all(&mut sink, b"ab")?;
    write_all(&mut sink, b"c")?;
    assert_eq!(rt; sink.written(), b"abc".as_slice());
    let mut source = FirmSource::new(Vec::from_slice(alloc, sink.written())?);
    for bytes in [b"abc".as_slice(), b""] {
        assert_eq!(rt; read_all(alloc, &mut source, 3)?.as_slice(), bytes);
    }
    Ok(())
}

/// What `read_all` answers over a source that is then let go.
fn answer<S: Source + Drop>(alloc: Global, mut src: S, max: u16) -> Result<Vec<u8>, ReadEnd> {
    read_all(alloc, &mut src, usize::from(max))
}

/// With a buffer or a byte at each read, and one byte too many.
#[test]
fn reads_to_the_end(rt: HostRuntime) -> Result<(), Fail> {
    let alloc = rt.alloc();
    let long = vec![in alloc; 7; 20_000]?;
    for (bytes, max, fits) in [
        (b"".as_slice(), 0, true),
        (b"a".as_slice(), 0, false),
        (b"abc".as_slice(), 3, true),
        (b"abcd".as_slice(), 3, false),
        (long.as_slice(), 20_000, true),
        (long.as_slice(), 19_999, false),
    ] {
        let firm = FirmSource::new(Vec::from_slice(alloc, bytes)?);
        let slow = MemSource::new(Vec::from_slice(alloc, bytes)?, 1, Vec::new(alloc));
        let want = if fits {
            Ok(Vec::from_slice(alloc, bytes)?)
        } else {
            Err(ReadEnd::TooLong)
        };
        assert_eq!(rt; answer(alloc, firm, max), want, "{max}");
        assert_eq!(rt; answer(alloc, slow, max), want, "{max}");
    }
    Ok(())
}

/// In memory a call moves at most so many bytes, and none where its number is chosen.
#[test]
fn moves_and_fails_as_chosen(rt: HostRuntime) -> Result<(), Fail> {
    let alloc = rt.alloc();
    let mut buf = [0; 4];
    let mut source = MemSource::new(
        Vec::from_slice(alloc, b"abcdefg")?,
        3,
        vec![in alloc; 2, 4]?,
    );
    let mut sink = MemSink::new(alloc, 3, vec![in alloc; 5, 2]?);
    for (read, bytes, taken, written) in [
        (Ok(3), b"abc".as_slice(), Ok(3), b"123".as_slice()),
        (Err(Failed), b"abc", Err(SinkEnd::Failed), b"123"),
        (Ok(3), b"def", Ok(3), b"123123"),
        (Err(Failed), b"def", Ok(3), b"123123123"),
        (Ok(1), b"gef", Err(SinkEnd::Failed), b"123123123"),
        (Ok(0), b"gef", Ok(3), b"123123123123"),
    ] {
        assert_eq!(rt; source.read(&mut buf), read);
        assert_eq!(rt; &buf[..3], bytes);
        assert_eq!(rt; sink.write(b"1234"), taken);
        assert_eq!(rt; sink.written(), written);
    }
    Ok(())
}

/// Is interrupted some times, and then moves so many bytes, or fails at `None`.
#[derive(Drop)]
struct Outside {
    interruptions: u8,
    count: Option<usize>,
    flushes: bool,
}

impl Outside {
    fn move_up_to(&mut self, room: usize) -> io::Result<usize>
        ensures { IfOk result (λ count. count ≤ room) }
    {
        let interruptions = self.interruptions;
        if interruptions > 0 {
            self.interruptions = interruptions - 1;
            return Err(io::Error::from(ErrorKind::Interrupted));
        }
        match self.count {
            Some(count) => Ok(count.min(room)),
            None => Err(io::Error::from(ErrorKind::BrokenPipe)),
        }
    }
}

impl Read for Outside {
    fn read(&mut self, buf: &mut [u8]) -> io::Result<usize> {
        self.move_up_to(buf.len())
    }
}

impl Write for Outside {
    fn write(&mut self, buf: &[u8]) -> io::Result<usize> {
        self.move_up_to(buf.len())
    }

    fn flush(&mut self) -> io::Result<()> {
        if self.flushes {
            Ok(())
        } else {
            Err(io::Error::from(ErrorKind::BrokenPipe))
        }
    }
}

/// Bytes pass as they are.
#[test]
fn copies(rt: HostRuntime) -> Result<(), Fail> {
    let alloc = rt.alloc();
    let mut source = StdinSource::new(b"abc".as_slice());
    let bytes = read_all(alloc, &mut source, 3)?;
    let mut kept = Vec::new(alloc);
    let mut sink = StdoutSink::new(&mut kept);
    write_all(&mut sink, &bytes)?;
    drop(sink);
    assert_eq!(rt; kept.as_slice(), b"abc".as_slice());
    Ok(())
}

/// An interruption is no fault; at a sink, no byte taken and a lost flush are faults.
#[test]
fn tells_faults(rt: HostRuntime) {
    for (interruptions, count, flushes, read, written) in [
        (0, Some(2), true, Ok(2), Ok(2)),
        (3, Some(2), true, Ok(2), Ok(2)),
        (0, Some(0), true, Ok(0), Err(SinkEnd::Failed)),
        (0, Some(2), false, Ok(2), Err(SinkEnd::Failed)),
        (0, None, true, Err(Failed), Err(SinkEnd::Failed)),
        (3, None, true, Err(Failed), Err(SinkEnd::Failed)),
    ] {
        let outside = Outside {
            interruptions,
            count,
            flushes,
        };
        assert_eq!(rt; StdinSource::new(outside).read(&mut [0; 4]), read);
        let outside = Outside {
            interruptions,
            count,
            flushes,
        };
        assert_eq!(rt; StdoutSink::new(outside).write(b"abcd"), written);
    }
}
