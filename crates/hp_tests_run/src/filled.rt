//! A sink whose memory is out after some bytes.

ghost use Rattle.std.specs.Prelude.{Some};
ghost use Rattle.std.proofs.Common.{lit≤};

use hp_io::{FirmSink, Sink, SinkEnd};

/// Takes a byte a call, so many in all, and is then without memory.
#[derive(Drop)]
pub struct FilledSink {
    pub sink: FirmSink,
    pub room: usize,
}

impl Sink for FilledSink {
    ghost written = { λ filled. Some filled.sink };

    ghost faults = { λ _. 0 };

    ghost count_fits = { λ _. lit≤ tt };

    fn write(&mut self, piece: &[u8]) -> Result<usize, SinkEnd> {
        let room = self.room;
        if room == 0 {
            return Err(SinkEnd::Memory);
        }
        self.room = room - 1;
        self.sink.write(&piece[..1])
    }
}
