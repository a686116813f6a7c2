//! The writing of a text, and of the line of a refusal.

ghost use Rattle.std.specs.Prelude.{◌≡◌, Err};
ghost use Rattle.hp_io.specs.Causes.{HasCause};
ghost use Rattle.hp_top.specs.Course.{refused_at};
ghost use Rattle.hp_top.specs.Ends.{EndsBy, WritesText};

use crate::status::Status;
use hp_io::{Sink, WriteEnd, write_all};
use hp_render::{Refusal, render_refusal};
use std::alloc::Global;

/// Writes the text, or answers the status that ends the run.
pub fn write_text<T: Sink>(text: &[u8], out: &mut T) -> Result<(), Status>
    ensures writes { WritesText text.now result (T.written out.old) (T.written out.new) }
    ensures counted { HasCause (T.faults out.old) (T.faults out.new) (result ≡ Err Status.WriteFault) }
{
    match write_all(out, text) {
        Ok(()) => Ok(()),
        Err(WriteEnd::Fault) => Err(Status::WriteFault),
        Err(WriteEnd::Memory) => Err(Status::OutOfMemory),
    }
}

/// Refuses the line.
pub fn refuse<T: Sink>(alloc: Global, number: u32, refusal: &Refusal, out: &mut T) -> Status
    ensures ends { EndsBy result (refused_at number refusal.now) (T.written out.old) (T.written out.new) }
    ensures counted { HasCause (T.faults out.old) (T.faults out.new) (result ≡ Status.WriteFault) }
{
    let mut text = Vec::new(alloc);
    if render_refusal(number, refusal, &mut text).is_err() {
        return Status::OutOfMemory;
    }
    match write_text(&text, out) {
        Ok(()) => Status::ScriptRefused,
        Err(status) => status,
    }
}
