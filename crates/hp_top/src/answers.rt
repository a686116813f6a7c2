//! The answers to a script, written one by one.

ghost use Rattle.std.specs.Prelude.{◌≡◌, ◌≤◌, length, All};
ghost use Rattle.hp_io.specs.Causes.{HasCause};
ghost use Rattle.hp_script.specs.Lists.{CommandIsShort};
ghost use Rattle.hp_top.specs.Course.{course};
ghost use Rattle.hp_top.specs.Ends.{EndsBy, EndsScript};

use crate::fields::answer_over;
use crate::status::Status;
use crate::writing::refuse;
use hp_io::Sink;
use hp_render::Refusal;
use hp_script::{Line, MAX_BYTES, ScriptFault, parse};
use hp_session::{Before, Prelude};
use std::alloc::Global;

/// Runs a script.
pub fn answer_script<T: Sink>(alloc: Global, script: &[u8], out: &mut T) -> Status
    requires { length script.now ≤ MAX_BYTES }
    ensures ends { EndsScript script.now result (T.written out.old) (T.written out.new) }
    ensures counted { HasCause (T.faults out.old) (T.faults out.new) (result ≡ Status.WriteFault) }
{
    match parse(alloc, script) {
        Ok(lines) => answer_lines(alloc, &lines, out),
        Err(ScriptFault::Syntax { line, column }) => refuse(
            alloc,
            line,
            &Refusal::Syntax(column),
            out,
        ),
        Err(ScriptFault::Memory) => Status::OutOfMemory,
    }
}

/// Answers the commands in order, up to the first that is refused. From the choice of a field on they are answered over it.
fn answer_lines<T: Sink>(alloc: Global, lines: &[Line], out: &mut T) -> Status
    requires { All (λ line. CommandIsShort line.command) lines.now }
    ensures ends { EndsBy result (course lines.now) (T.written out.old) (T.written out.new) }
    ensures counted { HasCause (T.faults out.old) (T.faults out.new) (result ≡ Status.WriteFault) }
{
    let mut prelude = Prelude::new();
    for i in 0..lines.len() {
        let line = &lines[i];
        match prelude.step(&line.command) {
            Before::Silent => {}
            Before::Chosen(which) => {
                return answer_over(alloc, which, prelude.limits, &lines[i + 1..], out);
            }
            Before::Refused(refusal) => return refuse(alloc, line.number, &refusal, out),
        }
    }
    Status::Done
}
