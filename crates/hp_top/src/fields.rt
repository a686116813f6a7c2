//! The answers to the commands behind the choice of a field.

ghost use Rattle.std.specs.Prelude.{◌≡◌, All, Err, OnOk, IfErr};
ghost use Rattle.hp_io.specs.Causes.{HasCause};
ghost use Rattle.hp_script.specs.Lists.{CommandIsShort};
ghost use Rattle.hp_session.specs.State.{AreLimits, no_names};
ghost use Rattle.hp_session.specs.Steps.{IsQuestion, prime_of};
ghost use Rattle.hp_top.specs.Course.{course_after};
ghost use Rattle.hp_top.specs.Ends.{EndsBy, WritesAnswer, GoesOn, EndsAt};

use crate::status::Status;
use crate::writing::{refuse, write_text};
use hp_groebner::Limits;
use hp_io::Sink;
use hp_modp::{Gf, Modulus, P5, P7, P13, P31, P101, P251, P32003};
use hp_render::{Answer, render};
use hp_script::{Command, Line};
use hp_session::{Session, Step, Which};
use std::alloc::Global;

/// Answers the commands over the field that was chosen, from these limits on.
pub fn answer_over<T: Sink>(
    alloc: Global,
    which: Which,
    limits: Limits,
    lines: &[Line],
    out: &mut T,
) -> Status
    requires limits { AreLimits limits }
    requires lines { All (λ line. CommandIsShort line.command) lines.now }
    ensures ends { EndsBy result (course_after (prime_of which) (no_names limits) lines.now) (T.written out.old) (T.written out.new) }
    ensures counted { HasCause (T.faults out.old) (T.faults out.new) (result ≡ Status.WriteFault) }
{
    match which {
        Which::P5 => answer_modulo::<P5, T>(alloc, limits, lines, out),
        Which::P7 => answer_modulo::<P7, T>(alloc, limits, lines, out),
        Which::P13 => answer_modulo::<P13, T>(alloc, limits, lines, out),
        Which::P31 => answer_modulo::<P31, T>(alloc, limits, lines, out),
        Which::P101 => answer_modulo::<P101, T>(alloc, limits, lines, out),
        Which::P251 => answer_modulo::<P251, T>(alloc, limits, lines, out),
        Which::P32003 => answer_modulo::<P32003, T>(alloc, limits, lines, out),
    }
}

/// Answers the commands over the residues modulo the prime, in order, up to the first that is refused.
fn answer_modulo<M: Modulus, T: Sink>(
    alloc: Global,
    limits: Limits,
    lines: &[Line],
    out: &mut T,
) -> Status
    requires limits { AreLimits limits }
    requires lines { All (λ line. CommandIsShort line.command) lines.now }
    ensures ends { EndsBy result (course_after M.P (no_names limits) lines.now) (T.written out.old) (T.written out.new) }
    ensures counted { HasCause (T.faults out.old) (T.faults out.new) (result ≡ Status.WriteFault) }
{
    let mut session = Session::<Gf<M>>::new(alloc, limits);
    for line in lines {
        if let Err(status) = answer_line(alloc, &mut session, line, out) {
            return status;
        }
    }
    Status::Done
}

/// Takes one command, and writes its answer, or answers the status that ends the run.
fn answer_line<M: Modulus, T: Sink>(
    alloc: Global,
    session: &mut Session<Gf<M>>,
    line: &Line,
    out: &mut T,
) -> Result<(), Status>
    requires { CommandIsShort line.now.command }
    ensures goes_on { OnOk result (GoesOn M.P session.old line.now session.new (T.written out.old) (T.written out.new)) }
    ensures ends { IfErr result (λ status. EndsAt M.P session.old line.now status (T.written out.old) (T.written out.new)) }
    ensures counted { HasCause (T.faults out.old) (T.faults out.new) (result ≡ Err Status.WriteFault) }
{
    match session.step(alloc, &line.command) {
        Step::Silent => Ok(()),
        Step::Answered(answer) => write_answer(alloc, &line.command, &answer, out),
        Step::Refused(refusal) => Err(refuse(alloc, line.number, &refusal, out)),
        Step::Memory => Err(Status::OutOfMemory),
    }
}

/// Writes the answer of a question.
fn write_answer<M: Modulus, T: Sink>(
    alloc: Global,
    command: &Command,
    answer: &Answer<Gf<M>>,
    out: &mut T,
) -> Result<(), Status>
    requires { IsQuestion command.now }
    ensures writes { WritesAnswer M.P command.now answer.now result (T.written out.old) (T.written out.new) }
    ensures counted { HasCause (T.faults out.old) (T.faults out.new) (result ≡ Err Status.WriteFault) }
{
    match command {
        Command::Ask(name, _) => {
            let mut text = Vec::new(alloc);
            if render(answer, name, &mut text).is_err() {
                return Err(Status::OutOfMemory);
            }
            write_text(&text, out)
        }
        _ => unreachable!(),
    }
}
