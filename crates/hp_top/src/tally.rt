//! What the answers to commands that are accepted come to, one by one, without their texts.

ghost use Rattle.std.specs.Prelude.{◌≡◌, All, None, IfOk, OnOk};
ghost use Rattle.hp_script.specs.Lists.{CommandIsShort};
ghost use Rattle.hp_session.specs.State.{AreLimits, no_names};
ghost use Rattle.hp_session.specs.Steps.{IsQuestion};
ghost use Rattle.hp_top.specs.Course.{after_over, asks, course_after, refusal_over};
ghost use Rattle.hp_top.specs.Summary.{is_limit};
ghost use Rattle.hp_top.specs.Tallies.{IsOneTally, IsTally, IsTallyOf};

use hp_algebra::NoMem;
use hp_groebner::Limits;
use hp_modp::{Gf, Modulus};
use hp_render::{Answer, render};
use hp_script::{Command, Line};
use hp_session::{Session, Step};
use std::alloc::Global;

/// How many answers there are, how many of them are limits, and how many bytes their texts have.
#[derive(Clone, Copy)]
pub struct Tally {
    pub answers: u64,
    pub limits: u64,
    pub bytes: u128,
}

/// No answer.
const NONE: Tally = Tally {
    answers: 0,
    limits: 0,
    bytes: 0,
};

/// What the answers to the commands over the residues modulo the prime come to, where none of these is refused. One answer is kept at a time.
pub fn tally_modulo<M: Modulus>(
    alloc: Global,
    limits: Limits,
    lines: &[Line],
) -> Result<Tally, NoMem>
    requires limits { AreLimits limits }
    requires lines { All (λ line. CommandIsShort line.command) lines.now }
    requires accepted { (course_after M.P (no_names limits) lines.now).refused ≡ None }
    ensures { IfOk result (λ tally. IsTally (course_after M.P (no_names limits) lines.now).questions tally) }
{
    let mut session = Session::<Gf<M>>::new(alloc, limits);
    let mut tally = NONE;
    for line in lines {
        let more = tally_line(alloc, &mut session, line)?;
        tally = Tally {
            answers: tally.answers + more.answers,
            limits: tally.limits + more.limits,
            bytes: tally.bytes + more.bytes,
        };
    }
    Ok(tally)
}

/// Takes one command that is accepted, and answers what its answer comes to, if it has one.
fn tally_line<M: Modulus>(
    alloc: Global,
    session: &mut Session<Gf<M>>,
    line: &Line,
) -> Result<Tally, NoMem>
    requires short { CommandIsShort line.now.command }
    requires accepted { refusal_over M.P session.old line.now.command ≡ None }
    ensures tally { IfOk result (λ tally. IsTally (asks M.P session.old line.now.command) tally) }
    ensures small { IfOk result (λ tally. IsOneTally tally) }
    ensures after { OnOk result (session.new ≡ after_over M.P session.old line.now.command) }
{
    match session.step(alloc, &line.command) {
        Step::Silent => Ok(NONE),
        Step::Answered(answer) => tally_answer(alloc, &line.command, &answer),
        Step::Refused(_) => unreachable!(),
        Step::Memory => Err(NoMem),
    }
}

/// What the answer of a question comes to.
fn tally_answer<M: Modulus>(
    alloc: Global,
    command: &Command,
    answer: &Answer<Gf<M>>,
) -> Result<Tally, NoMem>
    requires { IsQuestion command.now }
    ensures tally { IfOk result (λ tally. IsTallyOf M.P command.now answer.now tally) }
    ensures small { IfOk result (λ tally. IsOneTally tally) }
{
    match command {
        Command::Ask(name, _) => {
            let mut text = Vec::new(alloc);
            render(answer, name, &mut text)?;
            Ok(Tally {
                answers: 1,
                limits: u64::from(is_limit(answer)),
                bytes: text.len() as u128,
            })
        }
        _ => unreachable!(),
    }
}

/// Whether a limit stands in place of the answer.
fn is_limit<M: Modulus>(answer: &Answer<Gf<M>>) -> bool
    ensures { result ≡ is_limit answer.now }
{
    matches!(answer, Answer::Limit { .. })
}
