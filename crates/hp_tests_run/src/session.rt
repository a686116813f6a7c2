//! A session behind commands that are refused.

ghost use Rattle.hp_script.specs.Lists.{CommandIsShort};

use hp_modp::{Gf, P31};
use hp_render::render;
use hp_script::{Command, parse};
use hp_session::{Prelude, Session, Step};
use std::alloc::Global;
use std::test::Fail;

/// A `let` and a question that are accepted, and then commands that are refused, each for another cause.
const COMMANDS: &[u8] = b"let A = forms 2 [1 0, 0 1, 1 -1]
flats A
field 31
limit degree 241
let A = boolean 2
let B = forms 2 [1 2, 2 4]
let B = forms 1 [31]
let B = cone 10 []
let B = typeA 10
let B = typeB 6
let B = graphic 3 [1-2 2-1]
let B = delete A 4
let B = restrict C 1
triple A 4
normal A e4
aomoto A [1 1]
gb A [21 1 1]
der A [1]
free A [1 1 1 1]
resolve A []
flats B
";

const FLATS: &[u8] = b"flats A: 5\n0: {}\n1: {1}\n1: {2}\n1: {3}\n2: {1 2 3}\n";

/// The text of the answer to a question, or nothing.
fn text_of(
    alloc: Global,
    session: &mut Session<Gf<P31>>,
    command: &Command,
) -> Result<Vec<u8>, Fail>
    requires { CommandIsShort command.now }
{
    let mut text = Vec::new(alloc);
    if let Command::Ask(name, _) = command {
        if let Step::Answered(answer) = session.step(alloc, command) {
            render(&answer, name, &mut text)?;
        }
    }
    Ok(text)
}

/// Behind each of them the question is answered as before.
#[test]
fn refused_commands_change_nothing(rt: HostRuntime) -> Result<(), Fail> {
    let alloc = rt.alloc();
    let lines = parse(alloc, COMMANDS)?;
    let questions = parse(alloc, b"flats A")?;
    assert_eq!(rt; (lines.len(), questions.len()), (21, 1));
    let mut session = Session::<Gf<P31>>::new(alloc, Prelude::new().limits);
    for line in &lines {
        let step = session.step(alloc, &line.command);
        let is_refused = matches!(step, Step::Refused(_));
        assert_eq!(rt; is_refused, line.number > 2, "{}", line.number);
        for question in &questions {
            let text = text_of(alloc, &mut session, &question.command)?;
            assert_eq!(rt; text.as_slice(), FLATS, "{}", line.number);
        }
    }
    Ok(())
}
