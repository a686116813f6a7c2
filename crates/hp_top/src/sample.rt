//! The run of a sample: the words that ask for it, and the summary that it writes.

ghost use Rattle.std.specs.Prelude.{◌≡◌, ◌≢◌, ℕ, ◌≤◌, length, map, string_bytes, decimal, All, None, IfOk, MatchOption};
ghost use Rattle.hp_io.specs.Causes.{HasCause};
ghost use Rattle.hp_script.specs.Lists.{CommandIsShort};
ghost use Rattle.hp_script.specs.Script.{HasCommands};
ghost use Rattle.hp_top.specs.Course.{IsWithinGrammar};
ghost use Rattle.hp_top.specs.Ends.{EndsSample};
ghost use Rattle.hp_top.specs.Summary.{IsSampleWords, IsSummary};
ghost use Rattle.hp_top.specs.Tallies.{IsTally, behind_field};

use crate::status::Status;
use crate::summary::{count_feeds, summary_text};
use crate::tally::{Tally, tally_modulo};
use crate::writing::write_text;
use hp_algebra::NoMem;
use hp_io::Sink;
use hp_modp::P32003;
use hp_sample::sample_text;
use hp_script::{Line, MAX_BYTES, ScriptFault, parse};
use hp_session::Prelude;
use itoa::Buffer;
use std::alloc::Global;

/// The greatest number of a sample.
const GREATEST: u32 = 9999;

/// The number of the sample that the words ask for, if they do: `sample` and a number from 0 to 9999, in decimal without leading zeros. Takes no memory.
pub fn sample_number(words: &[String]) -> Option<u32>
    ensures { MatchOption result ((k : ℕ) → ¬ (IsSampleWords (map string_bytes words.now) k)) (IsSampleWords (map string_bytes words.now)) }
{
    match words {
        [word, number] => {
            if word.as_str() == "sample" {
                plain_number(number.as_str())
            } else {
                None
            }
        }
        _ => None,
    }
}

/// The number from 0 to 9999 that the text is in decimal without leading zeros, if it is.
fn plain_number(text: &str) -> Option<u32>
    ensures { MatchOption result ((k : ℕ) → k ≤ 9999 → text.now ≢ decimal k) (λ k. (k ≤ 9999) × (text.now ≡ decimal k)) }
{
    let Ok(k) = text.parse::<u32>() else {
        return None;
    };
    let mut buffer = Buffer::new();
    if k <= GREATEST && buffer.format(k) == text {
        Some(k)
    } else {
        None
    }
}

/// Runs the sample script of the number `k`, and writes its summary.
pub fn answer_sample<T: Sink>(alloc: Global, k: u32, out: &mut T) -> Status
    requires { k ≤ 9999 }
    ensures ends { EndsSample k result (T.written out.old) (T.written out.new) }
    ensures counted { HasCause (T.faults out.old) (T.faults out.new) (result ≡ Status.WriteFault) }
{
    let Ok(text) = summary_of(alloc, k) else {
        return Status::OutOfMemory;
    };
    match write_text(&text, out) {
        Ok(()) => Status::Done,
        Err(status) => status,
    }
}

/// The summary of the sample script of the number `k`.
fn summary_of(alloc: Global, k: u32) -> Result<Vec<u8>, NoMem>
    requires { k ≤ 9999 }
    ensures { IfOk result (λ text. IsSummary k text.items) }
{
    let script = sample_text(alloc, k)?;
    let lines = commands_of(alloc, &script)?;
    let tally = tally_behind_field(alloc, &lines)?;
    summary_text(alloc, count_feeds(&script), tally)
}

/// What the answers to the commands behind the first, `field 32003`, come to, where none of these is refused.
fn tally_behind_field(alloc: Global, lines: &[Line]) -> Result<Tally, NoMem>
    requires lines { All (λ line. CommandIsShort line.command) lines.now }
    requires some { 1 ≤ length lines.now }
    requires accepted { (behind_field lines.now).refused ≡ None }
    ensures { IfOk result (λ tally. IsTally (behind_field lines.now).questions tally) }
{
    let prelude = Prelude::new();
    tally_modulo::<P32003>(alloc, prelude.limits, &lines[1..])
}

/// The commands of a script that has no line outside the grammar.
fn commands_of(alloc: Global, script: &[u8]) -> Result<Vec<Line>, NoMem>
    requires short { length script.now ≤ MAX_BYTES }
    requires lawful { IsWithinGrammar script.now }
    ensures commands { IfOk result (λ lines. HasCommands script.now lines.items) }
    ensures short { IfOk result (λ lines. All (λ line. CommandIsShort line.command) lines.items) }
{
    match parse(alloc, script) {
        Ok(lines) => Ok(lines),
        Err(ScriptFault::Syntax { .. }) => unreachable!(),
        Err(ScriptFault::Memory) => Err(NoMem),
    }
}
