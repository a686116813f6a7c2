//! The commands of a script.

ghost use Rattle.std.specs.Prelude.{◌≡◌, ◌≤◌, length, map, All, IfOk, IfErr};
ghost use Rattle.hp_script.specs.Script.{lines, HasCommands, HasOneReading, IsFaultOf};
ghost use Rattle.hp_script.specs.Lists.{CommandIsShort};
ghost use Rattle.hp_script.specs.Reading.{AddsLine, IsFaultAt};

use crate::command::{Line, ScriptFault};
use crate::fault::LineFault;
use crate::lines::line;
use std::alloc::{AllocError, Global};

/// The most bytes of a script.
pub const MAX_BYTES: usize = 1_048_576;

/// The lines: what stands between line feeds.
fn lines_of(alloc: Global, bytes: &[u8]) -> Result<Vec<&[u8]>, AllocError>
    ensures { IfOk result (λ v. map (λ x. x.now) v.items ≡ lines bytes.now) }
{
    bytes.split(|b| *b == b'\n').collect(alloc)
}

/// The commands found before, and that of the line, if it has tokens.
///
/// Errors: `Syntax` with the column where the line is outside the grammar, or want of memory.
fn with_line(
    alloc: Global,
    mut found: Vec<Line>,
    number: u32,
    text: &[u8],
) -> Result<Vec<Line>, ScriptFault>
    requires { length text.now ≤ MAX_BYTES }
    ensures added { IfOk result (λ now. AddsLine number text.now found.items now.items) }
    ensures fault { IfErr result (λ e. IsFaultAt number text.now e) }
{
    match line(alloc, text) {
        Ok(None) => Ok(found),
        Ok(Some(command)) => {
            found.push(Line { number, command })?;
            Ok(found)
        }
        Err(LineFault::Memory) => Err(ScriptFault::Memory),
        Err(LineFault::At(column)) => Err(ScriptFault::Syntax {
            line: number,
            column,
        }),
    }
}

/// The commands of the lines in order, up to the first line outside the grammar.
fn read(alloc: Global, bytes: &[u8]) -> Result<Vec<Line>, ScriptFault>
    requires { length bytes.now ≤ MAX_BYTES }
    ensures commands { IfOk result (λ found. HasCommands bytes.now found.items) }
    ensures fault { IfErr result (λ e. IsFaultOf bytes.now e) }
    ensures short { IfOk result (λ found. All (λ l. CommandIsShort l.command) found.items) }
{
    let texts = lines_of(alloc, bytes)?;
    let mut found = Vec::new(alloc);
    let mut number: u32 = 0;
    'line: for text in &texts {
        number += 1;
        found = with_line(alloc, found, number, text)?;
    }
    Ok(found)
}

/// The commands of a script, in order, with the numbers of their lines.
///
/// Every list within them has fewer than 2^32 - 1 members.
///
/// # Errors
///
/// `Syntax` exactly where some line is outside the grammar, with the first such line and the column where it stops being a command. Else want of memory.
pub fn parse(alloc: Global, bytes: &[u8]) -> Result<Vec<Line>, ScriptFault>
    requires { length bytes.now ≤ MAX_BYTES }
    ensures commands { IfOk result (λ found. HasCommands bytes.now found.items) }
    ensures fault { IfErr result (λ e. IsFaultOf bytes.now e) }
    ensures one_reading { HasOneReading bytes.now }
    ensures short { IfOk result (λ found. All (λ l. CommandIsShort l.command) found.items) }
{
    read(alloc, bytes)
}
