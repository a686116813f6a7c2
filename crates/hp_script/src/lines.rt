//! The command of a line.

ghost use Rattle.std.specs.Prelude.{◌≡◌, ◌≤◌, ◌<◌, ◌-◌, length, IfOk, IfErr, IfSome, Some, None, List, ℕ};
ghost use Rattle.hp_script.specs.Cut.{column_of};
ghost use Rattle.hp_script.specs.Reading.{IsLine, IsRefused};
ghost use Rattle.hp_script.specs.Lists.{CommandIsShort};

use crate::command::Command;
use crate::commands::spelled;
use crate::cut::{Place, cut};
use crate::fault::{Fault, LineFault};
use crate::script::MAX_BYTES;
use std::alloc::Global;

/// The column where so many tokens are left.
fn column(places: &[Place], left: usize) -> u32
    requires some { 0 < length places.now }
    requires within { left ≤ length places.now }
    ensures { result ≡ column_of places.now left }
{
    if left == 0 {
        places[places.len() - 1].after
    } else {
        places[places.len() - left].first
    }
}

/// The command of a line, if it has tokens, or the column where the line is outside the grammar.
pub fn line(alloc: Global, text: &[u8]) -> Result<Option<Command>, LineFault>
    requires { length text.now ≤ MAX_BYTES }
    ensures command { IfOk result (λ c. IsLine text.now c) }
    ensures refused { IfErr result (λ e. IsRefused text.now e) }
    ensures short { IfOk result (λ c. IfSome c CommandIsShort) }
{
    match cut(alloc, text) {
        Err(_) => Err(LineFault::Memory),
        Ok((tokens, places)) => {
            if tokens.is_empty() {
                return Ok(None);
            }
            match spelled(alloc, &tokens) {
                Ok(command) => Ok(Some(command)),
                Err(Fault::Memory) => Err(LineFault::Memory),
                Err(Fault::At(left)) => Err(LineFault::At(column(&places, left))),
            }
        }
    }
}
