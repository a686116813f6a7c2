//! The text of sets of hyperplanes.

ghost use Rattle.std.specs.Prelude.{◌≡◌, ◌++◌, ◌<◌, [], ◌∷◌, flat_map, map, drop, length, decimal, slice_index_or, IfOk, OnOk};
ghost use Rattle.hp_render.specs.Text.{behind_spaces, set_line, set_text, sets_text, spaced};

use crate::answer::AskWord;
use crate::limit_text::word_of;
use hp_algebra::NoMem;
use hp_script::Name;
use hp_sets::HSet;
use itoa::Buffer;
use std::alloc::Global;

/// The lines of sets behind the word of a question: how many, and a line for each.
pub fn sets_text(alloc: Global, word: AskWord, name: &Name, sets: &[HSet]) -> Result<Vec<u8>, NoMem>
    ensures { IfOk result (λ text. text.items ≡ sets_text word name.now sets.now) }
{
    let mut buffer = Buffer::new();
    let mut text = Vec::from_slice(alloc, word_of(word))?;
    text.extend_from_slice(b" ")?;
    text.extend_from_slice(name.bytes())?;
    text.extend_from_slice(b": ")?;
    text.extend_from_slice(buffer.format(sets.len()).as_bytes())?;
    text.extend_from_slice(b"\n")?;
    push_sets(sets, &mut text)?;
    Ok(text)
}

/// Appends a line for each set.
fn push_sets(sets: &[HSet], text: &mut Vec<u8>) -> Result<(), NoMem>
    ensures { OnOk result (text.new.items ≡ text.old.items ++ flat_map set_line sets.now) }
{
    for set in sets {
        push_set(*set, text)?;
        text.extend_from_slice(b"\n")?;
    }
    Ok(())
}

/// Appends a set: its members between braces.
pub fn push_set(set: HSet, text: &mut Vec<u8>) -> Result<(), NoMem>
    ensures { OnOk result (text.new.items ≡ text.old.items ++ set_text set) }
{
    text.extend_from_slice(b"{")?;
    push_members(set, text)?;
    text.extend_from_slice(b"}")?;
    Ok(())
}

/// Appends the members of a set in rising order, with a space between each two.
fn push_members(set: HSet, text: &mut Vec<u8>) -> Result<(), NoMem>
    ensures { OnOk result (text.new.items ≡ text.old.items ++ spaced (map decimal set)) }
{
    match set.least() {
        None => Ok(()),
        Some(first) => {
            let mut buffer = Buffer::new();
            text.extend_from_slice(buffer.format(first).as_bytes())?;
            push_later_members(set, text)
        }
    }
}

/// Appends the members of a set but the least, with a space before each.
fn push_later_members(set: HSet, text: &mut Vec<u8>) -> Result<(), NoMem>
    ensures { OnOk result (text.new.items ≡ text.old.items ++ behind_spaces (map decimal (drop 1 set))) }
{
    for k in 1..set.len() {
        push_member(set, k, text)?;
    }
    Ok(())
}

/// Appends a space and the member with exactly k smaller members.
fn push_member(set: HSet, k: u32, text: &mut Vec<u8>) -> Result<(), NoMem>
    requires { k < length set }
    ensures { OnOk result (text.new.items ≡ text.old.items ++ behind_spaces (decimal (slice_index_or set k 0) ∷ [])) }
{
    match set.nth(k) {
        None => Ok(()),
        Some(i) => {
            let mut buffer = Buffer::new();
            text.extend_from_slice(b" ")?;
            text.extend_from_slice(buffer.format(i).as_bytes())?;
            Ok(())
        }
    }
}
