//! The text of flats.

ghost use Rattle.std.specs.Prelude.{◌≡◌, ◌++◌, flat_map, IfOk, OnOk};
ghost use Rattle.hp_render.specs.Text.{flat_line, flats_text};

use crate::set_text::push_set;
use hp_algebra::NoMem;
use hp_script::Name;
use hp_sets::Flat;
use itoa::Buffer;
use std::alloc::Global;

/// The lines of flats: how many, and a line for each.
pub fn flats_text(alloc: Global, name: &Name, flats: &[Flat]) -> Result<Vec<u8>, NoMem>
    ensures { IfOk result (λ text. text.items ≡ flats_text name.now flats.now) }
{
    let mut buffer = Buffer::new();
    let mut text = Vec::from_slice(alloc, b"flats ")?;
    text.extend_from_slice(name.bytes())?;
    text.extend_from_slice(b": ")?;
    text.extend_from_slice(buffer.format(flats.len()).as_bytes())?;
    text.extend_from_slice(b"\n")?;
    push_flats(flats, &mut text)?;
    Ok(text)
}

/// Appends a line for each flat.
fn push_flats(flats: &[Flat], text: &mut Vec<u8>) -> Result<(), NoMem>
    ensures { OnOk result (text.new.items ≡ text.old.items ++ flat_map flat_line flats.now) }
{
    for flat in flats {
        push_flat(*flat, text)?;
    }
    Ok(())
}

/// Appends the line of a flat.
fn push_flat(flat: Flat, text: &mut Vec<u8>) -> Result<(), NoMem>
    ensures { OnOk result (text.new.items ≡ text.old.items ++ flat_line flat) }
{
    let mut buffer = Buffer::new();
    text.extend_from_slice(buffer.format(flat.rank).as_bytes())?;
    text.extend_from_slice(b": ")?;
    push_set(flat.set, text)?;
    text.extend_from_slice(b"\n")?;
    Ok(())
}
