//! The text of a minimal resolution.

ghost use Rattle.std.specs.Prelude.{◌≡◌, ◌++◌, map, decimal, IfOk, OnOk};
ghost use Rattle.hp_render.specs.AnswerWords.{behind_spaces};
ghost use Rattle.hp_render.specs.ResolutionText.{betti_line, map_lines, maps_lines, resolve_text};

use crate::vector_text::{Row, push_rows};
use hp_algebra::{FiniteField, List, NoMem};
use hp_script::Name;
use itoa::Buffer;
use std::alloc::Global;

/// A map of a resolution: its Betti numbers from degree 0, and its rows.
type ResolutionMap<K> = (List<usize>, List<Row<K>>);

/// The lines of a resolution: how many maps, and the lines of each.
pub fn resolve_text<K: FiniteField>(
    alloc: Global,
    name: &Name,
    maps: &[ResolutionMap<K>],
) -> Result<Vec<u8>, NoMem>
    ensures { IfOk result (λ text. text.items ≡ resolve_text K.numbers name.now maps.now) }
{
    let mut buffer = Buffer::new();
    let mut text = Vec::from_slice(alloc, b"resolve ")?;
    text.extend_from_slice(name.bytes())?;
    text.extend_from_slice(b": ")?;
    text.extend_from_slice(buffer.format(maps.len()).as_bytes())?;
    text.extend_from_slice(b"\n")?;
    push_maps(maps, &mut text)?;
    Ok(text)
}

/// Appends the lines of each map, counted from 0.
fn push_maps<K: FiniteField>(maps: &[ResolutionMap<K>], text: &mut Vec<u8>) -> Result<(), NoMem>
    ensures { OnOk result (text.new.items ≡ text.old.items ++ maps_lines K.numbers 0 maps.now) }
{
    for k in 0..maps.len() {
        let map = &maps[k];
        push_map(k, map, text)?;
    }
    Ok(())
}

/// Appends the lines of map k: its Betti numbers, and its rows.
fn push_map<K: FiniteField>(
    k: usize,
    map: &ResolutionMap<K>,
    text: &mut Vec<u8>,
) -> Result<(), NoMem>
    ensures { OnOk result (text.new.items ≡ text.old.items ++ map_lines K.numbers k map.now) }
{
    push_betti(k, map.0.as_slice(), text)?;
    push_rows(map.1.as_slice(), text)
}

/// Appends the line of the Betti numbers of map k.
fn push_betti(k: usize, counts: &[usize], text: &mut Vec<u8>) -> Result<(), NoMem>
    ensures { OnOk result (text.new.items ≡ text.old.items ++ betti_line k counts.now) }
{
    let mut buffer = Buffer::new();
    text.extend_from_slice(b"betti ")?;
    text.extend_from_slice(buffer.format(k).as_bytes())?;
    text.extend_from_slice(b":")?;
    push_counts(counts, text)?;
    text.extend_from_slice(b"\n")?;
    Ok(())
}

/// Appends each number in decimal, with a space before each.
fn push_counts(counts: &[usize], text: &mut Vec<u8>) -> Result<(), NoMem>
    ensures { OnOk result (text.new.items ≡ text.old.items ++ behind_spaces (map decimal counts.now)) }
{
    let mut buffer = Buffer::new();
    for n in counts {
        text.extend_from_slice(b" ")?;
        text.extend_from_slice(buffer.format(*n).as_bytes())?;
    }
    Ok(())
}
