//! Pieces of text that several lines have.

ghost use Rattle.std.specs.Prelude.{◌≡◌, ◌++◌, flat_map, map, OnOk};
ghost use Rattle.hp_render.specs.AnswerWords.{behind_spaces, element_text, elements_line, spaced};

use hp_algebra::{FiniteField, List, NoMem};
use itoa::Buffer;

/// Appends each element as its residue, with a space before each.
pub fn push_behind_spaces<K: FiniteField>(elements: &[K], text: &mut Vec<u8>) -> Result<(), NoMem>
    ensures { OnOk result (text.new.items ≡ text.old.items ++ behind_spaces (map (element_text K.numbers) elements.now)) }
{
    let mut buffer = Buffer::new();
    for x in elements {
        text.extend_from_slice(b" ")?;
        text.extend_from_slice(buffer.format(x.place()).as_bytes())?;
    }
    Ok(())
}

/// Appends each element as its residue, with a space between each two.
fn push_spaced<K: FiniteField>(elements: &[K], text: &mut Vec<u8>) -> Result<(), NoMem>
    ensures { OnOk result (text.new.items ≡ text.old.items ++ spaced (map (element_text K.numbers) elements.now)) }
{
    match elements {
        [] => Ok(()),
        [first, rest @ ..] => {
            let mut buffer = Buffer::new();
            text.extend_from_slice(buffer.format(first.place()).as_bytes())?;
            push_behind_spaces(rest, text)
        }
    }
}

/// Appends a line of elements for each row.
pub fn push_lines<K: FiniteField>(rows: &[List<K>], text: &mut Vec<u8>) -> Result<(), NoMem>
    ensures { OnOk result (text.new.items ≡ text.old.items ++ flat_map (elements_line K.numbers) rows.now) }
{
    for row in rows {
        push_spaced(row.as_slice(), text)?;
        text.extend_from_slice(b"\n")?;
    }
    Ok(())
}
