//! The text of a basis with the inverse of its values at a point, and of how many generators there are otherwise.

ghost use Rattle.std.specs.Prelude.{◌≡◌, IfOk};
ghost use Rattle.hp_render.specs.ResolutionText.{free_text, not_free_text};

use crate::numbers::{push_behind_spaces, push_lines};
use crate::vector_text::{Row, push_rows};
use hp_algebra::{FiniteField, List, NoMem};
use hp_script::Name;
use itoa::Buffer;
use std::alloc::Global;

/// The lines of a basis: a line for each member with its degree, the coordinates of the point, and the inverse by rows.
pub fn free_text<K: FiniteField>(
    alloc: Global,
    name: &Name,
    basis: &[Row<K>],
    point: &[K],
    inverse: &[List<K>],
) -> Result<Vec<u8>, NoMem>
    ensures { IfOk result (λ text. text.items ≡ free_text K.numbers name.now basis.now point.now inverse.now) }
{
    let mut text = Vec::from_slice(alloc, b"free ")?;
    text.extend_from_slice(name.bytes())?;
    text.extend_from_slice(b": yes\n")?;
    push_rows(basis, &mut text)?;
    text.extend_from_slice(b"point:")?;
    push_behind_spaces(point, &mut text)?;
    text.extend_from_slice(b"\ninverse:\n")?;
    push_lines(inverse, &mut text)?;
    Ok(text)
}

/// The line of an arrangement without a basis: how many minimal generators there are.
pub fn not_free_text(alloc: Global, name: &Name, generators: usize) -> Result<Vec<u8>, NoMem>
    ensures { IfOk result (λ text. text.items ≡ not_free_text name.now generators) }
{
    let mut buffer = Buffer::new();
    let mut text = Vec::from_slice(alloc, b"free ")?;
    text.extend_from_slice(name.bytes())?;
    text.extend_from_slice(b": no ")?;
    text.extend_from_slice(buffer.format(generators).as_bytes())?;
    text.extend_from_slice(b"\n")?;
    Ok(text)
}
