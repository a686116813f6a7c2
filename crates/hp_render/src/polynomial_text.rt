//! The text of polynomials.

ghost use Rattle.std.specs.Fmt.{signed_decimal};
ghost use Rattle.std.specs.Prelude.{◌≡◌, ◌++◌, map, IfOk, OnOk};
ghost use Rattle.hp_render.specs.Text.{behind_spaces, coefficients, polynomial_text, triple_text};

use crate::answer::AskWord;
use crate::limit_text::word_of;
use hp_algebra::NoMem;
use hp_script::Name;
use itoa::Buffer;
use std::alloc::Global;

/// The line of a polynomial behind the word of a question: its coefficients from degree 0.
pub fn polynomial_text(
    alloc: Global,
    word: AskWord,
    name: &Name,
    polynomial: &[i64],
) -> Result<Vec<u8>, NoMem>
    ensures { IfOk result (λ text. text.items ≡ polynomial_text word name.now polynomial.now) }
{
    let mut text = Vec::from_slice(alloc, word_of(word))?;
    text.extend_from_slice(b" ")?;
    text.extend_from_slice(name.bytes())?;
    text.extend_from_slice(b":")?;
    push_coefficients(polynomial, &mut text)?;
    Ok(text)
}

/// The lines of a triple: the head, and a line for each of the three polynomials.
pub fn triple_text(
    alloc: Global,
    name: &Name,
    whole: &[i64],
    deleted: &[i64],
    restricted: &[i64],
) -> Result<Vec<u8>, NoMem>
    ensures { IfOk result (λ text. text.items ≡ triple_text name.now whole.now deleted.now restricted.now) }
{
    let mut text = Vec::from_slice(alloc, b"triple ")?;
    text.extend_from_slice(name.bytes())?;
    text.extend_from_slice(b":\nwhole:")?;
    push_coefficients(whole, &mut text)?;
    text.extend_from_slice(b"deleted:")?;
    push_coefficients(deleted, &mut text)?;
    text.extend_from_slice(b"restricted:")?;
    push_coefficients(restricted, &mut text)?;
    Ok(text)
}

/// Appends the coefficients with a space before each, and the end of the line.
fn push_coefficients(polynomial: &[i64], text: &mut Vec<u8>) -> Result<(), NoMem>
    ensures { OnOk result (text.new.items ≡ text.old.items ++ coefficients polynomial.now) }
{
    push_integers(polynomial, text)?;
    text.extend_from_slice(b"\n")?;
    Ok(())
}

/// Appends each integer in decimal, with a space before each.
fn push_integers(integers: &[i64], text: &mut Vec<u8>) -> Result<(), NoMem>
    ensures { OnOk result (text.new.items ≡ text.old.items ++ behind_spaces (map signed_decimal integers.now)) }
{
    let mut buffer = Buffer::new();
    for n in integers {
        text.extend_from_slice(b" ")?;
        text.extend_from_slice(buffer.format(*n).as_bytes())?;
    }
    Ok(())
}
