//! The line of a refusal.

ghost use Rattle.std.specs.Prelude.{◌≡◌, ◌++◌, codes, decimal, IfOk, OnOk, OnErr};
ghost use Rattle.hp_render.specs.Text.{refusal_text, refusal_words};

use crate::refusal::Refusal;
use hp_algebra::NoMem;
use itoa::{Buffer, Integer};
use std::alloc::Global;

/// Appends the line of the refusal of line `line`. Where memory is out, nothing is appended.
pub fn render_refusal(line: u32, refusal: &Refusal, out: &mut Vec<u8>) -> Result<(), NoMem>
    ensures whole { OnOk result (out.new.items ≡ out.old.items ++ refusal_text line refusal.now) }
    ensures nothing { OnErr result (out.new.items ≡ out.old.items) }
{
    let text = line_of(*out.allocator(), line, refusal)?;
    out.extend_from_slice(&text)?;
    Ok(())
}

/// The line of the refusal.
fn line_of(alloc: Global, line: u32, refusal: &Refusal) -> Result<Vec<u8>, NoMem>
    ensures { IfOk result (λ text. text.items ≡ refusal_text line refusal.now) }
{
    let mut buffer = Buffer::new();
    let mut text = Vec::from_slice(alloc, b"refused line ")?;
    text.extend_from_slice(buffer.format(line).as_bytes())?;
    text.extend_from_slice(b": ")?;
    push_words(refusal, &mut text)?;
    text.extend_from_slice(b"\n")?;
    Ok(text)
}

/// Appends the words of the refusal.
fn push_words(refusal: &Refusal, text: &mut Vec<u8>) -> Result<(), NoMem>
    ensures { OnOk result (text.new.items ≡ text.old.items ++ refusal_words refusal.now) }
{
    match refusal {
        Refusal::Syntax(column) => push_numbered(b"syntax ", *column, text),
        Refusal::NoField => push_plain(b"no field", text),
        Refusal::FieldTwice => push_plain(b"field twice", text),
        Refusal::FieldNotListed(p) => push_numbered(b"field not listed ", *p, text),
        Refusal::UnknownName(name) => push_named(b"unknown name ", name.bytes(), text),
        Refusal::NameTaken(name) => push_named(b"name taken ", name.bytes(), text),
        Refusal::Dimension => push_plain(b"dimension", text),
        Refusal::BadIndex(i) => push_numbered(b"bad index ", *i, text),
        Refusal::BadGraph(k) => push_numbered(b"bad graph ", *k, text),
        Refusal::ZeroForm(i) => push_numbered(b"zero form ", *i, text),
        Refusal::Repeated(i, j) => push_pair(*i, *j, text),
        Refusal::TooMany(n) => push_numbered(b"too many ", *n, text),
        Refusal::BadList => push_plain(b"bad list", text),
        Refusal::BadLimit => push_plain(b"bad limit", text),
    }
}

/// Appends the words.
fn push_plain(words: &[u8], text: &mut Vec<u8>) -> Result<(), NoMem>
    ensures { OnOk result (text.new.items ≡ text.old.items ++ words.now) }
{
    text.extend_from_slice(words)?;
    Ok(())
}

/// Appends the words and a number.
fn push_numbered<I: Integer>(words: &[u8], number: I, text: &mut Vec<u8>) -> Result<(), NoMem>
    ensures { OnOk result (text.new.items ≡ text.old.items ++ (words.now ++ I.text number)) }
{
    let mut buffer = Buffer::new();
    text.extend_from_slice(words)?;
    text.extend_from_slice(buffer.format(number).as_bytes())?;
    Ok(())
}

/// Appends the words and a name.
fn push_named(words: &[u8], name: &[u8], text: &mut Vec<u8>) -> Result<(), NoMem>
    ensures { OnOk result (text.new.items ≡ text.old.items ++ (words.now ++ name.now)) }
{
    text.extend_from_slice(words)?;
    text.extend_from_slice(name)?;
    Ok(())
}

/// Appends the words of two proportional forms.
fn push_pair(i: u32, j: u32, text: &mut Vec<u8>) -> Result<(), NoMem>
    ensures { OnOk result (text.new.items ≡ text.old.items ++ (codes "repeated " ++ decimal i ++ codes " " ++ decimal j)) }
{
    let mut buffer = Buffer::new();
    text.extend_from_slice(b"repeated ")?;
    text.extend_from_slice(buffer.format(i).as_bytes())?;
    text.extend_from_slice(b" ")?;
    text.extend_from_slice(buffer.format(j).as_bytes())?;
    Ok(())
}
