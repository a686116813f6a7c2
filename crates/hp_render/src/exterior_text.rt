//! The text of elements of the exterior algebra, and of dimensions.

ghost use Rattle.std.specs.Prelude.{◌≡◌, ◌++◌, ◌<◌, flat_map, map, length, decimal, slice_index_or, IfOk, OnOk};
ghost use Rattle.hp_render.specs.Text.{aomoto_text, behind_spaces, element_text, exterior_text, generator_text, later_term_text, normal_text, term_text};

use hp_algebra::{FiniteField, NoMem};
use hp_script::Name;
use hp_sets::HSet;
use itoa::Buffer;
use std::alloc::Global;

/// The line of a normal form.
pub fn normal_text<K: FiniteField>(
    alloc: Global,
    name: &Name,
    terms: &[(HSet, K)],
) -> Result<Vec<u8>, NoMem>
    ensures { IfOk result (λ text. text.items ≡ normal_text K.numbers name.now terms.now) }
{
    let mut text = Vec::from_slice(alloc, b"normal ")?;
    text.extend_from_slice(name.bytes())?;
    text.extend_from_slice(b": ")?;
    push_element(terms, &mut text)?;
    text.extend_from_slice(b"\n")?;
    Ok(text)
}

/// The line of the dimensions of cohomology, from degree 0.
pub fn aomoto_text(alloc: Global, name: &Name, dimensions: &[u32]) -> Result<Vec<u8>, NoMem>
    ensures { IfOk result (λ text. text.items ≡ aomoto_text name.now dimensions.now) }
{
    let mut text = Vec::from_slice(alloc, b"aomoto ")?;
    text.extend_from_slice(name.bytes())?;
    text.extend_from_slice(b":")?;
    push_dimensions(dimensions, &mut text)?;
    text.extend_from_slice(b"\n")?;
    Ok(text)
}

/// Appends each number in decimal, with a space before each.
fn push_dimensions(dimensions: &[u32], text: &mut Vec<u8>) -> Result<(), NoMem>
    ensures { OnOk result (text.new.items ≡ text.old.items ++ behind_spaces (map decimal dimensions.now)) }
{
    let mut buffer = Buffer::new();
    for n in dimensions {
        text.extend_from_slice(b" ")?;
        text.extend_from_slice(buffer.format(*n).as_bytes())?;
    }
    Ok(())
}

/// Appends an element: its terms with ` + ` between each two, or `0` where there is none.
fn push_element<K: FiniteField>(terms: &[(HSet, K)], text: &mut Vec<u8>) -> Result<(), NoMem>
    ensures { OnOk result (text.new.items ≡ text.old.items ++ exterior_text K.numbers terms.now) }
{
    match terms {
        [] => {
            text.extend_from_slice(b"0")?;
            Ok(())
        }
        [first, rest @ ..] => {
            push_term(first.0, &first.1, text)?;
            push_later_terms(rest, text)
        }
    }
}

/// Appends each term behind ` + `.
fn push_later_terms<K: FiniteField>(terms: &[(HSet, K)], text: &mut Vec<u8>) -> Result<(), NoMem>
    ensures { OnOk result (text.new.items ≡ text.old.items ++ flat_map (later_term_text K.numbers) terms.now) }
{
    for t in terms {
        text.extend_from_slice(b" + ")?;
        push_term(t.0, &t.1, text)?;
    }
    Ok(())
}

/// Appends a term: its coefficient, and its generators.
fn push_term<K: FiniteField>(set: HSet, coefficient: &K, text: &mut Vec<u8>) -> Result<(), NoMem>
    ensures { OnOk result (text.new.items ≡ text.old.items ++ term_text K.numbers (set, coefficient.now)) }
{
    let mut buffer = Buffer::new();
    text.extend_from_slice(buffer.format(coefficient.place()).as_bytes())?;
    push_generators(set, text)
}

/// Appends `*ei` for each member i of a set in rising order.
fn push_generators(set: HSet, text: &mut Vec<u8>) -> Result<(), NoMem>
    ensures { OnOk result (text.new.items ≡ text.old.items ++ flat_map generator_text set) }
{
    for k in 0..set.len() {
        push_generator(set, k, text)?;
    }
    Ok(())
}

/// Appends `*ei` for the member i with exactly k smaller members.
fn push_generator(set: HSet, k: u32, text: &mut Vec<u8>) -> Result<(), NoMem>
    requires { k < length set }
    ensures { OnOk result (text.new.items ≡ text.old.items ++ generator_text (slice_index_or set k 0)) }
{
    match set.nth(k) {
        None => Ok(()),
        Some(i) => {
            let mut buffer = Buffer::new();
            text.extend_from_slice(b"*e")?;
            text.extend_from_slice(buffer.format(i).as_bytes())?;
            Ok(())
        }
    }
}
