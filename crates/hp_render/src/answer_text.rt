//! The text of an answer.

ghost use Rattle.std.specs.Prelude.{◌≡◌, ◌++◌, IfOk, OnOk, OnErr};
ghost use Rattle.hp_render.specs.Text.{answer_text, hyperplanes_text, point_text, rank_text};

use crate::answer::{Answer, AskWord};
use crate::exterior_text::{aomoto_text, normal_text};
use crate::flat_text::flats_text;
use crate::freeness_text::{free_text, not_free_text};
use crate::limit_text::limit_text;
use crate::numbers::{push_behind_spaces, push_lines};
use crate::polynomial_text::{polynomial_text, triple_text};
use crate::resolution_text::resolve_text;
use crate::set_text::sets_text;
use crate::vector_text::vectors_text;
use hp_algebra::{FiniteField, List, NoMem};
use hp_script::Name;
use itoa::Buffer;
use std::alloc::Global;

/// Appends the text of the answer about the arrangement of that name. Where memory is out, nothing is appended.
pub fn render<K: FiniteField>(
    answer: &Answer<K>,
    name: &Name,
    out: &mut Vec<u8>,
) -> Result<(), NoMem>
    ensures whole { OnOk result (out.new.items ≡ out.old.items ++ answer_text K.numbers name.now answer.now) }
    ensures nothing { OnErr result (out.new.items ≡ out.old.items) }
{
    let text = text_of(*out.allocator(), answer, name)?;
    out.extend_from_slice(&text)?;
    Ok(())
}

/// The text of the answer.
fn text_of<K: FiniteField>(alloc: Global, answer: &Answer<K>, name: &Name) -> Result<Vec<u8>, NoMem>
    ensures { IfOk result (λ text. text.items ≡ answer_text K.numbers name.now answer.now) }
{
    match answer {
        Answer::Hyperplanes { dim, forms } => hyperplanes_text(alloc, name, *dim, forms.as_slice()),
        Answer::Point(point) => point_text(alloc, name, point.as_slice()),
        Answer::Rank(rank) => rank_text(alloc, name, *rank),
        Answer::Flats(flats) => flats_text(alloc, name, flats.as_slice()),
        Answer::Poincare(pi) => polynomial_text(alloc, AskWord::Poincare, name, pi.as_slice()),
        Answer::Characteristic(chi) => {
            polynomial_text(alloc, AskWord::Characteristic, name, chi.as_slice())
        }
        Answer::Triple {
            whole,
            deleted,
            restricted,
        } => triple_text(
            alloc,
            name,
            whole.as_slice(),
            deleted.as_slice(),
            restricted.as_slice(),
        ),
        Answer::Circuits(sets) => sets_text(alloc, AskWord::Circuits, name, sets.as_slice()),
        Answer::Nbc(sets) => sets_text(alloc, AskWord::Nbc, name, sets.as_slice()),
        Answer::Normal(terms) => normal_text(alloc, name, terms.as_slice()),
        Answer::Aomoto(dimensions) => aomoto_text(alloc, name, dimensions.as_slice()),
        Answer::Gb(vectors) => vectors_text(alloc, AskWord::Gb, name, vectors.as_slice()),
        Answer::Der(vectors) => vectors_text(alloc, AskWord::Der, name, vectors.as_slice()),
        Answer::Resolve(maps) => resolve_text(alloc, name, maps.as_slice()),
        Answer::Free {
            basis,
            point,
            inverse,
        } => free_text(
            alloc,
            name,
            basis.as_slice(),
            point.as_slice(),
            inverse.as_slice(),
        ),
        Answer::NotFree(generators) => not_free_text(alloc, name, *generators),
        Answer::Limit { asked, kind } => limit_text(alloc, name, *asked, *kind),
    }
}

/// The lines of an arrangement: how many hyperplanes in which dimension, and the coefficients of each.
fn hyperplanes_text<K: FiniteField>(
    alloc: Global,
    name: &Name,
    dim: u32,
    forms: &[List<K>],
) -> Result<Vec<u8>, NoMem>
    ensures { IfOk result (λ text. text.items ≡ hyperplanes_text K.numbers name.now dim forms.now) }
{
    let mut buffer = Buffer::new();
    let mut text = Vec::from_slice(alloc, b"hyperplanes ")?;
    text.extend_from_slice(name.bytes())?;
    text.extend_from_slice(b": ")?;
    text.extend_from_slice(buffer.format(forms.len()).as_bytes())?;
    text.extend_from_slice(b" in ")?;
    text.extend_from_slice(buffer.format(dim).as_bytes())?;
    text.extend_from_slice(b"\n")?;
    push_lines(forms, &mut text)?;
    Ok(text)
}

/// The line of a point.
fn point_text<K: FiniteField>(alloc: Global, name: &Name, point: &[K]) -> Result<Vec<u8>, NoMem>
    ensures { IfOk result (λ text. text.items ≡ point_text K.numbers name.now point.now) }
{
    let mut text = Vec::from_slice(alloc, b"point ")?;
    text.extend_from_slice(name.bytes())?;
    text.extend_from_slice(b":")?;
    push_behind_spaces(point, &mut text)?;
    text.extend_from_slice(b"\n")?;
    Ok(text)
}

/// The line of a rank.
fn rank_text(alloc: Global, name: &Name, rank: u32) -> Result<Vec<u8>, NoMem>
    ensures { IfOk result (λ text. text.items ≡ rank_text name.now rank) }
{
    let mut buffer = Buffer::new();
    let mut text = Vec::from_slice(alloc, b"rank ")?;
    text.extend_from_slice(name.bytes())?;
    text.extend_from_slice(b": ")?;
    text.extend_from_slice(buffer.format(rank).as_bytes())?;
    text.extend_from_slice(b"\n")?;
    Ok(text)
}
