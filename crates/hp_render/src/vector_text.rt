//! The text of vectors of polynomials.

ghost use Rattle.std.specs.Prelude.{◌≡◌, ◌++◌, ◌≤◌, flat_map, IfOk, OnOk};
ghost use Rattle.hp_mono.specs.Monomials.{degree};
ghost use Rattle.hp_render.specs.VectorText.{entries_text, entry_text, graded_line, greatest, later_entry_text, later_product_text, power_text, powers_text, product_text, row_line, vector_degree, vector_line, vectors_text};

use crate::answer::AskWord;
use crate::limit_text::word_of;
use hp_algebra::{FiniteField, List, NoMem};
use hp_mono::{Mono, VARS};
use hp_script::Name;
use itoa::Buffer;
use std::alloc::Global;

/// A row of a matrix of polynomials, each entry by its terms from the greatest, with its degree.
pub type Row<K> = (u32, List<List<(Mono, K)>>);

/// The lines of vectors behind the word of a question: how many, and a line for each.
pub fn vectors_text<K: FiniteField>(
    alloc: Global,
    word: AskWord,
    name: &Name,
    vectors: &[List<List<(Mono, K)>>],
) -> Result<Vec<u8>, NoMem>
    ensures { IfOk result (λ text. text.items ≡ vectors_text K.numbers word name.now vectors.now) }
{
    let mut buffer = Buffer::new();
    let mut text = Vec::from_slice(alloc, word_of(word))?;
    text.extend_from_slice(b" ")?;
    text.extend_from_slice(name.bytes())?;
    text.extend_from_slice(b": ")?;
    text.extend_from_slice(buffer.format(vectors.len()).as_bytes())?;
    text.extend_from_slice(b"\n")?;
    push_vectors(vectors, &mut text)?;
    Ok(text)
}

/// Appends a line for each vector.
fn push_vectors<K: FiniteField>(
    vectors: &[List<List<(Mono, K)>>],
    text: &mut Vec<u8>,
) -> Result<(), NoMem>
    ensures { OnOk result (text.new.items ≡ text.old.items ++ flat_map (vector_line K.numbers) vectors.now) }
{
    for vector in vectors {
        push_vector(vector.as_slice(), text)?;
    }
    Ok(())
}

/// Appends the line of a vector with its own degree.
fn push_vector<K: FiniteField>(entries: &[List<(Mono, K)>], text: &mut Vec<u8>) -> Result<(), NoMem>
    ensures { OnOk result (text.new.items ≡ text.old.items ++ vector_line K.numbers entries.now) }
{
    push_graded(degree_of(entries), entries, text)
}

/// Appends a line for each row.
pub fn push_rows<K: FiniteField>(rows: &[Row<K>], text: &mut Vec<u8>) -> Result<(), NoMem>
    ensures { OnOk result (text.new.items ≡ text.old.items ++ flat_map (row_line K.numbers) rows.now) }
{
    for row in rows {
        push_row(row, text)?;
    }
    Ok(())
}

/// Appends the line of a row, with the degree that it has.
fn push_row<K: FiniteField>(row: &Row<K>, text: &mut Vec<u8>) -> Result<(), NoMem>
    ensures { OnOk result (text.new.items ≡ text.old.items ++ row_line K.numbers row.now) }
{
    push_graded(row.0, row.1.as_slice(), text)
}

/// Appends a degree, and entries between brackets.
fn push_graded<K: FiniteField>(
    degree: u32,
    entries: &[List<(Mono, K)>],
    text: &mut Vec<u8>,
) -> Result<(), NoMem>
    ensures { OnOk result (text.new.items ≡ text.old.items ++ graded_line K.numbers degree entries.now) }
{
    let mut buffer = Buffer::new();
    text.extend_from_slice(buffer.format(degree).as_bytes())?;
    text.extend_from_slice(b": (")?;
    push_entries(entries, text)?;
    text.extend_from_slice(b")\n")?;
    Ok(())
}

/// The greatest degree of a term of the entries, and 0 where there is none.
fn degree_of<K>(entries: &[List<(Mono, K)>]) -> u32
    ensures { result ≡ vector_degree entries.now }
{
    let mut most: u32 = 0;
    for entry in entries {
        most = most.max(entry_degree(entry.as_slice()));
    }
    most
}

/// The greatest degree of a term, and 0 where there is none.
fn entry_degree<K>(terms: &[(Mono, K)]) -> u32
    ensures { result ≡ greatest (λ t. degree t.0) terms.now }
{
    let mut most: u32 = 0;
    for t in terms {
        most = most.max(t.0.degree());
    }
    most
}

/// Appends the entries with `, ` between each two.
fn push_entries<K: FiniteField>(
    entries: &[List<(Mono, K)>],
    text: &mut Vec<u8>,
) -> Result<(), NoMem>
    ensures { OnOk result (text.new.items ≡ text.old.items ++ entries_text K.numbers entries.now) }
{
    match entries {
        [] => Ok(()),
        [first, rest @ ..] => {
            push_entry(first.as_slice(), text)?;
            push_later_entries(rest, text)
        }
    }
}

/// Appends each entry behind `, `.
fn push_later_entries<K: FiniteField>(
    entries: &[List<(Mono, K)>],
    text: &mut Vec<u8>,
) -> Result<(), NoMem>
    ensures { OnOk result (text.new.items ≡ text.old.items ++ flat_map (later_entry_text K.numbers) entries.now) }
{
    for entry in entries {
        text.extend_from_slice(b", ")?;
        push_entry(entry.as_slice(), text)?;
    }
    Ok(())
}

/// Appends a polynomial: its terms with ` + ` between each two, or `0` where there is none.
fn push_entry<K: FiniteField>(terms: &[(Mono, K)], text: &mut Vec<u8>) -> Result<(), NoMem>
    ensures { OnOk result (text.new.items ≡ text.old.items ++ entry_text K.numbers terms.now) }
{
    match terms {
        [] => {
            text.extend_from_slice(b"0")?;
            Ok(())
        }
        [first, rest @ ..] => {
            push_product(&first.0, &first.1, text)?;
            push_later_products(rest, text)
        }
    }
}

/// Appends each term behind ` + `.
fn push_later_products<K: FiniteField>(terms: &[(Mono, K)], text: &mut Vec<u8>) -> Result<(), NoMem>
    ensures { OnOk result (text.new.items ≡ text.old.items ++ flat_map (later_product_text K.numbers) terms.now) }
{
    for t in terms {
        text.extend_from_slice(b" + ")?;
        push_product(&t.0, &t.1, text)?;
    }
    Ok(())
}

/// Appends a term: its coefficient, and the powers of its variables.
fn push_product<K: FiniteField>(
    mono: &Mono,
    coefficient: &K,
    text: &mut Vec<u8>,
) -> Result<(), NoMem>
    ensures { OnOk result (text.new.items ≡ text.old.items ++ product_text K.numbers (mono.now, coefficient.now)) }
{
    let mut buffer = Buffer::new();
    text.extend_from_slice(buffer.format(coefficient.place()).as_bytes())?;
    push_powers(mono, text)
}

/// Appends the powers of the variables in order.
fn push_powers(mono: &Mono, text: &mut Vec<u8>) -> Result<(), NoMem>
    ensures { OnOk result (text.new.items ≡ text.old.items ++ powers_text 1 mono.now) }
{
    let _degree = mono.degree();
    for i in 1..VARS as u32 + 1 {
        push_power(i, mono.exp(i), text)?;
    }
    Ok(())
}

/// Appends `*xi^e`, without an exponent of 1, and nothing where it is 0.
fn push_power(i: u32, e: u16, text: &mut Vec<u8>) -> Result<(), NoMem>
    ensures { OnOk result (text.new.items ≡ text.old.items ++ power_text i e) }
{
    if e == 0 {
        return Ok(());
    }
    let mut buffer = Buffer::new();
    text.extend_from_slice(b"*x")?;
    text.extend_from_slice(buffer.format(i).as_bytes())?;
    if e > 1 {
        text.extend_from_slice(b"^")?;
        text.extend_from_slice(buffer.format(e).as_bytes())?;
    }
    Ok(())
}
