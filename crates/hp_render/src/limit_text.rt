//! The text of a limit.

ghost use Rattle.std.specs.Prelude.{◌≡◌, IfOk};
ghost use Rattle.hp_render.specs.Text.{limit_text, limit_word, word_text};

use crate::answer::{AskWord, LimitKind};
use hp_algebra::NoMem;
use hp_script::Name;
use std::alloc::Global;

/// The line of a question that met a limit.
pub fn limit_text(
    alloc: Global,
    name: &Name,
    word: AskWord,
    kind: LimitKind,
) -> Result<Vec<u8>, NoMem>
    ensures { IfOk result (λ text. text.items ≡ limit_text name.now word kind) }
{
    let mut text = Vec::from_slice(alloc, word_of(word))?;
    text.extend_from_slice(b" ")?;
    text.extend_from_slice(name.bytes())?;
    text.extend_from_slice(b": limit ")?;
    text.extend_from_slice(limit_of(kind))?;
    text.extend_from_slice(b"\n")?;
    Ok(text)
}

/// The word of a question.
pub fn word_of(word: AskWord) -> &'static [u8]
    ensures { result.now ≡ word_text word }
{
    match word {
        AskWord::Hyperplanes => b"hyperplanes",
        AskWord::Point => b"point",
        AskWord::Rank => b"rank",
        AskWord::Flats => b"flats",
        AskWord::Poincare => b"poincare",
        AskWord::Characteristic => b"characteristic",
        AskWord::Triple => b"triple",
        AskWord::Circuits => b"circuits",
        AskWord::Nbc => b"nbc",
        AskWord::Normal => b"normal",
        AskWord::Aomoto => b"aomoto",
        AskWord::Gb => b"gb",
        AskWord::Der => b"der",
        AskWord::Resolve => b"resolve",
        AskWord::Free => b"free",
    }
}

/// The word of a limit.
fn limit_of(kind: LimitKind) -> &'static [u8]
    ensures { result.now ≡ limit_word kind }
{
    match kind {
        LimitKind::Flats => b"flats",
        LimitKind::Circuits => b"circuits",
        LimitKind::Nbc => b"nbc",
        LimitKind::Aomoto => b"aomoto",
        LimitKind::Pairs => b"pairs",
        LimitKind::Degree => b"degree",
    }
}
