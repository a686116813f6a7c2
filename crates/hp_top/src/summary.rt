//! The four lines that a sample's run writes.

ghost use Rattle.std.specs.Prelude.{◌≡◌, IfOk};
ghost use Rattle.hp_top.specs.Summary.{feeds, summary_text};

use crate::tally::Tally;
use hp_algebra::NoMem;
use itoa::Buffer;
use std::alloc::Global;

/// How many line feeds there are.
pub fn count_feeds(bytes: &[u8]) -> usize
    ensures { result ≡ feeds bytes.now }
{
    bytes.iter().filter(|b| **b == b'\n').count()
}

/// The four lines, for so many line feeds and for what the answers come to.
pub fn summary_text(alloc: Global, feeds: usize, tally: Tally) -> Result<Vec<u8>, NoMem>
    ensures { IfOk result (λ text. text.items ≡ summary_text feeds tally) }
{
    let mut buffer = Buffer::new();
    let mut text = Vec::from_slice(alloc, b"lines ")?;
    text.extend_from_slice(buffer.format(feeds).as_bytes())?;
    text.extend_from_slice(b"\nanswers ")?;
    text.extend_from_slice(buffer.format(tally.answers).as_bytes())?;
    text.extend_from_slice(b"\nlimits ")?;
    text.extend_from_slice(buffer.format(tally.limits).as_bytes())?;
    text.extend_from_slice(b"\nbytes ")?;
    text.extend_from_slice(buffer.format(tally.bytes).as_bytes())?;
    text.extend_from_slice(b"\n")?;
    Ok(text)
}
