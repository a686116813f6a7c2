//! The script.

ghost use Rattle.std.specs.Prelude.{◌≡◌, ◌≤◌, IfOk};
ghost use Rattle.hp_sample.specs.Sample.{sample_text};

use crate::lines::push_graph;
use hp_algebra::NoMem;
use std::alloc::Global;

/// The sample script of the number `k`.
pub fn sample_text(alloc: Global, k: u32) -> Result<Vec<u8>, NoMem>
    requires { k ≤ 9999 }
    ensures { IfOk result (λ text. text.items ≡ sample_text k) }
{
    let mut text = Vec::from_slice(alloc, b"field 32003\n")?;
    let mut state = k;
    for i in 1..31 {
        state = push_graph(i, state, &mut text)?;
    }
    Ok(text)
}
