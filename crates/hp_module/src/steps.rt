//! The steps of a division.

ghost use Rattle.std.specs.Prelude.{◌≡◌, ◌≢◌, ◌+◌, ◌-◌, ◌++◌, ◌≤◌, ◌<◌, ℕ, [], ◌∷◌, IfOk, length, drop, set, slice_index_or};
ghost use Rattle.hp_mono.specs.Monomials.{degree, max_degree};
ghost use Rattle.hp_poly.specs.Polynomials.{Poly as PolyOf, poly_degree, term_poly};
ghost use Rattle.hp_module.specs.Vectors.{vector_plus, vector_scale};
ghost use Rattle.hp_module.specs.FallingTerms.{AreFalling, vector_of};

use crate::merging::merge_multiple;
use crate::terms::Terms;
use hp_algebra::{Field, NoMem};
use hp_mono::{Mono, Term, TermOrder};

/// Adds c m times a vector, given by its terms for each component, to what is left. The buffer is room for the sums.
pub(crate) fn add_multiple<F: Field, O: TermOrder>(
    order: &O,
    rest: &mut Vec<Terms<F>>,
    c: F,
    m: Mono,
    parts: &[Terms<F>],
    buffer: &mut Vec<(Mono, F)>,
) -> Result<(), NoMem>
    requires rest { AreFalling F.ring (O.order order.now) (O.components order.now) rest.old.items }
    requires parts { AreFalling F.ring (O.order order.now) (O.components order.now) parts.now }
    requires nonzero { c ≢ F.ring.zero }
    requires degrees { (j : ℕ) → j < O.components order.now → degree m + poly_degree F.ring (slice_index_or parts.now j []) ≤ max_degree }
    ensures falling { IfOk result (λ _. AreFalling F.ring (O.order order.now) (O.components order.now) rest.new.items) }
    ensures value { IfOk result (λ _. vector_of F.ring rest.new.items ≡ vector_plus F.ring (vector_of F.ring rest.old.items) (vector_scale F.ring (term_poly F.ring c m) (vector_of F.ring parts.now))) }
{
    let _width = order.width();
    let _degree = m.degree();
    let _zero = c.is_nil();
    for k in 0..parts.len() {
        let part = parts[k].as_slice();
        if !part.is_empty() {
            merge_multiple(order, k + 1, rest[k].as_slice(), c, m, part, buffer)?;
            rest[k].exchange(buffer);
        }
    }
    Ok(())
}

/// Moves the lead of what is left to the remainder.
pub(crate) fn move_lead<F: Field>(
    t: &Term,
    c: F,
    rest: &mut Vec<Terms<F>>,
    out: &mut Vec<Terms<F>>,
) -> Result<(), NoMem>
    requires counted { 1 ≤ t.now.comp }
    requires within { t.now.comp ≤ length rest.old.items }
    requires long { t.now.comp ≤ length out.old.items }
    requires first { slice_index_or rest.old.items (t.now.comp - 1) [] ≢ [] }
    ensures rest { IfOk result (λ _. rest.new.items ≡ set rest.old.items (t.now.comp - 1) (drop 1 (slice_index_or rest.old.items (t.now.comp - 1) []))) }
    ensures out { IfOk result (λ _. out.new.items ≡ set out.old.items (t.now.comp - 1) (slice_index_or out.old.items (t.now.comp - 1) [] ++ (t.now.mono, c) ∷ [])) }
{
    out[t.comp - 1].push(t.mono, c)?;
    rest[t.comp - 1].drop_first();
    Ok(())
}
