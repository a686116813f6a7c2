//! Vectors with a term more.

ghost use Rattle.std.specs.Prelude.{◌≡◌, ◌≤◌, IfOk, length};
ghost use Rattle.hp_poly.specs.Polynomials.{term_poly};
ghost use Rattle.hp_module.specs.FreeModules.{plus_term};

use hp_algebra::{Field, NoMem, Ring};
use hp_module::ModVec;
use hp_mono::{Mono, Term};
use hp_poly::Poly;
use std::alloc::Global;

/// The vector with a term more.
///
/// Errors: `NoMem` where memory is out.
pub(crate) fn with_term<F: Field>(
    alloc: Global,
    v: &ModVec<F>,
    t: &Term,
    c: F,
) -> Result<ModVec<F>, NoMem>
    requires counted { 1 ≤ t.now.comp }
    requires within { t.now.comp ≤ length v.now }
    ensures { IfOk result (λ r. r ≡ plus_term F.ring v.now t.now c) }
{
    let term = one_term(alloc, t.mono, c)?;
    let sum = v.entry(t.comp).add(alloc, &term)?;
    let mut entries = copies(alloc, v.entries())?;
    entries[t.comp - 1] = sum;
    Ok(ModVec::new(entries))
}

/// The polynomial c m.
///
/// Errors: `NoMem` where memory is out.
fn one_term<F: Field>(alloc: Global, m: Mono, c: F) -> Result<Poly<F>, NoMem>
    ensures { IfOk result (λ r. r ≡ term_poly F.ring c m) }
{
    let mut terms = Vec::new(alloc);
    terms.push((m, c))?;
    Poly::from_terms(alloc, terms)
}

/// The same polynomials a second time.
///
/// Errors: `NoMem` where memory is out.
fn copies<F: Field>(alloc: Global, entries: &[Poly<F>]) -> Result<Vec<Poly<F>>, NoMem>
    ensures { IfOk result (λ r. r.items ≡ entries.now) }
{
    let mut copies = Vec::new(alloc);
    for k in 0..entries.len() {
        copies.push(entries[k].copy(alloc)?)?;
    }
    Ok(copies)
}
