//! The cofactors of a new lead with the leads of its component.

ghost use Rattle.std.specs.Prelude.{◌≡◌, ◌↔◌, ℕ, ◌+◌, ◌==◌, ◌<◌, ◌≤◌, All, IfOk, IsTrue, OnOk, filter, length};
ghost use Rattle.hp_mono.specs.Monomials.{degree, max_degree};
ghost use Rattle.hp_module.specs.CriticalPairs.{lcm_degree};
ghost use Rattle.hp_groebner.specs.KeptCofactors.{AreMonomials, IsCovered, IsKeptWith, divides, without_multiples};
ghost use Rattle.hp_groebner.specs.PairQueues.{AreMinimalCofactors, IsCompanion, nth};

use hp_algebra::NoMem;
use hp_mono::{Mono, Term};
use std::alloc::Global;

/// The minimal ones among the cofactors of a new lead with the leads of its component, each once and with the place of a
/// lead that has it.
///
/// Errors: `NoMem` where memory is out.
pub fn minimal_cofactors(
    alloc: Global,
    leads: &[Term],
    t: &Term,
) -> Result<Vec<(Mono, usize)>, NoMem>
    requires degrees { All (λ s. degree s.mono + degree t.now.mono ≤ max_degree) leads.now }
    ensures monomials { OnOk result (AreMonomials leads.now t.now (length leads.now)) }
    ensures minimal { IfOk result (λ r. AreMinimalCofactors leads.now t.now r.items) }
{
    let mut kept = Vec::new(alloc);
    for j in 0..leads.len() {
        let lead = leads[j];
        if lead.comp == t.comp {
            keep(&mut kept, t.mono.cofactor(&lead.mono), j)?;
        }
    }
    Ok(kept)
}

/// Takes a cofactor in unless one that is kept divides it, and drops those that it divides.
///
/// Errors: `NoMem` where memory is out.
fn keep(kept: &mut Vec<(Mono, usize)>, q: Mono, j: usize) -> Result<(), NoMem>
    ensures { IfOk result (λ _. IsKeptWith kept.old.items q j kept.new.items) }
{
    if is_covered(kept, &q) {
        return Ok(());
    }
    drop_multiples(kept, &q);
    kept.push((q, j))?;
    Ok(())
}

/// Whether one of the monomials divides this one.
fn is_covered(kept: &[(Mono, usize)], q: &Mono) -> bool
    ensures { IsTrue result ↔ IsCovered kept.now q.now }
{
    for k in 0..kept.len() {
        if kept[k].0.divides(q) {
            return true;
        }
    }
    false
}

/// Drops the monomials that this one divides.
fn drop_multiples(kept: &mut Vec<(Mono, usize)>, q: &Mono)
    ensures { kept.new.items ≡ without_multiples q.now kept.old.items }
{
    kept.retain(|x| !is_divisor(q, &x.0));
}

/// Whether a monomial divides another.
fn is_divisor(a: &Mono, b: &Mono) -> bool
    ensures { result ≡ divides a.now b.now }
{
    a.divides(b)
}

/// How many of the leads have the component of the new one.
pub(crate) fn companions(leads: &[Term], t: &Term) -> usize
    ensures { result ≡ length (filter (λ s. s.comp == t.now.comp) leads.now) }
{
    leads.iter().filter(|s| s.comp == t.comp).count()
}

/// Whether the degree of the least common multiple of the new lead and a lead of its component is above the limit.
pub(crate) fn is_high_with(leads: &[Term], t: &Term, limit: u32) -> bool
    requires degrees { All (λ s. degree s.mono + degree t.now.mono ≤ max_degree) leads.now }
    ensures { IsTrue result ↔ ((j : ℕ) × IsCompanion leads.now t.now j × (limit < lcm_degree (nth leads.now j, t.now))) }
{
    for j in 0..leads.len() {
        let lead = leads[j];
        if lead.comp == t.comp && lead.mono.lcm(&t.mono).degree() > limit {
            return true;
        }
    }
    false
}
