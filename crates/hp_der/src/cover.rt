//! Pairs of leads that cover all pairs of leads of one component.

ghost use Rattle.std.specs.Prelude.{◌≡◌, ◌≤◌, ◌++◌, All, IfOk, length, map};
ghost use Rattle.hp_mono.specs.Monomials.{degree};
ghost use Rattle.hp_groebner.specs.LimitRules.{most_degree};
ghost use Rattle.hp_der.specs.CoveringPairs.{AreCoveringPairs};

use hp_algebra::NoMem;
use hp_groebner::minimal_cofactors;
use hp_mono::{Mono, Term};
use std::alloc::Global;

/// The pairs, and those of lead `i` with the leads at these places.
fn with_pairs(
    pairs: Vec<(usize, usize)>,
    places: &[(Mono, usize)],
    i: usize,
) -> Result<Vec<(usize, usize)>, NoMem>
    ensures { IfOk result (λ r. r.items ≡ pairs.items ++ map (λ x. (x.1, i)) places.now) }
{
    let mut pairs = pairs;
    for k in 0..places.len() {
        pairs.push((places[k].1, i))?;
    }
    Ok(pairs)
}

/// The pairs of each lead with the leads before it that have its minimal cofactors.
///
/// Errors: `NoMem` where memory is out.
pub(crate) fn covering_pairs(alloc: Global, leads: &[Term]) -> Result<Vec<(usize, usize)>, NoMem>
    requires { All (λ t. degree t.mono ≤ most_degree) leads.now }
    ensures { IfOk result (λ r. AreCoveringPairs leads.now (length leads.now) r.items) }
{
    let mut pairs = Vec::new(alloc);
    for i in 0..leads.len() {
        let lead = leads[i];
        let places = minimal_cofactors(alloc, &leads[..i], &lead)?;
        pairs = with_pairs(pairs, places.as_slice(), i)?;
    }
    Ok(pairs)
}
