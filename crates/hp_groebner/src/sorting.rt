//! The order in which a basis lists its members.

ghost use Rattle.std.specs.Prelude.{◌≡◌, ℕ, ◌<◌, IfOk, length, map};
ghost use Rattle.hp_module.specs.ElimOrders.{block};
ghost use Rattle.hp_groebner.specs.BasisEnds.{AreListed, listed_order};
ghost use Rattle.hp_groebner.specs.PairQueues.{nth};

use hp_algebra::NoMem;
use hp_module::ElimOrder;
use hp_mono::Term;
use std::alloc::Global;
use std::cmp::Ordering;

/// The places of these leads, which are different, by degree, then from the greatest.
///
/// Errors: `NoMem` where memory is out.
pub(crate) fn listed_places(
    alloc: Global,
    order: &ElimOrder,
    leads: &[Term],
) -> Result<Vec<usize>, NoMem>
    requires different { (i j : ℕ) → i < length leads.now → j < length leads.now → nth leads.now i ≡ nth leads.now j → i ≡ j }
    ensures { IfOk result (λ r. AreListed order.now.split leads.now r.items) }
{
    let split = order.split;
    let mut keyed = Vec::new(alloc);
    for p in 0..leads.len() {
        keyed.push((leads[p], p))?;
    }
    keyed.sort_unstable_by(|a, b| compare(split, &a.0, &b.0));
    places_of(alloc, &keyed)
}

/// The places alone.
///
/// Errors: `NoMem` where memory is out.
fn places_of(alloc: Global, keyed: &[(Term, usize)]) -> Result<Vec<usize>, NoMem>
    ensures { IfOk result (λ r. r.items ≡ map (λ x. x.1) keyed.now) }
{
    let places = keyed.iter().map(|x| x.1).collect(alloc)?;
    Ok(places)
}

/// Which of two leads is listed first: by degree, then from the greatest.
fn compare(split: usize, s: &Term, t: &Term) -> Ordering
    ensures { result ≡ listed_order split s.now t.now }
{
    let within = t.mono.grevlex(&s.mono).then(s.comp.cmp(&t.comp));
    let blocks = block_of(split, s.comp).cmp(&block_of(split, t.comp));
    s.mono
        .degree()
        .cmp(&t.mono.degree())
        .then(blocks.then(within))
}

/// The block of a component: 0 up to the split, and 1 above it.
fn block_of(split: usize, comp: usize) -> u8
    ensures { result ≡ block split comp }
{
    if comp <= split { 0 } else { 1 }
}
