//! Reduced tails, at the end of each degree, and the basis, at the end of a run.

ghost use Rattle.std.specs.Prelude.{◌≡◌, ◌≤◌, ◌<◌, ◌+◌, ℕ, IfOk, length};
ghost use Rattle.hp_groebner.specs.BasisEnds.{IsTailReduced};
ghost use Rattle.hp_groebner.specs.LimitRules.{most_degree};
ghost use Rattle.hp_groebner.specs.PairQueues.{bucket};
ghost use Rattle.hp_groebner.specs.Runs.{AreReducedAt, IsAnswer, IsRun, held, job};

use crate::setting::Setting;
use crate::sorting::listed_places;
use crate::state::State;
use crate::terms_added::with_term;
use hp_algebra::{Field, NoMem};
use hp_module::{Basis, ModVec};
use std::alloc::Global;

/// A member with what is left when its tail is divided by the members in place of the tail.
///
/// Errors: `NoMem` where memory is out.
fn reduced_tail<F: Field>(
    alloc: Global,
    setting: &Setting,
    gens: &[ModVec<F>],
    state: &State<F>,
    place: usize,
) -> Result<ModVec<F>, NoMem>
    requires run { (d : ℕ) × (g : ℕ) × (p : ℕ) × (top : ℕ) × (top ≤ most_degree + 1) × IsRun (job F.ring F.inverse setting.now gens.now) state.now d g p top }
    requires within { place < length state.now.members }
    ensures { IfOk result (IsTailReduced (job F.ring F.inverse setting.now gens.now) state.now place) }
{
    let lead = state.queue().leads()[place];
    let tail = with_term(alloc, &state.members()[place], &lead, F::unit().negate())?;
    let rest = state
        .divisors()
        .remainder(alloc, &setting.order, &setting.grading, &tail)?;
    with_term(alloc, &rest, &lead, F::unit())
}

/// Reduces the tail of a member, once all of degree d is done.
///
/// Errors: `NoMem` where memory is out.
fn reduce_tail<F: Field>(
    alloc: Global,
    setting: &Setting,
    gens: &[ModVec<F>],
    state: &mut State<F>,
    d: u32,
    place: usize,
) -> Result<(), NoMem>
    requires run { IsRun (job F.ring F.inverse setting.now gens.now) state.old d (length gens.now) (length (bucket state.old.queue d)) (d + 1) }
    requires degree { d ≤ most_degree }
    requires within { place < length state.old.members }
    ensures run { IfOk result (λ _. IsRun (job F.ring F.inverse setting.now gens.now) state.new d (length gens.now) (length (bucket state.new.queue d)) (d + 1)) }
    ensures many { IfOk result (λ _. length state.new.members ≡ length state.old.members) }
    ensures tails { IfOk result (λ _. AreReducedAt (held state.old) (λ i. i < place) → AreReducedAt (held state.new) (λ i. i < place + 1)) }
{
    let member = reduced_tail(alloc, setting, gens, state, place)?;
    state.replace(alloc, setting, gens, place, member)
}

/// Reduces the tails of the members of degree d, once all of it is done.
///
/// Errors: `NoMem` where memory is out.
pub(crate) fn reduce_tails<F: Field>(
    alloc: Global,
    setting: &Setting,
    gens: &[ModVec<F>],
    state: &mut State<F>,
    d: u32,
) -> Result<(), NoMem>
    requires run { IsRun (job F.ring F.inverse setting.now gens.now) state.old d (length gens.now) (length (bucket state.old.queue d)) (d + 1) }
    requires degree { d ≤ most_degree }
    ensures run { IfOk result (λ _. IsRun (job F.ring F.inverse setting.now gens.now) state.new d (length gens.now) (length (bucket state.new.queue d)) (d + 1)) }
    ensures tails { IfOk result (λ _. AreReducedAt (held state.new) (λ i. i < length state.new.members)) }
{
    let many = state.members().len();
    for place in 0..many {
        if state.queue().leads()[place].mono.degree() == d {
            reduce_tail(alloc, setting, gens, state, d, place)?;
        }
    }
    Ok(())
}

/// The basis, which is the members in order, once all generators and pairs are done.
///
/// Errors: `NoMem` where memory is out.
pub(crate) fn finish<F: Field>(
    alloc: Global,
    setting: &Setting,
    gens: &[ModVec<F>],
    state: &State<F>,
) -> Result<Basis<F>, NoMem>
    requires run { IsRun (job F.ring F.inverse setting.now gens.now) state.now (most_degree + 1) 0 0 (most_degree + 1) }
    ensures { IfOk result (IsAnswer (job F.ring F.inverse setting.now gens.now)) }
{
    let places = listed_places(alloc, &setting.order, state.queue().leads())?;
    let mut members = Vec::new(alloc);
    for i in 0..places.len() {
        let member = state.members()[places[i]].copy(alloc)?;
        members.push(member)?;
    }
    Ok(Basis::new(setting.order.split, setting.order.width, members))
}
