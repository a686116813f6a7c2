//! The generators and the critical pairs, degree by degree.

ghost use Rattle.std.specs.Prelude.{◌≡◌, ◌≢◌, ◌⊎◌, ◌≤◌, ℕ, ◌+◌, ◌<◌, IfErr, IfOk, IsTrue, OnOk, length};
ghost use Rattle.hp_module.specs.Vectors.{zero_vector};
ghost use Rattle.hp_module.specs.ElimOrders.{elimination_order};
ghost use Rattle.hp_groebner.specs.LimitRules.{most_degree};
ghost use Rattle.hp_groebner.specs.PairQueues.{bucket};
ghost use Rattle.hp_groebner.specs.Runs.{HasLeadOfDegree, IsJob, IsRun, IsRunStop, job};

use crate::limits::Stop;
use crate::setting::Setting;
use crate::state::State;
use crate::tails::reduce_tails;
use hp_algebra::Field;
use hp_module::ModVec;
use std::alloc::Global;

/// Whether the lead of the vector has this degree; zero has no lead.
fn has_degree<F: Field>(setting: &Setting, v: &ModVec<F>, d: u32) -> bool
    requires { setting.now.order.width ≡ length v.now }
    ensures yes { IsTrue result → HasLeadOfDegree (elimination_order setting.now.order.split) d v.now }
    ensures no { ¬ (IsTrue result) → (v.now ≡ zero_vector F.ring (length v.now)) ⊎ ((e : ℕ) × (e ≢ d) × HasLeadOfDegree (elimination_order setting.now.order.split) e v.now) }
{
    match v.lead(&setting.order) {
        Some((t, _first)) => t.mono.degree() == d,
        None => false,
    }
}

/// Divides generator k, if it has degree d.
fn add_generator<F: Field>(
    alloc: Global,
    setting: &Setting,
    gens: &[ModVec<F>],
    state: &mut State<F>,
    d: u32,
    k: usize,
) -> Result<(), Stop>
    requires run { IsRun (job F.ring F.inverse setting.now gens.now) state.old d k 0 (d + 1) }
    requires degree { d ≤ most_degree }
    requires within { k < length gens.now }
    ensures run { IfOk result (λ _. IsRun (job F.ring F.inverse setting.now gens.now) state.new d (k + 1) 0 (d + 1)) }
    ensures stop { IfErr result (IsRunStop (job F.ring F.inverse setting.now gens.now)) }
{
    let v = &gens[k];
    if has_degree(setting, v, d) {
        return state.reduce(alloc, setting, gens, d, v);
    }
    Ok(())
}

/// Divides the generators of degree d.
fn add_generators<F: Field>(
    alloc: Global,
    setting: &Setting,
    gens: &[ModVec<F>],
    state: &mut State<F>,
    d: u32,
) -> Result<(), Stop>
    requires run { IsRun (job F.ring F.inverse setting.now gens.now) state.old d 0 0 (d + 1) }
    requires degree { d ≤ most_degree }
    ensures run { IfOk result (λ _. IsRun (job F.ring F.inverse setting.now gens.now) state.new d (length gens.now) 0 (d + 1)) }
    ensures stop { IfErr result (IsRunStop (job F.ring F.inverse setting.now gens.now)) }
{
    for k in 0..gens.len() {
        add_generator(alloc, setting, gens, state, d, k)?;
    }
    Ok(())
}

/// Divides the vector of pair k of degree d.
fn add_pair<F: Field>(
    alloc: Global,
    setting: &Setting,
    gens: &[ModVec<F>],
    state: &mut State<F>,
    d: u32,
    k: usize,
) -> Result<(), Stop>
    requires run { IsRun (job F.ring F.inverse setting.now gens.now) state.old d (length gens.now) k (d + 1) }
    requires degree { d ≤ most_degree }
    requires within { k < length (bucket state.old.queue d) }
    ensures run { IfOk result (λ _. IsRun (job F.ring F.inverse setting.now gens.now) state.new d (length gens.now) (k + 1) (d + 1)) }
    ensures many { OnOk result (length (bucket state.new.queue d) ≡ length (bucket state.old.queue d)) }
    ensures stop { IfErr result (IsRunStop (job F.ring F.inverse setting.now gens.now)) }
{
    let pair = state.queue().due(d)[k];
    let v = state.pair(alloc, setting, gens, d, pair.0, pair.1)?;
    state.reduce(alloc, setting, gens, d, &v)
}

/// Divides the vectors of the pairs of degree d.
fn add_pairs<F: Field>(
    alloc: Global,
    setting: &Setting,
    gens: &[ModVec<F>],
    state: &mut State<F>,
    d: u32,
) -> Result<(), Stop>
    requires run { IsRun (job F.ring F.inverse setting.now gens.now) state.old d (length gens.now) 0 (d + 1) }
    requires degree { d ≤ most_degree }
    ensures run { IfOk result (λ _. IsRun (job F.ring F.inverse setting.now gens.now) state.new d (length gens.now) (length (bucket state.new.queue d)) (d + 1)) }
    ensures stop { IfErr result (IsRunStop (job F.ring F.inverse setting.now gens.now)) }
{
    let many = state.queue().due(d).len();
    for k in 0..many {
        add_pair(alloc, setting, gens, state, d, k)?;
    }
    Ok(())
}

/// All of degree d, with reduced tails, and then the test of the limits on the least leads up to this degree.
pub(crate) fn add_degree<F: Field>(
    alloc: Global,
    setting: &Setting,
    gens: &[ModVec<F>],
    state: &mut State<F>,
    d: u32,
) -> Result<(), Stop>
    requires run { IsRun (job F.ring F.inverse setting.now gens.now) state.old d 0 0 d }
    requires degree { d ≤ most_degree }
    ensures run { IfOk result (λ _. IsRun (job F.ring F.inverse setting.now gens.now) state.new (d + 1) 0 0 (d + 1)) }
    ensures stop { IfErr result (IsRunStop (job F.ring F.inverse setting.now gens.now)) }
{
    add_generators(alloc, setting, gens, state, d)?;
    add_pairs(alloc, setting, gens, state, d)?;
    reduce_tails(alloc, setting, gens, state, d)?;
    if state.queue().is_high() {
        return Err(Stop::Degree);
    }
    Ok(())
}
