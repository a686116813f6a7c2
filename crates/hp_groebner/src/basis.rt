//! The reduced Gröbner basis of the submodule that homogeneous vectors generate.

ghost use Rattle.std.specs.Prelude.{◌≡◌, ◌≤◌, ℕ, All, IfErr, IfOk, OnOk, length, replicate};
ghost use Rattle.hp_module.specs.Vectors.{GeneratesSet, IsGenerated, IsHomogeneousVector, IsVector};
ghost use Rattle.hp_module.specs.Leads.{IsReducedBasis};
ghost use Rattle.hp_module.specs.ElimOrders.{elimination_order};
ghost use Rattle.hp_groebner.specs.LimitRules.{AreLimits, IsStop, NeverStops, most_degree, most_generator_degree};
ghost use Rattle.hp_groebner.specs.Runs.{IsAnswer, IsJob, IsRunStop, job};

use crate::degrees::add_degree;
use crate::limits::{Limits, MOST_DEGREE, Stop};
use crate::setting::Setting;
use crate::state::State;
use crate::tails::finish;
use hp_algebra::{Field, List, NoMem};
use hp_module::{Basis, ElimOrder, Grading, ModVec};
use std::alloc::Global;

/// The greatest of the widths of the vectors, of which a proof learns here that they are vectors.
fn greatest_width<F: Field>(gens: &[ModVec<F>]) -> usize
    ensures { All (λ v. IsVector F.ring (length v) v) gens.now }
{
    let mut greatest = 0;
    for k in (0..gens.len()).rev() {
        greatest = gens[k].width().max(greatest);
    }
    greatest
}

/// The order, the shifts and the limits.
fn setting_of(alloc: Global, split: usize, width: usize, limits: &Limits) -> Result<Setting, NoMem>
    ensures order { IfOk result (λ s. s.order ≡ record { split = split; width = width }) }
    ensures shifts { IfOk result (λ s. s.grading.shifts ≡ replicate width 0) }
    ensures limits { IfOk result (λ s. s.limits ≡ limits.now) }
{
    let mut shifts = Vec::new(alloc);
    for _ in 0..width {
        shifts.push(0)?;
    }
    Ok(Setting {
        order: ElimOrder { split, width },
        grading: Grading {
            shifts: List::of(shifts),
        },
        limits: *limits,
    })
}

/// The basis of a lawful job, or the stop.
fn run<F: Field>(alloc: Global, setting: &Setting, gens: &[ModVec<F>]) -> Result<Basis<F>, Stop>
    requires { IsJob (job F.ring F.inverse setting.now gens.now) }
    ensures basis { IfOk result (IsAnswer (job F.ring F.inverse setting.now gens.now)) }
    ensures stop { IfErr result (IsRunStop (job F.ring F.inverse setting.now gens.now)) }
{
    let mut state = State::new(alloc, setting, gens)?;
    for d in 0..MOST_DEGREE + 1 {
        add_degree(alloc, setting, gens, &mut state, d)?;
    }
    let basis = finish(alloc, setting, gens, &state)?;
    Ok(basis)
}

/// The reduced Gröbner basis, in the elimination order with this split, of the submodule that the generators generate.
/// They are homogeneous with all shifts 0, and their degrees are at most 20.
///
/// Errors: `Pairs` and `Degree` exactly where the limit rule stops for the pairs or for the degree on the submodule;
/// `Memory` where memory is out.
pub fn groebner<F: Field>(
    alloc: Global,
    split: usize,
    width: usize,
    gens: &[ModVec<F>],
    limits: &Limits,
) -> Result<Basis<F>, Stop>
    requires split { split ≤ width }
    requires widths { All (λ v. length v ≡ width) gens.now }
    requires generators { All (λ v. (d : ℕ) × (d ≤ most_generator_degree) × IsHomogeneousVector F.ring d v) gens.now }
    requires limits { AreLimits limits.now }
    ensures split { IfOk result (λ b. b.split ≡ split) }
    ensures width { IfOk result (λ b. b.width ≡ width) }
    ensures reduced { IfOk result (λ b. IsReducedBasis F.ring (elimination_order split) (IsGenerated F.ring width gens.now) b.members) }
    ensures generates { IfOk result (λ b. GeneratesSet F.ring width (IsGenerated F.ring width gens.now) b.members) }
    ensures degrees { IfOk result (λ b. All (λ v. (d : ℕ) × (d ≤ most_degree) × IsHomogeneousVector F.ring d v) b.members) }
    ensures no_stop { OnOk result (NeverStops (elimination_order split) (IsGenerated F.ring width gens.now) limits.now) }
    ensures stop { IfErr result (IsStop (elimination_order split) (IsGenerated F.ring width gens.now) limits.now) }
{
    let _greatest = greatest_width(gens);
    let setting = setting_of(alloc, split, width, limits)?;
    run(alloc, &setting, gens)
}
