//! The answers of questions about resolutions and about freeness of derivations.

ghost use Rattle.std.specs.Prelude.{◌≡◌, ◌≤◌, All, IfErr, IfOk, None, OnOk, length};
ghost use Rattle.hp_complex.specs.Complexes.{map_at};
ghost use Rattle.hp_der.specs.BasisSettings.{HaveDegrees};
ghost use Rattle.hp_der.specs.DerivationModules.{IsLogarithmic, most_multiplicity};
ghost use Rattle.hp_groebner.specs.LimitRules.{AreLimits};
ghost use Rattle.hp_module.specs.Vectors.{GeneratesSet, IsKept};
ghost use Rattle.hp_resolution.specs.Resolutions.{IsMinimalResolution};
ghost use Rattle.hp_session.specs.DerivationAnswers.{IsDerivationBasis, UnlessStopped};
ghost use Rattle.hp_session.specs.Multiplicities.{multiplicities, multiplicities_refusal};
ghost use Rattle.hp_session.specs.ResolutionAnswers.{IsFreenessAnswer, IsResolutionAnswer};
ghost use Rattle.hp_session.specs.Stops.{StopsBy};

use crate::derivations::stopped;
use crate::graded::{graded, resolved, rows_of};
use crate::multiplicities::multiplicities;
use crate::stop::Stop;
use hp_algebra::{FiniteField, NoMem};
use hp_arr::Arr;
use hp_der::Derivations;
use hp_groebner::Limits;
use hp_minres::minimise;
use hp_module::Basis;
use hp_render::{Answer, AskWord};
use hp_resolution::MinRes;
use hp_saito::{FreeAnswer, free_by_generators, short_resolution};
use hp_script::Row;
use hp_syzygy::frame;
use std::alloc::Global;

/// A minimal resolution of the derivations with these multiplicities, or the limit that their basis met.
pub(crate) fn resolve<K: FiniteField>(
    alloc: Global,
    limits: &Limits,
    arr: &Arr<K>,
    row: &Option<Row>,
) -> Result<Answer<K>, Stop>
    requires { AreLimits limits.now }
    ensures accepted { OnOk result (multiplicities_refusal arr.now row.now ≡ None) }
    ensures right { let mult = multiplicities arr.now row.now in
        IfOk result (UnlessStopped K.ring arr.now mult limits.now AskWord.Resolve (IsResolutionAnswer K.ring arr.now mult)) }
    ensures stop { IfErr result (StopsBy (multiplicities_refusal arr.now row.now)) }
{
    let m = multiplicities(alloc, arr, row)?;
    match Derivations::new(alloc, arr, m.as_slice(), limits) {
        Ok(basis) => {
            let res = resolution(alloc, arr, m.as_slice(), &basis)?;
            Ok(Answer::Resolve(resolved(alloc, &res)?))
        }
        Err(stop) => Ok(stopped(stop, AskWord::Resolve)?),
    }
}

/// Whether the derivations with these multiplicities have a homogeneous basis, or the limit that their basis met.
pub(crate) fn free<K: FiniteField>(
    alloc: Global,
    limits: &Limits,
    arr: &Arr<K>,
    row: &Option<Row>,
) -> Result<Answer<K>, Stop>
    requires { AreLimits limits.now }
    ensures accepted { OnOk result (multiplicities_refusal arr.now row.now ≡ None) }
    ensures right { let mult = multiplicities arr.now row.now in
        IfOk result (UnlessStopped K.ring arr.now mult limits.now AskWord.Free (IsFreenessAnswer K.ring K.numbers arr.now mult)) }
    ensures stop { IfErr result (StopsBy (multiplicities_refusal arr.now row.now)) }
{
    let m = multiplicities(alloc, arr, row)?;
    match Derivations::new(alloc, arr, m.as_slice(), limits) {
        Ok(basis) => Ok(freeness(alloc, arr, m.as_slice(), &basis)?),
        Err(stop) => Ok(stopped(stop, AskWord::Free)?),
    }
}

/// A minimal resolution of the minimal generators that the basis of the derivations has. It has one map where they are
/// as many as the dimension.
fn resolution<K: FiniteField>(
    alloc: Global,
    arr: &Arr<K>,
    m: &[u32],
    basis: &Derivations<K>,
) -> Result<MinRes<K>, NoMem>
    requires split { basis.now.split ≡ 0 }
    requires width { basis.now.width ≡ arr.now.dim }
    requires reduced { IsDerivationBasis K.ring arr.now m.now basis.now.members }
    requires generates { GeneratesSet K.ring arr.now.dim (IsLogarithmic K.ring arr.now m.now) basis.now.members }
    requires degrees { HaveDegrees K.ring basis.now.members }
    ensures minimal { IfOk result (λ r. IsMinimalResolution K.ring r) }
    ensures kept { IfOk result (λ r. IsKept K.ring arr.now.dim basis.now.members (map_at r.maps 0).rows) }
{
    let kept = basis.generators(alloc)?;
    if kept.len() == arr.dim() as usize {
        return short_resolution(alloc, arr, m, kept.as_slice());
    }
    let whole = basis.basis(alloc)?;
    framed_resolution(alloc, arr, m, &whole)
}

/// The same by the frame of the basis.
fn framed_resolution<K: FiniteField>(
    alloc: Global,
    arr: &Arr<K>,
    m: &[u32],
    basis: &Basis<K>,
) -> Result<MinRes<K>, NoMem>
    requires split { basis.now.split ≡ 0 }
    requires width { basis.now.width ≡ arr.now.dim }
    requires reduced { IsDerivationBasis K.ring arr.now m.now basis.now.members }
    requires generates { GeneratesSet K.ring arr.now.dim (IsLogarithmic K.ring arr.now m.now) basis.now.members }
    requires degrees { HaveDegrees K.ring basis.now.members }
    ensures minimal { IfOk result (λ r. IsMinimalResolution K.ring r) }
    ensures kept { IfOk result (λ r. IsKept K.ring arr.now.dim basis.now.members (map_at r.maps 0).rows) }
{
    let _dim = arr.dim();
    let frame = frame(alloc, basis)?;
    minimise(alloc, &frame)
}

/// Whether the minimal generators that the basis of the derivations has are a homogeneous basis, with its certificate.
fn freeness<K: FiniteField>(
    alloc: Global,
    arr: &Arr<K>,
    m: &[u32],
    basis: &Derivations<K>,
) -> Result<Answer<K>, NoMem>
    requires each { length m.now ≡ length arr.now.forms }
    requires most { All (λ k. k ≤ most_multiplicity) m.now }
    requires width { basis.now.width ≡ arr.now.dim }
    requires reduced { IsDerivationBasis K.ring arr.now m.now basis.now.members }
    requires generates { GeneratesSet K.ring arr.now.dim (IsLogarithmic K.ring arr.now m.now) basis.now.members }
    requires degrees { HaveDegrees K.ring basis.now.members }
    ensures { IfOk result (IsFreenessAnswer K.ring K.numbers arr.now m.now) }
{
    let _dim = arr.dim();
    let kept = basis.generators(alloc)?;
    match free_by_generators(alloc, arr, m, kept.as_slice())? {
        FreeAnswer::Free {
            basis,
            degrees,
            point,
            inverse,
        } => Ok(Answer::Free {
            basis: graded(alloc, degrees.as_slice(), basis.as_slice())?,
            point,
            inverse: rows_of(alloc, &inverse)?,
        }),
        FreeAnswer::NotFree { generators } => Ok(Answer::NotFree(generators)),
    }
}
