//! The answers of questions about derivations.

ghost use Rattle.std.specs.Prelude.{◌≡◌, IfErr, IfOk, None, OnOk};
ghost use Rattle.hp_groebner.specs.LimitRules.{AreLimits};
ghost use Rattle.hp_session.specs.DerivationAnswers.{IsBasisAnswer, IsGeneratorsAnswer, IsLimitAnswer, UnlessStopped};
ghost use Rattle.hp_session.specs.Multiplicities.{multiplicities, multiplicities_refusal};
ghost use Rattle.hp_session.specs.Stops.{StopsBy};

use crate::multiplicities::multiplicities;
use crate::stop::Stop;
use hp_algebra::{Field, FiniteField, List, NoMem};
use hp_arr::Arr;
use hp_der::{Derivations, der_basis};
use hp_groebner::{Limits, Stop as BasisStop};
use hp_module::ModVec;
use hp_mono::Mono;
use hp_poly::Poly;
use hp_render::{Answer, AskWord, LimitKind};
use hp_script::Row;
use std::alloc::Global;

/// The reduced Gröbner basis of the derivations with these multiplicities, or the limit that it met.
pub(crate) fn gb<K: FiniteField>(
    alloc: Global,
    limits: &Limits,
    arr: &Arr<K>,
    row: &Option<Row>,
) -> Result<Answer<K>, Stop>
    requires { AreLimits limits.now }
    ensures accepted { OnOk result (multiplicities_refusal arr.now row.now ≡ None) }
    ensures right { let mult = multiplicities arr.now row.now in
        IfOk result (UnlessStopped K.ring arr.now mult limits.now AskWord.Gb (IsBasisAnswer K.ring arr.now mult)) }
    ensures stop { IfErr result (StopsBy (multiplicities_refusal arr.now row.now)) }
{
    let m = multiplicities(alloc, arr, row)?;
    match der_basis(alloc, arr, m.as_slice(), limits) {
        Ok(basis) => Ok(Answer::Gb(entries_of(alloc, basis.members())?)),
        Err(stop) => Ok(stopped(stop, AskWord::Gb)?),
    }
}

/// Minimal generators of the derivations with these multiplicities, or the limit that their basis met.
pub(crate) fn der<K: FiniteField>(
    alloc: Global,
    limits: &Limits,
    arr: &Arr<K>,
    row: &Option<Row>,
) -> Result<Answer<K>, Stop>
    requires { AreLimits limits.now }
    ensures accepted { OnOk result (multiplicities_refusal arr.now row.now ≡ None) }
    ensures right { let mult = multiplicities arr.now row.now in
        IfOk result (UnlessStopped K.ring arr.now mult limits.now AskWord.Der (IsGeneratorsAnswer K.ring arr.now mult)) }
    ensures stop { IfErr result (StopsBy (multiplicities_refusal arr.now row.now)) }
{
    let m = multiplicities(alloc, arr, row)?;
    match Derivations::new(alloc, arr, m.as_slice(), limits) {
        Ok(basis) => {
            let kept = basis.generators(alloc)?;
            Ok(Answer::Der(entries_of(alloc, kept.as_slice())?))
        }
        Err(stop) => Ok(stopped(stop, AskWord::Der)?),
    }
}

/// The vectors, each entry by its terms.
fn entries_of<K: Field>(
    alloc: Global,
    vectors: &[ModVec<K>],
) -> Result<List<List<List<(Mono, K)>>>, NoMem>
    ensures { IfOk result (λ r. r ≡ vectors.now) }
{
    let mut taken = Vec::with_capacity(alloc, vectors.len())?;
    for vector in vectors {
        taken.push(entries(alloc, vector.entries())?)?;
    }
    Ok(List::of(taken))
}

/// The polynomials of a row, each by its terms.
pub(crate) fn entries<K: Field>(
    alloc: Global,
    row: &[Poly<K>],
) -> Result<List<List<(Mono, K)>>, NoMem>
    ensures { IfOk result (λ r. r ≡ row.now) }
{
    let mut taken = Vec::with_capacity(alloc, row.len())?;
    for entry in row {
        taken.push(List::of(Vec::from_slice(alloc, entry.terms())?))?;
    }
    Ok(List::of(taken))
}

/// The answer of the question of that word where its basis met a limit.
pub(crate) fn stopped<K: FiniteField>(stop: BasisStop, asked: AskWord) -> Result<Answer<K>, NoMem>
    ensures { IfOk result (IsLimitAnswer stop asked) }
{
    match stop {
        BasisStop::Pairs => Ok(Answer::Limit {
            asked,
            kind: LimitKind::Pairs,
        }),
        BasisStop::Degree => Ok(Answer::Limit {
            asked,
            kind: LimitKind::Degree,
        }),
        BasisStop::Memory => Err(NoMem),
    }
}
