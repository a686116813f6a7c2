//! Minimal generators: their resolution where they are as many as the dimension, and freeness.

ghost use Rattle.std.specs.Prelude.{◌≡◌, ◌≤◌, [], ◌∷◌, All, IfOk, length};
ghost use Rattle.hp_der.specs.DerivationModules.{most_multiplicity};
ghost use Rattle.hp_resolution.specs.Resolutions.{IsMinimalResolution};
ghost use Rattle.hp_saito.specs.Freeness.{AreMinimalGenerators, IsFreeAnswerOf, vector_degrees as vector_degrees_of};

use crate::answer::FreeAnswer;
use crate::freeness::free_answer;
use hp_algebra::{Field, FiniteField, List, NoMem, greatest_weight};
use hp_arr::Arr;
use hp_complex::Complex;
use hp_module::ModVec;
use hp_resolution::{MinRes, matrix_of};
use std::alloc::Global;

/// For each vector the greatest degree of its entries.
fn vector_degrees<F: Field>(alloc: Global, vectors: &[ModVec<F>]) -> Result<Vec<u32>, NoMem>
    ensures { IfOk result (λ r. r.items ≡ vector_degrees_of F.ring vectors.now) }
{
    let mut degrees = Vec::new(alloc);
    for k in 0..vectors.len() {
        degrees.push(greatest_weight(vectors[k].entries()))?;
    }
    Ok(degrees)
}

/// The minimal resolution of the module D(A, m) where it has as many minimal generators as the dimension. They have no
/// relation but zero, so it is one map, with them as its rows.
///
/// Errors: `NoMem` where memory is out.
pub fn short_resolution<K: FiniteField>(
    alloc: Global,
    arr: &Arr<K>,
    m: &[u32],
    generators: &[ModVec<K>],
) -> Result<MinRes<K>, NoMem>
    requires generators { AreMinimalGenerators K.ring arr.now m.now generators.now (vector_degrees_of K.ring generators.now) }
    requires as_many { length generators.now ≡ arr.now.dim }
    ensures value { IfOk result (λ r. r ≡ record { maps = record { cols = arr.now.dim; rows = generators.now } ∷ []; degrees = vector_degrees_of K.ring generators.now ∷ [] }) }
    ensures minimal { IfOk result (λ r. IsMinimalResolution K.ring r) }
{
    let mut maps = Vec::new(alloc);
    maps.push(matrix_of(alloc, arr.dim() as usize, generators)?)?;
    let mut degrees = Vec::new(alloc);
    degrees.push(List::of(vector_degrees(alloc, generators)?))?;
    Ok(MinRes::new(Complex::new(maps), degrees))
}

/// Whether the module D(A, m) of logarithmic derivations of an arrangement with multiplicities is free, from minimal
/// generators of it. It is free exactly where they are as many as the dimension; then they are a homogeneous basis, and
/// the answer has its certificate. There is one multiplicity for each form.
///
/// Errors: `NoMem` where memory is out.
pub fn free_by_generators<K: FiniteField>(
    alloc: Global,
    arr: &Arr<K>,
    m: &[u32],
    generators: &[ModVec<K>],
) -> Result<FreeAnswer<K>, NoMem>
    requires each { length m.now ≡ length arr.now.forms }
    requires most { All (λ k. k ≤ most_multiplicity) m.now }
    requires generators { AreMinimalGenerators K.ring arr.now m.now generators.now (vector_degrees_of K.ring generators.now) }
    ensures { IfOk result (IsFreeAnswerOf K.ring K.numbers arr.now m.now generators.now (vector_degrees_of K.ring generators.now)) }
{
    if generators.len() != arr.dim() as usize {
        return Ok(FreeAnswer::NotFree {
            generators: generators.len(),
        });
    }
    let res = short_resolution(alloc, arr, m, generators)?;
    free_answer(alloc, arr, m, &res)
}
