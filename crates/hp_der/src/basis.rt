//! The basis of the module of logarithmic derivations.

ghost use Rattle.std.specs.Prelude.{◌≡◌, ◌≤◌, ◌+◌, ℕ, All, IfErr, IfOk, OnOk, IsTrue, drop, length};
ghost use Rattle.hp_module.specs.Vectors.{GeneratesSet, IsKept, IsVector};
ghost use Rattle.hp_module.specs.Derivations.{IsVectorInVariables};
ghost use Rattle.hp_module.specs.Leads.{IsReducedBasis};
ghost use Rattle.hp_module.specs.ElimOrders.{elimination_order};
ghost use Rattle.hp_groebner.specs.LimitRules.{AreLimits, IsStop, NeverStops};
ghost use Rattle.hp_graded.specs.MinimalGenerators.{GenerateSame, IsIrredundant};
ghost use Rattle.hp_der.specs.BasisSettings.{HaveDegrees};
ghost use Rattle.hp_der.specs.CarriedBases.{CarriesDerivations, IsCarriedBy, carried};
ghost use Rattle.hp_der.specs.DerivationModules.{IsExtended, IsLogarithmic, has_zero_block as has_zero_block_of, most_multiplicity, second_blocks as second_blocks_of};

use crate::carried::carried_vectors;
use crate::coordinates::{coordinates, forms_echelon};
use crate::generators::essential_generators;
use crate::minimal::min_gens;
use hp_algebra::{Field, FiniteField, NoMem, Ring};
use hp_arr::Arr;
use hp_groebner::{Limits, Stop, groebner};
use hp_module::{Basis, ModVec};
use hp_poly::Poly;
use std::alloc::Global;
use std::marker::Model;

/// Whether the first n entries are zero.
fn has_zero_block<F: Field>(v: &ModVec<F>, n: usize) -> bool
    requires { n ≤ length v.now }
    ensures { result ≡ has_zero_block_of n v.now }
{
    v.entries()[..n].iter().all(|p| p.is_zero())
}

/// The entries from place n on.
fn rest_of<F: Field>(alloc: Global, v: &ModVec<F>, n: usize) -> Result<ModVec<F>, NoMem>
    requires { n ≤ length v.now }
    ensures { IfOk result (λ r. r ≡ drop n v.now) }
{
    let entries = &v.entries()[n..];
    let mut rest = Vec::new(alloc);
    for k in 0..entries.len() {
        rest.push(entries[k].copy(alloc)?)?;
    }
    Ok(ModVec::new(rest))
}

/// The other entries of the vectors whose first n entries are zero.
///
/// Errors: `NoMem` where memory is out.
fn second_blocks<F: Field>(
    alloc: Global,
    vectors: &[ModVec<F>],
    n: usize,
) -> Result<Vec<ModVec<F>>, NoMem>
    requires { All (λ v. n ≤ length v) vectors.now }
    ensures { IfOk result (λ r. r.items ≡ second_blocks_of n vectors.now) }
{
    let mut blocks = Vec::new(alloc);
    for k in 0..vectors.len() {
        let v = &vectors[k];
        if has_zero_block(v, n) {
            blocks.push(rest_of(alloc, v, n)?)?;
        }
    }
    Ok(blocks)
}

/// The basis in essential coordinates, and the polynomials that stand for the variables.
fn essential_basis<K: FiniteField>(
    alloc: Global,
    arr: &Arr<K>,
    m: &[u32],
    limits: &Limits,
) -> Result<(Basis<K>, Vec<Poly<K>>), Stop>
    requires each { length m.now ≡ length arr.now.forms }
    requires most { All (λ k. k ≤ most_multiplicity) m.now }
    requires limits { AreLimits limits.now }
    ensures carried { IfOk result (λ r. IsCarriedBy K.ring r.1.items r.0) }
    ensures derivations { IfOk result (λ r. CarriesDerivations K.ring arr.now m.now (carried K.ring r.1.items) r.0) }
    ensures no_stop { OnOk result (NeverStops (elimination_order (length arr.now.forms)) (IsExtended K.ring arr.now m.now) limits.now) }
    ensures stop { IfErr result (IsStop (elimination_order (length arr.now.forms)) (IsExtended K.ring arr.now m.now) limits.now) }
{
    let forms = arr.len() as usize;
    let dim = arr.dim() as usize;
    let (form, pivots) = forms_echelon(alloc, arr)?;
    let gens = essential_generators(alloc, arr, m, pivots.as_slice())?;
    let whole = groebner(alloc, forms, forms + dim, gens.as_slice(), limits)?;
    let members = second_blocks(alloc, whole.members(), forms)?;
    let variables = coordinates(alloc, dim, &form, pivots.as_slice())?;
    Ok((Basis::new(0, dim, members), variables))
}

/// The module of logarithmic derivations by its reduced Gröbner basis, which generates it. Only the variables of the
/// arrangement occur in it, and no member has a degree above 240.
///
/// The basis is kept in essential coordinates, in which fewer variables occur: polynomials stand for the variables, and
/// what is asked for is carried by them.
#[derive(Drop)]
pub struct Derivations<K: Field> {
    essential: Basis<K>,
    variables: Vec<Poly<K>>,
}

impl<K: Field> Model for Derivations<K> {
    ghost use Rattle.hp_module.specs.ReducedBases.{Basis};
    ghost use Rattle.hp_der.specs.CarriedBases.{IsCarriedBy, carried, carried_basis};

    ghost Value = { Basis K };

    ghost view = { λ d. carried_basis K.ring (carried K.ring d.variables.items) d.essential };

    ghost invariant = { λ d. IsCarriedBy K.ring d.variables.items d.essential };
}

impl<K: FiniteField> Derivations<K> {
    /// The derivations of the arrangement, with one multiplicity for each form.
    ///
    /// Errors: `Pairs` and `Degree` exactly where the limit rule stops on the larger module in which the derivations are
    /// computed, in its order, for the pairs or for the degree; `Memory` where memory is out.
    pub fn new(
        alloc: Global,
        arr: &Arr<K>,
        m: &[u32],
        limits: &Limits,
    ) -> Result<Derivations<K>, Stop>
        requires each { length m.now ≡ length arr.now.forms }
        requires most { All (λ k. k ≤ most_multiplicity) m.now }
        requires limits { AreLimits limits.now }
        ensures split { IfOk result (λ b. b.split ≡ 0) }
        ensures width { IfOk result (λ b. b.width ≡ arr.now.dim) }
        ensures reduced { IfOk result (λ b. IsReducedBasis K.ring (elimination_order 0) (IsLogarithmic K.ring arr.now m.now) b.members) }
        ensures generates { IfOk result (λ b. GeneratesSet K.ring arr.now.dim (IsLogarithmic K.ring arr.now m.now) b.members) }
        ensures variables { IfOk result (λ b. All (IsVectorInVariables K.ring arr.now.dim arr.now.dim) b.members) }
        ensures degrees { IfOk result (λ b. HaveDegrees K.ring b.members) }
        ensures no_stop { OnOk result (NeverStops (elimination_order (length arr.now.forms)) (IsExtended K.ring arr.now m.now) limits.now) }
        ensures stop { IfErr result (IsStop (elimination_order (length arr.now.forms)) (IsExtended K.ring arr.now m.now) limits.now) }
    {
        let (essential, variables) = essential_basis(alloc, arr, m, limits)?;
        Ok(Derivations {
            essential,
            variables,
        })
    }

    /// The basis.
    ///
    /// Errors: `NoMem` where memory is out.
    pub fn basis(&self, alloc: Global) -> Result<Basis<K>, NoMem>
        ensures { IfOk result (λ b. b ≡ self.now) }
    {
        let from = &self.essential;
        let members = carried_vectors(alloc, from.members(), self.variables.as_slice())?;
        Ok(Basis::new(from.split(), from.width(), members))
    }

    /// The members of the basis that the members before them don't generate, in order, as `min_gens` has them. The others
    /// are not carried.
    ///
    /// Errors: `NoMem` where memory is out.
    pub fn generators(&self, alloc: Global) -> Result<Vec<ModVec<K>>, NoMem>
        ensures kept { IfOk result (λ r. IsKept K.ring self.now.width self.now.members r.items) }
        ensures same { IfOk result (λ r. GenerateSame K.ring self.now.width self.now.members r.items) }
        ensures irredundant { IfOk result (λ r. IsIrredundant K.ring self.now.width r.items) }
    {
        let kept = min_gens(alloc, &self.essential)?;
        let generators = carried_vectors(alloc, kept.as_slice(), self.variables.as_slice())?;
        Ok(generators)
    }
}

/// The reduced Gröbner basis of the module of logarithmic derivations, which generates it. Only the variables of the
/// arrangement occur in it, and no member has a degree above 240. There is one multiplicity for each form.
///
/// Errors: `Pairs` and `Degree` exactly where the limit rule stops on the larger module in which the derivations are
/// computed, in its order, for the pairs or for the degree; `Memory` where memory is out.
pub fn der_basis<K: FiniteField>(
    alloc: Global,
    arr: &Arr<K>,
    m: &[u32],
    limits: &Limits,
) -> Result<Basis<K>, Stop>
    requires each { length m.now ≡ length arr.now.forms }
    requires most { All (λ k. k ≤ most_multiplicity) m.now }
    requires limits { AreLimits limits.now }
    ensures split { IfOk result (λ b. b.split ≡ 0) }
    ensures width { IfOk result (λ b. b.width ≡ arr.now.dim) }
    ensures reduced { IfOk result (λ b. IsReducedBasis K.ring (elimination_order 0) (IsLogarithmic K.ring arr.now m.now) b.members) }
    ensures generates { IfOk result (λ b. GeneratesSet K.ring arr.now.dim (IsLogarithmic K.ring arr.now m.now) b.members) }
    ensures variables { IfOk result (λ b. All (IsVectorInVariables K.ring arr.now.dim arr.now.dim) b.members) }
    ensures degrees { IfOk result (λ b. HaveDegrees K.ring b.members) }
    ensures no_stop { OnOk result (NeverStops (elimination_order (length arr.now.forms)) (IsExtended K.ring arr.now m.now) limits.now) }
    ensures stop { IfErr result (IsStop (elimination_order (length arr.now.forms)) (IsExtended K.ring arr.now m.now) limits.now) }
{
    let derivations = Derivations::new(alloc, arr, m, limits)?;
    let basis = derivations.basis(alloc)?;
    Ok(basis)
}
