//! The generators of the larger module in essential coordinates.

ghost use Rattle.std.specs.Prelude.{◌≡◌, ◌≤◌, ◌-◌, ◌++◌, ◌==◌, if◌then◌else◌, [], ℕ, All, IfOk, length, map};
ghost use Rattle.hp_arr.specs.Arrangement.{IsArrangement};
ghost use Rattle.hp_poly.specs.Polynomials.{constant, form_power as form_power_of};
ghost use Rattle.hp_mono.specs.Monomials.{vars};
ghost use Rattle.hp_algebra.specs.Rows.{entry};
ghost use Rattle.hp_lists.specs.Lists.{one_to};
ghost use Rattle.hp_der.specs.DerivationModules.{column_generator as column_generator_of, in_component, most_multiplicity, power_generator as power_generator_of};
ghost use Rattle.hp_der.specs.EssentialGenerators.{essential_arrangement, essential_generators as essential_generators_of};

use crate::coordinates::essential_form;
use hp_algebra::{Field, FiniteField, NoMem, Ring};
use hp_arr::Arr;
use hp_module::ModVec;
use hp_mono::Mono;
use hp_poly::Poly;
use std::alloc::Global;

/// The constant polynomial.
fn constant<F: Field>(alloc: Global, c: F) -> Result<Poly<F>, NoMem>
    ensures { IfOk result (λ p. p ≡ constant F.ring c) }
{
    let mut terms = Vec::new(alloc);
    terms.push((Mono::one(), c))?;
    Poly::from_terms(alloc, terms)
}

/// The power of a linear form.
fn form_power<F: Field>(alloc: Global, form: &[F], exponent: u32) -> Result<Poly<F>, NoMem>
    requires variables { length form.now ≤ vars }
    requires values { All F.ring.IsValue form.now }
    requires most { exponent ≤ most_multiplicity }
    ensures { IfOk result (λ p. p ≡ form_power_of F.ring form.now exponent) }
{
    let linear = Poly::linear(alloc, form)?;
    let mut power = Poly::one(alloc)?;
    for _ in 0..exponent {
        power = linear.mul(alloc, &power)?;
    }
    Ok(power)
}

/// Entry k of the vector with the polynomial in component c.
fn entry_at<F: Field>(alloc: Global, p: &Poly<F>, k: usize, c: usize) -> Result<Poly<F>, NoMem>
    ensures { IfOk result (λ r. r ≡ if k == c then p.now else []) }
{
    if k == c {
        p.copy(alloc)
    } else {
        Poly::zero(alloc)
    }
}

/// The entries, and so many more, of which the one in component `c`, counted from 1, is the polynomial, and the others
/// are zero.
fn with_component<F: Field>(
    alloc: Global,
    entries: Vec<Poly<F>>,
    width: usize,
    p: &Poly<F>,
    c: usize,
) -> Result<Vec<Poly<F>>, NoMem>
    ensures { IfOk result (λ r. r.items ≡ entries.items ++ in_component width p.now c) }
{
    let mut entries = entries;
    for k in 0..width {
        entries.push(entry_at(alloc, p, k + 1, c)?)?;
    }
    Ok(entries)
}

/// The coefficients of x_j in the forms, as constants.
fn column<K: FiniteField>(alloc: Global, arr: &Arr<K>, j: usize) -> Result<Vec<Poly<K>>, NoMem>
    requires low { 1 ≤ j }
    requires high { j ≤ arr.now.dim }
    ensures { IfOk result (λ r. r.items ≡ map (λ a. constant K.ring (entry K.ring a (j - 1))) arr.now.forms) }
{
    let mut entries = Vec::new(alloc);
    for i in 0..arr.len() {
        entries.push(constant(alloc, arr.form(i + 1)[j - 1])?)?;
    }
    Ok(entries)
}

/// The coefficients of x_j in the forms, and the unit vector of component j.
fn column_generator<K: FiniteField>(
    alloc: Global,
    arr: &Arr<K>,
    m: &[u32],
    j: usize,
) -> Result<ModVec<K>, NoMem>
    requires low { 1 ≤ j }
    requires high { j ≤ arr.now.dim }
    ensures { IfOk result (λ v. v ≡ column_generator_of K.ring arr.now m.now j) }
{
    let one = constant(alloc, K::unit())?;
    let forms = column(alloc, arr, j)?;
    let entries = with_component(alloc, forms, arr.dim() as usize, &one, j)?;
    Ok(ModVec::new(entries))
}

/// The power of form i without the variables that have no pivot, in component i.
fn power_generator<K: FiniteField>(
    alloc: Global,
    arr: &Arr<K>,
    m: &[u32],
    pivots: &[usize],
    i: u32,
) -> Result<ModVec<K>, NoMem>
    requires low { 1 ≤ i }
    requires high { i ≤ length arr.now.forms }
    requires each { length m.now ≡ length arr.now.forms }
    requires most { All (λ k. k ≤ most_multiplicity) m.now }
    ensures { IfOk result (λ v. v ≡ power_generator_of K.ring (essential_arrangement K.ring arr.now m.now pivots.now) m.now i) }
{
    let width = arr.len() as usize + arr.dim() as usize;
    let form = essential_form(alloc, arr.form(i), pivots)?;
    let power = form_power(alloc, form.as_slice(), m[i as usize - 1])?;
    let entries = with_component(alloc, Vec::new(alloc), width, &power, i as usize)?;
    Ok(ModVec::new(entries))
}

/// The generators for the variables.
fn column_generators<K: FiniteField>(
    alloc: Global,
    arr: &Arr<K>,
    m: &[u32],
) -> Result<Vec<ModVec<K>>, NoMem>
    ensures { IfOk result (λ r. r.items ≡ map (column_generator_of K.ring arr.now m.now) (one_to arr.now.dim)) }
{
    let mut gens = Vec::new(alloc);
    for j in 0..arr.dim() as usize {
        gens.push(column_generator(alloc, arr, m, j + 1)?)?;
    }
    Ok(gens)
}

/// The generators of the larger module, the forms without the variables that have no pivot.
///
/// Errors: `NoMem` where memory is out.
pub(crate) fn essential_generators<K: FiniteField>(
    alloc: Global,
    arr: &Arr<K>,
    m: &[u32],
    pivots: &[usize],
) -> Result<Vec<ModVec<K>>, NoMem>
    requires each { length m.now ≡ length arr.now.forms }
    requires most { All (λ k. k ≤ most_multiplicity) m.now }
    ensures lawful { IsArrangement K.ring K.numbers arr.now }
    ensures generators { IfOk result (λ r. r.items ≡ essential_generators_of K.ring arr.now m.now pivots.now) }
{
    let forms = arr.len();
    let mut gens = column_generators(alloc, arr, m)?;
    for i in 0..forms {
        gens.push(power_generator(alloc, arr, m, pivots, i + 1)?)?;
    }
    Ok(gens)
}
