//! Vectors carried out of essential coordinates: polynomials are put for the variables.

ghost use Rattle.std.specs.Prelude.{◌≡◌, ℕ, ◌≤◌, All, IfOk, map};
ghost use Rattle.hp_poly.specs.Polynomials.{poly_degree};
ghost use Rattle.hp_der.specs.CarriedBases.{carried as carried_of};

use hp_algebra::{Field, NoMem};
use hp_module::ModVec;
use hp_poly::Poly;
use std::alloc::Global;

/// The polynomial with these in place of the variables, and as it is where there are none.
fn carried<F: Field>(alloc: Global, p: &Poly<F>, xs: &[Poly<F>]) -> Result<Poly<F>, NoMem>
    requires { All (λ x. poly_degree F.ring x ≤ 1) xs.now }
    ensures { IfOk result (λ r. r ≡ carried_of F.ring xs.now p.now) }
{
    if xs.is_empty() {
        return p.copy(alloc);
    }
    p.substituted(alloc, xs)
}

/// The vector with each entry carried.
fn carried_vector<F: Field>(
    alloc: Global,
    v: &ModVec<F>,
    xs: &[Poly<F>],
) -> Result<ModVec<F>, NoMem>
    requires { All (λ x. poly_degree F.ring x ≤ 1) xs.now }
    ensures { IfOk result (λ r. r ≡ map (carried_of F.ring xs.now) v.now) }
{
    let from = v.entries();
    let mut entries = Vec::new(alloc);
    for k in 0..from.len() {
        entries.push(carried(alloc, &from[k], xs)?)?;
    }
    Ok(ModVec::new(entries))
}

/// The vectors with each entry carried.
///
/// Errors: `NoMem` where memory is out.
pub(crate) fn carried_vectors<F: Field>(
    alloc: Global,
    vectors: &[ModVec<F>],
    xs: &[Poly<F>],
) -> Result<Vec<ModVec<F>>, NoMem>
    requires { All (λ x. poly_degree F.ring x ≤ 1) xs.now }
    ensures { IfOk result (λ r. r.items ≡ map (map (carried_of F.ring xs.now)) vectors.now) }
{
    let mut images = Vec::new(alloc);
    for k in 0..vectors.len() {
        images.push(carried_vector(alloc, &vectors[k], xs)?)?;
    }
    Ok(images)
}
