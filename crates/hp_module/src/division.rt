//! Division with remainder.

ghost use Rattle.std.specs.Prelude.{◌≡◌, ◌≤◌, ℕ, List, All, IfOk, length};
ghost use Rattle.hp_mono.specs.Monomials.{max_degree};
ghost use Rattle.hp_mono.specs.declared.term.Term.{Term as TermOf};
ghost use Rattle.hp_module.specs.Vectors.{zero_vector};
ghost use Rattle.hp_module.specs.FreeModules.{IsGraded, IsHomogeneousBy};
ghost use Rattle.hp_module.specs.Leads.{AreLed};
ghost use Rattle.hp_module.specs.Divisions.{IsDivided, IsDivision};
ghost use Rattle.hp_module.specs.FallingTerms.{free_module};

use crate::basis::Grading;
use crate::divisors::Divisors;
use crate::vector::ModVec;
use hp_algebra::{Field, NoMem};
use hp_mono::TermOrder;
use hp_poly::Poly;
use std::alloc::Global;

/// The quotients and the remainder of a division of a homogeneous vector by homogeneous ones, of which none is zero.
///
/// The vector is the combination of the others with the quotients, and the remainder. No term of the remainder is a
/// multiple of a lead, and no lead of a product of a quotient and its vector is above that of the divided vector.
///
/// Errors: `NoMem` where memory is out.
pub fn divide<F: Field, O: TermOrder>(
    alloc: Global,
    v: &ModVec<F>,
    basis: &[ModVec<F>],
    grading: &Grading,
    order: &O,
) -> Result<(Vec<Poly<F>>, ModVec<F>), NoMem>
    requires width { O.components order.now ≡ length v.now }
    requires widths { All (λ b. length b ≡ length v.now) basis.now }
    requires shifts { length grading.now.shifts ≡ length v.now }
    requires homogeneous { (d : ℕ) × (d ≤ max_degree) × IsGraded grading.now.shifts d v.now }
    requires members { All (IsHomogeneousBy grading.now.shifts) basis.now }
    requires nonzero { All (λ b. ¬ (b ≡ zero_vector F.ring (length v.now))) basis.now }
    ensures division { IfOk result (λ r. IsDivision (free_module F.ring F.inverse (length v.now) grading.now.shifts (O.order order.now)) v.now basis.now r.0.items r.1) }
    ensures symbols { IfOk result (λ r. (leads : List TermOf) → AreLed (free_module F.ring F.inverse (length v.now) grading.now.shifts (O.order order.now)) (record { members = basis.now; leads = leads }) → IsDivided (free_module F.ring F.inverse (length v.now) grading.now.shifts (O.order order.now)) v.now (record { members = basis.now; leads = leads }) r.0.items r.1) }
{
    let _components = order.width();
    let width = v.width();
    let mut divisors = Divisors::new(alloc, width)?;
    for k in 0..basis.len() {
        let member = &basis[k];
        divisors.push(alloc, order, member)?;
    }
    let answer = divisors.divide(alloc, order, grading, v)?;
    Ok(answer)
}
