//! Exact frames.

ghost use Rattle.std.specs.Prelude.{◌≡◌, ◌≤◌, ◌+◌, All, IfOk, length};
ghost use Rattle.hp_mono.specs.declared.term.Term.{Term as TermOf};
ghost use Rattle.hp_mono.specs.Monomials.{degree, vars};
ghost use Rattle.hp_module.specs.Derivations.{IsVectorInVariables};
ghost use Rattle.hp_module.specs.ElimOrders.{elimination_order};
ghost use Rattle.hp_module.specs.Leads.{IsGreatestTerm};
ghost use Rattle.hp_resolution.specs.Resolutions.{IsFrame, IsResolution};
ghost use Rattle.hp_syzygy.specs.FrameLevels.{IsLevel, level_matrix, most_lead};

use crate::first::first_level;
use crate::level::Level;
use crate::next::{degrees_of, next_level};
use hp_algebra::{Field, List, NoMem};
use hp_complex::{Complex, Mat};
use hp_module::Basis;
use hp_poly::Poly;
use hp_resolution::{Frame, matrix_of};
use std::alloc::Global;

/// The greatest degree of a lead of a basis of which a frame is made.
pub const MAX_LEAD_DEGREE: u32 = 240;

// The definitions name this number too, as `most_lead`.
const _: () = prove!(MAX_LEAD_DEGREE == 240);

/// A frame of a reduced Gröbner basis with split 0: a resolution of its members, whose first map has them as rows, in order.
/// It has at most one map more than the basis has components.
///
/// The basis has a member, and at most `VARS` components. With l components only the variables x_1, .., x_l occur. No lead
/// has a degree above `MAX_LEAD_DEGREE`.
///
/// Errors: `NoMem` where memory is out.
pub fn frame<F: Field>(alloc: Global, basis: &Basis<F>) -> Result<Frame<F>, NoMem>
    requires split { basis.now.split ≡ 0 }
    requires some_component { 1 ≤ basis.now.width }
    requires few_components { basis.now.width ≤ vars }
    requires some_member { 1 ≤ length basis.now.members }
    requires variables { All (IsVectorInVariables F.ring basis.now.width basis.now.width) basis.now.members }
    requires leads { All (λ g. (t : TermOf) (c : F) → IsGreatestTerm (elimination_order 0) g t c → degree t.mono ≤ most_lead) basis.now.members }
    ensures resolution { IfOk result (λ r. IsResolution F.ring basis.now.members r) }
    ensures frame { IfOk result (λ r. IsFrame F.ring r) }
    ensures short { IfOk result (λ r. length r.maps ≤ basis.now.width + 1) }
{
    let mut level = first_level(alloc, basis)?;
    let mut maps = Vec::new(alloc);
    let mut degrees = Vec::new(alloc);
    maps.push(matrix(alloc, &level)?)?;
    degrees.push(List::of(degrees_of(alloc, &level)?))?;
    for _ in 0..basis.width() + 1 {
        let next = next_level(alloc, &level)?;
        if next.members.is_empty() {
            return Ok(Frame::new(Complex::new(maps), degrees));
        }
        maps.push(matrix(alloc, &next)?)?;
        degrees.push(List::of(degrees_of(alloc, &next)?))?;
        level = next;
    }
    unreachable!()
}

/// The matrix whose rows are the members of a level.
///
/// Errors: `NoMem` where memory is out.
fn matrix<F: Field>(alloc: Global, level: &Level<F>) -> Result<Mat<Poly<F>>, NoMem>
    requires level { IsLevel F.ring F.inverse level.now }
    ensures { IfOk result (λ r. r ≡ level_matrix level.now) }
{
    matrix_of(alloc, level.order.tops().len(), level.members.as_slice())
}
