//! The maps of a reduced complex.

ghost use Rattle.std.specs.Prelude.{◌≡◌, ◌≢◌, ◌<◌, ℕ, All, IfOk, List as ListOf, [], length};
ghost use Rattle.hp_complex.specs.Complexes.{map_at};
ghost use Rattle.hp_module.specs.Vectors.{Vector, IsVector};
ghost use Rattle.hp_resolution.specs.Resolutions.{IsMinimalResolution};
ghost use Rattle.hp_minres.specs.Reductions.{AreFull, AreMatricesOf, IsReduced, level_size, rows_at};

use hp_algebra::{Field, NoMem};
use hp_complex::{Complex, Mat};
use hp_lists::List;
use hp_poly::Poly;
use hp_resolution::MinRes;
use std::alloc::Global;
use std::mem;

/// How many maps at the start have rows.
fn full_maps<F: Field>(maps: &[List<List<Poly<F>>>]) -> usize
    ensures { AreFull maps.now result }
{
    for k in 0..maps.len() {
        if maps[k].as_slice().is_empty() {
            return k;
        }
    }
    maps.len()
}

/// The maps as matrices.
///
/// Errors: `NoMem` where memory is out.
fn matrices<F: Field>(
    alloc: Global,
    width: usize,
    maps: Vec<List<List<Poly<F>>>>,
) -> Result<Vec<Mat<Poly<F>>>, NoMem>
    requires { (k : ℕ) → k < length maps.items → All (λ row. length row ≡ level_size width maps.items k) (rows_at maps.items k) }
    ensures { IfOk result (λ r. AreMatricesOf width maps.items r.items) }
{
    let mut maps = maps;
    let mut mats = Vec::new(alloc);
    let mut columns = width;
    for k in 0..maps.len() {
        let rows = mem::replace(&mut maps[k], List::of(Vec::new(alloc))).into_vec();
        let many = rows.len();
        let mat = Mat::new(columns, rows);
        mats.push(mat)?;
        columns = many;
    }
    Ok(mats)
}

/// The minimal resolution that a reduced complex is: maps without rows are left out.
///
/// Errors: `NoMem` where memory is out.
pub(crate) fn finished<F: Field>(
    alloc: Global,
    width: usize,
    maps: Vec<List<List<Poly<F>>>>,
    degrees: Vec<List<u32>>,
) -> Result<MinRes<F>, NoMem>
    requires reduced { (vs : ListOf (Vector F)) × IsReduced F.ring width vs maps.items degrees.items }
    requires some_row { rows_at maps.items 0 ≢ [] }
    ensures minimal { IfOk result (λ r. IsMinimalResolution F.ring r) }
    ensures first { IfOk result (λ r. map_at r.maps 0 ≡ record { cols = width; rows = rows_at maps.items 0 }) }
{
    let many = full_maps(&maps);
    let mut maps = maps;
    let mut degrees = degrees;
    maps.truncate(many);
    degrees.truncate(many);
    let mats = matrices(alloc, width, maps)?;
    Ok(MinRes::new(Complex::new(mats), degrees))
}
