//! Vectors as the rows of a matrix.

ghost use Rattle.std.specs.Prelude.{◌≡◌, All, IfOk, length};

use hp_algebra::{Field, NoMem};
use hp_complex::Mat;
use hp_module::ModVec;
use hp_poly::Poly;
use std::alloc::Global;

/// The matrix of so many columns with copies of the vectors as its rows.
///
/// Errors: `NoMem` where memory is out.
pub fn matrix_of<F: Field>(
    alloc: Global,
    cols: usize,
    vectors: &[ModVec<F>],
) -> Result<Mat<Poly<F>>, NoMem>
    requires { All (λ v. length v ≡ cols) vectors.now }
    ensures { IfOk result (λ m. m ≡ record { cols = cols; rows = vectors.now }) }
{
    let mut rows = Vec::new(alloc);
    for k in 0..vectors.len() {
        rows.push(vectors[k].row(alloc)?)?;
    }
    Ok(Mat::new(cols, rows))
}
