//! Freeness from a minimal resolution.

ghost use Rattle.std.specs.Prelude.{◌≡◌, ◌≤◌, ℕ, All, IfOk, length, map};
ghost use Rattle.hp_complex.specs.Complexes.{map_at};
ghost use Rattle.hp_module.specs.Vectors.{GeneratesSet};
ghost use Rattle.hp_der.specs.DerivationModules.{IsLogarithmic, most_multiplicity};
ghost use Rattle.hp_saito.specs.declared.answer.FreeAnswer.TheVariants as answers;
ghost use Rattle.hp_saito.specs.Freeness.{IsFreeAnswer, row_values as row_values_of, values_matrix as values_matrix_of};

use crate::answer::FreeAnswer;
use hp_algebra::{Field, FiniteField, List, NoMem};
use hp_arr::Arr;
use hp_complex::Mat;
use hp_linear::Matrix;
use hp_module::ModVec;
use hp_poly::Poly;
use hp_resolution::MinRes;
use std::alloc::Global;

/// The values of the entries at a point.
fn row_values<F: Field>(alloc: Global, row: &[Poly<F>], point: &[F]) -> Result<Vec<F>, NoMem>
    ensures { IfOk result (λ r. r.items ≡ row_values_of F.ring point.now row.now) }
{
    let mut values = Vec::new(alloc);
    for k in 0..row.len() {
        values.push(row[k].eval(point))?;
    }
    Ok(values)
}

/// The matrix with the values of the rows at a point as its rows.
fn values_matrix<F: Field>(
    alloc: Global,
    rows: &Mat<Poly<F>>,
    point: &[F],
) -> Result<Matrix<F>, NoMem>
    ensures { IfOk result (λ m. m ≡ values_matrix_of F.ring rows.now.cols point.now rows.now.rows) }
{
    let mut values = Vec::new(alloc);
    for k in 0..rows.rows() {
        values.push(row_values(alloc, rows.row(k), point)?)?;
    }
    Ok(Matrix::new(rows.cols(), values))
}

/// The row as a vector.
fn vector<F: Field>(alloc: Global, row: &[Poly<F>]) -> Result<ModVec<F>, NoMem>
    ensures { IfOk result (λ v. v ≡ row.now) }
{
    let mut entries = Vec::new(alloc);
    for k in 0..row.len() {
        entries.push(row[k].copy(alloc)?)?;
    }
    Ok(ModVec::new(entries))
}

/// The rows as vectors.
fn vectors<F: Field>(alloc: Global, rows: &Mat<Poly<F>>) -> Result<Vec<ModVec<F>>, NoMem>
    ensures { IfOk result (λ r. r.items ≡ rows.now.rows) }
{
    let mut vectors = Vec::new(alloc);
    for k in 0..rows.rows() {
        vectors.push(vector(alloc, rows.row(k))?)?;
    }
    Ok(vectors)
}

/// The answer with these rows as the basis, their degrees, the point and the inverse.
fn free<K: Field>(
    alloc: Global,
    rows: &Mat<Poly<K>>,
    degrees: &[u32],
    point: Vec<K>,
    inverse: Matrix<K>,
) -> Result<FreeAnswer<K>, NoMem>
    ensures { IfOk result (λ a. a ≡ answers.Free rows.now.rows degrees.now point.items inverse) }
{
    let basis = List::of(vectors(alloc, rows)?);
    let degrees = List::of(Vec::from_slice(alloc, degrees)?);
    Ok(FreeAnswer::Free {
        basis,
        degrees,
        point: List::of(point),
        inverse,
    })
}

/// Whether the module D(A, m) of logarithmic derivations of an arrangement with multiplicities is free, from a minimal
/// resolution of it. It is free exactly where the rows of the first map are as many as the dimension; then they are a
/// homogeneous basis, and the answer has its certificate. There is one multiplicity for each form.
///
/// Errors: `NoMem` where memory is out.
pub fn free_answer<K: FiniteField>(
    alloc: Global,
    arr: &Arr<K>,
    m: &[u32],
    res: &MinRes<K>,
) -> Result<FreeAnswer<K>, NoMem>
    requires each { length m.now ≡ length arr.now.forms }
    requires most { All (λ k. k ≤ most_multiplicity) m.now }
    requires generates { let rows = (map_at res.now.maps 0).rows in
        GeneratesSet K.ring arr.now.dim (IsLogarithmic K.ring arr.now m.now) rows }
    ensures { IfOk result (IsFreeAnswer K.ring K.numbers arr.now m.now res.now) }
{
    let rows = res.complex().map(0);
    let generators = rows.rows();
    if generators != arr.dim() as usize {
        return Ok(FreeAnswer::NotFree { generators });
    }
    let point = arr.least_point_off(alloc)?;
    let values = values_matrix(alloc, rows, &point)?;
    let Some(inverse) = values.inverse(alloc)? else {
        unreachable!();
    };
    let degrees = res.degrees()[0].as_slice();
    free(alloc, rows, degrees, point, inverse)
}
