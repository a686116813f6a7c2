//! Rows with their degrees, as answers hold them.

ghost use Rattle.std.specs.Prelude.{◌≡◌, ◌-◌, ◌<◌, ◌≤◌, [], IfOk, length, slice_index_or, zip};
ghost use Rattle.hp_session.specs.ResolutionAnswers.{graded_rows, resolved_map, resolved_maps};
ghost use Rattle.hp_resolution.specs.Resolutions.{degree_counts, row_degrees};

use crate::derivations::entries;
use hp_algebra::{Field, List, NoMem};
use hp_complex::Mat;
use hp_linear::Matrix;
use hp_minres::betti;
use hp_module::ModVec;
use hp_mono::Mono;
use hp_poly::Poly;
use hp_resolution::MinRes;
use std::alloc::Global;

/// The vectors, each behind its degree.
pub(crate) fn graded<K: Field>(
    alloc: Global,
    degrees: &[u32],
    vectors: &[ModVec<K>],
) -> Result<List<(u32, List<List<(Mono, K)>>)>, NoMem>
    requires { length degrees.now ≡ length vectors.now }
    ensures { IfOk result (λ r. r ≡ zip degrees.now vectors.now) }
{
    let mut graded = Vec::with_capacity(alloc, vectors.len())?;
    for k in 0..vectors.len() {
        graded.push((degrees[k], entries(alloc, vectors[k].entries())?))?;
    }
    Ok(List::of(graded))
}

/// The rows, each behind its degree.
fn graded_matrix<K: Field>(
    alloc: Global,
    degrees: &[u32],
    rows: &Mat<Poly<K>>,
) -> Result<List<(u32, List<List<(Mono, K)>>)>, NoMem>
    requires { length degrees.now ≡ length rows.now.rows }
    ensures { IfOk result (λ r. r ≡ zip degrees.now rows.now.rows) }
{
    let mut graded = Vec::with_capacity(alloc, rows.rows())?;
    for k in 0..rows.rows() {
        graded.push((degrees[k], entries(alloc, rows.row(k))?))?;
    }
    Ok(List::of(graded))
}

/// The rows of map `k`, counted from 0, each behind its degree.
fn graded_rows<K: Field>(
    alloc: Global,
    res: &MinRes<K>,
    k: usize,
) -> Result<List<(u32, List<List<(Mono, K)>>)>, NoMem>
    requires { k < length res.now.maps }
    ensures { IfOk result (λ r. r ≡ graded_rows res.now k) }
{
    let rows = res.complex().map(k);
    graded_matrix(alloc, res.degrees()[k].as_slice(), rows)
}

/// Map `k`, counted from 0, with the numbers of its rows of each degree.
fn resolved_map<K: Field>(
    alloc: Global,
    res: &MinRes<K>,
    numbers: &[usize],
    k: usize,
) -> Result<(List<usize>, List<(u32, List<List<(Mono, K)>>)>), NoMem>
    requires within { k < length res.now.maps }
    requires numbers { numbers.now ≡ degree_counts (row_degrees res.now k) }
    ensures { IfOk result (λ r. r ≡ resolved_map res.now k) }
{
    let counts = List::of(Vec::from_slice(alloc, numbers)?);
    Ok((counts, graded_rows(alloc, res, k)?))
}

/// The maps of a minimal resolution, each with its Betti numbers.
pub(crate) fn resolved<K: Field>(
    alloc: Global,
    res: &MinRes<K>,
) -> Result<List<(List<usize>, List<(u32, List<List<(Mono, K)>>)>)>, NoMem>
    ensures { IfOk result (λ r. r ≡ resolved_maps res.now) }
{
    let numbers = betti(alloc, res)?;
    let many = res.complex().len();
    let mut maps = Vec::with_capacity(alloc, many)?;
    for k in 0..many {
        maps.push(resolved_map(alloc, res, numbers[k].as_slice(), k)?)?;
    }
    Ok(List::of(maps))
}

/// The rows of a matrix.
pub(crate) fn rows_of<K: Field>(alloc: Global, m: &Matrix<K>) -> Result<List<List<K>>, NoMem>
    ensures { IfOk result (λ r. r ≡ m.now.rows) }
{
    let mut rows = Vec::with_capacity(alloc, m.rows())?;
    for k in 0..m.rows() {
        rows.push(row_of(alloc, m, k + 1)?)?;
    }
    Ok(List::of(rows))
}

/// Row `r` of a matrix, counted from 1.
fn row_of<K: Field>(alloc: Global, m: &Matrix<K>, r: usize) -> Result<List<K>, NoMem>
    requires low { 1 ≤ r }
    requires high { r ≤ length m.now.rows }
    ensures { IfOk result (λ row. row ≡ slice_index_or m.now.rows (r - 1) []) }
{
    let mut row = Vec::with_capacity(alloc, m.cols())?;
    for j in 0..m.cols() {
        row.push(m.at(r, j + 1))?;
    }
    Ok(List::of(row))
}
