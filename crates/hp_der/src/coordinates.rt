//! Essential coordinates: the rows of a reduced row echelon form of the forms in place of the variables of its pivots.

ghost use Rattle.std.specs.Prelude.{◌≡◌, ℕ, ◌+◌, ◌-◌, ◌≤◌, if◌then◌else◌, All, IfOk, length};
ghost use Rattle.hp_algebra.specs.Rows.{IsRow, entry, unit_row};
ghost use Rattle.hp_arr.specs.Arrangement.{IsArrangement};
ghost use Rattle.hp_linear.specs.Matrices.{IsEchelonForm};
ghost use Rattle.hp_mono.specs.Monomials.{variable as variable_of, vars};
ghost use Rattle.hp_poly.specs.Polynomials.{linear_form, term_poly};
ghost use Rattle.hp_graded.specs.EssentialRows.{essential_form as essential_form_of, essential_variables as essential_variables_of, is_pivot as is_pivot_of, row_at};
ghost use Rattle.hp_der.specs.CarriedBases.{coordinates as coordinates_of};

use hp_algebra::{Field, FiniteField, NoMem, unit_row};
use hp_arr::Arr;
use hp_linear::Matrix;
use hp_mono::{Mono, VARS};
use hp_poly::Poly;
use std::alloc::Global;

/// The matrix of the forms.
fn forms_matrix<K: FiniteField>(alloc: Global, arr: &Arr<K>) -> Result<Matrix<K>, NoMem>
    ensures { IfOk result (λ m. m ≡ record { cols = arr.now.dim; rows = arr.now.forms }) }
{
    let dim = arr.dim() as usize;
    let mut rows = Vec::new(alloc);
    for i in 0..arr.len() {
        rows.push(Vec::from_slice(alloc, arr.form(i + 1))?)?;
    }
    Ok(Matrix::new(dim, rows))
}

/// The reduced row echelon form of the forms, and the columns of its pivots.
///
/// Errors: `NoMem` where memory is out.
pub(crate) fn forms_echelon<K: FiniteField>(
    alloc: Global,
    arr: &Arr<K>,
) -> Result<(Matrix<K>, Vec<usize>), NoMem>
    ensures { IfOk result (λ form. IsEchelonForm K.ring (record { cols = arr.now.dim; rows = arr.now.forms }) form.0 form.1.items) }
{
    let forms = forms_matrix(alloc, arr)?;
    let form = forms.echelon(alloc)?;
    Ok(form)
}

/// Whether column j, counted from 1, is a pivot.
fn is_pivot(pivots: &[usize], j: usize) -> bool
    ensures { result ≡ is_pivot_of pivots.now j }
{
    pivots.iter().any(|c| *c == j)
}

/// The coefficient of the form at x_j, and zero where that has no pivot.
fn essential_entry<F: Field>(form: &[F], pivots: &[usize], j: usize) -> F
    requires low { 1 ≤ j }
    requires high { j ≤ length form.now }
    ensures { result ≡ if is_pivot_of pivots.now j then entry F.ring form.now (j - 1) else F.ring.zero }
{
    if is_pivot(pivots, j) {
        form[j - 1]
    } else {
        F::nil()
    }
}

/// The form without the variables that have no pivot.
///
/// Errors: `NoMem` where memory is out.
pub(crate) fn essential_form<F: Field>(
    alloc: Global,
    form: &[F],
    pivots: &[usize],
) -> Result<Vec<F>, NoMem>
    ensures { IfOk result (λ r. r.items ≡ essential_form_of F.ring (length form.now) pivots.now form.now) }
{
    let mut entries = Vec::new(alloc);
    for k in 0..form.len() {
        entries.push(essential_entry(form, pivots, k + 1))?;
    }
    Ok(entries)
}

/// The form that stands for x_j: the row with pivot j, and x_j where there is none.
fn form_for<F: Field>(
    alloc: Global,
    dim: usize,
    form: &Matrix<F>,
    pivots: &[usize],
    j: usize,
) -> Result<Poly<F>, NoMem>
    requires few { dim ≤ vars }
    requires cols { form.now.cols ≡ dim }
    requires one_each { length pivots.now ≡ length form.now.rows }
    ensures { IfOk result (λ p. p ≡ linear_form F.ring (row_at pivots.now form.now.rows j (unit_row F.ring dim j))) }
{
    for k in 0..pivots.len() {
        if pivots[k] == j {
            return Poly::linear(alloc, form.row(k));
        }
    }
    let row = unit_row(alloc, dim, j)?;
    Poly::linear(alloc, row.as_slice())
}

/// The variable x_j.
fn variable<F: Field>(alloc: Global, j: usize) -> Result<Poly<F>, NoMem>
    requires low { 1 ≤ j }
    requires high { j ≤ vars }
    ensures { IfOk result (λ p. p ≡ term_poly F.ring F.ring.one (variable_of j)) }
{
    let mut terms = Vec::new(alloc);
    terms.push((Mono::var(j as u32), F::unit()))?;
    Poly::from_terms(alloc, terms)
}

/// The forms that stand for the variables of the arrangement, and the later variables.
fn essential_variables<F: Field>(
    alloc: Global,
    dim: usize,
    form: &Matrix<F>,
    pivots: &[usize],
) -> Result<Vec<Poly<F>>, NoMem>
    requires few { dim ≤ vars }
    requires cols { form.now.cols ≡ dim }
    requires one_each { length pivots.now ≡ length form.now.rows }
    ensures { IfOk result (λ r. r.items ≡ essential_variables_of F.ring dim pivots.now form.now.rows) }
{
    let mut xs = Vec::new(alloc);
    for j in 0..dim {
        xs.push(form_for(alloc, dim, form, pivots, j + 1)?)?;
    }
    for j in dim..VARS {
        xs.push(variable(alloc, j + 1)?)?;
    }
    Ok(xs)
}

/// The polynomials that stand for the variables, and none where each column has a pivot.
///
/// Errors: `NoMem` where memory is out.
pub(crate) fn coordinates<F: Field>(
    alloc: Global,
    dim: usize,
    form: &Matrix<F>,
    pivots: &[usize],
) -> Result<Vec<Poly<F>>, NoMem>
    requires few { dim ≤ vars }
    requires cols { form.now.cols ≡ dim }
    requires one_each { length pivots.now ≡ length form.now.rows }
    ensures { IfOk result (λ r. r.items ≡ coordinates_of F.ring dim pivots.now form.now.rows) }
{
    if pivots.len() == dim {
        return Ok(Vec::new(alloc));
    }
    essential_variables(alloc, dim, form, pivots)
}
