//! Matrices.

ghost use Rattle.std.specs.Prelude.{◌≡◌, ℕ, ◌+◌, ◌<◌, ◌≤◌, List, [], IfOk, IfSome, IsNone, All, length, map, slice_index_or};
ghost use Rattle.hp_algebra.specs.Rows.{IsRow};
ghost use Rattle.hp_linear.specs.Spaces.{HaveSameSpan, IsBasisOf};
ghost use Rattle.hp_linear.specs.Matrices.{IsMatrix, IsEchelonForm, IsRank, IsKernelMember, IsSolution, IsInverse, Matrix as MatrixOf, matrix_entry, with_column, with_identity};
ghost use Rattle.hp_linear.specs.Echelon.{IsReduced, rows_of};

use crate::echelon::{entries_of, insert, numbers_of};
use crate::kernel::{fill_columns, free_solution, has_pivot, rests_of};
use crate::pivot::Pivoted;
use crate::row::look_at;
use hp_algebra::{Field, NoMem, scaled, unit_row};
use std::alloc::Global;
use std::marker::Model;

/// A matrix: a number of columns, and rows of that many entries.
#[derive(Drop)]
pub struct Matrix<F: Field> {
    cols: usize,
    rows: Vec<Vec<F>>,
}

impl<F: Field> Model for Matrix<F> {
    ghost use Rattle.std.specs.Prelude.{map};
    ghost use Rattle.hp_linear.specs.Matrices.{Matrix, IsMatrix};

    ghost Value = { Matrix F };

    ghost view = { λ m. record { cols = m.cols; rows = map (λ row. row.items) m.rows.items } };

    ghost invariant = { λ m. IsMatrix F.ring (record { cols = m.cols; rows = map (λ row. row.items) m.rows.items }) };
}

impl<F: Field> Matrix<F> {
    /// The matrix of these rows. Takes no memory.
    pub fn new(cols: usize, rows: Vec<Vec<F>>) -> Matrix<F>
        requires { All (λ row. length row.items ≡ cols) rows.items }
        ensures { result ≡ record { cols = cols; rows = map (λ row. row.items) rows.items } }
    {
        for row in &rows {
            look_at(row);
        }
        Matrix { cols, rows }
    }

    /// How many rows it has.
    pub fn rows(&self) -> usize
        ensures value { result ≡ length self.now.rows }
        ensures matrix { IsMatrix F.ring self.now }
    {
        self.rows.len()
    }

    /// How many columns it has.
    pub fn cols(&self) -> usize
        ensures value { result ≡ self.now.cols }
        ensures matrix { IsMatrix F.ring self.now }
    {
        self.cols
    }

    /// The entry in row `r` and column `c`, both counted from 1.
    pub fn at(&self, r: usize, c: usize) -> F
        requires row_low { 1 ≤ r }
        requires row_high { r ≤ length self.now.rows }
        requires column_low { 1 ≤ c }
        requires column_high { c ≤ self.now.cols }
        ensures value { result ≡ matrix_entry F.ring self.now r c }
        ensures answer { F.ring.IsValue result }
    {
        self.row(r - 1)[c - 1]
    }

    /// The entries of row `k`, counted from 0.
    pub fn row(&self, k: usize) -> &[F]
        requires { k < length self.now.rows }
        ensures value { result.now ≡ slice_index_or self.now.rows k [] }
        ensures row { IsRow F.ring self.now.cols result.now }
    {
        self.rows[k].as_slice()
    }

    /// The rows of the reduced row echelon form, with their pivots.
    fn eliminate(&self, alloc: Global) -> Result<Vec<Pivoted<F>>, NoMem>
        ensures matrix { IsMatrix F.ring self.now }
        ensures reduced { IfOk result (λ kept. IsReduced F.ring self.now.cols kept.items) }
        ensures span { IfOk result (λ kept. HaveSameSpan F.ring self.now.cols self.now.rows (rows_of F.ring kept.items)) }
    {
        let mut kept = Vec::new(alloc);
        for k in (0..self.rows.len()).rev() {
            let row = Vec::from_slice(alloc, self.row(k))?;
            kept = insert(kept, row)?;
        }
        Ok(kept)
    }

    /// The reduced row echelon form without zero rows, and the columns of its pivots, counted from 1.
    ///
    /// Errors: `NoMem` where memory is out.
    pub fn echelon(&self, alloc: Global) -> Result<(Matrix<F>, Vec<usize>), NoMem>
        ensures { IfOk result (λ form. IsEchelonForm F.ring self.now form.0 form.1.items) }
    {
        let cols = self.cols();
        let kept = self.eliminate(alloc)?;
        let pivots = numbers_of(alloc, &kept)?;
        let rows = entries_of(alloc, kept)?;
        Ok((Matrix::new(cols, rows), pivots))
    }

    /// The rank: the dimension of the row space.
    ///
    /// Errors: `NoMem` where memory is out.
    pub fn rank(&self, alloc: Global) -> Result<usize, NoMem>
        ensures dimension { IfOk result (IsRank F.ring self.now) }
        ensures only { IfOk result (λ r. (d : ℕ) → IsRank F.ring self.now d → d ≡ r) }
        ensures at_most_rows { IfOk result (λ r. r ≤ length self.now.rows) }
    {
        let kept = self.eliminate(alloc)?;
        Ok(kept.len())
    }

    /// A basis of the kernel: of all columns c with M c = 0.
    ///
    /// Errors: `NoMem` where memory is out.
    pub fn kernel(&self, alloc: Global) -> Result<Vec<Vec<F>>, NoMem>
        ensures basis { IfOk result (λ basis. IsBasisOf F.ring self.now.cols (IsKernelMember F.ring self.now) (map (λ c. c.items) basis.items)) }
        ensures nullity { IfOk result (λ basis. (r : ℕ) → IsRank F.ring self.now r → length basis.items + r ≡ self.now.cols) }
    {
        let cols = self.cols();
        let kept = self.eliminate(alloc)?;
        let mut basis = Vec::new(alloc);
        for free in 0..cols {
            if !has_pivot(&kept, free) {
                basis.push(free_solution(alloc, &kept, cols, free)?)?;
            }
        }
        Ok(basis)
    }

    /// Some column c with M c = b. None exactly where there is none.
    ///
    /// Errors: `NoMem` where memory is out, also where the columns are too many to be counted.
    pub fn solve(&self, alloc: Global, b: &[F]) -> Result<Option<Vec<F>>, NoMem>
        requires { length b.now ≡ length self.now.rows }
        ensures some { IfOk result (λ answer. IfSome answer (λ c. IsSolution F.ring self.now b.now c.items)) }
        ensures none { IfOk result (λ answer. IsNone answer → (c : List F) → IsSolution F.ring self.now b.now c → ⊥) }
    {
        let cols = self.cols();
        let extended = self.with_column(alloc, b)?;
        let kept = extended.eliminate(alloc)?;
        if has_pivot(&kept, cols) {
            return Ok(None);
        }
        let mut c = free_solution(alloc, &kept, extended.cols(), cols)?;
        c.truncate(cols);
        Ok(Some(scaled(c, F::unit().negate())))
    }

    /// The matrix with b as one more column.
    fn with_column(&self, alloc: Global, b: &[F]) -> Result<Matrix<F>, NoMem>
        requires { length b.now ≡ length self.now.rows }
        ensures matrix { IsMatrix F.ring self.now }
        ensures values { All F.ring.IsValue b.now }
        ensures extended { IfOk result (λ m. m ≡ with_column F.ring self.now b.now) }
    {
        look_at(b);
        let cols = self.cols().checked_add(1).ok_or(NoMem)?;
        let mut rows = Vec::new(alloc);
        for k in 0..b.len() {
            let mut row = Vec::from_slice(alloc, self.row(k))?;
            row.push(b[k])?;
            rows.push(row)?;
        }
        Ok(Matrix::new(cols, rows))
    }

    /// The inverse of a square matrix, on both sides. None exactly where there is none.
    ///
    /// Errors: `NoMem` where memory is out, also where the columns are too many to be counted.
    pub fn inverse(&self, alloc: Global) -> Result<Option<Matrix<F>>, NoMem>
        requires { length self.now.rows ≡ self.now.cols }
        ensures some { IfOk result (λ answer. IfSome answer (IsInverse F.ring self.now)) }
        ensures none { IfOk result (λ answer. IsNone answer → (n : MatrixOf F) → IsInverse F.ring self.now n → ⊥) }
    {
        let cols = self.cols();
        let extended = self.with_identity(alloc)?;
        let kept = extended.eliminate(alloc)?;
        if !fill_columns(&kept, cols) {
            return Ok(None);
        }
        let rows = rests_of(alloc, &kept, cols)?;
        Ok(Some(Matrix::new(cols, rows)))
    }

    /// The square matrix with the columns of the identity at its right.
    fn with_identity(&self, alloc: Global) -> Result<Matrix<F>, NoMem>
        requires { length self.now.rows ≡ self.now.cols }
        ensures matrix { IsMatrix F.ring self.now }
        ensures extended { IfOk result (λ m. m ≡ with_identity F.ring self.now) }
    {
        let cols = self.cols();
        let wide = cols.checked_add(cols).ok_or(NoMem)?;
        let mut rows = Vec::new(alloc);
        for k in 0..cols {
            let mut row = Vec::from_slice(alloc, self.row(k))?;
            let unit = unit_row(alloc, cols, k + 1)?;
            row.extend_from_slice(&unit)?;
            rows.push(row)?;
        }
        Ok(Matrix::new(wide, rows))
    }
}
