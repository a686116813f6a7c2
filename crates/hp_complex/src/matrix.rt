//! Matrices over a ring, and row vectors times a matrix.

ghost use Rattle.std.specs.Prelude.{◌≡◌, ◌↔◌, ◌<◌, List, [], IfOk, IsTrue, All, length, map, slice_index_or};
ghost use Rattle.hp_algebra.specs.Ring.{dot_of};
ghost use Rattle.hp_algebra.specs.Rows.{IsRow, entry, zero_row};
ghost use Rattle.hp_linear.specs.Matrices.{IsMatrix};
ghost use Rattle.hp_complex.specs.Complexes.{times_matrix, HasProductsWithin};

use crate::sums::plus_product;
use hp_algebra::{List, NoMem, Ring, greatest_weight};
use std::alloc::Global;
use std::marker::Model;

/// A matrix: a number of columns, and rows of that many entries.
#[derive(Drop)]
pub struct Mat<R: Ring> {
    cols: usize,
    rows: Vec<List<R>>,
}

impl<R: Ring> Model for Mat<R> {
    ghost use Rattle.hp_linear.specs.Matrices.{Matrix, IsMatrix};

    ghost Value = { Matrix R };

    ghost view = { λ m. record { cols = m.cols; rows = m.rows.items } };

    ghost invariant = { λ m. IsMatrix R.ring (record { cols = m.cols; rows = m.rows.items }) };
}

impl<R: Ring> Mat<R> {
    /// The matrix of these rows. Takes no memory.
    pub fn new(cols: usize, rows: Vec<List<R>>) -> Mat<R>
        requires { All (λ row. length row ≡ cols) rows.items }
        ensures value { result ≡ record { cols = cols; rows = rows.items } }
        ensures matrix { IsMatrix R.ring result }
    {
        look_at(&rows);
        Mat { cols, rows }
    }

    /// How many rows it has.
    pub fn rows(&self) -> usize
        ensures value { result ≡ length self.now.rows }
        ensures matrix { IsMatrix R.ring self.now }
    {
        self.rows.len()
    }

    /// How many columns it has.
    pub fn cols(&self) -> usize
        ensures value { result ≡ self.now.cols }
        ensures matrix { IsMatrix R.ring self.now }
    {
        self.cols
    }

    /// The entries of row `k`, counted from 0.
    pub fn row(&self, k: usize) -> &[R]
        requires { k < length self.now.rows }
        ensures value { result.now ≡ slice_index_or self.now.rows k [] }
        ensures row { IsRow R.ring self.now.cols result.now }
    {
        self.rows[k].as_slice()
    }

    /// Entry `j` of `c` times the matrix, counted from 0: the sum of the products of the entries of c and of column j.
    ///
    /// Errors: `NoMem` where memory is out.
    fn product_entry(&self, alloc: Global, c: &[R], j: usize) -> Result<R, NoMem>
        requires coefficients { length c.now ≡ length self.now.rows }
        requires column { j < self.now.cols }
        requires weights { HasProductsWithin R.ring R.MOST self.now c.now }
        ensures value { IfOk result (λ r. r ≡ dot_of R.ring c.now (map (λ row. entry R.ring row j) self.now.rows)) }
        ensures answer { IfOk result R.ring.IsValue }
    {
        let mut sum = R::zero(alloc)?;
        for k in (0..c.len()).rev() {
            sum = plus_product(alloc, sum, &c[k], &self.row(k)[j])?;
        }
        Ok(sum)
    }

    /// Whether `c` times the matrix is zero.
    ///
    /// Errors: `NoMem` where memory is out.
    pub(crate) fn sends_to_zero(&self, alloc: Global, c: &[R]) -> Result<bool, NoMem>
        requires coefficients { length c.now ≡ length self.now.rows }
        requires weights { HasProductsWithin R.ring R.MOST self.now c.now }
        ensures { IfOk result (λ r. IsTrue r ↔ (times_matrix R.ring c.now self.now ≡ zero_row R.ring self.now.cols)) }
    {
        let _weight = greatest_weight(c);
        for j in 0..self.cols() {
            if !self.product_entry(alloc, c, j)?.is_zero() {
                return Ok(false);
            }
        }
        Ok(true)
    }
}

/// Looks at each entry, so that all are known to be values.
fn look_at<R: Ring>(rows: &[List<R>])
    ensures { All (All R.ring.IsValue) rows.now }
{
    for row in rows {
        let _weight = greatest_weight(row.as_slice());
    }
}
