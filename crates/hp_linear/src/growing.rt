//! A reduced row echelon form to which rows are added one at a time.

ghost use Rattle.std.specs.Prelude.{◌≡◌, ◌↔◌, ◌∷◌, ℕ, ◌≤◌, List, [], Contains, IfOk, IsTrue, length};
ghost use Rattle.hp_linear.specs.Echelon.{IsReduced, rows_of};
ghost use Rattle.hp_linear.specs.GrowingForms.{IsFormOf, IsFull};
ghost use Rattle.hp_linear.specs.Matrices.{IsEchelonForm};

use crate::echelon::{insert, numbers_of};
use crate::kernel::fill_columns;
use crate::pivot::Pivoted;
use crate::row::look_at;
use hp_algebra::{Field, NoMem};
use std::alloc::Global;
use std::marker::Model;

/// The reduced row echelon form of the rows that were added.
#[derive(Drop)]
pub struct GrowingForm<F: Field> {
    cols: usize,
    kept: Vec<Pivoted<F>>,
}

impl<F: Field> Model for GrowingForm<F> {
    ghost use Rattle.hp_linear.specs.Echelon.{IsReduced};
    ghost use Rattle.hp_linear.specs.GrowingForms.{GrowingForm};

    ghost Value = { GrowingForm F };

    ghost view = { λ f. record { cols = f.cols; kept = f.kept.items } };

    ghost invariant = { λ f. IsReduced F.ring f.cols f.kept.items };
}

impl<F: Field> GrowingForm<F> {
    /// The form of no rows. Takes no memory.
    pub fn new(alloc: Global, cols: usize) -> GrowingForm<F>
        ensures columns { result.cols ≡ cols }
        ensures none { IsFormOf F.ring result [] }
    {
        GrowingForm {
            cols,
            kept: Vec::new(alloc),
        }
    }

    /// How many columns it has.
    pub fn cols(&self) -> usize
        ensures { result ≡ self.now.cols }
    {
        self.cols
    }

    /// Whether each column has a pivot.
    pub fn is_full(&self) -> bool
        ensures { IsTrue result ↔ IsFull self.now }
    {
        fill_columns(&self.kept, self.cols)
    }

    /// The form with one more row.
    ///
    /// Errors: `NoMem` where memory is out.
    pub fn with_row(self, row: Vec<F>) -> Result<GrowingForm<F>, NoMem>
        requires { length row.items ≡ self.cols }
        ensures columns { IfOk result (λ f. f.cols ≡ self.cols) }
        ensures more { IfOk result (λ f. (rows : List (List F)) → IsFormOf F.ring self rows → IsFormOf F.ring f (row.items ∷ rows)) }
    {
        look_at(&row);
        let kept = insert(self.kept, row)?;
        Ok(GrowingForm {
            cols: self.cols,
            kept,
        })
    }

    /// The columns of the pivots, counted from 1.
    ///
    /// Errors: `NoMem` where memory is out.
    pub fn pivots(&self, alloc: Global) -> Result<Vec<usize>, NoMem>
        ensures form { IfOk result (λ pivots. (rows : List (List F)) → IsFormOf F.ring self.now rows → IsEchelonForm F.ring (record { cols = self.now.cols; rows = rows }) (record { cols = self.now.cols; rows = rows_of F.ring self.now.kept }) pivots.items) }
        ensures full { IfOk result (λ pivots. IsFull self.now → (c : ℕ) → 1 ≤ c → c ≤ self.now.cols → Contains pivots.items c) }
    {
        let _cols = self.cols();
        let pivots = numbers_of(alloc, &self.kept)?;
        Ok(pivots)
    }
}
