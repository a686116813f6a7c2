//! A row with the column of its pivot.

ghost use Rattle.std.specs.Prelude.{◌≡◌, ◌<◌, All, length};
ghost use Rattle.hp_linear.specs.Echelon.{cleared_row, cleared};

use crate::row::add_multiple;
use hp_algebra::Field;
use std::marker::Model;

/// A row, and the column of its first entry other than zero, counted from 0.
#[derive(Drop)]
pub struct Pivoted<F> {
    column: usize,
    entries: Vec<F>,
}

impl<F> Model for Pivoted<F> {
    ghost use Rattle.hp_linear.specs.Echelon.{PivotRow};

    ghost Value = { PivotRow F };

    ghost view = { λ p. record { column = p.column; entries = p.entries.items } };
}

impl<F: Field> Pivoted<F> {
    pub fn new(column: usize, entries: Vec<F>) -> Pivoted<F>
        ensures { result ≡ record { column = column; entries = entries.items } }
    {
        Pivoted { column, entries }
    }

    pub fn column(&self) -> usize
        ensures { result ≡ self.now.column }
    {
        self.column
    }

    pub fn entries(&self) -> &[F]
        ensures { result.now ≡ self.now.entries }
    {
        self.entries.as_slice()
    }

    pub fn into_entries(self) -> Vec<F>
        ensures { result.items ≡ self.entries }
    {
        self.entries
    }

    /// Adds to the row the multiple of this one that makes its entry in the column of the pivot zero. Where it is zero
    /// already, nothing is to be done.
    pub fn clear_in(&self, row: &mut [F])
        requires widths { length row.old ≡ length self.now.entries }
        requires inside { self.now.column < length row.old }
        requires values { All F.ring.IsValue row.old }
        requires pivot { All F.ring.IsValue self.now.entries }
        ensures { row.new ≡ cleared_row F.ring self.now row.old }
    {
        let c = row[self.column].negate();
        if !c.is_nil() {
            add_multiple(row, c, &self.entries);
        }
    }

    /// The same to a row with a pivot, which stays where it is.
    pub fn clear(&mut self, pivot: &Pivoted<F>)
        requires widths { length self.old.entries ≡ length pivot.now.entries }
        requires inside { pivot.now.column < length self.old.entries }
        requires values { All F.ring.IsValue self.old.entries }
        requires pivot { All F.ring.IsValue pivot.now.entries }
        ensures { self.new ≡ cleared F.ring pivot.now self.old }
    {
        pivot.clear_in(&mut self.entries);
    }
}
