//! Orders of terms.

ghost use Rattle.std.specs.Prelude.{◌≡◌, ℕ, ◌≤◌};
ghost use Rattle.std.specs.declared.cmp.Ordering.{Ordering as OrderingOf};
ghost use Rattle.hp_mono.specs.declared.term.Term.{Term as TermOf};
ghost use Rattle.hp_mono.specs.TermOrders.{IsTermOrder};

use crate::term::Term;
use std::cmp::Ordering;

/// An order of the terms of vectors with a number of components.
///
/// Each implementation names the data that are its values, and the laws speak of these alone. Each call promises that
/// what it was lent is such a value, so that generic code learns it of an order in hand.
pub trait TermOrder {
    /// Which data are values.
    ghost IsValue: { Self → Type 0 };

    /// The number of components.
    ghost components: { Self → ℕ };

    /// How two terms compare.
    ghost order: { Self → TermOf → TermOf → OrderingOf };

    /// The number of components.
    fn width(&self) -> usize
        ensures of { IsValue self.now }
        ensures value { result ≡ components self.now };

    /// How two terms compare. Their components are from 1 to the width.
    fn cmp(&self, a: &Term, b: &Term) -> Ordering
        requires a_counted { 1 ≤ a.now.comp }
        requires a_within { a.now.comp ≤ components self.now }
        requires b_counted { 1 ≤ b.now.comp }
        requires b_within { b.now.comp ≤ components self.now }
        ensures of { IsValue self.now }
        ensures value { result ≡ order self.now a.now b.now };

    /// A total order, which products keep, and in which no term is below one that divides it.
    ghost lawful: { (o : Self) → IsValue o → IsTermOrder (components o) (order o) };
}
