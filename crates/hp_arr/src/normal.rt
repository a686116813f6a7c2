//! Rows up to multiples: each is divided by its first entry that is not zero.

ghost use Rattle.std.specs.Prelude.{◌≡◌, IfOk, IsFalse, All, map};
ghost use Rattle.hp_algebra.specs.Rows.{entry, is_zero_row};
ghost use Rattle.hp_arr.specs.Operations.{first_place, normalised};

use hp_algebra::{Field, FiniteField, NoMem, scaled};
use std::alloc::Global;

/// The row divided by its first entry that is not zero.
pub fn normalised<K: Field>(row: Vec<K>) -> Vec<K>
    requires values { All K.ring.IsValue row.items }
    requires nonzero { IsFalse (is_zero_row K.ring row.items) }
    ensures { result.items ≡ normalised K.ring K.inverse row.items }
{
    let inverse = first_inverse(&row);
    scaled(row, inverse)
}

/// The inverse of the first entry that is not zero.
fn first_inverse<K: Field>(row: &[K]) -> K
    requires values { All K.ring.IsValue row.now }
    requires nonzero { IsFalse (is_zero_row K.ring row.now) }
    ensures { result ≡ K.inverse (entry K.ring row.now (first_place K.ring row.now)) }
{
    for k in 0..row.len() {
        if let Some(inverse) = row[k].inv() {
            return inverse;
        }
    }
    unreachable!()
}

/// The numbers of the entries of the row divided by its first entry that is not zero. Two rows of one width have the same
/// exactly where they are multiples of one another.
pub fn normalised_places<K: FiniteField>(alloc: Global, row: &[K]) -> Result<Vec<u32>, NoMem>
    requires values { All K.ring.IsValue row.now }
    requires nonzero { IsFalse (is_zero_row K.ring row.now) }
    ensures { IfOk result (λ places. places.items ≡ map K.numbers.place (normalised K.ring K.inverse row.now)) }
{
    let inverse = first_inverse(row);
    scaled_places(alloc, row, inverse)
}

/// The numbers of the entries of the row times c.
fn scaled_places<K: FiniteField>(alloc: Global, row: &[K], c: K) -> Result<Vec<u32>, NoMem>
    ensures { IfOk result (λ places. places.items ≡ map (λ x. K.numbers.place (K.ring.mul c x)) row.now) }
{
    Ok(row.iter().map(|x| c.times(*x).place()).collect(alloc)?)
}
