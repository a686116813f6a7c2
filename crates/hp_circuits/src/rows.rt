//! Row operations: a row less the multiple of another that makes it zero at a place.

ghost use Rattle.std.specs.Prelude.{◌≡◌, ◌<◌, IfOk, IsFalse, All, length};
ghost use Rattle.hp_algebra.specs.Rows.{entry, is_zero_row};
ghost use Rattle.hp_arr.specs.Operations.{first_place};
ghost use Rattle.hp_circuits.specs.RowSteps.{less_multiple, reduced};

use hp_algebra::{Field, List, NoMem};
use std::alloc::Global;

/// Whether each entry of the row is zero.
pub fn is_zero<K: Field>(row: &[K]) -> bool
    ensures { result ≡ is_zero_row K.ring row.now }
{
    row.iter().all(|x| x.is_nil())
}

/// The first place at which the row is not zero, counted from 0, and the inverse of the entry there.
pub fn first_entry<K: Field>(row: &[K]) -> (usize, K)
    requires values { All K.ring.IsValue row.now }
    requires nonzero { IsFalse (is_zero_row K.ring row.now) }
    ensures within { result.0 < length row.now }
    ensures place { result.0 ≡ first_place K.ring row.now }
    ensures inverse { result.1 ≡ K.inverse (entry K.ring row.now (first_place K.ring row.now)) }
{
    for k in 0..row.len() {
        if let Some(inverse) = row[k].inv() {
            return (k, inverse);
        }
    }
    unreachable!()
}

/// The row w less c times the row v.
///
/// Errors: `NoMem` where memory is out.
pub fn less_multiple<K: Field>(alloc: Global, c: K, v: &[K], w: &[K]) -> Result<List<K>, NoMem>
    requires { length v.now ≡ length w.now }
    ensures { IfOk result (λ row. row ≡ less_multiple K.ring c v.now w.now) }
{
    let factor = c.negate();
    let mut row = Vec::with_capacity(alloc, w.len())?;
    for k in 0..w.len() {
        row.push(w[k].plus(factor.times(v[k])))?;
    }
    Ok(List::of(row))
}

/// The row w less the multiple of v that makes it zero at the place. `inverse` is that of the entry of v there.
///
/// Errors: `NoMem` where memory is out.
pub fn reduced<K: Field>(
    alloc: Global,
    place: usize,
    inverse: K,
    v: &[K],
    w: &[K],
) -> Result<List<K>, NoMem>
    requires widths { length v.now ≡ length w.now }
    requires within { place < length w.now }
    requires inverse { inverse ≡ K.inverse (entry K.ring v.now place) }
    ensures { IfOk result (λ row. row ≡ reduced K.ring K.inverse place v.now w.now) }
{
    less_multiple(alloc, w[place].times(inverse), v, w)
}
