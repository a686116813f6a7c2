//! The forms of a restriction: the other forms in the coordinates of one hyperplane.

ghost use Rattle.std.specs.Prelude.{◌≡◌, ◌<◌, if◌then◌else◌, IfOk, IsFalse, All, length, map, remove, List, [], ◌∷◌, ◌++◌};
ghost use Rattle.hp_lists.specs.Lists.{list_any};
ghost use Rattle.hp_algebra.specs.Rows.{IsRow, IsMultiple, entry, is_zero_row, row_minus, row_scale, same_row};
ghost use Rattle.hp_arr.specs.Operations.{first_copies, last_place, normalised, restricted_form};

use crate::normal::normalised;
use hp_algebra::{Field, List, NoMem};
use std::alloc::Global;

/// The other forms on the hyperplane a = 0. Form a is solved for its last variable with a nonzero coefficient, and this
/// is put into the others; each is scaled so that its first nonzero coefficient is 1, and of equal forms the first is
/// kept.
///
/// Each form is compared with all that are kept, since an arrangement has at most `MAX_FORMS`.
pub fn restricted_forms<K: Field>(
    alloc: Global,
    a: &[K],
    others: &[List<K>],
) -> Result<Vec<List<K>>, NoMem>
    requires values { All K.ring.IsValue a.now }
    requires nonzero { IsFalse (is_zero_row K.ring a.now) }
    requires rows { All (IsRow K.ring (length a.now)) others.now }
    requires apart { All (λ b. ¬ (IsMultiple K.ring b a.now)) others.now }
    ensures { let restricted = λ (b : List K). normalised K.ring K.inverse (restricted_form K.ring K.inverse (length a.now) a.now b) in
        IfOk result (λ kept. kept.items ≡ first_copies K.ring (map restricted others.now)) }
{
    let (place, inverse) = last_entry(a);
    let mut kept = Vec::new(alloc);
    for other in others {
        let row = restricted_form(alloc, a, place, inverse, other.as_slice())?;
        push_if_new(&mut kept, normalised(row))?;
    }
    Ok(kept)
}

/// The last place at which the row is not zero, counted from 0, and the inverse of the entry there.
pub fn last_entry<K: Field>(row: &[K]) -> (usize, K)
    requires values { All K.ring.IsValue row.now }
    requires nonzero { IsFalse (is_zero_row K.ring row.now) }
    ensures within { result.0 < length row.now }
    ensures place { result.0 ≡ last_place K.ring row.now }
    ensures inverse { result.1 ≡ K.inverse (entry K.ring row.now (last_place K.ring row.now)) }
{
    for k in (0..row.len()).rev() {
        if let Some(inverse) = row[k].inv() {
            return (k, inverse);
        }
    }
    unreachable!()
}

/// Form b on the hyperplane a = 0: without the variable at the place, which is put in terms of the others. The inverse is
/// that of the entry of a at the place.
pub fn restricted_form<K: Field>(
    alloc: Global,
    a: &[K],
    place: usize,
    inverse: K,
    b: &[K],
) -> Result<Vec<K>, NoMem>
    requires widths { length b.now ≡ length a.now }
    requires within { place < length a.now }
    ensures { let c = K.ring.mul (entry K.ring b.now place) inverse in
        IfOk result (λ row. row.items ≡ remove (row_minus K.ring b.now (row_scale K.ring c a.now)) place) }
{
    let mut row = minus_multiple(alloc, b, b[place].times(inverse), a)?;
    row.remove(place);
    Ok(row)
}

/// The row b less c times the row a.
fn minus_multiple<K: Field>(alloc: Global, b: &[K], c: K, a: &[K]) -> Result<Vec<K>, NoMem>
    requires { length b.now ≡ length a.now }
    ensures { IfOk result (λ row. row.items ≡ row_minus K.ring b.now (row_scale K.ring c a.now)) }
{
    let mut row = Vec::new(alloc);
    for k in 0..b.len() {
        row.push(b[k].minus(c.times(a[k])))?;
    }
    Ok(row)
}

/// Puts the row behind the rows, unless it is one of them.
pub fn push_if_new<K: Field>(rows: &mut Vec<List<K>>, row: Vec<K>) -> Result<(), NoMem>
    ensures { let old = rows.old.items in
        IfOk result (λ _. rows.new.items ≡ (if list_any (same_row K.ring row.items) old then old else old ++ row.items ∷ [])) }
{
    if !contains_row(rows, &row) {
        rows.push(List::of(row))?;
    }
    Ok(())
}

/// Whether the row is one of the rows.
fn contains_row<K: Field>(rows: &[List<K>], row: &[K]) -> bool
    ensures { result ≡ list_any (same_row K.ring row.now) rows.now }
{
    rows.iter().any(|other| is_same(row, other.as_slice()))
}

/// Whether the rows have the same entries, and as many.
fn is_same<K: Field>(a: &[K], b: &[K]) -> bool
    ensures { result ≡ same_row K.ring a.now b.now }
{
    if a.len() != b.len() {
        return false;
    }
    for k in 0..a.len() {
        if !a[k].minus(b[k]).is_nil() {
            return false;
        }
    }
    true
}
