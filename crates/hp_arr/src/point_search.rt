//! The coordinates of the least point off the hyperplanes, one at a time.
//!
//! The beginning of a point closes a form that is zero at each point that begins so. So a point is off the hyperplanes
//! where no beginning of it closes a form, and points are never searched.

ghost use Rattle.std.specs.Prelude.{◌↔◌, ◌≤◌, ◌<◌, IsTrue, All, Any, MatchBool, length, [], ◌∷◌, ◌++◌};
ghost use Rattle.hp_arr.specs.Arrangement.{max_forms};
ghost use Rattle.hp_arr.specs.PointSearch.{IsClosed, NoneClosed, HasRoom, IsNext};

use crate::rows::is_zero;
use hp_algebra::{Field, FiniteField, List, form_value};

/// The next coordinate behind the prefix: the least value that closes no form.
///
/// At most n + 1 values are tried for n forms, since each form excludes one value at most.
pub fn next_coordinate<K: FiniteField>(forms: &[List<K>], prefix: &[K]) -> K
    requires room { HasRoom K.ring prefix.now forms.now }
    requires none_closed { NoneClosed K.ring prefix.now forms.now }
    requires count { length forms.now ≤ max_forms }
    requires few { length forms.now < K.ORDER }
    ensures { IsNext K.ring K.numbers prefix.now forms.now result }
{
    for k in 0..forms.len() as u32 + 1 {
        let v = K::nth(k);
        if !closes_any(forms, prefix, v) {
            return v;
        }
    }
    unreachable!()
}

/// Whether the prefix with v behind it closes a form.
fn closes_any<K: Field>(forms: &[List<K>], prefix: &[K], v: K) -> bool
    requires { HasRoom K.ring prefix.now forms.now }
    ensures { let longer = prefix.now ++ v ∷ [] in
        MatchBool result (Any (IsClosed K.ring longer) forms.now) (NoneClosed K.ring longer forms.now) }
{
    for i in 0..forms.len() {
        if closes(forms[i].as_slice(), prefix, v) {
            return true;
        }
    }
    false
}

/// Whether the prefix with v behind it closes the form: its value there is zero, and the coefficients behind are too.
fn closes<K: Field>(form: &[K], prefix: &[K], v: K) -> bool
    requires within { length prefix.now < length form.now }
    requires values { All K.ring.IsValue form.now }
    ensures { IsTrue result ↔ IsClosed K.ring (prefix.now ++ v ∷ []) form.now }
{
    let k = prefix.len();
    is_zero(&form[k + 1..]) && form_value(form, prefix).plus(form[k].times(v)).is_nil()
}
