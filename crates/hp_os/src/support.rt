//! Whether the sets of an element are sets of hyperplanes.

ghost use Rattle.std.specs.Prelude.{◌↔◌, IsTrue};
ghost use Rattle.hp_os.specs.OrlikSolomon.{IsElement};

use hp_algebra::FiniteField;
use hp_arr::Arr;
use hp_exterior::Ext;
use hp_sets::HSet;

/// Whether each set of the element lies within 1 to n, the numbers of the hyperplanes.
pub fn is_supported<K: FiniteField>(arr: &Arr<K>, x: &Ext<K>) -> bool
    ensures { IsTrue result ↔ IsElement K.ring K.numbers arr.now x.now }
{
    let _lawful = arr.len();
    let all = HSet::first(arr.len());
    let mut rest = x.terms();
    while let Some((t, more)) = rest.split_first() {
        if !t.0.is_within(all) {
            return false;
        }
        rest = more;
    }
    true
}
