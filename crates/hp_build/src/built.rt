//! The arrangement of forms of which none is zero and no two are proportional.

ghost use Rattle.std.specs.Prelude.{◌≡◌, ◌<◌, ◌^◌, IfOk, IfErr, OnOk, None, length};
ghost use Rattle.hp_arr.specs.Arrangement.{IsArrangement};
ghost use Rattle.hp_arr.specs.FormFaults.{form_fault, too_many_fault};
ghost use Rattle.hp_build.specs.Faults.{IsBuildFault};

use crate::fault::BuildFault;
use hp_algebra::{FiniteField, List};
use hp_arr::{Arr, MAX_FORMS};

/// The arrangement of these forms, which are lawful unless they are too many. Takes no memory.
pub fn built<K: FiniteField>(l: u32, forms: Vec<List<K>>) -> Result<Arr<K>, BuildFault>
    requires count { length forms.items < 2 ^ 32 }
    requires lawful { too_many_fault K.numbers forms.items ≡ None → IsArrangement K.ring K.numbers (record { dim = l; forms = forms.items }) }
    ensures value { IfOk result (λ a. a ≡ record { dim = l; forms = forms.items }) }
    ensures lawful { IfOk result (IsArrangement K.ring K.numbers) }
    ensures faultless { OnOk result (form_fault K.ring K.numbers forms.items ≡ None) }
    ensures fault { IfErr result (IsBuildFault K.numbers (record { dim = l; forms = forms.items })) }
{
    let count = forms.len() as u32;
    if count > MAX_FORMS || count >= K::ORDER {
        return Err(BuildFault::TooMany(count));
    }
    Ok(Arr::of_lawful(l, forms))
}
