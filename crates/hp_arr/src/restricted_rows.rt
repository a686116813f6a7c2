//! The rows of a restriction, as they are put together.

ghost use Rattle.std.specs.Prelude.{◌≡◌, ◌≤◌, ◌++◌, [], ◌∷◌, if◌then◌else◌, IfOk, All, length, take};
ghost use Rattle.hp_lists.specs.Lists.{list_any};
ghost use Rattle.hp_algebra.specs.Rows.{is_zero_row, same_row};
ghost use Rattle.hp_arr.specs.Operations.{normalised};

use crate::normal::normalised;
use crate::restriction::push_if_new;
use crate::rows::is_zero;
use hp_algebra::{Field, List, NoMem};

/// Puts the row behind the rows, divided by its first entry that is not zero, unless its first `count` entries are all
/// zero or it is then one of the rows.
pub fn push_if_meets<K: Field>(
    rows: &mut Vec<List<K>>,
    row: Vec<K>,
    count: usize,
) -> Result<(), NoMem>
    requires values { All K.ring.IsValue row.items }
    requires width { count ≤ length row.items }
    ensures { let old = rows.old.items in let divided = normalised K.ring K.inverse row.items in
        IfOk result (λ _. rows.new.items ≡ (if is_zero_row K.ring (take count row.items) then old else
        if list_any (same_row K.ring divided) old then old else old ++ divided ∷ [])) }
{
    if !is_zero(&row[..count]) {
        push_if_new(rows, normalised(row))?;
    }
    Ok(())
}
