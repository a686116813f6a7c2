//! Operations on one row.

ghost use Rattle.std.specs.Prelude.{◌≡◌, ◌≢◌, ◌↔◌, ℕ, ◌<◌, IfSome, IsNone, All, length};
ghost use Rattle.hp_algebra.specs.Rows.{row_plus, row_scale, zero_row, entry};

use hp_algebra::Field;

/// Adds c times the other row.
pub fn add_multiple<F: Field>(row: &mut [F], c: F, other: &[F])
    requires { length row.old ≡ length other.now }
    ensures { row.new ≡ row_plus F.ring row.old (row_scale F.ring c other.now) }
{
    for k in 0..row.len() {
        row[k] = row[k].plus(c.times(other[k]));
    }
}

/// The place of the first entry that is not zero, counted from 0.
pub fn leading<F: Field>(row: &[F]) -> Option<usize>
    ensures none { IsNone result ↔ (row.now ≡ zero_row F.ring (length row.now)) }
    ensures within { IfSome result (λ j. j < length row.now) }
    ensures nonzero { IfSome result (λ j. entry F.ring row.now j ≢ F.ring.zero) }
    ensures first { IfSome result (λ j. (k : ℕ) → k < j → entry F.ring row.now k ≡ F.ring.zero) }
{
    for (j, x) in row.iter().enumerate() {
        if !x.is_nil() {
            return Some(j);
        }
    }
    None
}

/// Looks at each entry, so that all are known to be values.
pub fn look_at<F: Field>(row: &[F])
    ensures { All F.ring.IsValue row.now }
{
    for x in row {
        let _zero = x.is_nil();
    }
}
