//! The ranks of the members of a level.

ghost use Rattle.std.specs.Prelude.{◌≡◌, ◌<◌, ◌≤◌, ℕ, IfOk, length, reverse};
ghost use Rattle.std.specs.Ordering.{nat_cmp};
ghost use Rattle.std.specs.Cmp.Lexicographic.{slice_cmp};
ghost use Rattle.hp_mono.specs.TermOrders.{IsTermWithin};
ghost use Rattle.hp_syzygy.specs.FrameLevels.{AreRanks, exponent_at, level_lead, level_width};
ghost use Rattle.hp_syzygy.specs.MemberRanks.{AreSortedKeys, key_order};

use crate::level::Level;
use crate::order::{compare_by_last, exponent_sums};
use hp_algebra::{Field, NoMem};
use hp_mono::Mono;
use std::alloc::Global;
use std::cmp::Ordering;

/// Ranks of the members, the numbers below their count: by the ranks of the components in which their leads lie, then by
/// the exponents of the leads, the last variable first, then by their places.
///
/// Errors: `NoMem` where memory is out.
pub(crate) fn ranks_of<F: Field>(alloc: Global, level: &Level<F>) -> Result<Vec<usize>, NoMem>
    requires within { (i : ℕ) → i < length level.now.leads → IsTermWithin (level_width level.now) (level_lead level.now i) }
    requires left { (i p : ℕ) → i < length level.now.leads → level.now.left ≤ p → exponent_at (level_lead level.now i) p ≡ 0 }
    ensures { IfOk result (λ r. AreRanks level.now r.items) }
{
    let keys = sorted_keys(alloc, level)?;
    let mut ranks = vec![in alloc; 0; level.leads.len()]?;
    for k in 0..keys.len() {
        ranks[keys[k].2] = k;
    }
    Ok(ranks)
}

/// What the members are compared by, in order.
///
/// Errors: `NoMem` where memory is out.
fn sorted_keys<F: Field>(
    alloc: Global,
    level: &Level<F>,
) -> Result<Vec<(usize, Mono, usize)>, NoMem>
    requires { (i : ℕ) → i < length level.now.leads → IsTermWithin (level_width level.now) (level_lead level.now i) }
    ensures { IfOk result (λ r. AreSortedKeys level.now r.items) }
{
    let ranks = level.order.ranks();
    let mut keys = Vec::new(alloc);
    for i in 0..level.leads.len() {
        let lead = level.leads[i];
        keys.push((ranks[lead.comp - 1], lead.mono, i))?;
    }
    keys.sort_unstable_by(compare_keys);
    Ok(keys)
}

/// How two members compare.
fn compare_keys(s: &(usize, Mono, usize), t: &(usize, Mono, usize)) -> Ordering
    ensures { result ≡ key_order s.now t.now }
{
    s.0.cmp(&t.0)
        .then(compare_exponents(&s.1, &t.1).then(s.2.cmp(&t.2)))
}

/// How the exponents of two monomials compare, the last variable first.
fn compare_exponents(a: &Mono, b: &Mono) -> Ordering
    ensures { result ≡ slice_cmp nat_cmp (reverse a.now) (reverse b.now) }
{
    let one = Mono::one();
    let _degrees = (a.degree(), b.degree());
    let of_a = exponent_sums(&one, a);
    let of_b = exponent_sums(&one, b);
    compare_by_last(&of_a, &of_b)
}
