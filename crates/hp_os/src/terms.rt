//! Lists of terms by the sums of the members of their sets, and the terms that straighten one.

ghost use Rattle.std.specs.Prelude.{◌≡◌, ◌<◌, ◌≤◌, ◌++◌, IfOk, All};
ghost use Rattle.hp_exterior.specs.Exterior.{sign};
ghost use Rattle.hp_exterior.specs.SetSums.{below_in};
ghost use Rattle.hp_os.specs.Straightening.{lower_terms, member_sum, straight_terms, upper_terms};
ghost use Rattle.hp_sums.proofs.WeightedSums.{scaled};

use hp_algebra::{Field, NoMem};
use hp_sets::HSet;

/// The sum of the members.
pub(crate) fn member_sum(s: HSet) -> u32
    ensures value { result ≡ member_sum s }
    ensures high { result ≤ 4096 }
{
    let _members = s.is_empty();
    let mut total = 0;
    let mut rest = s;
    while let Some(i) = rest.least() {
        total += i;
        rest = rest.without(i);
    }
    total
}

/// A number above the sums of members of all terms.
pub(crate) fn bound_of<K: Field>(terms: &[(HSet, K)]) -> u32
    ensures { All (λ t. member_sum t.0 < result) terms.now }
{
    let mut bound = 0;
    for t in terms {
        bound = above(bound, member_sum(t.0));
    }
    bound
}

/// A number above the sum, and no smaller than the bound.
fn above(bound: u32, sum: u32) -> u32
    requires bound { bound ≤ 4097 }
    requires sum { sum ≤ 4096 }
    ensures bound { bound ≤ result }
    ensures sum { sum < result }
    ensures high { result ≤ 4097 }
{
    if bound <= sum { sum + 1 } else { bound }
}

/// Puts the terms whose sum of members is below the level into one list, and the others into another.
pub(crate) fn split<K: Field>(
    terms: &[(HSet, K)],
    level: u32,
    upper: &mut Vec<(HSet, K)>,
    lower: &mut Vec<(HSet, K)>,
) -> Result<(), NoMem>
    ensures upper { IfOk result (λ _. upper.new.items ≡ upper.old.items ++ upper_terms level terms.now) }
    ensures lower { IfOk result (λ _. lower.new.items ≡ lower.old.items ++ lower_terms level terms.now) }
{
    let mut rest = terms;
    while let Some((t, more)) = rest.split_first() {
        if member_sum(t.0) < level {
            lower.push(*t)?;
        } else {
            upper.push(*t)?;
        }
        rest = more;
    }
    Ok(())
}

/// How many members are below i.
pub(crate) fn count_below(s: HSet, i: u32) -> u32
    requires low { 1 ≤ i }
    requires high { i ≤ 64 }
    ensures value { result ≡ below_in s i }
    ensures high { result ≤ 64 }
{
    let _members = s.is_empty();
    s.meet(HSet::first(i - 1)).len()
}

/// c times (-1)^n.
#[tactic(auto, using(crate::proofs::StraightSteps::signed_even, crate::proofs::StraightSteps::signed_odd))]
pub(crate) fn signed<K: Field>(c: K, n: u32) -> K
    ensures { result ≡ K.ring.mul c (sign K.ring n) }
{
    let _zero = c.is_nil();
    if n % 2 == 0 { c } else { c.negate() }
}

/// Writes the terms that straighten c e_S: those in which i stands for a member of the part, with their signs.
pub(crate) fn append_straight<K: Field>(
    out: &mut Vec<(HSet, K)>,
    s: HSet,
    c: K,
    i: u32,
    part: HSet,
) -> Result<(), NoMem>
    requires low { 1 ≤ i }
    requires high { i ≤ 64 }
    ensures { IfOk result (λ _. out.new.items ≡ out.old.items ++ scaled K.ring c (straight_terms K.ring s i part)) }
{
    let _members = part.is_empty();
    let mut rest = part;
    while let Some(b) = rest.least() {
        let moves = count_below(s, b) + count_below(s, i);
        out.push((s.without(b).with(i), signed(c, moves)))?;
        rest = rest.without(b);
    }
    Ok(())
}
