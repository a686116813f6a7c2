//! A set of numbers from 1 to 64 in one word.

ghost use Rattle.std.specs.Prelude.{◌≡◌, ◌↔◌, ◌-◌, ◌≤◌, IsTrue, IsNone, IfSome, [], ◌∷◌, length, drop, slice_get, nat_eq, refl};
ghost use Rattle.std.specs.Ordering.{nat_cmp, as_partial_cmp};
ghost use Rattle.std.specs.Cmp.{partial_equiv_from_equiv};
ghost use Rattle.std.specs.Cmp.Lexicographic.{slice_cmp, pointwise, nat_list_eq_equiv};
ghost use Rattle.hp_lists.specs.Lists.{one_to};
ghost use Rattle.hp_sets.specs.ListedOrder.{cmp_listed_total, cmp_listed_partial, equal-cmp_listed};
ghost use Rattle.hp_sets.specs.Sets.{IsSetWithin, contains, union, meet, minus, with_member, without_member, is_within, cmp_listed, IsLeast, IsGreatest, HasSmaller};

use std::cmp::Ordering;
use std::marker::Model;

/// A finite set of the numbers from 1 to 64, seen as the list of its members in rising order.
#[derive(Clone, Copy, Debug)]
pub struct HSet {
    bits: u64,
}

impl Model for HSet {
    ghost use Rattle.std.specs.Prelude.{◌<◌, ◌^◌};
    ghost use Rattle.hp_sets.specs.Sets.{Set};
    ghost use Rattle.hp_sets.specs.Bits.{members, bits_of};
    ghost use Rattle.hp_sets.specs.BitLaws.{bits_of-members};

    ghost Value = { Set };

    ghost view = { λ s. members s.bits };

    ghost invariant = { λ s. s.bits < 2 ^ 64 };

    ghost inverse = { λ m. record { bits = bits_of m } };

    ghost inverse_ok = { λ a h i. record { bits = bits_of-members a.bits h i } };
}

impl PartialEq for HSet {
    ghost eq = { pointwise nat_eq };

    ghost laws = { partial_equiv_from_equiv nat_list_eq_equiv };

    fn eq(&self, other: &HSet) -> bool
        ensures value { result ≡ pointwise nat_eq self.now other.now }
        ensures same { IsTrue result ↔ (self.now ≡ other.now) }
    {
        self.bits == other.bits
    }
}

impl Eq for HSet {
    ghost laws = { nat_list_eq_equiv };
}

/// The order in which sets are listed.
impl Ord for HSet {
    ghost cmp = { cmp_listed };

    ghost total = { cmp_listed_total };

    ghost matches_partial_cmp = { λ s t. refl };

    ghost matches_eq = { equal-cmp_listed };

    fn cmp(&self, other: &HSet) -> Ordering {
        self.cmp_listed(*other)
    }
}

impl PartialOrd for HSet {
    ghost partial_cmp = { as_partial_cmp cmp_listed };

    ghost laws = { cmp_listed_partial };

    fn partial_cmp(&self, other: &HSet) -> Option<Ordering> {
        Some(self.cmp(other))
    }
}

#[tactic(auto, using(crate::proofs::Words::words))]
impl HSet {
    /// The set without members.
    pub fn empty() -> HSet
        ensures value { result ≡ [] }
        ensures set { IsSetWithin 64 result }
    {
        HSet { bits: 0 }
    }

    /// The set whose one member is i.
    pub fn single(i: u32) -> HSet
        requires low { 1 ≤ i }
        requires high { i ≤ 64 }
        ensures value { result ≡ i ∷ [] }
        ensures set { IsSetWithin 64 result }
    {
        HSet { bits: 1 << (i - 1) }
    }

    /// The numbers 1 to n.
    pub fn first(n: u32) -> HSet
        requires { n ≤ 64 }
        ensures value { result ≡ one_to n }
        ensures set { IsSetWithin 64 result }
    {
        if n == 0 {
            return HSet::empty();
        }
        HSet {
            bits: u64::MAX >> (64 - n),
        }
    }

    /// Whether i is a member.
    pub fn contains(self, i: u32) -> bool
        ensures value { result ≡ contains self i }
        ensures set { IsSetWithin 64 self }
    {
        let bits = self.bits;
        match i {
            1..=64 => (bits >> (i - 1)) & 1 == 1,
            _ => false,
        }
    }

    /// The set with i.
    pub fn with(self, i: u32) -> HSet
        requires low { 1 ≤ i }
        requires high { i ≤ 64 }
        ensures value { result ≡ with_member self i }
        ensures set { IsSetWithin 64 result }
    {
        self.union(HSet::single(i))
    }

    /// The set without i.
    pub fn without(self, i: u32) -> HSet
        ensures value { result ≡ without_member self i }
        ensures set { IsSetWithin 64 result }
    {
        if self.contains(i) {
            self.minus(HSet::single(i))
        } else {
            self
        }
    }

    /// The members of either.
    pub fn union(self, other: HSet) -> HSet
        ensures value { result ≡ union self other }
        ensures set { IsSetWithin 64 result }
    {
        HSet {
            bits: self.bits | other.bits,
        }
    }

    /// The members of both.
    pub fn meet(self, other: HSet) -> HSet
        ensures value { result ≡ meet self other }
        ensures set { IsSetWithin 64 result }
    {
        HSet {
            bits: self.bits & other.bits,
        }
    }

    /// The members that are not in the other.
    pub fn minus(self, other: HSet) -> HSet
        ensures value { result ≡ minus self other }
        ensures set { IsSetWithin 64 result }
    {
        HSet {
            bits: self.bits & !other.bits,
        }
    }

    /// Whether each member is in the other.
    pub fn is_within(self, other: HSet) -> bool
        ensures value { result ≡ is_within self other }
        ensures set { IsSetWithin 64 self }
        ensures other_set { IsSetWithin 64 other }
    {
        self.bits & !other.bits == 0
    }

    /// How many members the set has.
    pub fn len(self) -> u32
        ensures value { result ≡ length self }
        ensures set { IsSetWithin 64 self }
    {
        self.bits.count_ones()
    }

    /// Whether the set has no member.
    pub fn is_empty(self) -> bool
        ensures value { IsTrue result ↔ (self ≡ []) }
        ensures set { IsSetWithin 64 self }
    {
        self.bits == 0
    }

    /// The least member.
    pub fn least(self) -> Option<u32>
        ensures value { result ≡ slice_get self 0 }
        ensures none { IsNone result ↔ (self ≡ []) }
        ensures least { IfSome result (IsLeast self) }
        ensures set { IsSetWithin 64 self }
    {
        if self.bits == 0 {
            return None;
        }
        Some(self.bits.trailing_zeros() + 1)
    }

    /// The greatest member.
    pub fn greatest(self) -> Option<u32>
        ensures value { result ≡ slice_get self (length self - 1) }
        ensures none { IsNone result ↔ (self ≡ []) }
        ensures greatest { IfSome result (IsGreatest self) }
        ensures set { IsSetWithin 64 self }
    {
        if self.bits == 0 {
            return None;
        }
        Some(64 - self.bits.leading_zeros())
    }

    /// The member with exactly k smaller members.
    pub fn nth(self, k: u32) -> Option<u32>
        ensures value { result ≡ slice_get self k }
        ensures none { IsNone result ↔ (length self ≤ k) }
        ensures place { IfSome result (HasSmaller k self) }
        ensures set { IsSetWithin 64 self }
    {
        let mut rest = self;
        for _ in 0..k.min(self.len()) {
            rest = rest.without_least();
        }
        rest.least()
    }

    // The members but the least.
    fn without_least(self) -> HSet
        ensures { result ≡ drop 1 self }
    {
        match self.least() {
            Some(i) => self.without(i),
            None => self,
        }
    }

    /// The order in which sets are listed: the smaller size first, and sets of one size in lexicographic order of
    /// their members in rising order.
    pub fn cmp_listed(self, other: HSet) -> Ordering
        ensures value { result ≡ cmp_listed self other }
        ensures set { IsSetWithin 64 self }
        ensures other_set { IsSetWithin 64 other }
    {
        let by_size = self.len().cmp(&other.len());
        if by_size.is_eq() {
            self.cmp_members(other)
        } else {
            by_size
        }
    }

    // Of two sets of one size, the one with the least number that is in one of them alone comes first.
    fn cmp_members(self, other: HSet) -> Ordering
        requires size { length self ≡ length other }
        requires set { IsSetWithin 64 self }
        requires other_set { IsSetWithin 64 other }
        ensures { result ≡ slice_cmp nat_cmp self other }
    {
        let mine = self.minus(other);
        match mine.union(other.minus(self)).least() {
            None => Ordering::Equal,
            Some(i) if mine.contains(i) => Ordering::Less,
            Some(_) => Ordering::Greater,
        }
    }
}
