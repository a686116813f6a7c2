//! The order of the sets of an element.

ghost use Rattle.hp_sets.specs.Sets.{IsSetWithin, cmp_listed};
ghost use Rattle.hp_exterior.specs.ExteriorSetting.{cmp_listed_basis};

use hp_sets::HSet;
use hp_sums::Basis;
use std::cmp::Ordering;

/// Sets in the order in which they are listed.
#[derive(Clone, Copy)]
pub(crate) struct AsListed;

impl Basis<HSet> for AsListed {
    ghost IsValue = { λ _. Unit {0} };

    ghost IsKey = { IsSetWithin 64 };

    ghost order = { λ _. cmp_listed };

    fn key(&self, k: &HSet) {
        let _members = k.len();
    }

    fn cmp(&self, a: &HSet, b: &HSet) -> Ordering {
        a.cmp_listed(*b)
    }

    fn same(&self, a: &HSet, b: &HSet) -> bool {
        a == b
    }

    ghost ordered = { λ b v. cmp_listed_basis };
}
