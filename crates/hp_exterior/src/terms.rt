//! Lists of terms in the order in which sets are listed.

ghost use Rattle.std.specs.Prelude.{◌≡◌, IfOk, OnOk};
ghost use Rattle.hp_sums.specs.FiniteSums.{HasValues};
ghost use Rattle.hp_exterior.specs.Exterior.{IsExt, ext_coefficient, ext_of, ext_plus};

use crate::order::AsListed;
use hp_algebra::{Field, NoMem};
use hp_sets::HSet;
use std::alloc::Global;
use std::cmp::Ordering;

/// The sum of two elements.
pub(crate) fn merged<F: Field>(
    alloc: Global,
    left: &[(HSet, F)],
    right: &[(HSet, F)],
) -> Result<Vec<(HSet, F)>, NoMem>
    requires left { IsExt F.ring left.now }
    requires right { IsExt F.ring right.now }
    ensures value { IfOk result (λ r. r.items ≡ ext_plus F.ring left.now right.now) }
    ensures answer { IfOk result (λ r. IsExt F.ring r.items) }
{
    let sum = hp_sums::merged(alloc, &AsListed, left, right)?;
    Ok(sum)
}

/// The sum of any terms: equal sets are added, and zeros left out.
pub(crate) fn collected<F: Field>(
    alloc: Global,
    terms: &[(HSet, F)],
) -> Result<Vec<(HSet, F)>, NoMem>
    ensures values { OnOk result (HasValues F.ring terms.now) }
    ensures value { IfOk result (λ r. r.items ≡ ext_of F.ring terms.now) }
    ensures answer { IfOk result (λ r. IsExt F.ring r.items) }
{
    let sum = hp_sums::collected_terms(alloc, &AsListed, terms)?;
    Ok(sum)
}

/// The coefficient of a set in an element.
pub(crate) fn coefficient<F: Field>(terms: &[(HSet, F)], s: HSet) -> F
    requires { IsExt F.ring terms.now }
    ensures { result ≡ ext_coefficient F.ring terms.now s }
{
    let mut rest = terms;
    while let Some((t, more)) = rest.split_first() {
        match s.cmp_listed(t.0) {
            Ordering::Greater => rest = more,
            Ordering::Equal => return t.1,
            Ordering::Less => return F::nil(),
        }
    }
    F::nil()
}
