//! The rows of forms with one or two terms.

ghost use Rattle.std.specs.Prelude.{◌≡◌, ◌==◌, if◌then◌else◌, ◌∷◌, [], map, flat_map, IfOk};
ghost use Rattle.hp_lists.specs.Lists.{one_to};
ghost use Rattle.hp_algebra.specs.Rows.{unit_row};
ghost use Rattle.hp_build.specs.Families.{pairs, two_terms, difference, sum_form, type_b, type_d};

use crate::pairs::pairs;
use hp_algebra::{Field, List, NoMem, unit_row};
use std::alloc::Global;

/// The coefficient of x_k in x_i + c x_j.
fn term<K: Field>(k: u64, i: u64, j: u64, c: K) -> K
    ensures { result ≡ if k == i then K.ring.one else if k == j then c else K.ring.zero }
{
    if k == i {
        K::unit()
    } else if k == j {
        c
    } else {
        K::nil()
    }
}

/// x_i + c x_j in `l` variables, and x_i where j is i.
fn two_terms<K: Field>(alloc: Global, l: u32, i: u64, j: u64, c: K) -> Result<List<K>, NoMem>
    ensures { IfOk result (λ form. form ≡ two_terms K.ring l i j c) }
{
    Ok(List::of(terms(alloc, l, i, j, c)?))
}

/// Its coefficients.
fn terms<K: Field>(alloc: Global, l: u32, i: u64, j: u64, c: K) -> Result<Vec<K>, NoMem>
    ensures { IfOk result (λ row. row.items ≡ two_terms K.ring l i j c) }
{
    Ok((1..l as u64 + 1).map(|k| term(k, i, j, c)).collect(alloc)?)
}

/// x_i - x_j in `l` variables.
fn difference<K: Field>(alloc: Global, l: u32, i: u64, j: u64) -> Result<List<K>, NoMem>
    ensures { IfOk result (λ form. form ≡ difference K.ring l i j) }
{
    two_terms(alloc, l, i, j, K::unit().negate())
}

/// x_i + x_j in `l` variables.
fn sum_form<K: Field>(alloc: Global, l: u32, i: u64, j: u64) -> Result<List<K>, NoMem>
    ensures { IfOk result (λ form. form ≡ sum_form K.ring l i j) }
{
    two_terms(alloc, l, i, j, K::unit())
}

/// x_1 to x_l.
pub fn coordinates<K: Field>(alloc: Global, l: u32) -> Result<Vec<List<K>>, NoMem>
    ensures { IfOk result (λ forms. forms.items ≡ map (unit_row K.ring l) (one_to l)) }
{
    let mut forms = Vec::new(alloc);
    for i in 1..l as usize + 1 {
        forms.push(List::of(unit_row(alloc, l as usize, i)?))?;
    }
    Ok(forms)
}

/// x_i - x_j for each pair (i, j) of the list.
pub fn differences<K: Field>(
    alloc: Global,
    l: u32,
    pairs: &[(u64, u64)],
) -> Result<Vec<List<K>>, NoMem>
    ensures { IfOk result (λ forms. forms.items ≡ map (λ e. difference K.ring l e.0 e.1) pairs.now) }
{
    let mut forms = Vec::new(alloc);
    for (i, j) in pairs {
        forms.push(difference(alloc, l, *i, *j)?)?;
    }
    Ok(forms)
}

/// x_i - x_j and x_i + x_j for each pair (i, j) of the list.
fn differences_and_sums<K: Field>(
    alloc: Global,
    l: u32,
    pairs: &[(u64, u64)],
) -> Result<Vec<List<K>>, NoMem>
    ensures { IfOk result (λ forms. forms.items ≡ flat_map (λ e. difference K.ring l e.0 e.1 ∷ sum_form K.ring l e.0 e.1 ∷ []) pairs.now) }
{
    let mut forms = Vec::new(alloc);
    for (i, j) in pairs {
        forms.push(difference(alloc, l, *i, *j)?)?;
        forms.push(sum_form(alloc, l, *i, *j)?)?;
    }
    Ok(forms)
}

/// x_i - x_j for the pairs i < j of 1 to `l`.
pub fn braid_forms<K: Field>(alloc: Global, l: u32) -> Result<Vec<List<K>>, NoMem>
    ensures { IfOk result (λ forms. forms.items ≡ map (λ e. difference K.ring l e.0 e.1) (pairs l)) }
{
    let ends = pairs(alloc, l)?;
    differences(alloc, l, &ends)
}

/// x_i - x_j and x_i + x_j for the pairs i < j of 1 to `l`.
pub fn pair_forms<K: Field>(alloc: Global, l: u32) -> Result<Vec<List<K>>, NoMem>
    ensures { IfOk result (λ forms. forms.items ≡ (type_d K.ring l).forms) }
{
    let ends = pairs(alloc, l)?;
    differences_and_sums(alloc, l, &ends)
}

/// x_1 to x_l, and then the forms of the pairs.
pub fn coordinates_and_pairs<K: Field>(alloc: Global, l: u32) -> Result<Vec<List<K>>, NoMem>
    ensures { IfOk result (λ forms. forms.items ≡ (type_b K.ring l).forms) }
{
    let mut forms = coordinates(alloc, l)?;
    forms.append(&mut pair_forms(alloc, l)?)?;
    Ok(forms)
}
