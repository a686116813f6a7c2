//! Normal forms over three lines in a plane, worked by hand: e_2 e_3 is e_1 e_3 less e_1 e_2.

ghost use Rattle.std.specs.Prelude.{IfOk};
ghost use Rattle.hp_os.specs.OrlikSolomon.{IsElement};

use crate::samples::three_lines;
use hp_algebra::{FiniteField, NoMem};
use hp_arr::Arr;
use hp_exterior::Ext;
use hp_modp::{Gf, P31};
use hp_os::{congruent, is_supported, normal_form};
use hp_sets::HSet;
use std::alloc::Global;
use std::test::Fail;

type K = Gf<P31>;

/// The sum of these terms, each a coefficient with a set.
fn element(alloc: Global, terms: &[(i64, HSet)]) -> Result<Ext<K>, NoMem> {
    let mut list = Vec::new(alloc);
    for (c, s) in terms {
        list.push((*s, K::from_i64(*c)))?;
    }
    Ext::from_terms(alloc, list)
}

/// The element, whose sets are sets of hyperplanes.
fn supported<F: FiniteField>(arr: &Arr<F>, x: Ext<F>) -> Result<Ext<F>, Fail>
    ensures { IfOk result (IsElement F.ring F.numbers arr.now) }
{
    if is_supported(arr, &x) {
        return Ok(x);
    }
    Err("a number is that of no hyperplane".into())
}

#[test]
fn normal_forms(rt: HostRuntime) -> Result<(), Fail> {
    let alloc = rt.alloc();
    let arr = three_lines(&rt, alloc)?;
    let upper = HSet::single(2).with(3);
    let outer = HSet::single(1).with(3);
    let lower = HSet::single(1).with(2);
    let x = element(alloc, &[(1, upper), (5, HSet::first(3))])?;
    let x = supported(&arr, x)?;
    let form = normal_form(alloc, &arr, &x)?;
    assert_eq!(rt; form.len(), 2);
    assert_eq!(rt; form.coeff(lower).residue(), 30);
    assert_eq!(rt; form.coeff(outer).residue(), 1);
    Ok(())
}

/// e_2 e_3 is congruent to e_1 e_3 - e_1 e_2, and not to e_1 e_3 + e_1 e_2.
#[test]
fn congruence(rt: HostRuntime) -> Result<(), Fail> {
    let alloc = rt.alloc();
    let arr = three_lines(&rt, alloc)?;
    let outer = HSet::single(1).with(3);
    let lower = HSet::single(1).with(2);
    let upper = supported(&arr, element(alloc, &[(1, HSet::single(2).with(3))])?)?;
    for (sign, answer) in [(30, true), (1, false)] {
        let other = supported(&arr, element(alloc, &[(1, outer), (sign, lower)])?)?;
        assert_eq!(rt; congruent(alloc, &arr, &upper, &other)?, answer);
    }
    Ok(())
}
