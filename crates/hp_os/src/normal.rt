//! Normal forms modulo the Orlik-Solomon ideal.

ghost use Rattle.std.specs.Prelude.{◌≡◌, ◌↔◌, IfOk, IsTrue};
ghost use Rattle.hp_exterior.specs.Exterior.{Ext as ExtOf};
ghost use Rattle.hp_os.specs.OrlikSolomon.{IsCongruent, IsElement, IsNormalForm};

use crate::terms::{append_straight, bound_of, split};
use hp_algebra::{FiniteField, NoMem, Ring};
use hp_arr::Arr;
use hp_circuits::broken_part;
use hp_exterior::Ext;
use hp_sets::HSet;
use std::alloc::Global;

/// The normal form of an element: the only one that is congruent to it modulo the ideal I(A) and whose sets contain no
/// broken circuit.
///
/// Errors: `NoMem` where memory is out.
pub fn normal_form<K: FiniteField>(alloc: Global, arr: &Arr<K>, x: &Ext<K>) -> Result<Ext<K>, NoMem>
    requires { IsElement K.ring K.numbers arr.now x.now }
    ensures value { IfOk result (λ r. IsNormalForm K.ring K.numbers arr.now x.now r) }
    ensures only { IfOk result (λ r. (s : ExtOf K) → IsNormalForm K.ring K.numbers arr.now x.now s → s ≡ r) }
{
    let _lawful = arr.len();
    let mut todo: Vec<(HSet, K)> = Vec::from_slice(alloc, x.terms())?;
    let mut done = Vec::new(alloc);
    let bound = bound_of(todo.as_slice());
    for back in 0..bound {
        let level = bound - 1 - back;
        let mut upper = Vec::new(alloc);
        let mut lower = Vec::new(alloc);
        split(todo.as_slice(), level, &mut upper, &mut lower)?;
        let here = Ext::from_terms(alloc, upper)?;
        let mut rest = here.terms();
        while let Some((t, more)) = rest.split_first() {
            match broken_part(alloc, arr, t.0)? {
                None => done.push(*t)?,
                Some(broken) => {
                    if !t.0.contains(broken.0) {
                        append_straight(&mut lower, t.0, t.1, broken.0, broken.1)?;
                    }
                }
            }
            rest = more;
        }
        todo = lower;
    }
    let form = Ext::from_terms(alloc, done)?;
    Ok(form)
}

/// Whether two elements are congruent modulo the ideal I(A): whether their difference lies in it.
///
/// Errors: `NoMem` where memory is out.
pub fn congruent<K: FiniteField>(
    alloc: Global,
    arr: &Arr<K>,
    x: &Ext<K>,
    y: &Ext<K>,
) -> Result<bool, NoMem>
    requires first { IsElement K.ring K.numbers arr.now x.now }
    requires second { IsElement K.ring K.numbers arr.now y.now }
    ensures { IfOk result (λ answer. IsTrue answer ↔ IsCongruent K.ring K.numbers arr.now x.now y.now) }
{
    let _lawful = arr.len();
    let first = normal_form(alloc, arr, x)?;
    let second = normal_form(alloc, arr, y)?;
    Ok(first.equal(&second))
}
