//! The search for circuits by remainders and coefficients.

ghost use Rattle.std.specs.Prelude.{◌≡◌, ◌⊎◌, ℕ, ◌<◌, ◌≤◌, ◌++◌, [], ◌∷◌, IfOk, IfErr, OnOk, IsFalse, All, Contains, drop, filter, length};
ghost use Rattle.hp_algebra.specs.Rows.{entry};
ghost use Rattle.hp_lists.specs.Lists.{one_to};
ghost use Rattle.hp_arr.specs.Arrangement.{form};
ghost use Rattle.hp_circuits.specs.Bounds.{most_circuits};
ghost use Rattle.hp_circuits.specs.CircuitSteps.{all_later, closed, is_dead, is_dead_at, is_full, is_open, moved, moved_all, searched};
ghost use Rattle.hp_circuits.specs.Laters.{AreLater};

use crate::rows::{first_entry, is_zero, less_multiple};
use crate::stop::{CircuitStop, MOST_CIRCUITS};
use hp_algebra::{Field, FiniteField, List, NoMem};
use hp_arr::Arr;
use hp_sets::HSet;
use std::alloc::Global;

/// A form with a number greater than those of an independent set: its remainder modulo the span of the set, and the
/// coefficients of the members in the difference.
#[derive(Drop)]
pub struct Later<K> {
    pub name: u32,
    pub rest: List<K>,
    pub coefficients: List<K>,
}

/// All forms, each as its own remainder modulo nothing.
///
/// Errors: `NoMem` where memory is out.
pub fn all_forms<K: FiniteField>(alloc: Global, arr: &Arr<K>) -> Result<Vec<Later<K>>, NoMem>
    ensures { IfOk result (λ later. later.items ≡ all_later arr.now (one_to (length arr.now.forms))) }
{
    let mut later = Vec::new(alloc);
    for k in 0..arr.len() {
        later.push(own_remainder(alloc, arr, k + 1)?)?;
    }
    Ok(later)
}

/// The form as its own remainder modulo nothing.
fn own_remainder<K: FiniteField>(alloc: Global, arr: &Arr<K>, name: u32) -> Result<Later<K>, NoMem>
    requires low { 1 ≤ name }
    requires high { name ≤ length arr.now.forms }
    ensures { IfOk result (λ d. d ≡ record { name = name; rest = form arr.now name; coefficients = [] }) }
{
    Ok(Later {
        name,
        rest: List::of(arr.form(name).iter().copied().collect(alloc)?),
        coefficients: List::of(Vec::new(alloc)),
    })
}

/// The set with a greater number.
fn joined(set: HSet, name: u32) -> HSet
    requires low { 1 ≤ name }
    requires high { name ≤ 64 }
    requires above { (k : ℕ) → Contains set k → k < name }
    ensures { result ≡ set ++ name ∷ [] }
{
    let _members = set.len();
    set.with(name)
}

/// Whether no coefficient is zero.
fn is_full<K: Field>(coefficients: &[K]) -> bool
    ensures { result ≡ is_full K.ring coefficients.now }
{
    coefficients.iter().all(|c| !c.is_nil())
}

/// Whether the coefficient at place `k` is zero.
fn is_zero_at<K: Field>(d: &Later<K>, k: usize) -> bool
    requires { k < length d.now.coefficients }
    ensures { result ≡ K.ring.is_zero (entry K.ring d.now.coefficients k) }
{
    d.coefficients.as_slice()[k].is_nil()
}

/// Whether the coefficient at place `k` is zero for all these forms.
fn is_dead_at<K: Field>(later: &[Later<K>], k: usize) -> bool
    requires { All (λ d. k < length d.coefficients) later.now }
    ensures { result ≡ is_dead_at K.ring later.now k }
{
    later.iter().all(|d| is_zero_at(d, k))
}

/// Whether the coefficient of some member of the set is zero for all these forms.
fn is_dead<K: Field>(set: HSet, later: &[Later<K>]) -> bool
    requires { All (λ d. length d.coefficients ≡ length set) later.now }
    ensures { result ≡ is_dead K.ring set later.now }
{
    (0..set.len()).any(|k| is_dead_at(later, k as usize))
}

/// The form w modulo one form more, d, whose remainder is not zero at the place. `inverse` is that of the entry there.
///
/// Errors: `NoMem` where memory is out.
fn moved<K: Field>(
    alloc: Global,
    place: usize,
    inverse: K,
    d: &Later<K>,
    w: &Later<K>,
) -> Result<Later<K>, NoMem>
    requires within { place < length w.now.rest }
    requires inverse { inverse ≡ K.inverse (entry K.ring d.now.rest place) }
    requires widths { length d.now.rest ≡ length w.now.rest }
    requires counts { length d.now.coefficients ≡ length w.now.coefficients }
    ensures { IfOk result (λ m. m ≡ moved K.ring K.inverse place d.now w.now) }
{
    let share = w.rest.as_slice()[place].times(inverse);
    let rest = less_multiple(alloc, share, d.rest.as_slice(), w.rest.as_slice())?;
    let mut coefficients = less_multiple(
        alloc,
        share,
        d.coefficients.as_slice(),
        w.coefficients.as_slice(),
    )?
    .into_vec();
    coefficients.push(share)?;
    Ok(Later {
        name: w.name,
        rest,
        coefficients: List::of(coefficients),
    })
}

/// Keeps the form where its remainder is not zero. Else it closes a circuit with the set where no coefficient is zero, and
/// this is found.
///
/// Errors: `TooMany` where that makes more than `MOST_CIRCUITS`; `Memory` where memory is out.
fn take_in<K: Field>(
    set: HSet,
    form: Later<K>,
    next: &mut Vec<Later<K>>,
    found: &mut Vec<HSet>,
) -> Result<(), CircuitStop>
    requires low { 1 ≤ form.name }
    requires high { form.name ≤ 64 }
    requires above { (k : ℕ) → Contains set k → k < form.name }
    requires few { length found.old.items ≤ most_circuits }
    ensures open { OnOk result (next.new.items ≡ next.old.items ++ filter (is_open K.ring) (form ∷ [])) }
    ensures found { OnOk result (found.new.items ≡ found.old.items ++ closed K.ring set (form ∷ [])) }
    ensures few { OnOk result (length found.new.items ≤ most_circuits) }
    ensures stop { IfErr result (λ e. (e ≡ CircuitStop.Memory) ⊎ (most_circuits < length (found.old.items ++ closed K.ring set (form ∷ [])))) }
{
    if !is_zero(form.rest.as_slice()) {
        next.push(form)?;
        return Ok(());
    }
    if !is_full(form.coefficients.as_slice()) {
        return Ok(());
    }
    if found.len() >= MOST_CIRCUITS {
        return Err(CircuitStop::TooMany);
    }
    found.push(joined(set, form.name))?;
    Ok(())
}

/// The later forms modulo the form d as well, without those whose remainder becomes zero. Of these, the ones that close a
/// circuit with the set and d are found.
///
/// Errors: `TooMany` where that makes more than `MOST_CIRCUITS`; `Memory` where memory is out.
fn children<K: FiniteField>(
    alloc: Global,
    set: HSet,
    d: &Later<K>,
    later: &[Later<K>],
    found: &mut Vec<HSet>,
) -> Result<Vec<Later<K>>, CircuitStop>
    requires later { AreLater K.ring set (d.now ∷ later.now) }
    requires few { length found.old.items ≤ most_circuits }
    ensures open { IfOk result (λ next. next.items ≡ filter (is_open K.ring) (moved_all K.ring K.inverse d.now later.now)) }
    ensures found { OnOk result (found.new.items ≡ found.old.items ++ closed K.ring (set ++ d.now.name ∷ []) (moved_all K.ring K.inverse d.now later.now)) }
    ensures few { OnOk result (length found.new.items ≤ most_circuits) }
    ensures stop { IfErr result (λ e. (e ≡ CircuitStop.Memory) ⊎ (most_circuits < length (found.old.items ++ closed K.ring (set ++ d.now.name ∷ []) (moved_all K.ring K.inverse d.now later.now)))) }
{
    let both = joined(set, d.name);
    let (place, inverse) = first_entry(d.rest.as_slice());
    let mut next = Vec::new(alloc);
    for w in later {
        let form = moved(alloc, place, inverse, d, w)?;
        take_in(both, form, &mut next, found)?;
    }
    Ok(next)
}

/// The forms from place `k` on.
fn from<K>(later: &[Later<K>], k: usize) -> &[Later<K>]
    requires { k ≤ length later.now }
    ensures { result.now ≡ drop k later.now }
{
    &later[k..]
}

/// Finds the circuits that have the set and otherwise only later forms.
///
/// Errors: `TooMany` where that makes more than `MOST_CIRCUITS`; `Memory` where memory is out.
pub fn extend<K: FiniteField>(
    alloc: Global,
    set: HSet,
    later: &[Later<K>],
    found: &mut Vec<HSet>,
) -> Result<(), CircuitStop>
    requires later { AreLater K.ring set later.now }
    requires few { length found.old.items ≤ most_circuits }
    ensures found { OnOk result (found.new.items ≡ found.old.items ++ searched K.ring K.inverse set later.now) }
    ensures few { OnOk result (length found.new.items ≤ most_circuits) }
    ensures stop { IfErr result (λ e. (e ≡ CircuitStop.Memory) ⊎ (most_circuits < length (found.old.items ++ searched K.ring K.inverse set later.now))) }
{
    for k in 0..later.len() {
        let left = from(later, k);
        if is_dead(set, left) {
            return Ok(());
        }
        let d = &later[k];
        let rest = from(later, k + 1);
        let next = children(alloc, set, d, rest, found)?;
        extend(alloc, joined(set, d.name), &next, found)?;
    }
    Ok(())
}
