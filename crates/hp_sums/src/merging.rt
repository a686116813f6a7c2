//! Sums by merging: the terms of two sums stand in the order of the basis, and so do those of the result.

ghost use Rattle.std.specs.Prelude.{◌≡◌, ◌≢◌, ◌++◌, ◌∷◌, [], ◌↔◌, All, IfOk, OnOk, IsTrue, map};
ghost use Rattle.hp_sums.specs.Bases.{moved};
ghost use Rattle.hp_sums.specs.FiniteSums.{HasValues, IsSum, collect, plus};

use crate::basis::{Basis, OrderedProducts};
use hp_algebra::{Field, NoMem};
use std::alloc::Global;
use std::cmp::Ordering;

/// The sum of two sums.
pub fn merged<K: Copy, F: Field, B: Basis<K>>(
    alloc: Global,
    basis: &B,
    left: &[(K, F)],
    right: &[(K, F)],
) -> Result<Vec<(K, F)>, NoMem>
    requires basis { B.IsValue basis.now }
    requires left { IsSum (B.order basis.now) F.ring left.now }
    requires right { IsSum (B.order basis.now) F.ring right.now }
    ensures value { IfOk result (λ r. r.items ≡ plus (B.order basis.now) F.ring left.now right.now) }
    ensures answer { IfOk result (λ r. IsSum (B.order basis.now) F.ring r.items) }
{
    let mut out = Vec::with_capacity(alloc, left.len().saturating_add(right.len()))?;
    let mut xs = left;
    let mut ys = right;
    while let (Some((x, more)), Some((y, others))) = (xs.split_first(), ys.split_first()) {
        match basis.cmp(&y.0, &x.0) {
            Ordering::Greater => {
                out.push(*x)?;
                xs = more;
            }
            Ordering::Less => {
                out.push(*y)?;
                ys = others;
            }
            Ordering::Equal => {
                let sum = x.1.plus(y.1);
                if !sum.is_nil() {
                    out.push((x.0, sum))?;
                }
                xs = more;
                ys = others;
            }
        }
    }
    out.extend_from_slice(xs)?;
    out.extend_from_slice(ys)?;
    Ok(out)
}

/// The sum of a sum and c times another whose basis elements are multiplied by m, by one merge.
pub fn merged_multiple<K: Copy, F: Field, B: OrderedProducts<K>>(
    alloc: Global,
    basis: &B,
    left: &[(K, F)],
    c: F,
    m: K,
    right: &[(K, F)],
) -> Result<Vec<(K, F)>, NoMem>
    requires basis { B.IsValue basis.now }
    requires left { IsSum (B.order basis.now) F.ring left.now }
    requires right { IsSum (B.order basis.now) F.ring right.now }
    requires nonzero { c ≢ F.ring.zero }
    requires fits { All (λ t. B.Fits m t.0) right.now }
    ensures value { IfOk result (λ r. r.items ≡ plus (B.order basis.now) F.ring left.now (moved F.ring c (B.product m) right.now)) }
    ensures answer { IfOk result (λ r. IsSum (B.order basis.now) F.ring r.items) }
{
    let mut out = Vec::new(alloc);
    merge_multiple(&mut out, basis, left, c, m, right)?;
    Ok(out)
}

/// The same sum, written to a buffer, of which only the memory is kept.
pub fn merge_multiple<K: Copy, F: Field, B: OrderedProducts<K>>(
    buffer: &mut Vec<(K, F)>,
    basis: &B,
    left: &[(K, F)],
    c: F,
    m: K,
    right: &[(K, F)],
) -> Result<(), NoMem>
    requires basis { B.IsValue basis.now }
    requires left { IsSum (B.order basis.now) F.ring left.now }
    requires right { IsSum (B.order basis.now) F.ring right.now }
    requires nonzero { c ≢ F.ring.zero }
    requires fits { All (λ t. B.Fits m t.0) right.now }
    ensures value { IfOk result (λ _. buffer.new.items ≡ plus (B.order basis.now) F.ring left.now (moved F.ring c (B.product m) right.now)) }
    ensures answer { IfOk result (λ _. IsSum (B.order basis.now) F.ring buffer.new.items) }
{
    let _zero = c.is_nil();
    buffer.clear();
    buffer.reserve(left.len().saturating_add(right.len()))?;
    let mut xs = left;
    let mut ys = right;
    while let (Some((x, more)), Some((y, others))) = (xs.split_first(), ys.split_first()) {
        let n = basis.product(&m, &y.0);
        let d = c.times(y.1);
        match basis.cmp(&n, &x.0) {
            Ordering::Greater => {
                buffer.push(*x)?;
                xs = more;
            }
            Ordering::Less => {
                buffer.push((n, d))?;
                ys = others;
            }
            Ordering::Equal => {
                let sum = x.1.plus(d);
                if !sum.is_nil() {
                    buffer.push((x.0, sum))?;
                }
                xs = more;
                ys = others;
            }
        }
    }
    buffer.extend_from_slice(xs)?;
    append_multiple(buffer, basis, c, m, ys)?;
    Ok(())
}

/// Writes c times each term, its basis element multiplied by m.
fn append_multiple<K: Copy, F: Field, B: OrderedProducts<K>>(
    out: &mut Vec<(K, F)>,
    basis: &B,
    c: F,
    m: K,
    terms: &[(K, F)],
) -> Result<(), NoMem>
    requires { All (λ t. B.Fits m t.0) terms.now }
    ensures { IfOk result (λ _. out.new.items ≡ out.old.items ++ moved F.ring c (B.product m) terms.now) }
{
    let mut rest = terms;
    while let Some((t, more)) = rest.split_first() {
        out.push((basis.product(&m, &t.0), c.times(t.1)))?;
        rest = more;
    }
    Ok(())
}

/// Whether the terms are a sum as they stand: strictly in the order, and none of them zero.
pub fn is_sum<K: Copy, F: Field, B: Basis<K>>(basis: &B, terms: &[(K, F)]) -> bool
    requires { B.IsValue basis.now }
    ensures sum { IsTrue result ↔ IsSum (B.order basis.now) F.ring terms.now }
    ensures keys { IsTrue result → All (λ t. B.IsKey t.0) terms.now }
{
    let mut rest = terms;
    while let Some((t, more)) = rest.split_first() {
        basis.key(&t.0);
        if t.1.is_nil() {
            return false;
        }
        if let Some((u, _others)) = more.split_first() {
            if basis.cmp(&t.0, &u.0) != Ordering::Less {
                return false;
            }
        }
        rest = more;
    }
    true
}

/// The sum of any terms: those of one basis element are added, and zeros left out.
pub fn collected_terms<K: Copy, F: Field, B: Basis<K>>(
    alloc: Global,
    basis: &B,
    terms: &[(K, F)],
) -> Result<Vec<(K, F)>, NoMem>
    requires { B.IsValue basis.now }
    ensures values { OnOk result (HasValues F.ring terms.now) }
    ensures keys { OnOk result (All (λ t. B.IsKey t.0) terms.now) }
    ensures value { IfOk result (λ r. r.items ≡ collect (B.order basis.now) F.ring terms.now) }
    ensures answer { IfOk result (λ r. IsSum (B.order basis.now) F.ring r.items) }
{
    if terms.len() == 0 {
        return Ok(Vec::new(alloc));
    }
    if terms.len() == 1 {
        let out = single(alloc, basis, terms[0].0, terms[0].1)?;
        return Ok(out);
    }
    let (front, back) = terms.split_at(terms.len() / 2);
    let left = collected_terms(alloc, basis, front)?;
    let right = collected_terms(alloc, basis, back)?;
    let sum = merged(alloc, basis, left.as_slice(), right.as_slice())?;
    Ok(sum)
}

/// One term, or none where the coefficient is zero.
fn single<K: Copy, F: Field, B: Basis<K>>(
    alloc: Global,
    basis: &B,
    k: K,
    c: F,
) -> Result<Vec<(K, F)>, NoMem>
    requires { B.IsValue basis.now }
    ensures of { OnOk result (F.ring.IsValue c) }
    ensures key { OnOk result (B.IsKey k) }
    ensures value { IfOk result (λ r. r.items ≡ collect (B.order basis.now) F.ring ((k, c) ∷ [])) }
    ensures answer { IfOk result (λ r. IsSum (B.order basis.now) F.ring r.items) }
{
    basis.key(&k);
    let mut out = Vec::new(alloc);
    if c.is_nil() {
        return Ok(out);
    }
    out.push((k, c))?;
    Ok(out)
}

/// The negative of each term.
pub fn negated<K: Copy, F: Field>(alloc: Global, terms: &[(K, F)]) -> Result<Vec<(K, F)>, NoMem>
    ensures { IfOk result (λ r. r.items ≡ map (λ t. (t.0, F.ring.neg t.1)) terms.now) }
{
    let mut out = Vec::with_capacity(alloc, terms.len())?;
    for t in terms {
        out.push((t.0, t.1.negate()))?;
    }
    Ok(out)
}

/// Whether the lists are equal.
pub fn same_terms<K: Copy, F: Field, B: Basis<K>>(
    basis: &B,
    left: &[(K, F)],
    right: &[(K, F)],
) -> bool
    ensures { IsTrue result ↔ (left.now ≡ right.now) }
{
    let mut xs = left;
    let mut ys = right;
    while let (Some((x, more)), Some((y, others))) = (xs.split_first(), ys.split_first()) {
        if !basis.same(&x.0, &y.0) || !x.1.equal(&y.1) {
            return false;
        }
        xs = more;
        ys = others;
    }
    xs.is_empty() && ys.is_empty()
}
