//! The exterior algebra over the residues modulo 31, with sums and boundaries worked by hand.

use hp_algebra::{NoMem, Ring};
use hp_exterior::Ext;
use hp_modp::{Gf, P31};
use hp_sets::HSet;
use std::alloc::Global;
use std::test::Fail;

type K = Gf<P31>;

/// a e_1 e_2 + b e_3.
fn element(alloc: Global, a: K, b: K) -> Result<Ext<K>, NoMem> {
    let mut terms = Vec::new(alloc);
    terms.push((HSet::first(2), a))?;
    terms.push((HSet::single(3), b))?;
    Ext::from_terms(alloc, terms)
}

/// The boundary of e_1 e_2 is e_2 - e_1, and that of e_3 is 1.
#[test]
fn sums_and_boundaries(rt: HostRuntime) -> Result<(), Fail> {
    let alloc = rt.alloc();
    let x = element(alloc, K::new(1), K::new(2))?;
    assert_eq!(rt; x.len(), 2);
    assert_eq!(rt; x.coeff(HSet::first(2)).residue(), 1);
    let copy = x.copy(alloc)?;
    assert!(rt; x.equal(&copy));
    let boundary = x.boundary(alloc)?;
    assert_eq!(rt; boundary.len(), 3);
    assert_eq!(rt; boundary.coeff(HSet::single(1)).residue(), 30);
    assert_eq!(rt; boundary.coeff(HSet::single(2)).residue(), 1);
    assert_eq!(rt; boundary.coeff(HSet::empty()).residue(), 2);
    let second = Ext::<K>::generator(alloc, 2)?;
    assert_eq!(rt; second.coeff(HSet::single(2)).residue(), 1);
    assert!(rt; x.add(alloc, &x.neg(alloc)?)?.is_zero());
    Ok(())
}

/// (e_1 e_2 + e_3)(e_1 + e_3) is e_1 e_2 e_3 - e_1 e_3.
#[test]
fn products(rt: HostRuntime) -> Result<(), Fail> {
    let alloc = rt.alloc();
    let x = element(alloc, K::new(1), K::new(1))?;
    let first = Ext::<K>::generator(alloc, 1)?;
    let third = Ext::<K>::generator(alloc, 3)?;
    let y = first.add(alloc, &third)?;
    let product = x.mul(alloc, &y)?;
    assert_eq!(rt; product.len(), 2);
    assert_eq!(rt; product.coeff(HSet::first(3)).residue(), 1);
    assert_eq!(rt; product.coeff(HSet::single(1).with(3)).residue(), 30);
    assert!(rt; y.mul(alloc, &y)?.is_zero());
    assert!(rt; x.equal(&Ext::one(alloc)?.mul(alloc, &x)?));
    Ok(())
}
