//! The calls of `Gf` at 31, compared with residues worked by hand, and the generic calls of the algebra at this field.

use hp_algebra::{Domain, FiniteField, Ring, dot, greatest_weight, product_is_zero};
use hp_modp::{Gf, P31};
use std::test::Fail;

type K = Gf<P31>;

fn product_vanishes<D: Domain>(left: &D, right: &D) -> bool {
    product_is_zero(left, right)
}

#[test]
fn residues_by_the_ring(rt: HostRuntime) -> Result<(), Fail> {
    let alloc = rt.alloc();
    let (x, y) = (K::new(16), K::new(20));
    assert_eq!(rt; x.add(alloc, &y)?.residue(), 5);
    assert_eq!(rt; x.neg(alloc)?.residue(), 15);
    assert_eq!(rt; x.mul(alloc, &y)?.residue(), 10);
    assert_eq!(rt; K::zero(alloc)?.residue(), 0);
    assert_eq!(rt; K::one(alloc)?.residue(), 1);
    assert!(rt; x.equal(&K::new(16)));
    assert!(rt; !x.equal(&y));
    assert!(rt; !x.is_zero());
    assert_eq!(rt; greatest_weight([x, y].as_slice()), 0);
    let (left, right) = ([K::new(1), K::new(2)], [K::new(3), K::new(4)]);
    assert_eq!(rt;
        dot(alloc, left.as_slice(), right.as_slice())?.residue(),
        11
    );
    assert!(rt; !product_vanishes(&x, &y));
    assert!(rt; product_vanishes(&x, &K::new(0)));
    Ok(())
}

#[test]
fn elements_by_number(rt: HostRuntime) {
    for (v, residue) in [
        (0, 0),
        (30, 30),
        (31, 0),
        (-1, 30),
        (-31, 0),
        (9_999_999_999, 4),
        (-9_999_999_999, 27),
        (i64::MIN, 23),
    ] {
        assert_eq!(rt; K::from_i64(v).residue(), residue, "at {v}");
    }
    assert_eq!(rt; K::nth(17).place(), 17);
    assert_eq!(rt; K::ORDER, 31);
}
