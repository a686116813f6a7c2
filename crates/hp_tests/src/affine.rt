//! Möbius values, polynomials, points and constants of three lines in a plane of which two are parallel, worked by hand.

use crate::samples::{three_lines, two_parallel_lines_and_one};
use hp_arr::Aff;
use hp_mobius::{characteristic, moebius, poincare, triple};
use std::test::Fail;

#[test]
fn values_and_polynomials(rt: HostRuntime) -> Result<(), Fail> {
    let alloc = rt.alloc();
    let aff = two_parallel_lines_and_one(&rt, alloc)?;
    let values = moebius(alloc, &aff)?;
    let wanted = [1, -1, -1, -1, 1, 1];
    assert_eq!(rt; values.len(), 6);
    for k in 0..6 {
        assert_eq!(rt; values[k].1, wanted[k]);
    }
    assert_eq!(rt; poincare(alloc, &aff)?.as_slice(), [1, 3, 2].as_slice());
    assert_eq!(rt;
        characteristic(alloc, &aff)?.as_slice(),
        [2, -3, 1].as_slice()
    );
    Ok(())
}

/// The second line does not meet the first: the restriction has one point alone.
#[test]
fn triple_of_the_first(rt: HostRuntime) -> Result<(), Fail> {
    let alloc = rt.alloc();
    let aff = two_parallel_lines_and_one(&rt, alloc)?;
    assert_eq!(rt; aff.len(), 3);
    assert_eq!(rt; aff.dim(), 2);
    let pi = triple(alloc, &aff, 1)?;
    assert_eq!(rt; pi.whole.as_slice(), [1, 3, 2].as_slice());
    assert_eq!(rt; pi.deleted.as_slice(), [1, 2, 1].as_slice());
    assert_eq!(rt; pi.restricted.as_slice(), [1, 1].as_slice());
    let restriction = aff.restrict(alloc, 1)?;
    assert_eq!(rt; restriction.len(), 1);
    assert_eq!(rt; restriction.dim(), 1);
    Ok(())
}

#[test]
fn points_and_constants(rt: HostRuntime) -> Result<(), Fail> {
    let alloc = rt.alloc();
    let aff = two_parallel_lines_and_one(&rt, alloc)?;
    let point = aff.least_point_off(alloc)?;
    assert_eq!(rt; point.len(), 2);
    assert_eq!(rt; point[0].residue(), 2);
    assert_eq!(rt; point[1].residue(), 1);
    assert!(rt; !aff.is_central());
    assert!(rt; aff.central(alloc)?.is_none());
    assert_eq!(rt; aff.len(), 3);
    let second = aff.delete(alloc, 2)?;
    assert!(rt; second.is_central());
    assert!(rt; second.central(alloc)?.is_some());
    assert_eq!(rt; aff.dim(), 2);
    assert_eq!(rt; aff.value(2, &point).residue(), 1);
    Ok(())
}

/// The rows of a central arrangement have constants zero, and give it back.
#[test]
fn rows_of_a_central_one(rt: HostRuntime) -> Result<(), Fail> {
    let alloc = rt.alloc();
    let aff = Aff::of(alloc, &three_lines(&rt, alloc)?)?;
    assert_eq!(rt; aff.len(), 3);
    let row = aff.row(3);
    assert_eq!(rt; row.len(), 3);
    assert_eq!(rt; row[0].residue(), 1);
    assert_eq!(rt; row[1].residue(), 30);
    assert_eq!(rt; row[2].residue(), 0);
    assert!(rt; aff.central(alloc)?.is_some());
    Ok(())
}
