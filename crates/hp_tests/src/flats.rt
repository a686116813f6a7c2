//! Closures, ranks, flats and covers of three lines in a plane, worked by hand: of three through one point, and of three of
//! which two are parallel.

use crate::samples::{hyperplanes_within, three_lines, two_parallel_lines_and_one};
use hp_arr::Aff;
use hp_flats::{closure, flats, flats_with_covers, rank, total_rank};
use hp_sets::HSet;
use std::test::Fail;

#[test]
fn closures_and_ranks(rt: HostRuntime) -> Result<(), Fail> {
    let alloc = rt.alloc();
    let aff = Aff::of(alloc, &three_lines(&rt, alloc)?)?;
    let two = hyperplanes_within(&aff, HSet::single(1).with(2))?;
    assert_eq!(rt; closure(alloc, &aff, two)?, Some(HSet::first(3)));
    assert_eq!(rt; rank(alloc, &aff, two)?, Some(2));
    assert_eq!(rt; total_rank(alloc, &aff)?, 2);
    Ok(())
}

#[test]
fn covers(rt: HostRuntime) -> Result<(), Fail> {
    let alloc = rt.alloc();
    let aff = Aff::of(alloc, &three_lines(&rt, alloc)?)?;
    let found = flats_with_covers(alloc, &aff)?;
    assert_eq!(rt; found.len(), 5);
    let covers = [HSet::single(1), HSet::single(2), HSet::single(3)];
    assert_eq!(rt; found[0].covers.as_slice(), covers.as_slice());
    assert_eq!(rt; found[1].covers.as_slice(), [HSet::first(3)].as_slice());
    assert_eq!(rt; found[4].covers.as_slice().len(), 0);
    Ok(())
}

#[test]
fn closures_and_ranks_of_parallel_lines(rt: HostRuntime) -> Result<(), Fail> {
    let alloc = rt.alloc();
    let aff = two_parallel_lines_and_one(&rt, alloc)?;
    let parallel = hyperplanes_within(&aff, HSet::first(2))?;
    assert_eq!(rt; closure(alloc, &aff, parallel)?, None);
    assert_eq!(rt; rank(alloc, &aff, parallel)?, None);
    let corner = hyperplanes_within(&aff, HSet::single(2).with(3))?;
    assert_eq!(rt; closure(alloc, &aff, corner)?, Some(corner));
    assert_eq!(rt; rank(alloc, &aff, corner)?, Some(2));
    assert_eq!(rt; total_rank(alloc, &aff)?, 2);
    Ok(())
}

#[test]
fn covers_of_parallel_lines(rt: HostRuntime) -> Result<(), Fail> {
    let alloc = rt.alloc();
    let aff = two_parallel_lines_and_one(&rt, alloc)?;
    let first = HSet::single(1).with(3);
    let second = HSet::single(2).with(3);
    let sets = [
        HSet::empty(),
        HSet::single(1),
        HSet::single(2),
        HSet::single(3),
        first,
        second,
    ];
    let sets = &sets[..];
    let listed = flats(alloc, &aff)?;
    assert_eq!(rt; listed.len(), 6);
    for k in 0..6 {
        assert_eq!(rt; listed[k].set, sets[k]);
    }
    let found = flats_with_covers(alloc, &aff)?;
    assert_eq!(rt; found.len(), 6);
    assert_eq!(rt; found[1].covers.as_slice(), [first].as_slice());
    assert_eq!(rt; found[3].covers.as_slice(), [first, second].as_slice());
    assert_eq!(rt; found[5].covers.as_slice().len(), 0);
    Ok(())
}
