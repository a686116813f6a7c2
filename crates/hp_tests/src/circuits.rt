//! Sets without broken circuit of three lines in a plane, worked by hand.

use crate::samples::{set_within, three_lines};
use hp_circuits::{NbcStop, is_nbc, nbc_of_size};
use hp_sets::HSet;
use std::test::Fail;

/// The lines 2 and 3 are the only circuit without its least member.
#[test]
fn one_broken_circuit(rt: HostRuntime) -> Result<(), Fail> {
    let alloc = rt.alloc();
    let arr = three_lines(&rt, alloc)?;
    for (set, answer) in [
        (HSet::single(2).with(3), false),
        (HSet::single(1).with(3), true),
        (HSet::empty(), true),
    ] {
        let set = set_within(&arr, set)?;
        assert_eq!(rt; is_nbc(alloc, &arr, set)?, answer, "{set:?}");
    }
    Ok(())
}

#[test]
fn sets_of_two(rt: HostRuntime) -> Result<(), Fail> {
    let alloc = rt.alloc();
    let arr = three_lines(&rt, alloc)?;
    let sets = [HSet::single(1).with(2), HSet::single(1).with(3)];
    assert_eq!(rt; nbc_of_size(alloc, &arr, 2, 2)?.as_slice(), sets.as_slice());
    assert_eq!(rt;
        nbc_of_size(alloc, &arr, 2, 1).err(),
        Some(NbcStop::TooMany)
    );
    Ok(())
}
