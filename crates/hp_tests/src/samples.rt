//! Rows and arrangements that several tests take.

ghost use Rattle.std.specs.Prelude.{IfOk, length};
ghost use Rattle.hp_sets.specs.Sets.{IsSetWithin};

use hp_algebra::FiniteField;
use hp_arr::{Aff, Arr};
use hp_modp::{Gf, P31};
use hp_sets::HSet;
use std::alloc::{AllocError, Global};
use std::process::Abort;
use std::test::Fail;

/// The rows of integers as rows of residues.
pub fn residues<F: FiniteField>(alloc: Global, rows: &[&[i64]]) -> Result<Vec<Vec<F>>, AllocError> {
    let mut taken = Vec::new(alloc);
    for row in rows {
        taken.push(row.iter().map(|v| F::from_i64(*v)).collect(alloc)?)?;
    }
    Ok(taken)
}

/// The lines x = 0, y = 0 and x = y of the plane over 31 elements.
pub fn three_lines(rt: &impl Abort, alloc: Global) -> Result<Arr<Gf<P31>>, Fail> {
    let rows = residues::<Gf<P31>>(alloc, &[&[1, 0], &[0, 1], &[1, -1]])?;
    assert!(rt; rows.len() <= 100);
    assert!(rt; rows.iter().all(|row| row.len() == 2));
    Ok(Arr::new(alloc, 2, rows)?)
}

/// The set, whose members are numbers of hyperplanes.
pub fn set_within(arr: &Arr<Gf<P31>>, set: HSet) -> Result<HSet, Fail>
    ensures { IfOk result (IsSetWithin (length arr.now.forms)) }
{
    if set.is_within(HSet::first(arr.len())) {
        return Ok(set);
    }
    Err("a number is that of no hyperplane".into())
}

/// The lines x = 0, x = 1 and y = 0 of the plane over 31 elements. The first two are parallel.
pub fn two_parallel_lines_and_one(rt: &impl Abort, alloc: Global) -> Result<Aff<Gf<P31>>, Fail> {
    let rows = residues::<Gf<P31>>(alloc, &[&[1, 0, 0], &[1, 0, -1], &[0, 1, 0]])?;
    assert!(rt; rows.len() <= 100);
    assert!(rt; rows.iter().all(|row| row.len() == 3));
    Ok(Aff::new(alloc, 2, rows)?)
}

/// The set, whose members are numbers of hyperplanes.
pub fn hyperplanes_within(aff: &Aff<Gf<P31>>, set: HSet) -> Result<HSet, Fail>
    ensures { IfOk result (IsSetWithin (length aff.now.forms)) }
{
    if set.is_within(HSet::first(aff.len())) {
        return Ok(set);
    }
    Err("a number is that of no hyperplane".into())
}
