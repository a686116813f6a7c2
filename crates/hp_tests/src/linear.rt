//! The calls at the residues modulo 31, with answers worked by hand.

use crate::samples::residues;
use hp_algebra::{Field, FiniteField, NoMem};
use hp_linear::Matrix;
use hp_modp::{Gf, P31};
use std::alloc::{AllocError, Global};
use std::process::Abort;
use std::test::Fail;

type K = Gf<P31>;

/// The residues of these integers.
fn row(alloc: Global, entries: &[i64]) -> Result<Vec<K>, AllocError> {
    entries.iter().map(|v| K::from_i64(*v)).collect(alloc)
}

/// The matrix of these rows, each of so many entries.
fn matrix(
    rt: &impl Abort,
    alloc: Global,
    cols: usize,
    entries: &[&[i64]],
) -> Result<Matrix<K>, AllocError> {
    let rows = residues(alloc, entries)?;
    assert!(rt; rows.iter().all(|row| row.len() == cols));
    Ok(Matrix::new(cols, rows))
}

/// The entries, row by row, as numbers.
fn numbers(alloc: Global, m: &Matrix<K>) -> Result<Vec<u32>, AllocError> {
    let mut numbers = Vec::new(alloc);
    for r in 1..=m.rows() {
        for c in 1..=m.cols() {
            numbers.push(m.at(r, c).residue())?;
        }
    }
    Ok(numbers)
}

#[test]
fn echelon_forms(rt: HostRuntime) -> Result<(), Fail> {
    let alloc = rt.alloc();
    let table: [(usize, &[&[i64]], &[u32], &[usize]); 8] = [
        (2, &[&[1, 1], &[1, 1]], &[1, 1], &[1]),
        (2, &[], &[], &[]),
        (0, &[&[]], &[], &[]),
        (1, &[&[0], &[5], &[7]], &[1], &[1]),
        (3, &[&[0, 0, 0], &[0, 0, 0]], &[], &[]),
        (2, &[&[0, 2], &[3, 0]], &[1, 0, 0, 1], &[1, 2]),
        (
            4,
            &[&[0, 2, 4, 2], &[1, 1, 1, 1], &[1, 2, 3, 2]],
            &[1, 0, 30, 0, 0, 1, 2, 1],
            &[1, 2],
        ),
        (
            3,
            &[&[1, 2, 3], &[2, 4, 7], &[0, 0, 30]],
            &[1, 2, 0, 0, 0, 1],
            &[1, 3],
        ),
    ];
    for (cols, rows, reduced, columns) in table {
        let m = matrix(&rt, alloc, cols, rows)?;
        let (form, pivots) = m.echelon(alloc)?;
        assert_eq!(rt; numbers(alloc, &form)?.as_slice(), reduced, "{rows:?}");
        assert_eq!(rt; pivots.as_slice(), columns, "{rows:?}");
        assert_eq!(rt; m.rank(alloc)?, columns.len(), "{rows:?}");
    }
    Ok(())
}

#[test]
fn kernels(rt: HostRuntime) -> Result<(), Fail> {
    let alloc = rt.alloc();
    let table: [(usize, &[&[i64]], &[u32]); 7] = [
        (2, &[&[1, 1], &[1, 1]], &[30, 1]),
        (2, &[], &[1, 0, 0, 1]),
        (0, &[&[]], &[]),
        (1, &[&[4]], &[]),
        (1, &[&[0]], &[1]),
        (2, &[&[1, 2], &[3, 4]], &[]),
        (
            4,
            &[&[0, 1, 2, 1], &[1, 0, -1, 0]],
            &[1, 29, 1, 0, 0, 30, 0, 1],
        ),
    ];
    for (cols, rows, basis) in table {
        let found = matrix(&rt, alloc, cols, rows)?.kernel(alloc)?;
        assert!(rt; found.iter().all(|c| c.len() == cols));
        let found = Matrix::new(cols, found);
        assert_eq!(rt; numbers(alloc, &found)?.as_slice(), basis, "{rows:?}");
    }
    Ok(())
}

/// Whether the two lists have the same residues.
fn are_equal(a: &[K], b: &[K]) -> bool {
    a.len() == b.len() && a.iter().zip(b).all(|(x, y)| x.residue() == y.residue())
}

/// The solution of the rows and b, as integers from 0 to 30.
fn solved(
    rt: &impl Abort,
    alloc: Global,
    cols: usize,
    rows: &[&[i64]],
    b: &[i64],
) -> Result<Option<Vec<K>>, NoMem> {
    let m = matrix(rt, alloc, cols, rows)?;
    let b = row(alloc, b)?;
    assert!(rt; b.len() == m.rows());
    m.solve(alloc, &b)
}

#[test]
fn solutions(rt: HostRuntime) -> Result<(), Fail> {
    let alloc = rt.alloc();
    let table: [(usize, &[&[i64]], &[i64], Option<&[i64]>); 8] = [
        (2, &[&[1, 2], &[0, 29]], &[0, 1], Some(&[1, 15])),
        (2, &[&[1, 1], &[1, 1]], &[0, 1], None),
        (2, &[&[1, 1], &[1, 1]], &[0, 0], Some(&[0, 0])),
        (2, &[], &[], Some(&[0, 0])),
        (0, &[&[]], &[1], None),
        (0, &[&[]], &[0], Some(&[])),
        (1, &[&[2]], &[1], Some(&[16])),
        (1, &[&[0]], &[3], None),
    ];
    for (cols, rows, b, answer) in table {
        let found = solved(&rt, alloc, cols, rows, b)?;
        match answer {
            Some(c) => {
                let c = row(alloc, c)?;
                assert!(rt; are_equal(&found.ok_or("none")?, &c), "{rows:?}");
            }
            None => {
                assert!(rt; found.is_none(), "{rows:?}");
            }
        }
    }
    Ok(())
}

#[test]
fn inverses(rt: HostRuntime) -> Result<(), Fail> {
    let alloc = rt.alloc();
    let table: [(usize, &[&[i64]], Option<&[u32]>); 6] = [
        (2, &[&[1, 2], &[0, 29]], Some(&[1, 1, 0, 15])),
        (2, &[&[1, 1], &[1, 1]], None),
        (0, &[], Some(&[])),
        (1, &[&[0]], None),
        (1, &[&[2]], Some(&[16])),
        (
            3,
            &[&[0, 1, 0], &[0, 0, 1], &[1, 0, 0]],
            Some(&[0, 0, 1, 1, 0, 0, 0, 1, 0]),
        ),
    ];
    for (size, rows, answer) in table {
        let m = matrix(&rt, alloc, size, rows)?;
        assert!(rt; m.rows() == m.cols());
        let found = m.inverse(alloc)?;
        match answer {
            Some(inverse) => {
                assert_eq!(rt;
                    numbers(alloc, &found.ok_or("none")?)?.as_slice(),
                    inverse,
                    "{rows:?}"
                );
            }
            None => {
                assert!(rt; found.is_none(), "{rows:?}");
            }
        }
    }
    Ok(())
}
