//! Matrices and complexes over the residues modulo 31, with answers worked by hand.

use crate::samples::residues;
use hp_algebra::{List, NoMem};
use hp_complex::{Complex, Mat};
use hp_modp::{Gf, P31};
use std::alloc::{AllocError, Global};
use std::process::Abort;
use std::test::Fail;

type K = Gf<P31>;

/// The matrix of these rows, each of so many entries.
fn matrix(
    rt: &impl Abort,
    alloc: Global,
    cols: usize,
    entries: &[&[i64]],
) -> Result<Mat<K>, AllocError> {
    let mut rows = Vec::new(alloc);
    for row in residues(alloc, entries)? {
        rows.push(List::of(row))?;
    }
    assert!(rt; rows.iter().all(|row| row.as_slice().len() == cols));
    Ok(Mat::new(cols, rows))
}

/// The complex of these maps.
fn complex(rt: &impl Abort, maps: Vec<Mat<K>>) -> Complex<K> {
    for k in 1..maps.len() {
        assert!(rt; maps[k].cols() == maps[k - 1].rows());
    }
    Complex::new(maps)
}

/// Whether each of these maps times the one before it is zero. A map is given by its columns and its rows.
fn composes(rt: &impl Abort, alloc: Global, maps: &[(usize, &[&[i64]])]) -> Result<bool, NoMem> {
    let mut made = Vec::new(alloc);
    for (cols, rows) in maps {
        made.push(matrix(rt, alloc, *cols, rows)?)?;
    }
    complex(rt, made).compose_is_zero(alloc)
}

#[test]
fn composites(rt: HostRuntime) -> Result<(), Fail> {
    let alloc = rt.alloc();
    let table: [(&[(usize, &[&[i64]])], bool); 8] = [
        (&[], true),
        (&[(2, &[&[1, 2]])], true),
        // The Koszul complexes of (2, 3) and of (2, 3, 5).
        (&[(1, &[&[2], &[3]]), (2, &[&[3, -2]])], true),
        (
            &[
                (1, &[&[2], &[3], &[5]]),
                (3, &[&[-3, 2, 0], &[-5, 0, 2], &[0, -5, 3]]),
                (3, &[&[5, -3, 2]]),
            ],
            true,
        ),
        // One sign of the last map changed.
        (
            &[
                (1, &[&[2], &[3], &[5]]),
                (3, &[&[-3, 2, 0], &[-5, 0, 2], &[0, -5, 3]]),
                (3, &[&[5, 3, 2]]),
            ],
            false,
        ),
        // Two square matrices, of which the product is zero in one order alone.
        (&[(2, &[&[0, 0], &[0, 1]]), (2, &[&[1, 0], &[1, 0]])], true),
        (&[(2, &[&[1, 0], &[1, 0]]), (2, &[&[0, 0], &[0, 1]])], false),
        (&[(0, &[&[], &[]]), (2, &[&[1, 7]])], true),
    ];
    for (maps, answer) in table {
        assert_eq!(rt; composes(&rt, alloc, maps)?, answer);
    }
    Ok(())
}

#[test]
fn parts(rt: HostRuntime) -> Result<(), Fail> {
    let alloc = rt.alloc();
    let mut maps = Vec::new(alloc);
    maps.push(matrix(&rt, alloc, 1, &[&[2], &[3]])?)?;
    maps.push(matrix(&rt, alloc, 2, &[&[3, -2]])?)?;
    let complex = complex(&rt, maps);
    assert_eq!(rt; complex.len(), 2);
    let last = complex.map(1);
    assert_eq!(rt; last.rows(), 1);
    assert_eq!(rt; last.cols(), 2);
    assert_eq!(rt; last.row(0)[1].residue(), 29);
    Ok(())
}
