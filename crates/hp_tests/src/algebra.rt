//! The calls on lists and rows, over the residues modulo 31.

use hp_algebra::{FiniteField, List, NoMem, dot, form_value, scaled, unit_row};
use hp_modp::{Gf, P31};
use std::alloc::{AllocError, Global};
use std::test::Fail;

type K = Gf<P31>;

fn pushed(alloc: Global, number: u8) -> Result<Vec<u8>, NoMem> {
    let mut numbers = Vec::new(alloc);
    numbers.push(number)?;
    Ok(numbers)
}

#[test]
fn lists(rt: HostRuntime) -> Result<(), Fail> {
    let list = List::of(pushed(rt.alloc(), 7)?);
    assert_eq!(rt; list.as_slice(), [7].as_slice());
    assert_eq!(rt; list.into_vec().as_slice(), [7].as_slice());
    Ok(())
}

/// The residues of these integers.
fn row(alloc: Global, integers: &[i64]) -> Result<Vec<K>, AllocError> {
    integers.iter().map(|v| K::from_i64(*v)).collect(alloc)
}

/// The elements as numbers.
fn places(alloc: Global, row: &[K]) -> Result<Vec<u32>, AllocError> {
    row.iter().map(|x| x.place()).collect(alloc)
}

#[test]
fn unit_rows_and_multiples(rt: HostRuntime) -> Result<(), Fail> {
    let alloc = rt.alloc();
    let table: [(usize, usize, &[u32]); 5] = [
        (3, 1, &[7, 0, 0]),
        (3, 3, &[0, 0, 7]),
        (1, 1, &[7]),
        (2, 3, &[0, 0]),
        (0, 1, &[]),
    ];
    for (l, i, wanted) in table {
        let row = scaled(unit_row(alloc, l, i)?, K::new(7));
        assert_eq!(rt; places(alloc, &row)?.as_slice(), wanted, "{i} of {l}");
    }
    Ok(())
}

#[test]
fn sums_of_products(rt: HostRuntime) -> Result<(), Fail> {
    let alloc = rt.alloc();
    let table: [(&[i64], &[i64], u32); 4] = [
        (&[1, 2], &[3, 4], 11),
        (&[], &[], 0),
        (&[30], &[30], 1),
        (&[5, 7, -1], &[6, 9, 1], 30),
    ];
    for (a, b, sum) in table {
        let (left, right) = (row(alloc, a)?, row(alloc, b)?);
        assert!(rt; left.len() == right.len());
        assert_eq!(rt; dot(alloc, &left, &right)?.residue(), sum, "{a:?} {b:?}");
        assert_eq!(rt; form_value(&left, &right).residue(), sum, "{a:?} {b:?}");
    }
    // a coefficient without a coordinate counts for nothing
    let form = [K::new(2), K::new(3), K::new(5)];
    assert_eq!(rt; form_value(form.as_slice(), &[K::new(4)]).residue(), 8);
    Ok(())
}
