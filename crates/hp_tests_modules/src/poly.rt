//! Polynomials over the residues modulo 31, with answers worked by hand.

use hp_algebra::{FiniteField, NoMem, Ring};
use hp_modp::{Gf, P31};
use hp_mono::Mono;
use hp_poly::Poly;
use std::alloc::{AllocError, Global};
use std::test::Fail;

type K = Gf<P31>;

/// Terms as coefficients with the exponents of x and y.
type Terms<'a> = &'a [(i64, u16, u16)];

/// x^a y^b.
fn monomial(a: u16, b: u16) -> Mono {
    Mono::from_exps([a % 100, b % 100, 0, 0, 0, 0, 0, 0, 0, 0])
}

/// The sum of these terms.
fn poly(alloc: Global, terms: Terms) -> Result<Poly<K>, NoMem> {
    let mut list = Vec::new(alloc);
    for (c, a, b) in terms {
        list.push((monomial(*a, *b), K::from_i64(*c)))?;
    }
    Poly::from_terms(alloc, list)
}

/// The residues of these integers.
fn row(alloc: Global, integers: &[i64]) -> Result<Vec<K>, AllocError> {
    integers.iter().map(|v| K::from_i64(*v)).collect(alloc)
}

const X_LESS_Y: Terms = &[(1, 1, 0), (30, 0, 1)];

const X_AND_Y: Terms = &[(1, 1, 0), (1, 0, 1)];

#[test]
fn parts_of_polynomials(rt: HostRuntime) -> Result<(), Fail> {
    let alloc = rt.alloc();
    let p = poly(alloc, &[(1, 1, 1), (2, 1, 0), (30, 0, 2)])?;
    assert_eq!(rt; p.degree(), Some(2));
    assert_eq!(rt; p.coeff(&monomial(0, 2)).residue(), 30);
    assert_eq!(rt; p.coeff(&monomial(2, 0)).residue(), 0);
    assert_eq!(rt; p.term(1).map(|t| t.1.residue()), Some(30));
    assert!(rt; p.term(3).is_none());
    assert!(rt; !p.is_homogeneous());
    assert!(rt; poly(alloc, X_LESS_Y)?.is_homogeneous());
    let zero = Poly::<K>::zero(alloc)?;
    assert_eq!(rt; zero.degree(), None);
    assert!(rt; zero.is_homogeneous());
    let point = row(alloc, &[3, 5])?;
    assert_eq!(rt; p.eval(point.as_slice()).residue(), 27);
    assert_eq!(rt; zero.eval(point.as_slice()).residue(), 0);
    Ok(())
}

/// (x - y)(x + y) is x^2 - y^2; over x - y it is x + y again, and (x - y)^2 is no factor.
#[test]
fn products_and_quotients(rt: HostRuntime) -> Result<(), Fail> {
    let alloc = rt.alloc();
    let form = row(alloc, &[1, 30])?;
    assert!(rt; form.len() == 2);
    let less = Poly::linear(alloc, form.as_slice())?;
    assert!(rt; less.equal(&poly(alloc, X_LESS_Y)?));
    let more = poly(alloc, X_AND_Y)?;
    assert!(rt; less.weight() <= 100);
    assert!(rt; more.weight() <= 100);
    let product = less.mul(alloc, &more)?;
    assert!(rt; product.equal(&poly(alloc, &[(30, 0, 2), (1, 2, 0)])?));
    let quotient = product
        .div_by_form(alloc, form.as_slice(), 1)?
        .ok_or("no factor")?;
    assert!(rt; quotient.equal(&more));
    assert!(rt; product.div_by_form(alloc, form.as_slice(), 2)?.is_none());
    let y = monomial(0, 1);
    assert!(rt; more.degree().is_some_and(|d| d <= 100));
    assert!(rt; y.degree() <= 100);
    let sum = less.plus_multiple(alloc, K::from_i64(1), y, &more)?;
    assert!(rt; sum.equal(&poly(alloc, &[(1, 1, 0), (30, 0, 1), (1, 1, 1), (1, 0, 2)])?));
    let rest = sum.minus_multiple(alloc, K::from_i64(1), y, &more)?;
    assert!(rt; rest.equal(&less.copy(alloc)?));
    Ok(())
}

#[test]
fn sums_and_units(rt: HostRuntime) -> Result<(), Fail> {
    let alloc = rt.alloc();
    let x = poly(alloc, &[(20, 1, 0)])?;
    let more = poly(alloc, &[(11, 1, 0), (1, 0, 1)])?;
    assert!(rt; x.add(alloc, &more)?.equal(&poly(alloc, &[(1, 0, 1)])?));
    assert!(rt; x.neg(alloc)?.equal(&poly(alloc, &[(11, 1, 0)])?));
    assert!(rt; poly(alloc, &[(20, 1, 0), (11, 1, 0)])?.is_zero());
    assert!(rt; Poly::<K>::one(alloc)?.equal(&poly(alloc, &[(1, 0, 0)])?));
    Ok(())
}
