//! Monomials at small and at the greatest exponents, compared with answers worked by hand.

use hp_mono::{Mono, Term};
use std::cmp::Ordering;

#[test]
fn monomials_in_grevlex(rt: HostRuntime) {
    let xy = Mono::from_exps([1, 1, 0, 0, 0, 0, 0, 0, 0, 0]);
    let xz = Mono::from_exps([1, 0, 1, 0, 0, 0, 0, 0, 0, 0]);
    let y_squared = Mono::from_exps([0, 2, 0, 0, 0, 0, 0, 0, 0, 0]);
    let far = Mono::from_exps([3, 0, 0, 0, 0, 0, 0, 0, 0, 1]);
    let near = Mono::from_exps([0, 0, 0, 0, 1, 3, 0, 0, 0, 0]);
    let most_first = Mono::from_exps([4000, 0, 0, 0, 0, 0, 0, 0, 0, 0]);
    let most_last = Mono::from_exps([0, 0, 0, 0, 0, 0, 0, 0, 0, 4000]);
    for (left, right, order) in [
        (y_squared, xz, Ordering::Greater),
        (xy, y_squared, Ordering::Greater),
        (xz, xy, Ordering::Less),
        (near, far, Ordering::Greater),
        (far, y_squared, Ordering::Greater),
        (most_first, most_last, Ordering::Greater),
        (far, most_last, Ordering::Less),
        (Mono::one(), Mono::var(10), Ordering::Less),
        (Mono::var(6), Mono::var(5), Ordering::Less),
        (Mono::var(1).product(&Mono::var(3)), xz, Ordering::Equal),
    ] {
        assert_eq!(rt; left.grevlex(&right), order, "{left:?} {right:?}");
        assert_eq!(rt; right.grevlex(&left), order.reverse(), "{right:?} {left:?}");
        assert_eq!(rt;
            left == right,
            order == Ordering::Equal,
            "{left:?} {right:?}"
        );
    }
}

#[test]
fn exponents_and_degrees(rt: HostRuntime) {
    let mixed = Mono::from_exps([1, 2, 3, 4, 5, 6, 7, 8, 9, 10]);
    for i in 1..11 {
        assert_eq!(rt; u32::from(mixed.exp(i)), i);
        assert_eq!(rt; Mono::var(i).exp(i), 1);
        assert_eq!(rt; Mono::var(i).degree(), 1);
    }
    assert_eq!(rt; mixed.degree(), 55);
    assert_eq!(rt; Mono::one().degree(), 0);
    let spread = Mono::from_exps([400, 400, 400, 400, 400, 400, 400, 400, 400, 400]);
    assert_eq!(rt; spread.degree(), 4000);
    let most = Mono::from_exps([0, 0, 0, 0, 4000, 0, 0, 0, 0, 0]);
    assert_eq!(rt; (most.degree(), most.exp(5), most.exp(6)), (4000, 4000, 0));
}

#[test]
fn divisors_and_multiples(rt: HostRuntime) {
    let left = Mono::from_exps([2, 0, 1, 0, 9, 0, 0, 0, 0, 3]);
    let right = Mono::from_exps([1, 0, 4, 0, 9, 1, 0, 0, 0, 3]);
    let both = Mono::from_exps([2, 0, 4, 0, 9, 1, 0, 0, 0, 3]);
    assert_eq!(rt; left.lcm(&right), both);
    assert_eq!(rt; right.lcm(&left), both);
    assert!(rt; left.divides(&both));
    assert!(rt; right.divides(&both));
    assert!(rt; !left.divides(&right));
    assert!(rt; !right.divides(&left));
    assert!(rt; Mono::one().divides(&left));
    assert!(rt; !Mono::var(2).divides(&left));
    assert_eq!(rt;
        both.quotient(&left),
        Some(Mono::from_exps([0, 0, 3, 0, 0, 1, 0, 0, 0, 0]))
    );
    assert_eq!(rt; left.quotient(&right), None);
    assert_eq!(rt; left.quotient(&left), Some(Mono::one()));
    let product = left.product(&right);
    assert_eq!(rt; product, Mono::from_exps([3, 0, 5, 0, 18, 1, 0, 0, 0, 6]));
    assert_eq!(rt; product.quotient(&right), Some(left));
}

#[test]
fn terms_by_parts(rt: HostRuntime) {
    let term = Term {
        mono: Mono::var(2),
        comp: 1,
    };
    assert_eq!(rt;
        term,
        Term {
            mono: Mono::var(2),
            comp: 1
        }
    );
    assert!(rt;
        term != Term {
            mono: Mono::var(2),
            comp: 2
        }
    );
    assert!(rt;
        term != Term {
            mono: Mono::var(3),
            comp: 1
        }
    );
}
