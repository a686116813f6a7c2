//! Gröbner bases of no generators and of zero.

use hp_groebner::{Limits, groebner};
use hp_modp::{Gf, P31};
use hp_module::ModVec;
use std::test::Fail;

type K = Gf<P31>;

const LIMITS: Limits = Limits {
    pairs: 0,
    degree: 0,
};

#[test]
fn nothing_generated(rt: HostRuntime) -> Result<(), Fail> {
    let alloc = rt.alloc();
    let none: Vec<ModVec<K>> = Vec::new(alloc);
    let basis = groebner(alloc, 0, 1, none.as_slice(), &LIMITS)?;
    assert!(rt; basis.members().is_empty());
    let of_width_zero = groebner(alloc, 0, 0, none.as_slice(), &LIMITS)?;
    assert!(rt; of_width_zero.members().is_empty());
    Ok(())
}
