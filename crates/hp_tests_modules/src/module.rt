//! Vectors of polynomials over the residues modulo 31, with answers worked by hand.

ghost use Rattle.std.specs.Prelude.{◌≡◌, ◌≤◌, ℕ, [], ◌∷◌, IfOk, length};
ghost use Rattle.hp_modp.specs.Residues.{residue_ring};
ghost use Rattle.hp_mono.specs.Monomials.{max_degree};
ghost use Rattle.hp_module.specs.FreeModules.{IsGraded};
ghost use Rattle.hp_module.specs.Vectors.{zero_vector};

use hp_algebra::{FiniteField, List, Module, NoMem, Ring, combine, greatest_weight};
use hp_modp::{Gf, P31};
use hp_module::{ElimOrder, Grading, ModVec, divide};
use hp_mono::Mono;
use hp_poly::Poly;
use std::alloc::Global;
use std::test::Fail;

type K = Gf<P31>;

/// Terms as coefficients with the exponents of x and y.
type Terms<'a> = &'a [(i64, u16, u16)];

/// The sum of these terms.
fn poly(alloc: Global, terms: Terms) -> Result<Poly<K>, NoMem> {
    let mut list = Vec::new(alloc);
    for (c, a, b) in terms {
        let mono = Mono::from_exps([a % 100, b % 100, 0, 0, 0, 0, 0, 0, 0, 0]);
        list.push((mono, K::from_i64(*c)))?;
    }
    Poly::from_terms(alloc, list)
}

/// The vector of these two sums.
fn vector(alloc: Global, first: Terms, second: Terms) -> Result<ModVec<K>, NoMem> {
    let entries = vec![in alloc; poly(alloc, first)?, poly(alloc, second)?]?;
    Ok(ModVec::new(entries))
}

#[test]
fn sums_and_multiples(rt: HostRuntime) -> Result<(), Fail> {
    let alloc = rt.alloc();
    let v = vector(alloc, &[(1, 1, 0)], &[(2, 0, 1)])?;
    let w = vector(alloc, &[(30, 1, 0)], &[(1, 2, 0)])?;
    assert!(rt; v.width() == w.width());
    let sum = v.m_add(alloc, &w)?.copy(alloc)?;
    assert!(rt; sum.m_equal(&vector(alloc, &[], &[(1, 2, 0), (2, 0, 1)])?));
    let x = poly(alloc, &[(3, 1, 0)])?;
    assert!(rt; x.weight() <= 100);
    assert!(rt; greatest_weight(v.entries()) <= 100);
    let multiple = v.m_scale(alloc, &x)?;
    assert!(rt; multiple.m_equal(&vector(alloc, &[(3, 2, 0)], &[(6, 1, 1)])?));
    let zero: ModVec<K> = ModVec::m_zero(alloc, 2)?;
    assert!(rt; zero.is_zero());
    let scalars: Vec<Poly<K>> = Vec::new(alloc);
    let vectors: Vec<ModVec<K>> = Vec::new(alloc);
    assert!(rt; zero.m_equal(&combine(alloc, 2, &scalars, &vectors)?));
    Ok(())
}

#[test]
fn leads_and_degrees(rt: HostRuntime) -> Result<(), Fail> {
    let alloc = rt.alloc();
    let v = vector(alloc, &[(5, 0, 1)], &[(1, 2, 0), (2, 0, 2)])?;
    assert!(rt; v.width() == 2);
    for (split, comp, coefficient) in [(1, 1, 5), (0, 2, 1)] {
        let lead = v.lead(&ElimOrder { split, width: 2 }).ok_or("none")?;
        assert_eq!(rt; (lead.0.comp, lead.1.residue()), (comp, coefficient));
    }
    for (shift, answer) in [(1, true), (2, false)] {
        let shifts = List::of(vec![in alloc; shift, 0]?);
        assert!(rt; shifts.as_slice().len() == v.width());
        assert_eq!(rt; v.is_homogeneous(&Grading { shifts }), answer);
    }
    Ok(())
}

/// The vector of these two sums, which is not zero and has terms of one low degree.
fn homogeneous(
    alloc: Global,
    first: Terms,
    second: Terms,
    order: &ElimOrder,
    grading: &Grading,
) -> Result<ModVec<K>, Fail>
    requires order { order.now.width ≡ 2 }
    requires shifts { grading.now.shifts ≡ 0 ∷ 0 ∷ [] }
    ensures width { IfOk result (λ v. length v ≡ 2) }
    ensures homogeneous { IfOk result (λ v. (d : ℕ) × (d ≤ max_degree) × IsGraded grading.now.shifts d v) }
    ensures nonzero { IfOk result (λ v. ¬ (v ≡ zero_vector (residue_ring 31) (length v))) }
{
    let v = vector(alloc, first, second)?;
    if v.width() != 2 {
        return Err("not two entries".into());
    }
    let Some(lead) = v.lead(order) else {
        return Err("zero".into());
    };
    if lead.0.mono.degree() > 100 {
        return Err("a high degree".into());
    }
    if !v.is_homogeneous(grading) {
        return Err("several degrees".into());
    }
    Ok(v)
}

/// (x y, 0) is y (x, y) less (0, y^2), which x e_1 does not divide.
#[test]
fn division(rt: HostRuntime) -> Result<(), Fail> {
    let alloc = rt.alloc();
    let grading = Grading {
        shifts: List::of(vec![in alloc; 0, 0]?),
    };
    let order = ElimOrder { split: 0, width: 2 };
    let v = homogeneous(alloc, &[(1, 1, 1)], &[], &order, &grading)?;
    let by = homogeneous(alloc, &[(1, 1, 0)], &[(1, 0, 1)], &order, &grading)?;
    let members = vec![in alloc; by]?;
    let (quotients, rest) = divide(alloc, &v, members.as_slice(), &grading, &order)?;
    let quotient = quotients.first().ok_or("none")?;
    assert!(rt; quotient.equal(&poly(alloc, &[(1, 0, 1)])?));
    assert!(rt; rest.m_equal(&vector(alloc, &[], &[(30, 0, 2)])?));
    Ok(())
}
