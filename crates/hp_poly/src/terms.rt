//! Falling lists of terms.

ghost use Rattle.std.specs.Prelude.{◌≡◌, ◌≢◌, ◌+◌, ◌≤◌, ◌↔◌, IfOk, OnOk, IsTrue, length};
ghost use Rattle.hp_mono.specs.Monomials.{degree, max_degree, vars};
ghost use Rattle.hp_sums.specs.FiniteSums.{HasValues};
ghost use Rattle.hp_poly.specs.Polynomials.{IsPoly, IsHomogeneous, coefficient_of, form_terms, poly_of, poly_plus, poly_times, poly_degree, term_poly};

use crate::order::FromGreatest;
use hp_algebra::{Field, NoMem};
use hp_mono::Mono;
use std::alloc::Global;
use std::cmp::Ordering;

/// The sum of two falling lists of terms.
pub(crate) fn merged<F: Field>(
    alloc: Global,
    left: &[(Mono, F)],
    right: &[(Mono, F)],
) -> Result<Vec<(Mono, F)>, NoMem>
    requires left { IsPoly F.ring left.now }
    requires right { IsPoly F.ring right.now }
    ensures value { IfOk result (λ r. r.items ≡ poly_plus F.ring left.now right.now) }
    ensures answer { IfOk result (λ r. IsPoly F.ring r.items) }
{
    let sum = hp_sums::merged(alloc, &FromGreatest, left, right)?;
    Ok(sum)
}

/// The sum of a falling list of terms and c m times another, by one merge.
pub(crate) fn merged_multiple<F: Field>(
    alloc: Global,
    left: &[(Mono, F)],
    c: F,
    m: Mono,
    right: &[(Mono, F)],
) -> Result<Vec<(Mono, F)>, NoMem>
    requires left { IsPoly F.ring left.now }
    requires right { IsPoly F.ring right.now }
    requires nonzero { c ≢ F.ring.zero }
    requires degrees { degree m + poly_degree F.ring right.now ≤ max_degree }
    ensures value { IfOk result (λ r. r.items ≡ poly_plus F.ring left.now (poly_times F.ring (term_poly F.ring c m) right.now)) }
    ensures answer { IfOk result (λ r. IsPoly F.ring r.items) }
{
    let _degree = m.degree();
    let _zero = c.is_nil();
    let sum = hp_sums::merged_multiple(alloc, &FromGreatest, left, c, m, right)?;
    Ok(sum)
}

/// The product of two falling lists of terms.
pub(crate) fn multiplied<F: Field>(
    alloc: Global,
    left: &[(Mono, F)],
    right: &[(Mono, F)],
) -> Result<Vec<(Mono, F)>, NoMem>
    requires left { IsPoly F.ring left.now }
    requires right { IsPoly F.ring right.now }
    requires degrees { poly_degree F.ring left.now + poly_degree F.ring right.now ≤ max_degree }
    ensures value { IfOk result (λ r. r.items ≡ poly_times F.ring left.now right.now) }
    ensures answer { IfOk result (λ r. IsPoly F.ring r.items) }
{
    let mut sum = Vec::new(alloc);
    let mut rest = left;
    while let Some((t, more)) = rest.split_first() {
        sum = merged_multiple(alloc, sum.as_slice(), t.1, t.0, right)?;
        rest = more;
    }
    Ok(sum)
}

/// The sum of any terms: equal monomials are added, and zeros left out.
pub(crate) fn collected<F: Field>(
    alloc: Global,
    terms: &[(Mono, F)],
) -> Result<Vec<(Mono, F)>, NoMem>
    ensures values { OnOk result (HasValues F.ring terms.now) }
    ensures value { IfOk result (λ r. r.items ≡ poly_of F.ring terms.now) }
    ensures answer { IfOk result (λ r. IsPoly F.ring r.items) }
{
    let sum = hp_sums::collected_terms(alloc, &FromGreatest, terms)?;
    Ok(sum)
}

/// The terms c_i x_i.
pub(crate) fn terms_of_form<F: Field>(alloc: Global, form: &[F]) -> Result<Vec<(Mono, F)>, NoMem>
    requires { length form.now ≤ vars }
    ensures { IfOk result (λ r. r.items ≡ form_terms F.ring form.now) }
{
    let mut out = Vec::new(alloc);
    let mut rest = form;
    let mut i = 1;
    while let Some((c, more)) = rest.split_first() {
        out.push((Mono::var(i), *c))?;
        rest = more;
        i += 1;
    }
    Ok(out)
}

/// The coefficient of a monomial in a falling list of terms.
pub(crate) fn coefficient<F: Field>(terms: &[(Mono, F)], m: &Mono) -> F
    requires { IsPoly F.ring terms.now }
    ensures { result ≡ coefficient_of F.ring terms.now m.now }
{
    let mut rest = terms;
    while let Some((t, more)) = rest.split_first() {
        match t.0.grevlex(m) {
            Ordering::Greater => rest = more,
            Ordering::Equal => return t.1,
            Ordering::Less => return F::nil(),
        }
    }
    F::nil()
}

/// Whether all monomials have this degree.
pub(crate) fn have_degree<F: Field>(terms: &[(Mono, F)], degree: u32) -> bool
    ensures { IsTrue result ↔ IsHomogeneous F.ring degree terms.now }
{
    terms.iter().all(|t| t.0.degree() == degree)
}
