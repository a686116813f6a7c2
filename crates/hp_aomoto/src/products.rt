//! The products of an element of degree one with the basis elements of sets without broken circuit.

ghost use Rattle.std.specs.Prelude.{◌≡◌, IfOk, All, length, suc, map};
ghost use Rattle.hp_arr.specs.Circuits.{nbc_sets_of_size};
ghost use Rattle.hp_exterior.specs.Exterior.{ext_coefficient};
ghost use Rattle.hp_os.specs.OrlikSolomon.{one_form};
ghost use Rattle.hp_sets.specs.Sets.{IsSetWithin};
ghost use Rattle.hp_aomoto.specs.ProductMatrices.{IsProductRow, IsProductMatrix};

use hp_algebra::{FiniteField, NoMem, Ring, greatest_weight};
use hp_arr::Arr;
use hp_exterior::Ext;
use hp_linear::Matrix;
use hp_os::normal_form;
use hp_sets::HSet;
use std::alloc::Global;

/// The sum of w_i e_i.
pub(crate) fn form<K: FiniteField>(
    alloc: Global,
    arr: &Arr<K>,
    weights: &[K],
) -> Result<Ext<K>, NoMem>
    requires { length weights.now ≡ length arr.now.forms }
    ensures value { IfOk result (λ x. x ≡ one_form K.ring K.numbers arr.now weights.now) }
    ensures values { All K.ring.IsValue weights.now }
{
    let _values = greatest_weight(weights);
    let mut sum = Ext::zero(alloc)?;
    for i in (0..arr.len()).rev() {
        let mut terms = Vec::new(alloc);
        terms.push((HSet::single(i + 1), weights[i as usize]))?;
        sum = Ext::from_terms(alloc, terms)?.add(alloc, &sum)?;
    }
    Ok(sum)
}

/// The coefficients at the given sets.
fn coefficients<K: FiniteField>(alloc: Global, x: &Ext<K>, sets: &[HSet]) -> Result<Vec<K>, NoMem>
    ensures { IfOk result (λ row. row.items ≡ map (λ t. ext_coefficient K.ring x.now t) sets.now) }
{
    let mut row = Vec::new(alloc);
    for j in 0..sets.len() {
        row.push(x.coeff(sets[j]))?;
    }
    Ok(row)
}

/// The coefficients of the normal form of the product with e_S at the sets of the next size.
fn product_row<K: FiniteField>(
    alloc: Global,
    arr: &Arr<K>,
    weights: &[K],
    omega: &Ext<K>,
    s: HSet,
    next: &[HSet],
    k: u32,
) -> Result<Vec<K>, NoMem>
    requires omega { omega.now ≡ one_form K.ring K.numbers arr.now weights.now }
    requires values { All K.ring.IsValue weights.now }
    requires set { IsSetWithin (length arr.now.forms) s }
    requires next { next.now ≡ nbc_sets_of_size K.ring K.numbers arr.now (suc k) }
    ensures row { IfOk result (λ row. IsProductRow K.ring K.numbers arr.now weights.now k s row.items) }
    ensures width { IfOk result (λ row. length row.items ≡ length next.now) }
{
    let _lawful = arr.len();
    let mut terms = Vec::new(alloc);
    terms.push((s, K::unit()))?;
    let unit = Ext::from_terms(alloc, terms)?;
    let product = omega.mul(alloc, &unit)?;
    let normal = normal_form(alloc, arr, &product)?;
    coefficients(alloc, &normal, next)
}

/// The products with the basis elements of the sets of size k, as the rows of a matrix.
pub(crate) fn product_matrix<K: FiniteField>(
    alloc: Global,
    arr: &Arr<K>,
    weights: &[K],
    omega: &Ext<K>,
    sets: &[HSet],
    next: &[HSet],
    k: u32,
) -> Result<Matrix<K>, NoMem>
    requires omega { omega.now ≡ one_form K.ring K.numbers arr.now weights.now }
    requires values { All K.ring.IsValue weights.now }
    requires sets { sets.now ≡ nbc_sets_of_size K.ring K.numbers arr.now k }
    requires next { next.now ≡ nbc_sets_of_size K.ring K.numbers arr.now (suc k) }
    ensures { IfOk result (λ m. IsProductMatrix K.ring K.numbers arr.now weights.now k m) }
{
    let _lawful = arr.len();
    let mut rows = Vec::new(alloc);
    for j in 0..sets.len() {
        rows.push(product_row(alloc, arr, weights, omega, sets[j], next, k)?)?;
    }
    Ok(Matrix::new(next.len(), rows))
}
