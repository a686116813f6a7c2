//! The values of expressions.

ghost use Rattle.std.specs.Prelude.{◌≡◌, ◌≤◌, None, IfOk, IfErr, OnOk, All, pos};
ghost use Rattle.hp_algebra.specs.Ring.{integer};
ghost use Rattle.hp_exterior.specs.Exterior.{generator, monomial, wedge};
ghost use Rattle.hp_os.specs.OrlikSolomon.{IsElement};
ghost use Rattle.hp_sets.specs.Sets.{IsSetWithin, with_member};
ghost use Rattle.hp_session.specs.Expressions.{AreIndices, HaveIndices, number_product, generator_product, product_value, expression_value};
ghost use Rattle.hp_session.specs.Refused.{generators_refusal, expression_refusal};
ghost use Rattle.hp_session.specs.Stops.{StopsBy};

use crate::building::index;
use crate::stop::Stop;
use hp_algebra::{FiniteField, NoMem};
use hp_arr::Arr;
use hp_exterior::Ext;
use hp_script::Product;
use hp_sets::HSet;
use std::alloc::Global;

/// The value of an expression, refused where a generator is of no hyperplane of the arrangement.
pub fn expression<K: FiniteField>(
    alloc: Global,
    arr: &Arr<K>,
    products: &[Product],
) -> Result<Ext<K>, Stop>
    ensures accepted { OnOk result (expression_refusal arr.now products.now ≡ None) }
    ensures element { IfOk result (IsElement K.ring K.numbers arr.now) }
    ensures value { IfOk result (λ x. x ≡ expression_value K.ring products.now) }
    ensures stop { IfErr result (StopsBy (expression_refusal arr.now products.now)) }
{
    let _lawful = arr.len();
    check_products(arr, products)?;
    Ok(sum(alloc, products)?)
}

/// Refuses the first generator of the products that is of no hyperplane.
fn check_products<K: FiniteField>(arr: &Arr<K>, products: &[Product]) -> Result<(), Stop>
    ensures accepted { OnOk result (expression_refusal arr.now products.now ≡ None) }
    ensures stop { IfErr result (StopsBy (expression_refusal arr.now products.now)) }
{
    let mut rest = products;
    while let Some((product, more)) = rest.split_first() {
        match check_generators(arr, product.generators.as_slice()) {
            Ok(()) => rest = more,
            Err(stop) => return Err(stop),
        }
    }
    Ok(())
}

/// Refuses the first of the generators that is of no hyperplane.
fn check_generators<K: FiniteField>(arr: &Arr<K>, generators: &[u64]) -> Result<(), Stop>
    ensures accepted { OnOk result (generators_refusal arr.now generators.now ≡ None) }
    ensures stop { IfErr result (StopsBy (generators_refusal arr.now generators.now)) }
{
    let mut rest = generators;
    while let Some((i, more)) = rest.split_first() {
        index(arr, *i)?;
        rest = more;
    }
    Ok(())
}

/// The sum of the products.
fn sum<K: FiniteField>(alloc: Global, products: &[Product]) -> Result<Ext<K>, NoMem>
    requires { HaveIndices products.now }
    ensures { IfOk result (λ x. x ≡ expression_value K.ring products.now) }
{
    let mut terms = Vec::with_capacity(alloc, products.len())?;
    let mut rest = products;
    while let Some((product, more)) = rest.split_first() {
        terms.push(term(product))?;
        rest = more;
    }
    let value = Ext::from_terms(alloc, terms)?;
    Ok(value)
}

/// A product as one term: a set and its coefficient, which may be zero.
fn term<K: FiniteField>(product: &Product) -> (HSet, K)
    requires { AreIndices product.now.generators }
    ensures value { monomial K.ring result.1 result.0 ≡ product_value K.ring product.now }
    ensures answer { K.ring.IsValue result.1 }
{
    let (set, factor) = generator_product(product.generators.as_slice());
    let number: K = number_product(product.numbers.as_slice());
    if product.negative {
        return (set, number.negate().times(factor));
    }
    (set, number.times(factor))
}

/// The wedge product of generators as one term: their set, and 0, 1 or -1.
fn generator_product<K: FiniteField>(generators: &[u64]) -> (HSet, K)
    requires { AreIndices generators.now }
    ensures value { monomial K.ring result.1 result.0 ≡ generator_product K.ring generators.now }
    ensures set { IsSetWithin 64 result.0 }
    ensures answer { K.ring.IsValue result.1 }
{
    let mut set = HSet::empty();
    let mut factor = K::unit();
    for k in (0..generators.len()).rev() {
        let i = generators[k] as u32;
        factor = factor_with(i, set, factor);
        set = set.with(i);
    }
    (set, factor)
}

/// The coefficient of e_i times c e_S, at the set of i and the members of S.
fn factor_with<K: FiniteField>(i: u32, s: HSet, c: K) -> K
    requires low { 1 ≤ i }
    requires high { i ≤ 64 }
    ensures value { monomial K.ring result (with_member s i) ≡ wedge K.ring (generator K.ring i) (monomial K.ring c s) }
    ensures answer { K.ring.IsValue result }
{
    let _zero = c.is_nil();
    if s.contains(i) {
        return K::nil();
    }
    if s.meet(HSet::first(i - 1)).len() % 2 == 0 {
        return c;
    }
    c.negate()
}

/// The product of the numbers in the field.
fn number_product<K: FiniteField>(numbers: &[u64]) -> K
    ensures value { result ≡ number_product K.ring numbers.now }
    ensures answer { K.ring.IsValue result }
{
    let mut product = K::unit();
    for k in (0..numbers.len()).rev() {
        product = element::<K>(numbers[k]).times(product);
    }
    product
}

/// The number in the field.
fn element<K: FiniteField>(n: u64) -> K
    ensures value { result ≡ integer K.ring (pos n) }
    ensures answer { K.ring.IsValue result }
{
    let half = K::from_i64((n / 2) as i64);
    half.plus(half).plus(K::from_i64((n % 2) as i64))
}
