//! Sums of products of numbers and generators.

ghost use Rattle.std.specs.Prelude.{◌≡◌, ◌<◌, ◌≤◌, length, IfOk, Some, None, filter_map};
ghost use Rattle.hp_script.specs.Reading.{Reads, ReadsBy, LeavesFewer, starts, is_sign, factor_at, later_factor_at, later_factors_at, factors_at, later_at, laters_at, lead_at, expression_at, with_front, generator_in, index_in, sign_in, token_at, product_from, number_of_factor, index_of_factor};

use crate::command::Product;
use crate::digits::{is_index, number_of};
use crate::fault::Fault;
use crate::numbers::{begins, symbol};
use crate::token::Token;
use hp_algebra::{List, NoMem};
use std::alloc::Global;

/// A factor of a product: a number, or the generator of that index.
#[derive(Clone, Copy, Drop)]
pub enum Factor {
    Coefficient(u64),
    Generator(u64),
}

impl Factor {
    /// The number, of a factor that is one.
    fn number(self) -> Option<u64>
        ensures { result ≡ number_of_factor self }
    {
        match self {
            Factor::Coefficient(n) => Some(n),
            Factor::Generator(_) => None,
        }
    }

    /// The index, of a factor that is a generator.
    fn index(self) -> Option<u64>
        ensures { result ≡ index_of_factor self }
    {
        match self {
            Factor::Coefficient(_) => None,
            Factor::Generator(k) => Some(k),
        }
    }
}

/// The number that one to ten digits spell.
fn index(digits: &[u8]) -> Option<u64>
    ensures { result ≡ index_in digits.now }
{
    if is_index(digits) {
        Some(number_of(digits))
    } else {
        None
    }
}

/// The generator that a word names: the letter `e` and its index.
fn generator(word: &[u8]) -> Option<Factor>
    ensures { result ≡ generator_in word.now }
{
    match word {
        [b'e', digits @ ..] => match index(digits) {
            Some(n) => Some(Factor::Generator(n)),
            None => None,
        },
        _ => None,
    }
}

/// A factor.
fn one_factor(tokens: &[Token]) -> Result<(Factor, &[Token]), Fault>
    ensures given { Reads result (factor_at tokens.now) }
    ensures shorter { LeavesFewer result tokens.now }
{
    match tokens {
        [Token::Number(first), rest @ ..] => Ok((Factor::Coefficient(first.value()), rest)),
        [Token::Word(first), rest @ ..] => match generator(first.bytes()) {
            Some(factor) => Ok((factor, rest)),
            None => Err(Fault::At(tokens.len())),
        },
        _ => Err(Fault::At(tokens.len())),
    }
}

/// `*` and a factor.
fn later_factor(tokens: &[Token]) -> Result<(Factor, &[Token]), Fault>
    ensures given { Reads result (later_factor_at tokens.now) }
    ensures shorter { LeavesFewer result tokens.now }
{
    let rest = symbol(tokens, b'*')?;
    one_factor(rest)
}

/// The factors before, and those that follow behind `*`.
fn later_factors(
    mut factors: Vec<Factor>,
    tokens: &[Token],
) -> Result<(Vec<Factor>, &[Token]), Fault>
    ensures given { ReadsBy (λ v. v.items) result (with_front factors.items (later_factors_at tokens.now)) }
    ensures no_longer { IfOk result (λ x. length x.1.now ≤ length tokens.now) }
{
    let mut rest = tokens;
    'more: while begins(rest, b'*') {
        let (factor, after) = later_factor(rest)?;
        factors.push(factor)?;
        rest = after;
    }
    Ok((factors, rest))
}

/// Factors with `*` between them, one or more.
fn factors(alloc: Global, tokens: &[Token]) -> Result<(Vec<Factor>, &[Token]), Fault>
    ensures given { ReadsBy (λ v. v.items) result (factors_at tokens.now) }
    ensures shorter { LeavesFewer result tokens.now }
{
    let (first, rest) = one_factor(tokens)?;
    let mut factors = Vec::new(alloc);
    factors.push(first)?;
    later_factors(factors, rest)
}

/// The numbers among the factors, in order.
fn numbers_of(alloc: Global, factors: &[Factor]) -> Result<Vec<u64>, NoMem>
    ensures { IfOk result (λ v. v.items ≡ filter_map number_of_factor factors.now) }
{
    Ok(factors.iter().filter_map(|f| f.number()).collect(alloc)?)
}

/// The indices of the generators among the factors, in order.
fn indices_of(alloc: Global, factors: &[Factor]) -> Result<Vec<u64>, NoMem>
    ensures { IfOk result (λ v. v.items ≡ filter_map index_of_factor factors.now) }
{
    Ok(factors.iter().filter_map(|f| f.index()).collect(alloc)?)
}

/// The product of the factors, negated or not.
fn product_of(alloc: Global, negative: bool, factors: &[Factor]) -> Result<Product, NoMem>
    ensures { IfOk result (λ p. p ≡ product_from negative factors.now) }
{
    let numbers = List::of(numbers_of(alloc, factors)?);
    let generators = List::of(indices_of(alloc, factors)?);
    Ok(Product {
        negative,
        numbers,
        generators,
    })
}

/// Whether the first token is `+` or `-`.
fn starts_sign(tokens: &[Token]) -> bool
    ensures { result ≡ starts is_sign tokens.now }
{
    match tokens {
        [Token::Symbol(b'+' | b'-'), ..] => true,
        _ => false,
    }
}

/// `+` or `-`: whether it is `-`.
fn sign(tokens: &[Token]) -> Result<(bool, &[Token]), Fault>
    ensures given { Reads result (token_at sign_in tokens.now) }
    ensures shorter { LeavesFewer result tokens.now }
{
    match tokens {
        [Token::Symbol(b'-'), rest @ ..] => Ok((true, rest)),
        [Token::Symbol(b'+'), rest @ ..] => Ok((false, rest)),
        _ => Err(Fault::At(tokens.len())),
    }
}

/// A sign, and a product that it negates or not.
fn later_product(alloc: Global, tokens: &[Token]) -> Result<(Product, &[Token]), Fault>
    ensures given { Reads result (later_at tokens.now) }
    ensures shorter { LeavesFewer result tokens.now }
{
    let (negative, rest) = sign(tokens)?;
    let (factors, rest) = factors(alloc, rest)?;
    let product = product_of(alloc, negative, &factors)?;
    Ok((product, rest))
}

/// The products before, and those that follow behind a sign.
fn later_products(
    alloc: Global,
    mut products: Vec<Product>,
    tokens: &[Token],
) -> Result<(Vec<Product>, &[Token]), Fault>
    ensures given { ReadsBy (λ v. v.items) result (with_front products.items (laters_at tokens.now)) }
{
    let mut rest = tokens;
    'more: while starts_sign(rest) {
        let (product, after) = later_product(alloc, rest)?;
        products.push(product)?;
        rest = after;
    }
    Ok((products, rest))
}

/// Whether `-` stands before the first product; it need not.
fn lead(tokens: &[Token]) -> Result<(bool, &[Token]), Fault>
    ensures given { Reads result (lead_at tokens.now) }
{
    if begins(tokens, b'-') {
        let rest = symbol(tokens, b'-')?;
        Ok((true, rest))
    } else {
        Ok((false, tokens))
    }
}

/// Products with `+` or `-` between them, and `-` before the first or not.
pub fn expression(alloc: Global, tokens: &[Token]) -> Result<(List<Product>, &[Token]), Fault>
    ensures given { Reads result (expression_at tokens.now) }
{
    let (negative, rest) = lead(tokens)?;
    let (factors, rest) = factors(alloc, rest)?;
    let mut products = Vec::new(alloc);
    products.push(product_of(alloc, negative, &factors)?)?;
    let (products, rest) = later_products(alloc, products, rest)?;
    Ok((List::of(products), rest))
}
