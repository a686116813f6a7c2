//! The order that terms of a first module induce on the terms of another.

ghost use Rattle.std.specs.Prelude.{◌≡◌, ◌+◌, ◌≤◌, length};
ghost use Rattle.hp_mono.specs.Monomials.{IsMonomial, degree, grevlex, max_degree, product};
ghost use Rattle.hp_syzygy.specs.ChainOrders.{IsChain, by_last, chain_order, full, top_of};
ghost use Rattle.hp_syzygy.specs.ChainLaws.{chain-is_order};

use hp_mono::{MAX_DEGREE, Mono, Term, TermOrder, VARS};
use std::cmp::Ordering;
use std::marker::Model;

/// An order on the terms of a module each of whose components stands for a term of a first module, its top. A term stands
/// for its monomial times the top of its component. Terms are compared as what they stand for, in grevlex, and where this is
/// the same by the ranks of their components.
#[derive(Drop)]
pub struct SchreyerOrder {
    width: usize,
    tops: Vec<Term>,
    ranks: Vec<usize>,
}

impl Model for SchreyerOrder {
    ghost use Rattle.hp_syzygy.specs.ChainOrders.{Chain, IsChain};

    ghost Value = { Chain };

    ghost view = { λ o. record { width = o.width; tops = o.tops.items; ranks = o.ranks.items } };

    ghost invariant = { λ o. IsChain (record { width = o.width; tops = o.tops.items; ranks = o.ranks.items }) };
}

impl SchreyerOrder {
    /// The order with these tops, terms of a module of this width, and these ranks, one for each top and all different.
    /// Takes no memory.
    pub fn new(width: usize, tops: Vec<Term>, ranks: Vec<usize>) -> SchreyerOrder
        requires { IsChain (record { width = width; tops = tops.items; ranks = ranks.items }) }
        ensures { result ≡ record { width = width; tops = tops.items; ranks = ranks.items } }
    {
        SchreyerOrder { width, tops, ranks }
    }

    /// How many components the first module has.
    pub fn first_width(&self) -> usize
        ensures value { result ≡ self.now.width }
        ensures of { IsChain self.now }
    {
        self.width
    }

    /// The tops of the components.
    pub fn tops(&self) -> &[Term]
        ensures value { result.now ≡ self.now.tops }
        ensures of { IsChain self.now }
    {
        self.tops.as_slice()
    }

    /// The ranks of the components.
    pub fn ranks(&self) -> &[usize]
        ensures value { result.now ≡ self.now.ranks }
        ensures of { IsChain self.now }
    {
        self.ranks.as_slice()
    }
}

impl SchreyerOrder {
    /// The term of the first module that a term stands for, of degree at most `MAX_DEGREE`.
    pub fn full(&self, a: &Term) -> Term
        requires counted { 1 ≤ a.now.comp }
        requires within { a.now.comp ≤ length self.now.tops }
        requires low { degree a.now.mono + degree (top_of self.now a.now.comp).mono ≤ max_degree }
        ensures value { result ≡ full self.now a.now }
    {
        let top = self.tops[a.comp - 1];
        Term {
            mono: a.mono.product(&top.mono),
            comp: top.comp,
        }
    }
}

impl TermOrder for SchreyerOrder {
    ghost IsValue = { λ o. IsChain o };

    ghost components = { λ o. length o.tops };

    ghost order = { λ o. chain_order o };

    fn width(&self) -> usize {
        self.tops().len()
    }

    fn cmp(&self, a: &Term, b: &Term) -> Ordering {
        let tops = self.tops();
        let s = tops[a.comp - 1];
        let t = tops[b.comp - 1];
        compare_products(&a.mono, &s.mono, &b.mono, &t.mono)
            .then(t.comp.cmp(&s.comp))
            .then(self.ranks[a.comp - 1].cmp(&self.ranks[b.comp - 1]))
    }

    ghost lawful = { λ o v. chain-is_order o v };
}

/// How a s and b t compare in grevlex. No product of a degree above `MAX_DEGREE` is formed: there the sums of the exponents
/// are compared as numbers.
fn compare_products(a: &Mono, s: &Mono, b: &Mono, t: &Mono) -> Ordering
    ensures { result ≡ grevlex (product a.now s.now) (product b.now t.now) }
{
    let left = a.degree() + s.degree();
    let right = b.degree() + t.degree();
    if left <= MAX_DEGREE && right <= MAX_DEGREE {
        return a.product(s).grevlex(&b.product(t));
    }
    let of_left = exponent_sums(a, s);
    let of_right = exponent_sums(b, t);
    left.cmp(&right).then(compare_by_last(&of_right, &of_left))
}

/// The exponents of the product of two monomials, whatever its degree.
pub(crate) fn exponent_sums(a: &Mono, s: &Mono) -> [u32; VARS]
    requires left { IsMonomial a.now }
    requires right { IsMonomial s.now }
    ensures { result ≡ product a.now s.now }
{
    let mut sums = [0; VARS];
    for i in 0..VARS {
        sums[i] = u32::from(a.exp(i as u32 + 1)) + u32::from(s.exp(i as u32 + 1));
    }
    sums
}

/// How two lists of as many numbers compare, where the last number that differs decides.
pub(crate) fn compare_by_last(a: &[u32], b: &[u32]) -> Ordering
    requires { length a.now ≡ length b.now }
    ensures { result ≡ by_last a.now b.now }
{
    for i in (0..a.len()).rev() {
        if a[i] != b[i] {
            return a[i].cmp(&b[i]);
        }
    }
    Ordering::Equal
}
