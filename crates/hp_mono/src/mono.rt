//! Monomials in two words.

ghost use Rattle.std.specs.Prelude.{◌≡◌, ◌+◌, ◌^◌, ◌≤◌, ◌<◌, ◌↔◌, [], ◌∷◌, IsTrue, IfSome, IfNone, Some, nat_eq, slice_get, sum};
ghost use Rattle.std.specs.Cmp.{partial_equiv_from_equiv};
ghost use Rattle.std.specs.Cmp.Lexicographic.{pointwise, nat_list_eq_equiv};
ghost use Rattle.hp_mono.specs.Monomials.{Divides, IsMonomialUpTo, cofactor, degree, exponent, grevlex, lcm, max_degree, one, product, variable, vars};
ghost use Rattle.hp_mono.specs.Digits.{five_digits, from_digits, EachAtMost};

use std::cmp::Ordering;
use std::marker::Model;

/// How many variables there are.
pub const VARS: usize = 10;

/// The greatest degree of a monomial.
pub const MAX_DEGREE: u32 = 4000;

// The definitions name these numbers too, as `vars` and `max_degree`.
const _: () = prove!(VARS == 10);

const _: () = prove!(MAX_DEGREE == 4000);

/// The word whose five digits are 1.
const EACH_DIGIT: u64 = 0x1001001001001;

/// The lowest bit above each digit of a word.
const BORROWS: u64 = 1 << 12 | 1 << 24 | 1 << 36 | 1 << 48 | 1 << 60;

/// A monomial of degree at most `MAX_DEGREE`, seen as the list of its `VARS` exponents.
///
/// The exponents are digits in base 4096: those of x_1 to x_5 of the word `low`, the first the lowest, and those of x_6
/// to x_10 of the word `high`. The sum of all digits is below 4096, so sums and differences of words carry nothing from
/// one exponent to the next, two words of one degree compare as their last exponents do, and the degree is a digit of
/// one product. Keeping it beside the words would make the struct half as large again.
#[derive(Clone, Copy, Debug)]
pub struct Mono {
    low: u64,
    high: u64,
}

impl Model for Mono {
    ghost use Rattle.std.specs.Prelude.{◌≤◌};
    ghost use Rattle.hp_mono.specs.Monomials.{Monomial, degree, max_degree};
    ghost use Rattle.hp_mono.specs.Digits.{exponents_of, low_word, high_word, low_word-exponents_of, high_word-exponents_of};

    ghost Value = { Monomial };

    ghost view = { λ m. exponents_of m.low m.high };

    ghost invariant = { λ m. degree (exponents_of m.low m.high) ≤ max_degree };

    ghost inverse = { λ l. record { low = low_word l; high = high_word l } };

    ghost inverse_ok = { λ m h i. record { low = low_word-exponents_of m.low m.high i; high = high_word-exponents_of m.low m.high i } };
}

impl PartialEq for Mono {
    ghost eq = { pointwise nat_eq };

    ghost laws = { partial_equiv_from_equiv nat_list_eq_equiv };

    fn eq(&self, other: &Mono) -> bool
        ensures value { result ≡ pointwise nat_eq self.now other.now }
        ensures same { IsTrue result ↔ (self.now ≡ other.now) }
    {
        self.low == other.low && self.high == other.high
    }
}

impl Eq for Mono {
    ghost laws = { nat_list_eq_equiv };
}

impl Mono {
    /// The monomial 1.
    pub fn one() -> Mono
        ensures answer { IsMonomialUpTo max_degree result }
        ensures value { result ≡ one }
    {
        Mono { low: 0, high: 0 }
    }

    /// The variable x_i.
    pub fn var(i: u32) -> Mono
        requires counted { 1 ≤ i }
        requires within { i ≤ vars }
        ensures answer { IsMonomialUpTo max_degree result }
        ensures value { result ≡ variable i }
    {
        let mut exps = [0; VARS];
        exps[i as usize - 1] = 1;
        Mono::from_exps(exps)
    }

    /// The monomial with these exponents, whose sum is at most `MAX_DEGREE`.
    pub fn from_exps(e: [u16; VARS]) -> Mono
        requires { sum e ≤ max_degree }
        ensures answer { IsMonomialUpTo max_degree result }
        ensures value { result ≡ e }
    {
        let low = word(e[0], e[1], e[2], e[3], e[4]);
        let high = word(e[5], e[6], e[7], e[8], e[9]);
        Mono { low, high }
    }

    /// The exponent of x_i.
    pub fn exp(&self, i: u32) -> u16
        requires counted { 1 ≤ i }
        requires within { i ≤ vars }
        ensures of { IsMonomialUpTo max_degree self.now }
        ensures value { result ≡ exponent self.now i }
    {
        if i <= 5 {
            digit(self.low, i - 1)
        } else {
            digit(self.high, i - 6)
        }
    }

    /// The degree.
    pub fn degree(&self) -> u32
        ensures of { IsMonomialUpTo max_degree self.now }
        ensures value { result ≡ degree self.now }
    {
        // the digit at place 4 is the sum of all, and no sum below it reaches 4096
        let sums = (self.low + self.high).wrapping_mul(EACH_DIGIT);
        ((sums >> 48) % 4096) as u32
    }

    /// Whether some monomial times this one is the other.
    pub fn divides(&self, other: &Mono) -> bool
        ensures left { IsMonomialUpTo max_degree self.now }
        ensures right { IsMonomialUpTo max_degree other.now }
        ensures value { IsTrue result ↔ Divides self.now other.now }
    {
        digits_at_most(self.low, other.low) && digits_at_most(self.high, other.high)
    }

    /// The least common multiple, of degree at most `MAX_DEGREE`.
    pub fn lcm(&self, other: &Mono) -> Mono
        requires { degree (lcm self.now other.now) ≤ max_degree }
        ensures left { IsMonomialUpTo max_degree self.now }
        ensures right { IsMonomialUpTo max_degree other.now }
        ensures answer { IsMonomialUpTo max_degree result }
        ensures value { result ≡ lcm self.now other.now }
    {
        Mono {
            low: greater_digits(self.low, other.low),
            high: greater_digits(self.high, other.high),
        }
    }

    /// The product, of degree at most `MAX_DEGREE`.
    pub fn product(&self, other: &Mono) -> Mono
        requires { degree self.now + degree other.now ≤ max_degree }
        ensures left { IsMonomialUpTo max_degree self.now }
        ensures right { IsMonomialUpTo max_degree other.now }
        ensures answer { IsMonomialUpTo max_degree result }
        ensures value { result ≡ product self.now other.now }
        ensures degrees { degree result ≡ degree self.now + degree other.now }
    {
        Mono {
            low: self.low + other.low,
            high: self.high + other.high,
        }
    }

    /// The monomial that times the other is this one, and none where the other doesn't divide this one.
    pub fn quotient(&self, by: &Mono) -> Option<Mono>
        ensures left { IsMonomialUpTo max_degree self.now }
        ensures right { IsMonomialUpTo max_degree by.now }
        ensures answer { IfSome result (IsMonomialUpTo max_degree) }
        ensures some { IfSome result (λ q. product q by.now ≡ self.now) }
        ensures none { IfNone result (¬ (Divides by.now self.now)) }
    {
        if by.divides(self) {
            Some(self.without(by))
        } else {
            None
        }
    }

    /// What the least common multiple with the other, of degree at most `MAX_DEGREE`, has more than this one.
    pub fn cofactor(&self, other: &Mono) -> Mono
        requires { degree (lcm self.now other.now) ≤ max_degree }
        ensures left { IsMonomialUpTo max_degree self.now }
        ensures right { IsMonomialUpTo max_degree other.now }
        ensures answer { IsMonomialUpTo max_degree result }
        ensures value { result ≡ cofactor self.now other.now }
    {
        self.lcm(other).without(self)
    }

    /// The monomial that times a divisor of this one is this one.
    fn without(&self, divisor: &Mono) -> Mono
        requires { Divides divisor.now self.now }
        ensures answer { IsMonomialUpTo max_degree result }
        ensures value { product result divisor.now ≡ self.now }
    {
        Mono {
            low: self.low - divisor.low,
            high: self.high - divisor.high,
        }
    }

    /// The order by degree, and then by the last exponent that differs: the smaller is the greater monomial.
    pub fn grevlex(&self, other: &Mono) -> Ordering
        ensures left { IsMonomialUpTo max_degree self.now }
        ensures right { IsMonomialUpTo max_degree other.now }
        ensures value { result ≡ grevlex self.now other.now }
    {
        if self.low == other.low && self.high == other.high {
            return Ordering::Equal;
        }
        self.degree()
            .cmp(&other.degree())
            .then(other.high.cmp(&self.high))
            .then(other.low.cmp(&self.low))
    }
}

/// The word with these digits, the first the lowest.
fn word(a: u16, b: u16, c: u16, d: u16, e: u16) -> u64
    requires first { a < 4096 }
    requires second { b < 4096 }
    requires third { c < 4096 }
    requires fourth { d < 4096 }
    requires fifth { e < 4096 }
    ensures { result ≡ from_digits (a ∷ b ∷ c ∷ d ∷ e ∷ []) }
{
    let upper = u64::from(d) + 4096 * u64::from(e);
    u64::from(a) + 4096 * (u64::from(b) + 4096 * (u64::from(c) + 4096 * upper))
}

/// The digit at a place from 0 to 4.
fn digit(word: u64, place: u32) -> u16
    requires fits { word < 2 ^ 60 }
    requires counted { place < 5 }
    ensures { slice_get (five_digits word) place ≡ Some result }
{
    let rest = match place {
        0 => word,
        1 => word / 4096,
        2 => word / 4096 / 4096,
        3 => word / 4096 / 4096 / 4096,
        _ => word / 4096 / 4096 / 4096 / 4096,
    };
    (rest % 4096) as u16
}

/// Whether each digit of a word is at most that of another: no digit of the difference borrows from the next.
fn digits_at_most(a: u64, b: u64) -> bool
    requires left { a < 2 ^ 60 }
    requires right { b < 2 ^ 60 }
    ensures { IsTrue result ↔ EachAtMost (five_digits a) (five_digits b) }
{
    (b.wrapping_sub(a) ^ a ^ b) & BORROWS == 0
}

/// The word that has at each place the greater digit of two words.
fn greater_digits(a: u64, b: u64) -> u64
    requires left { a < 2 ^ 60 }
    requires right { b < 2 ^ 60 }
    ensures value { five_digits result ≡ lcm (five_digits a) (five_digits b) }
    ensures bound { result < 2 ^ 60 }
{
    word(
        digit(a, 0).max(digit(b, 0)),
        digit(a, 1).max(digit(b, 1)),
        digit(a, 2).max(digit(b, 2)),
        digit(a, 3).max(digit(b, 3)),
        digit(a, 4).max(digit(b, 4)),
    )
}
