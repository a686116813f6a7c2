//! The primes that a field may be made of, as types.

ghost use Rattle.std.specs.Prelude.{ℕ, ◌≤◌, ◌<◌, ◌^◌, ◌↔◌, IsTrue, Contains};
ghost use Rattle.std.proofs.Common.{lit≤, lit<};
ghost use Rattle.hp_modp.specs.Primes.{IsPrime, listed_primes};
ghost use Rattle.hp_modp.specs.PrimeTests.{prime_5, prime_7, prime_13, prime_31, prime_101, prime_251, prime_32003};

/// A type that stands for a prime from 5 up to 2^31.
pub trait Modulus: Copy {
    ghost P: { ℕ };

    /// The prime.
    const P: u32;

    /// It is one.
    ghost prime: { IsPrime P };

    /// It is at least 5 and below 2^31.
    ghost range: { (5 ≤ P) × (P < 2 ^ 31) };
}

/// The prime 5.
#[derive(Clone, Copy)]
pub struct P5;

impl Modulus for P5 {
    ghost P = { 5 };

    const P: u32 = 5;

    ghost prime = { prime_5 };

    ghost range = { (lit≤ tt, lit< tt) };
}

/// The prime 7.
#[derive(Clone, Copy)]
pub struct P7;

impl Modulus for P7 {
    ghost P = { 7 };

    const P: u32 = 7;

    ghost prime = { prime_7 };

    ghost range = { (lit≤ tt, lit< tt) };
}

/// The prime 13.
#[derive(Clone, Copy)]
pub struct P13;

impl Modulus for P13 {
    ghost P = { 13 };

    const P: u32 = 13;

    ghost prime = { prime_13 };

    ghost range = { (lit≤ tt, lit< tt) };
}

/// The prime 31.
#[derive(Clone, Copy)]
pub struct P31;

impl Modulus for P31 {
    ghost P = { 31 };

    const P: u32 = 31;

    ghost prime = { prime_31 };

    ghost range = { (lit≤ tt, lit< tt) };
}

/// The prime 101.
#[derive(Clone, Copy)]
pub struct P101;

impl Modulus for P101 {
    ghost P = { 101 };

    const P: u32 = 101;

    ghost prime = { prime_101 };

    ghost range = { (lit≤ tt, lit< tt) };
}

/// The prime 251.
#[derive(Clone, Copy)]
pub struct P251;

impl Modulus for P251 {
    ghost P = { 251 };

    const P: u32 = 251;

    ghost prime = { prime_251 };

    ghost range = { (lit≤ tt, lit< tt) };
}

/// The prime 32003.
#[derive(Clone, Copy)]
pub struct P32003;

impl Modulus for P32003 {
    ghost P = { 32003 };

    const P: u32 = 32003;

    ghost prime = { prime_32003 };

    ghost range = { (lit≤ tt, lit< tt) };
}

/// Whether the number is one of the seven primes 5, 7, 13, 31, 101, 251 and 32003.
pub fn listed(p: u64) -> bool
    ensures { IsTrue result ↔ Contains listed_primes p }
{
    matches!(p, 5 | 7 | 13 | 31 | 101 | 251 | 32003)
}
