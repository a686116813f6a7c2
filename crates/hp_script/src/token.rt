//! What a line is cut into.

ghost use Rattle.std.specs.Prelude.{◌≡◌, ◌<◌, ℕ};

use crate::name::Name;
use std::marker::Model;

/// A number of ten digits or fewer.
#[derive(Drop)]
pub struct Number {
    value: u64,
}

impl Model for Number {
    ghost Value = { ℕ };

    ghost view = { λ n. n.value };

    ghost invariant = { λ n. n.value < 10000000000 };
}

impl Number {
    /// The number of that value.
    pub fn new(value: u64) -> Number
        requires { value < 10000000000 }
        ensures { result ≡ value }
    {
        Number { value }
    }

    /// The number.
    pub fn value(&self) -> u64
        ensures same { result ≡ self.now }
        ensures short { result < 10000000000 }
    {
        self.value
    }
}

/// A token of a line.
#[derive(Drop)]
pub enum Token {
    /// A letter, followed by letters, digits and `_`.
    Word(Name),
    /// One to ten digits.
    Number(Number),
    /// One of `[`, `]`, `,`, `=`, `+`, `-`, `*`.
    Symbol(u8),
    /// Any other byte, or a run of more than ten digits: it fits no place.
    Misfit,
}
