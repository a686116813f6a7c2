//! The fields that a script may choose.

ghost use Rattle.std.specs.Prelude.{◌≡◌, ◌==◌, false, IfSome, IsNone};
ghost use Rattle.std.specs.List.{list_any};
ghost use Rattle.hp_modp.specs.Primes.{listed_primes};
ghost use Rattle.hp_session.specs.Steps.{prime_of};

/// A field, by its prime.
#[derive(Clone, Copy, Debug, PartialEq, Eq)]
pub enum Which {
    P5,
    P7,
    P13,
    P31,
    P101,
    P251,
    P32003,
}

impl Which {
    /// The field with this many elements. None exactly where the number is not listed.
    pub fn of(p: u64) -> Option<Which>
        ensures prime { IfSome result (λ which. prime_of which ≡ p) }
        ensures none { IsNone result → list_any (λ q. q == p) listed_primes ≡ false }
    {
        match p {
            5 => Some(Which::P5),
            7 => Some(Which::P7),
            13 => Some(Which::P13),
            31 => Some(Which::P31),
            101 => Some(Which::P101),
            251 => Some(Which::P251),
            32003 => Some(Which::P32003),
            _ => None,
        }
    }
}
