//! The limits of a Gröbner basis, and why there is none.

ghost use Rattle.std.specs.Prelude.{◌≡◌};
ghost use Rattle.hp_groebner.specs.declared.limits.Stop.TheVariants as stops;

use hp_algebra::NoMem;
use std::alloc::{AllocError, AllocFailed};
use thiserror::Error;

/// The greatest limits.
pub const MOST_PAIRS: u32 = 1_000_000;

pub const MOST_DEGREE: u32 = 240;

// The contracts name these numbers too.
const _: () = prove!(MOST_PAIRS == 1_000_000);

const _: () = prove!(MOST_DEGREE == 240);

/// How many critical pairs the least leads may have, and which degree the least common multiple of a pair.
#[derive(Clone, Copy, Debug, PartialEq, Eq)]
pub struct Limits {
    pub pairs: u32,
    pub degree: u32,
}

/// Why there is no basis.
#[derive(Clone, Copy, Debug, PartialEq, Eq, Error)]
pub enum Stop {
    /// At the first degree at which a limit is passed, the least leads have too many critical pairs.
    #[error("there are too many critical pairs")]
    Pairs,
    /// At this degree they have not, but the least common multiple of a pair has too high a degree.
    #[error("the degree of a critical pair is too high")]
    Degree,
    /// Memory is out.
    #[error("out of memory")]
    Memory,
}

impl From<NoMem> for Stop {
    ghost from_gives = { λ _ e. e ≡ stops.Memory };

    fn from(_refusal: NoMem) -> Stop {
        Stop::Memory
    }
}

impl From<AllocError> for Stop {
    ghost from_gives = { λ _ e. e ≡ stops.Memory };

    fn from(_refusal: AllocError) -> Stop {
        Stop::Memory
    }
}

impl<T: Drop> From<AllocFailed<T>> for Stop {
    ghost from_gives = { λ _ e. e ≡ stops.Memory };

    fn from(_refusal: AllocFailed<T>) -> Stop {
        Stop::Memory
    }
}
