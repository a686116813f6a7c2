//! Why flats are not listed.

ghost use Rattle.std.specs.Prelude.{◌≡◌};
ghost use Rattle.hp_flats.specs.declared.stop.FlatStop.TheVariants.{Memory};

use hp_algebra::NoMem;
use std::alloc::{AllocError, AllocFailed};
use thiserror::Error;

/// So many flats are listed, and no more.
pub const MOST_FLATS: usize = 100_000;

// The definitions name this number too, as `most_flats`.
const _: () = prove!(MOST_FLATS == 100_000);

/// Why the flats of an arrangement are not listed.
#[derive(Clone, Copy, Debug, PartialEq, Eq, Error)]
pub enum FlatStop {
    /// There are more than `MOST_FLATS`.
    #[error("there are more than 100000 flats")]
    TooMany,
    /// Memory is out.
    #[error("out of memory")]
    Memory,
}

impl From<NoMem> for FlatStop {
    ghost from_gives = { λ _ e. e ≡ Memory };

    fn from(_refusal: NoMem) -> FlatStop {
        FlatStop::Memory
    }
}

impl From<AllocError> for FlatStop {
    ghost from_gives = { λ _ e. e ≡ Memory };

    fn from(_refusal: AllocError) -> FlatStop {
        FlatStop::Memory
    }
}

impl<T: Drop> From<AllocFailed<T>> for FlatStop {
    ghost from_gives = { λ _ e. e ≡ Memory };

    fn from(_refusal: AllocFailed<T>) -> FlatStop {
        FlatStop::Memory
    }
}
