//! Why the dimensions are not told.

ghost use Rattle.std.specs.Prelude.{◌≡◌};
ghost use Rattle.hp_aomoto.specs.declared.stop.AomotoStop.TheVariants as aomoto_stops;

use hp_algebra::NoMem;
use std::alloc::{AllocError, AllocFailed};
use thiserror::Error;

/// So many sets without broken circuit of one size are worked with, and no more.
pub const MOST_SETS: u32 = 1_000;

// The contracts name this number too.
const _: () = prove!(MOST_SETS == 1_000);

/// Why the dimensions are not told.
#[derive(Clone, Copy, Debug, PartialEq, Eq, Error)]
pub enum AomotoStop {
    /// There are more than 1,000 sets without broken circuit of one size.
    #[error("there are too many sets without broken circuit")]
    TooMany,
    /// Memory is out.
    #[error("out of memory")]
    Memory,
}

impl From<NoMem> for AomotoStop {
    ghost from_gives = { λ _ e. e ≡ aomoto_stops.Memory };

    fn from(_refusal: NoMem) -> AomotoStop {
        AomotoStop::Memory
    }
}

impl From<AllocError> for AomotoStop {
    ghost from_gives = { λ _ e. e ≡ aomoto_stops.Memory };

    fn from(_refusal: AllocError) -> AomotoStop {
        AomotoStop::Memory
    }
}

impl<T: Drop> From<AllocFailed<T>> for AomotoStop {
    ghost from_gives = { λ _ e. e ≡ aomoto_stops.Memory };

    fn from(_refusal: AllocFailed<T>) -> AomotoStop {
        AomotoStop::Memory
    }
}
