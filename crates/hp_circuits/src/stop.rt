//! Why circuits, or sets without broken circuit, are not listed.

ghost use Rattle.std.specs.Prelude.{◌≡◌};
ghost use Rattle.hp_circuits.specs.declared.stop.CircuitStop.TheVariants as circuit_stops;
ghost use Rattle.hp_circuits.specs.declared.stop.NbcStop.TheVariants as nbc_stops;

use hp_algebra::NoMem;
use std::alloc::{AllocError, AllocFailed};
use thiserror::Error;

/// So many circuits are listed, and no more.
pub const MOST_CIRCUITS: usize = 100_000;

/// So many sets without broken circuit are listed, and no more.
pub const MOST_NBC: u32 = 100_000;

// The definitions name these numbers too, as `most_circuits` and `most_nbc`.
const _: () = prove!(MOST_CIRCUITS == 100_000);

const _: () = prove!(MOST_NBC == 100_000);

/// Why the circuits of an arrangement are not listed.
#[derive(Clone, Copy, Debug, PartialEq, Eq, Error)]
pub enum CircuitStop {
    /// There are more than `MOST_CIRCUITS`.
    #[error("there are too many circuits")]
    TooMany,
    /// Memory is out.
    #[error("out of memory")]
    Memory,
}

impl From<NoMem> for CircuitStop {
    ghost from_gives = { λ _ e. e ≡ circuit_stops.Memory };

    fn from(_refusal: NoMem) -> CircuitStop {
        CircuitStop::Memory
    }
}

impl From<AllocError> for CircuitStop {
    ghost from_gives = { λ _ e. e ≡ circuit_stops.Memory };

    fn from(_refusal: AllocError) -> CircuitStop {
        CircuitStop::Memory
    }
}

impl<T: Drop> From<AllocFailed<T>> for CircuitStop {
    ghost from_gives = { λ _ e. e ≡ circuit_stops.Memory };

    fn from(_refusal: AllocFailed<T>) -> CircuitStop {
        CircuitStop::Memory
    }
}

/// Why sets without broken circuit are not listed.
#[derive(Clone, Copy, Debug, PartialEq, Eq, Error)]
pub enum NbcStop {
    /// There are more than are asked for.
    #[error("there are too many sets without broken circuit")]
    TooMany,
    /// Memory is out.
    #[error("out of memory")]
    Memory,
}

impl From<NoMem> for NbcStop {
    ghost from_gives = { λ _ e. e ≡ nbc_stops.Memory };

    fn from(_refusal: NoMem) -> NbcStop {
        NbcStop::Memory
    }
}

impl From<AllocError> for NbcStop {
    ghost from_gives = { λ _ e. e ≡ nbc_stops.Memory };

    fn from(_refusal: AllocError) -> NbcStop {
        NbcStop::Memory
    }
}

impl<T: Drop> From<AllocFailed<T>> for NbcStop {
    ghost from_gives = { λ _ e. e ≡ nbc_stops.Memory };

    fn from(_refusal: AllocFailed<T>) -> NbcStop {
        NbcStop::Memory
    }
}
