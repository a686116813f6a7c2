//! Why tokens, or a line, are no command.

ghost use Rattle.std.specs.Prelude.{◌≡◌};
ghost use Rattle.hp_script.specs.declared.fault.Fault.TheVariants.{Memory};

use hp_algebra::NoMem;
use std::alloc::{AllocError, AllocFailed};

/// Memory is out, or no command goes on with the token that has that many tokens left, itself among them.
#[derive(Drop)]
pub enum Fault {
    Memory,
    At(usize),
}

impl From<NoMem> for Fault {
    ghost from_gives = { λ _ e. e ≡ Memory };

    /// Want of memory.
    fn from(_refusal: NoMem) -> Fault {
        Fault::Memory
    }
}

impl From<AllocError> for Fault {
    ghost from_gives = { λ _ e. e ≡ Memory };

    /// Want of memory.
    fn from(_refusal: AllocError) -> Fault {
        Fault::Memory
    }
}

impl<T: Drop> From<AllocFailed<T>> for Fault {
    ghost from_gives = { λ _ e. e ≡ Memory };

    /// Want of memory.
    fn from(_refusal: AllocFailed<T>) -> Fault {
        Fault::Memory
    }
}

/// Memory is out, or the line is outside the grammar, and this is the column.
#[derive(Drop)]
pub enum LineFault {
    Memory,
    At(u32),
}
