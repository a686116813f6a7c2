//! What an arrangement may have, and what is wrong with a list of forms.

ghost use Rattle.std.specs.Prelude.{◌≡◌};
ghost use Rattle.hp_arr.specs.declared.fault.ArrFault.TheVariants.{Memory};

use hp_algebra::NoMem;
use thiserror::Error;

/// The greatest dimension of an arrangement.
pub const MAX_DIM: u32 = 10;

/// The greatest number of its forms.
pub const MAX_FORMS: u32 = 64;

// The definitions name these numbers too, as `max_dim` and `max_forms`.
const _: () = prove!(MAX_DIM == 10);

const _: () = prove!(MAX_FORMS == 64);

/// What is wrong with a list of forms, whose numbers count from 1.
#[derive(Clone, Copy, Debug, PartialEq, Eq, Error)]
pub enum ArrFault {
    /// This form is zero.
    #[error("form {0} is zero")]
    ZeroForm(u32),
    /// These two forms are proportional.
    #[error("forms {0} and {1} are proportional")]
    Repeated(u32, u32),
    /// There are this many forms, more than `MAX_FORMS` or no fewer than the field has elements.
    #[error("{0} forms are too many")]
    TooMany(u32),
    /// Memory is out.
    #[error("out of memory")]
    Memory,
}

impl From<NoMem> for ArrFault {
    ghost from_gives = { λ _ fault. fault ≡ Memory };

    fn from(_refusal: NoMem) -> ArrFault {
        ArrFault::Memory
    }
}
