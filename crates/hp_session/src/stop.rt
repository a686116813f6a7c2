//! What stops a command.

ghost use Rattle.std.specs.Prelude.{◌≡◌};
ghost use Rattle.hp_session.specs.Stops.{stop_of_forms, stop_of_family, stop_of_graph};
ghost use Rattle.hp_session.specs.declared.stop.Stop.TheVariants.{Memory};

use hp_algebra::NoMem;
use hp_arr::ArrFault;
use hp_build::{BuildFault, GraphFault};
use hp_render::Refusal;

/// Why a command changes nothing and is not answered.
#[derive(Drop)]
pub enum Stop {
    /// It is refused.
    Refused(Refusal),
    /// Memory is out.
    Memory,
}

impl From<NoMem> for Stop {
    ghost from_gives = { λ _ stop. stop ≡ Memory };

    fn from(_refusal: NoMem) -> Stop {
        Stop::Memory
    }
}

impl From<ArrFault> for Stop {
    ghost from_gives = { λ fault stop. stop ≡ stop_of_forms fault };

    fn from(fault: ArrFault) -> Stop {
        match fault {
            ArrFault::ZeroForm(i) => Stop::Refused(Refusal::ZeroForm(i)),
            ArrFault::Repeated(i, j) => Stop::Refused(Refusal::Repeated(i, j)),
            ArrFault::TooMany(n) => Stop::Refused(Refusal::TooMany(n)),
            ArrFault::Memory => Stop::Memory,
        }
    }
}

impl From<BuildFault> for Stop {
    ghost from_gives = { λ fault stop. stop ≡ stop_of_family fault };

    fn from(fault: BuildFault) -> Stop {
        match fault {
            BuildFault::TooMany(n) => Stop::Refused(Refusal::TooMany(n)),
            BuildFault::Memory => Stop::Memory,
        }
    }
}

impl From<GraphFault> for Stop {
    ghost from_gives = { λ fault stop. stop ≡ stop_of_graph fault };

    fn from(fault: GraphFault) -> Stop {
        match fault {
            GraphFault::BadGraph(k) => Stop::Refused(Refusal::BadGraph(k)),
            GraphFault::TooMany(n) => Stop::Refused(Refusal::TooMany(n)),
            GraphFault::Memory => Stop::Memory,
        }
    }
}
