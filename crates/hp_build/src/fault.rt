//! Why an arrangement of a family is not built.

ghost use Rattle.std.specs.Prelude.{◌≡◌};
ghost use Rattle.hp_build.specs.declared.fault.BuildFault.TheVariants.{Memory};
ghost use Rattle.hp_build.specs.declared.fault.GraphFault.TheVariants as graph;

use hp_algebra::NoMem;
use thiserror::Error;

/// Why an arrangement of a root system or of coordinates is not built.
#[derive(Clone, Copy, Debug, PartialEq, Eq, Error)]
pub enum BuildFault {
    /// There are this many forms, which are too many.
    #[error("{0} forms are too many")]
    TooMany(u32),
    /// Memory is out.
    #[error("out of memory")]
    Memory,
}

impl From<NoMem> for BuildFault {
    ghost from_gives = { λ _ e. e ≡ Memory };

    fn from(_refusal: NoMem) -> BuildFault {
        BuildFault::Memory
    }
}

/// Why the arrangement of a graph is not built.
#[derive(Clone, Copy, Debug, PartialEq, Eq, Error)]
pub enum GraphFault {
    /// This edge, counted from 1, is a loop, has an end that is no vertex, or joins what an earlier edge joins.
    #[error("edge {0} is a loop, has an end that is no vertex, or repeats an earlier edge")]
    BadGraph(u32),
    /// There are this many forms, which are too many.
    #[error("{0} forms are too many")]
    TooMany(u32),
    /// Memory is out.
    #[error("out of memory")]
    Memory,
}

impl From<NoMem> for GraphFault {
    ghost from_gives = { λ _ e. e ≡ graph.Memory };

    fn from(_refusal: NoMem) -> GraphFault {
        GraphFault::Memory
    }
}
