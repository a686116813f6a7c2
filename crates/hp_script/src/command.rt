//! The commands of a script.

ghost use Rattle.std.specs.Prelude.{◌≡◌};
ghost use Rattle.hp_script.specs.declared.command.ScriptFault.TheVariants.{Memory};

use crate::name::{Name, Row};
use hp_algebra::List;
use std::alloc::{AllocError, AllocFailed};
use thiserror::Error;

/// A product of numbers and generators, negated where `negative` is true.
///
/// Each list holds the factors of its kind in the order written.
#[derive(Drop)]
pub struct Product {
    pub negative: bool,
    pub numbers: List<u64>,
    /// The indices of the generators.
    pub generators: List<u64>,
}

/// What a `let` builds.
#[derive(Drop)]
pub enum Build {
    /// The forms with those rows of coefficients, in that many variables.
    Forms(u64, List<Row>),
    /// The reflection arrangement of type A and that rank.
    TypeA(u64),
    /// The reflection arrangement of type B and that rank.
    TypeB(u64),
    /// The reflection arrangement of type D and that rank.
    TypeD(u64),
    /// That many coordinate hyperplanes.
    Boolean(u64),
    /// The arrangement of a graph: how many vertices it has, and its edges.
    Graphic(u64, List<(u64, u64)>),
    /// The cone over affine hyperplanes in that many variables; each row ends in the constant.
    Cone(u64, List<Row>),
    /// A named arrangement without the hyperplane of that index.
    Delete(Name, u64),
    /// A named arrangement restricted to the hyperplane of that index.
    Restrict(Name, u64),
}

/// What is asked of an arrangement.
#[derive(Drop)]
pub enum Question {
    Hyperplanes,
    Point,
    Rank,
    Flats,
    Poincare,
    Characteristic,
    /// With the index of a hyperplane.
    Triple(u64),
    Circuits,
    Nbc,
    /// With the products whose sum is meant.
    Normal(List<Product>),
    /// With weights.
    Aomoto(Row),
    /// With multiplicities, if they were written.
    Gb(Option<Row>),
    /// With multiplicities, if they were written.
    Der(Option<Row>),
    /// With multiplicities, if they were written.
    Resolve(Option<Row>),
    /// With multiplicities, if they were written.
    Free(Option<Row>),
}

/// One command of a script.
#[derive(Drop)]
pub enum Command {
    /// Chooses the field with that many elements.
    Field(u64),
    /// Gives what is built a name.
    Let(Name, Build),
    /// Sets the limit of pairs.
    LimitPairs(u64),
    /// Sets the limit of the degree.
    LimitDegree(u64),
    /// Asks this of the arrangement of that name.
    Ask(Name, Question),
}

/// A command, and the number of its line, counted from 1.
#[derive(Drop)]
pub struct Line {
    pub number: u32,
    pub command: Command,
}

/// Why a script has no commands.
#[derive(Clone, Copy, Debug, PartialEq, Eq, Error)]
pub enum ScriptFault {
    /// This line is the first outside the grammar, and this is the column where it stops being a command. Both are counted from 1.
    #[error("line {line} is outside the grammar from column {column} on")]
    Syntax { line: u32, column: u32 },
    /// Memory is out.
    #[error("out of memory")]
    Memory,
}

impl From<AllocError> for ScriptFault {
    ghost from_gives = { λ _ e. e ≡ Memory };

    /// Want of memory.
    fn from(_refusal: AllocError) -> ScriptFault {
        ScriptFault::Memory
    }
}

impl<T: Drop> From<AllocFailed<T>> for ScriptFault {
    ghost from_gives = { λ _ e. e ≡ Memory };

    /// Want of memory.
    fn from(_refusal: AllocFailed<T>) -> ScriptFault {
        ScriptFault::Memory
    }
}
