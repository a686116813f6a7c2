//! The state before a field is chosen.

ghost use Rattle.std.specs.Prelude.{◌≡◌, None, Some};
ghost use Rattle.hp_session.specs.State.{AreLimits, first_limits};
ghost use Rattle.hp_session.specs.Steps.{StepsBefore};

use crate::limits::set_limit;
use crate::which::Which;
use hp_groebner::Limits;
use hp_render::Refusal;
use hp_script::Command;

/// The state of a script before a field is chosen: the limits.
#[derive(Clone, Copy, Debug)]
pub struct Prelude {
    pub limits: Limits,
}

/// What a command does before a field is chosen.
#[derive(Drop)]
pub enum Before {
    /// It sets a limit.
    Silent,
    /// It chooses this field.
    Chosen(Which),
    /// It is refused.
    Refused(Refusal),
}

impl Prelude {
    /// The first state: 100,000 pairs and degree 240.
    pub fn new() -> Prelude
        ensures first { result.limits ≡ first_limits }
        ensures limits { AreLimits result.limits }
    {
        Prelude {
            limits: Limits {
                pairs: 100_000,
                degree: 240,
            },
        }
    }

    /// Takes one command. But for a silent one, the limits stay as they were. Takes no memory.
    pub fn step(&mut self, command: &Command) -> Before
        requires { AreLimits self.old.limits }
        ensures steps { StepsBefore self.old.limits command.now result self.new.limits }
        ensures limits { AreLimits self.new.limits }
    {
        match command {
            Command::Field(p) => match Which::of(*p) {
                Some(which) => Before::Chosen(which),
                None => Before::Refused(Refusal::FieldNotListed(*p)),
            },
            Command::LimitPairs(_) | Command::LimitDegree(_) => match set_limit(
                &mut self.limits,
                command,
            ) {
                Ok(()) => Before::Silent,
                Err(refusal) => Before::Refused(refusal),
            },
            _ => Before::Refused(Refusal::NoField),
        }
    }
}
