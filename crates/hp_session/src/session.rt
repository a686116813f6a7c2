//! The state of a script over a field, and the step of one command.

ghost use Rattle.std.specs.Prelude.{◌≡◌, not, None, Some, IfOk, IfErr, OnOk, OnErr};
ghost use Rattle.hp_render.specs.declared.refusal.Refusal.TheVariants.{NameTaken};
ghost use Rattle.hp_script.specs.Lists.{BuildIsShort, CommandIsShort};
ghost use Rattle.hp_script.specs.declared.command.Command.TheVariants.{Let};
ghost use Rattle.hp_session.specs.Refused.{where_true, unknown_refusal};
ghost use Rattle.hp_session.specs.State.{AreLimits, no_names, lookup, is_unknown};
ghost use Rattle.hp_session.specs.Steps.{Steps, after};
ghost use Rattle.hp_session.specs.Stops.{StopsBy, step_of, let_refusal};

use crate::answering::answered;
use crate::building::arrangement;
use crate::limits::set_limit;
use crate::names::Names;
use crate::stop::Stop;
use hp_algebra::FiniteField;
use hp_arr::Arr;
use hp_groebner::Limits;
use hp_render::{Answer, Refusal};
use hp_script::{Build, Command, Name};
use std::alloc::Global;
use std::marker::Model;

/// The state of a script over the field `K`: the limits, and the arrangements with their names in order.
#[derive(Drop)]
pub struct Session<K: FiniteField> {
    limits: Limits,
    names: Names<K>,
}

impl<K: FiniteField> Model for Session<K> {
    ghost use Rattle.hp_session.specs.State.{AreLimits, State};

    ghost Value = { State K };

    ghost view = { λ s. record { limits = s.limits; names = s.names } };

    ghost invariant = { λ s. AreLimits s.limits };
}

/// What a command does.
#[derive(Drop)]
pub enum Step<K: FiniteField> {
    /// It changes the state, and nothing is written.
    Silent,
    /// It asks something, and this is the answer.
    Answered(Answer<K>),
    /// It is refused.
    Refused(Refusal),
    /// Memory is out.
    Memory,
}

impl<K: FiniteField> From<Stop> for Step<K> {
    ghost from_gives = { λ stop step. step ≡ step_of stop };

    fn from(stop: Stop) -> Step<K> {
        match stop {
            Stop::Refused(refusal) => Step::Refused(refusal),
            Stop::Memory => Step::Memory,
        }
    }
}

impl<K: FiniteField> Session<K> {
    /// The state in which the field was chosen: these limits, and no names. Takes no memory.
    pub fn new(alloc: Global, limits: Limits) -> Session<K>
        requires { AreLimits limits }
        ensures { result ≡ no_names limits }
    {
        Session {
            limits,
            names: Names::new(alloc),
        }
    }

    /// Takes one command. But for a silent one, the session stays as it was.
    pub fn step(&mut self, alloc: Global, command: &Command) -> Step<K>
        requires { CommandIsShort command.now }
        ensures { Steps K.ring K.inverse K.numbers self.old command.now result self.new }
    {
        match command {
            Command::Field(_) => Step::Refused(Refusal::FieldTwice),
            Command::Let(name, build) => match self.give(alloc, name, build) {
                Ok(()) => Step::Silent,
                Err(stop) => Step::from(stop),
            },
            Command::LimitPairs(_) | Command::LimitDegree(_) => match set_limit(
                &mut self.limits,
                command,
            ) {
                Ok(()) => Step::Silent,
                Err(refusal) => Step::Refused(refusal),
            },
            Command::Ask(name, question) => match answered(alloc, self, name, question) {
                Ok(answer) => Step::Answered(answer),
                Err(stop) => Step::from(stop),
            },
        }
    }

    /// Gives what is built the name. Stopped, the session stays as it was.
    fn give(&mut self, alloc: Global, name: &Name, build: &Build) -> Result<(), Stop>
        requires { BuildIsShort build.now }
        ensures accepted { OnOk result (let_refusal K.ring K.inverse K.numbers self.old name.now build.now ≡ None) }
        ensures given { OnOk result (self.new ≡ after K.ring K.inverse K.numbers self.old (Let name.now build.now)) }
        ensures stop { IfErr result (StopsBy (let_refusal K.ring K.inverse K.numbers self.old name.now build.now)) }
        ensures kept { OnErr result (self.new ≡ self.old) }
    {
        let arr = arrangement(alloc, self, name, build)?;
        self.names.add(alloc, name.bytes(), arr)?;
        Ok(())
    }

    /// The limits.
    pub(crate) fn limits(&self) -> Limits
        ensures value { result ≡ self.now.limits }
        ensures lawful { AreLimits self.now.limits }
    {
        self.limits
    }

    /// The arrangement of this name, which is refused where it is not known.
    pub(crate) fn known(&self, alloc: Global, name: &Name) -> Result<&Arr<K>, Stop>
        ensures known { IfOk result (λ arr. lookup self.now.names name.now ≡ Some arr.now) }
        ensures stop { IfErr result (StopsBy (unknown_refusal self.now name.now)) }
    {
        match self.names.find(name.bytes()) {
            Some(arr) => Ok(arr),
            None => Err(Stop::Refused(Refusal::UnknownName(name.copy(alloc)?))),
        }
    }

    /// Refuses this name where an arrangement has it.
    pub(crate) fn require_free(&self, alloc: Global, name: &Name) -> Result<(), Stop>
        ensures free { OnOk result (lookup self.now.names name.now ≡ None) }
        ensures stop { IfErr result (StopsBy (where_true (not (is_unknown self.now name.now)) (NameTaken name.now))) }
    {
        if self.names.find(name.bytes()).is_some() {
            return Err(Stop::Refused(Refusal::NameTaken(name.copy(alloc)?)));
        }
        Ok(())
    }
}
