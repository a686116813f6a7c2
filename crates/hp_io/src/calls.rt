//! Which calls of a source or a sink in memory fail, and how many bytes one moves.
ghost use Rattle.std.specs.Prelude.{◌≡◌, ◌<◌, ◌↔◌, Contains, IsTrue};
ghost use Rattle.hp_io.specs.Calls.{GoesOn, no_calls};

use std::marker::Model;

/// The calls that were made, the numbers of those that fail, and the most bytes that one moves.
#[derive(Drop)]
pub struct Plan {
    most: usize,
    made: u64,
    fail_at: Vec<u64>,
    faults: u64,
}

impl Model for Plan {
    ghost use Rattle.std.specs.Prelude.{◌<◌, ◌≤◌};
    ghost use Rattle.hp_io.specs.Calls.{Calls};

    ghost Value = { Calls };

    ghost view = { λ p. record { most = p.most; made = p.made; failing = p.fail_at.items; faults = p.faults } };

    ghost invariant = { λ p. (0 < p.most) × (p.faults ≤ p.made) };
}

impl Plan {
    /// No call yet. At most `most` bytes a call, and the calls of these numbers, counted from 1, fail.
    pub fn new(most: usize, fail_at: Vec<u64>) -> Plan
        requires { 0 < most }
        ensures { result ≡ no_calls most fail_at.items }
    {
        Plan {
            most,
            made: 0,
            fail_at,
            faults: 0,
        }
    }

    /// The most bytes that a call moves.
    pub fn most(&self) -> usize
        ensures value { result ≡ self.now.most }
        ensures some { 0 < result }
    {
        self.most
    }

    /// Counts a call, and answers whether it fails.
    pub fn fails(&mut self) -> bool
        ensures { GoesOn self.old self.new (IsTrue result) }
    {
        let Some(number) = self.made.checked_add(1) else {
            return false;
        };
        self.made = number;
        let fails = is_among(&self.fail_at, number);
        if fails {
            self.faults += 1;
        }
        fails
    }
}

/// Whether the number is in the list.
fn is_among(numbers: &[u64], x: u64) -> bool
    ensures { IsTrue result ↔ Contains numbers.now x }
{
    numbers.contains(&x)
}
