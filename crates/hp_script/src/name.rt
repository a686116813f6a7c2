//! Names and rows of numbers.

ghost use Rattle.std.specs.Prelude.{◌≡◌, ℕ, ℤ, List, IfOk};

use hp_algebra::NoMem;
use std::alloc::Global;
use std::marker::Model;

/// A name, which contracts see as its bytes.
#[derive(Drop)]
pub struct Name {
    held: Vec<u8>,
}

impl Model for Name {
    ghost Value = { List ℕ };

    ghost view = { λ n. n.held.items };
}

impl Name {
    /// The name of those bytes.
    pub fn new(bytes: Vec<u8>) -> Name
        ensures { result ≡ bytes.items }
    {
        Name { held: bytes }
    }

    /// Its bytes.
    pub fn bytes(&self) -> &[u8]
        ensures { result.now ≡ self.now }
    {
        self.held.as_slice()
    }

    /// An equal name.
    ///
    /// # Errors
    ///
    /// Want of memory alone.
    pub fn copy(&self, alloc: Global) -> Result<Name, NoMem>
        ensures { IfOk result (λ n. n ≡ self.now) }
    {
        let held = Vec::from_slice(alloc, &self.held)?;
        Ok(Name { held })
    }
}

/// A row of numbers, which contracts see as a list.
#[derive(Drop)]
pub struct Row {
    held: Vec<i64>,
}

impl Model for Row {
    ghost Value = { List ℤ };

    ghost view = { λ r. r.held.items };
}

impl Row {
    /// The row of those numbers.
    pub fn new(numbers: Vec<i64>) -> Row
        ensures { result ≡ numbers.items }
    {
        Row { held: numbers }
    }

    /// Its numbers.
    pub fn numbers(&self) -> &[i64]
        ensures { result.now ≡ self.now }
    {
        self.held.as_slice()
    }
}
