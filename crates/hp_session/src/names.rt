//! Arrangements by name.

ghost use Rattle.std.specs.Prelude.{◌≡◌, [], ◌∷◌, ◌++◌, None, OnOk, OnErr, option_copied};
ghost use Rattle.hp_session.specs.State.{lookup};

use hp_algebra::{FiniteField, NoMem};
use hp_arr::Arr;
use indexmap::IndexMap;
use std::alloc::Global;
use std::marker::Model;

/// Arrangements over the field `K` with their names, in the order in which they were named.
#[derive(Drop)]
pub struct Names<K: FiniteField> {
    table: IndexMap<Vec<u8>, Arr<K>>,
}

impl<K: FiniteField> Model for Names<K> {
    ghost use Rattle.std.specs.Prelude.{ℕ, List, map};
    ghost use Rattle.hp_arr.specs.Arrangement.{Arrangement};

    ghost Value = { List (List ℕ × Arrangement K) };

    ghost view = { λ names. map (λ e. (e.0.items, e.1)) names.table.entries };
}

impl<K: FiniteField> Names<K> {
    /// No names. Takes no memory.
    pub fn new(alloc: Global) -> Names<K>
        ensures { result ≡ [] }
    {
        Names {
            table: IndexMap::new(alloc),
        }
    }

    /// The arrangement of this name.
    pub fn find(&self, name: &[u8]) -> Option<&Arr<K>>
        ensures { option_copied result ≡ lookup self.now name.now }
    {
        self.table.get(name)
    }

    /// Adds a new name at the end. Where memory is out, the names stay as they were.
    pub fn add(&mut self, alloc: Global, name: &[u8], arr: Arr<K>) -> Result<(), NoMem>
        requires { lookup self.old name.now ≡ None }
        ensures added { OnOk result (self.new ≡ self.old ++ (name.now, arr) ∷ []) }
        ensures kept { OnErr result (self.new ≡ self.old) }
    {
        let copy = Vec::from_slice(alloc, name)?;
        match self.table.insert(copy, arr) {
            Ok(_) => Ok(()),
            Err(_) => Err(NoMem),
        }
    }
}
