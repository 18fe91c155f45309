//! Named constants with their values (ANSI X3.9-1978, section 8.6).

ghost use Rattle.std.specs.Prelude.{◌≡◌, ◌↔◌, [], length, slice_get, IsTrue, OnOk, OnErr};
ghost use Rattle.ped_tree.specs.Constants.NamedConstants.{value_named, with_constant};

use indexmap::IndexMap;
use ped_base::{Name, NoMemory};
use std::alloc::Global;
use std::marker::Model;

/// Named constants with their values, each name once, in the order in which they came. A name is looked up by its
/// hash. Contracts see the list of the names and values.
#[derive(Drop)]
pub struct Consts {
    values: IndexMap<Name, i64>,
}

impl Model for Consts {
    ghost use Rattle.std.specs.Prelude.{List, ℕ, ℤ};

    ghost Value = { List (List ℕ × ℤ) };

    ghost view = { λ c. c.values.entries };
}

impl Consts {
    /// No constants, which takes no memory.
    pub fn new(alloc: Global) -> Consts
        ensures { result ≡ [] }
    {
        Consts {
            values: IndexMap::new(alloc),
        }
    }

    /// The value of the constant with this name: none exactly where no constant has it.
    pub fn get(&self, name: &Name) -> Option<i64>
        ensures { result ≡ value_named self.now name.now }
    {
        self.values.get(name).copied()
    }

    /// Adds a constant at the end, where none has its name; else the constants stay, so that the first value of a
    /// name counts. If memory runs out, they are as they were.
    pub fn insert(&mut self, name: &Name, value: i64) -> Result<(), NoMemory>
        ensures ok { OnOk result (self.new ≡ with_constant self.old name.now value) }
        ensures err { OnErr result (self.new ≡ self.old) }
    {
        if self.values.contains_key(name) {
            return Ok(());
        }
        self.values.insert(*name, value)?;
        Ok(())
    }

    /// How many constants there are.
    pub fn len(&self) -> usize
        ensures { result ≡ length self.now }
    {
        self.values.len()
    }

    /// Whether there is none.
    pub fn is_empty(&self) -> bool
        ensures { IsTrue result ↔ (self.now ≡ []) }
    {
        self.values.is_empty()
    }

    /// The constant at a place in their order, from 0, with its value: none exactly where there is no such place.
    pub fn get_index(&self, index: usize) -> Option<(Name, i64)>
        ensures { result ≡ slice_get self.now index }
    {
        let (name, value) = self.values.get_index(index)?;
        Some((*name, *value))
    }
}
