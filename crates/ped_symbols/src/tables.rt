//! What is known of names, found by hash.

ghost use Rattle.std.specs.Prelude.{◌≡◌, [], is_some, OnOk, OnErr};
ghost use Rattle.ped_symbols.specs.Entries.{entry_of, with_entry};

use indexmap::IndexMap;
use ped_base::{Name, NoMemory};
use std::alloc::Global;

/// Names in the order in which they came, each with what is known of it.
#[derive(Drop)]
pub struct NameTable<V> {
    /// The names with what is known of them.
    pub entries: IndexMap<Name, V>,
}

impl<V: Copy + Drop> NameTable<V> {
    /// The empty table, which takes no memory.
    pub fn new(alloc: Global) -> NameTable<V>
        ensures { result.entries.entries ≡ [] }
    {
        NameTable {
            entries: IndexMap::new(alloc),
        }
    }

    /// What is known of the name, where it is there.
    pub fn get(&self, name: &Name) -> Option<V>
        ensures { result ≡ entry_of self.now.entries.entries name.now }
    {
        self.entries.get(name).copied()
    }

    /// Whether the name is there.
    pub fn has(&self, name: &Name) -> bool
        ensures { result ≡ is_some (entry_of self.now.entries.entries name.now) }
    {
        self.entries.contains_key(name)
    }

    /// Adds a name with what is known of it, where it isn't there. If memory runs out, the table is as it
    /// was.
    pub fn keep(&mut self, name: &Name, value: V) -> Result<(), NoMemory>
        ensures ok { OnOk result (self.new.entries.entries ≡ with_entry self.old.entries.entries name.now value) }
        ensures err { OnErr result (self.new.entries.entries ≡ self.old.entries.entries) }
    {
        if self.entries.contains_key(name) {
            return Ok(());
        }
        self.entries.insert(*name, value)?;
        Ok(())
    }
}
