//! The scalars of a program, each with its place in rows of bits.

ghost use Rattle.std.specs.Prelude.{◌≡◌, ℕ, List, map, false, IsTrue};
ghost use Rattle.ped_base.specs.Lists.{is_among};
ghost use Rattle.ped_tree.specs.Accesses.{constant_names};
ghost use Rattle.ped_tree.specs.Views.{decl_tree};

use crate::decls::is_constant;
use indexmap::IndexSet;
use ped_base::{Name, NoMemory};
use ped_tree::Decl;
use ped_tree::names::NameSet;
use std::alloc::Global;
use std::marker::Model;

/// At most this many scalars have a place, so that rows take little memory. Others are asked about without rows.
const MOST_PLACES: usize = 4_096;

/// Names, each once. Contracts see them in the order in which they came.
#[derive(Drop)]
pub(crate) struct PlacedNames {
    names: IndexSet<Name>,
}

impl Model for PlacedNames {
    ghost use Rattle.std.specs.Prelude.{List, ℕ};

    ghost Value = { List (List ℕ) };

    ghost view = { λ p. p.names.keys };
}

/// The scalars of a program with these declarations that have a place in rows. None is a named constant.
#[derive(Drop)]
pub(crate) struct Places<'a> {
    pub(crate) decls: &'a [Decl],
    pub(crate) names: PlacedNames,
    /// Named constants that were met, so that the declarations are searched once for each.
    constants: NameSet,
    ghost variables: { (x : List ℕ) → IsTrue (is_among x names) → is_among x (constant_names (map decl_tree decls.now)) ≡ false },
}

impl PlacedNames {
    ghost use Rattle.std.specs.Prelude.{◌≡◌, [], length, OnOk, OnErr};
    ghost use Rattle.ped_tree.specs.Names.Collecting.{with_name};
    ghost use Rattle.ped_flow.specs.RowPlaces.{place_of};

    /// No names, which takes no memory.
    pub(crate) fn new(alloc: Global) -> PlacedNames
        ensures { result ≡ [] }
    {
        PlacedNames {
            names: IndexSet::new(alloc),
        }
    }

    /// How many names there are.
    pub(crate) fn len(&self) -> usize
        ensures { result ≡ length self.now }
    {
        self.names.len()
    }

    /// The place of a name, where it is one of them.
    pub(crate) fn place(&self, name: &Name) -> Option<usize>
        ensures { result ≡ place_of self.now name.now }
    {
        self.names.get_index_of(name)
    }

    /// Adds a name, where it isn't one of them. If memory runs out, they are as they were.
    pub(crate) fn insert(&mut self, name: &Name) -> Result<(), NoMemory>
        ensures ok { OnOk result (self.new ≡ with_name self.old name.now) }
        ensures err { OnErr result (self.new ≡ self.old) }
    {
        self.names.insert(*name)?;
        Ok(())
    }
}

impl<'a> Places<'a> {
    ghost use Rattle.std.specs.Prelude.{◌≡◌};

    /// No scalars yet.
    pub(crate) fn new(alloc: Global, decls: &'a [Decl]) -> Places<'a>
        ensures { result.decls.now ≡ decls.now }
    {
        Places {
            decls,
            names: PlacedNames::new(alloc),
            constants: NameSet::new(alloc),
        }
    }

    /// Gives a scalar a place, where it has none, is no named constant, and there are places left.
    pub(crate) fn add(&mut self, name: &Name) -> Result<(), NoMemory>
        ensures { self.new.decls.now ≡ self.old.decls.now }
    {
        if self.has_met(name) {
            return Ok(());
        }
        if is_constant(name, self.decls) {
            return self.constants.insert(name);
        }
        self.names.insert(name)
    }

    /// Whether there is nothing to do for a name.
    fn has_met(&self, name: &Name) -> bool {
        self.names.len() >= MOST_PLACES
            || self.names.place(name).is_some()
            || self.constants.contains(name)
    }
}
