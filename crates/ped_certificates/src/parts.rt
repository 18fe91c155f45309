//! The parts of a sum, as many as a step may have. Contracts see them as a list.

ghost use Rattle.std.specs.Prelude.{◌≡◌, ◌≤◌, ◌<◌, ◌++◌, ◌∷◌, [], length, nat_le, not, IfOk, OnOk};
ghost use Rattle.ped_base.specs.Lists.{has_some};

use crate::systems::Part;
use ped_base::NoMemory;
use std::alloc::Global;
use std::marker::Model;
use std::mem::replace;

/// The most parts that a step has.
const MOST_PARTS: usize = 500;

/// The parts of a sum: at most 500.
#[derive(Drop)]
pub struct Parts {
    items: Vec<Part>,
}

impl Model for Parts {
    ghost use Rattle.std.specs.Prelude.{◌≤◌, List, length};
    ghost use Rattle.ped_certificates.specs.declared.systems.Part.{Part};

    ghost Value = { List Part };

    ghost view = { λ parts. parts.items.items };

    ghost invariant = { λ parts. length parts.items.items ≤ 500 };
}

impl Parts {
    /// No parts.
    pub fn new(alloc: Global) -> Self
        ensures { result ≡ [] }
    {
        Parts {
            items: Vec::new(alloc),
        }
    }

    /// Whether there is no part.
    pub fn is_empty(&self) -> bool
        ensures { result ≡ not (has_some self.now) }
    {
        self.items.is_empty()
    }

    /// Whether there are as many parts as there may be.
    pub fn is_full(&self) -> bool
        ensures { result ≡ nat_le 500 (length self.now) }
    {
        self.items.len() >= MOST_PARTS
    }

    /// Adds a part at the end.
    pub fn push(&mut self, part: Part) -> Result<(), NoMemory>
        requires { length self.old < 500 }
        ensures { OnOk result (self.new ≡ self.old ++ part ∷ []) }
    {
        self.items.push(part)?;
        Ok(())
    }

    /// The parts, which are taken out.
    pub fn take(&mut self, alloc: Global) -> Self
        ensures taken { result ≡ self.old }
        ensures left { self.new ≡ [] }
    {
        replace(self, Parts::new(alloc))
    }

    /// A copy of the parts.
    pub fn copy(&self, alloc: Global) -> Result<Self, NoMemory>
        ensures { IfOk result (λ copy. copy ≡ self.now) }
    {
        Ok(Parts {
            items: self.items.as_slice().to_vec(alloc)?,
        })
    }

    /// The parts, first to last.
    pub fn as_slice(&self) -> &[Part]
        ensures parts { result.now ≡ self.now }
        ensures few { length self.now ≤ 500 }
    {
        self.items.as_slice()
    }
}
