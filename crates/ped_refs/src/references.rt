//! References in a list: occurrences that read or write a variable, and those of the data lines and the
//! output, which READ and PRINT write.

ghost use Rattle.std.specs.Prelude.{◌≡◌};

use ped_base::{Listed, Name};

/// What a reference reads or writes.
#[derive(Clone, Copy, PartialEq, Eq, Hash)]
pub enum RefName {
    /// A variable or an array of this name.
    Named(Name),
    /// The data lines, shown as `(IN)`. Each READ writes them.
    In,
    /// The output, shown as `(OUT)`. Each PRINT writes it.
    Out,
}

impl RefName {
    ghost use Rattle.ped_refs.specs.ListedReferences.{ref_name};
    ghost use Rattle.ped_refs.specs.Occurrences.{name_text};

    /// The same, as the name of its text: a name begins with a letter, so it is neither `(IN)` nor `(OUT)`.
    pub fn by_text(self) -> RefName
        ensures { result ≡ ref_name (name_text self) }
    {
        match self {
            RefName::Named(name) => {
                let _bytes = name.as_bytes();
                self
            }
            RefName::In | RefName::Out => self,
        }
    }
}

/// A reference of a program.
#[derive(Clone, Copy, PartialEq, Eq)]
pub struct Ref {
    /// The number of its statement.
    pub statement: u32,
    /// Its number among the references of its statement, from 1.
    pub number: u32,
    /// What it reads or writes.
    pub name: RefName,
    /// Whether it writes.
    pub writes: bool,
}

/// The references of a program in text order.
#[derive(Drop)]
pub struct Refs {
    /// The references.
    pub items: Listed<Ref>,
    /// For each reference the number of the outermost DO around it, 0 where there is none.
    pub outer: Listed<u32>,
    /// How many ordered pairs of them may depend on each other.
    pub pairs: u64,
}
