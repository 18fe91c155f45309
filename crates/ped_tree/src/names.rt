//! Sets of names. Names are looked up by their bytes. What a statement refers to depends only on which names are
//! constants, so a set of these serves as well as the list of declarations.

mod sets;

pub use sets::NameSet;
