//! Names that don't occur in a program.

ghost use Rattle.std.specs.Prelude.{◌≡◌, ◌++◌, ◌<◌, ◌^◌, IfOk, IsTrue, map, Some};
ghost use Rattle.std.specs.Fmt.{decimal};
ghost use Rattle.std.specs.List.{flat_map};
ghost use Rattle.ped_base.specs.Lists as Lists;
ghost use Rattle.ped_tree.specs.Tree.{ProgramTree};
ghost use Rattle.ped_tree.specs.Views.{decl_tree, program_tree};
ghost use Rattle.ped_loop_runs.specs.ped_symbols.specs.Kinds.{table_of};
ghost use Rattle.ped_rules.specs.Fresh as Spec;
ghost use Rattle.ped_rules.specs.CodeFresh.{letters_of};

use itoa::Buffer;
use ped_base::{Bytes, Name, NoMemory};
use ped_loop_runs::Symbols;
use ped_tree::{Decl, Program};
use std::alloc::Global;

/// What a new name is given to.
#[derive(Clone, Copy, PartialEq, Eq)]
pub enum NewName {
    /// An array: its name begins with KX.
    Array,
    /// The variable of a DO: its name begins with IS.
    Variable,
}

impl NewName {
    /// The letters with which the name begins.
    fn letters(self) -> &'static [u8]
        ensures { result.now ≡ letters_of self }
    {
        match self {
            NewName::Array => b"KX",
            NewName::Variable => b"IS",
        }
    }
}

/// The greatest number after two letters in a name of 31 characters.
const MOST_NUMBERED: u128 = 99_999_999_999_999_999_999_999_999_999;

/// The first of the names KX1, KX2 and so on, or IS1, IS2 and so on, that doesn't occur in the program, which has these
/// names: none where it would have more than 31 characters.
pub fn fresh_name(
    alloc: Global,
    kind: NewName,
    program: &Program,
    symbols: &Symbols,
) -> Result<Option<Name>, NoMemory>
    requires { symbols.now ≡ table_of (program_tree program.now) }
    ensures { IfOk result (λ name. name ≡ Spec.fresh_name (letters_of kind) (program_tree program.now)) }
{
    let mut n = 1;
    while n <= MOST_NUMBERED {
        let name = numbered(alloc, kind, n)?;
        if !occurs(program, symbols, &name) {
            return Ok(Some(name));
        }
        n += 1;
    }
    Ok(None)
}

/// The name with a number of at most 29 digits after its letters.
fn numbered(alloc: Global, kind: NewName, n: u128) -> Result<Name, NoMemory>
    requires { n < 10 ^ 29 }
    ensures { IfOk result (λ name. name ≡ letters_of kind ++ decimal n) }
{
    let mut text = Bytes::new(alloc);
    let mut buffer = Buffer::new();
    text.extend_from_slice(kind.letters())?;
    text.extend_from_slice(buffer.format(n).as_bytes())?;
    match Name::from_bytes(text.as_slice()) {
        Some(name) => Ok(name),
        None => unreachable!(),
    }
}

/// Whether the name occurs in the program.
pub fn occurs(program: &Program, symbols: &Symbols, name: &Name) -> bool
    requires { symbols.now ≡ table_of (program_tree program.now) }
    ensures { result ≡ Spec.occurs (program_tree program.now) name.now }
{
    symbols.kind(name).is_some() || is_program(name, &program.decls)
}

/// Whether the name is that of the program.
fn is_program(name: &Name, decls: &[Decl]) -> bool
    ensures { result ≡ Lists.is_among name.now (flat_map Spec.program_name (map decl_tree decls.now)) }
{
    for decl in decls {
        if is_program_name(name, decl) {
            return true;
        }
    }
    false
}

/// Whether a declaration gives the program the name.
fn is_program_name(name: &Name, decl: &Decl) -> bool
    ensures { result ≡ Lists.is_among name.now (Spec.program_name (decl_tree decl.now)) }
{
    match decl {
        Decl::Program(other) => name.as_bytes() == other.as_bytes(),
        Decl::Implicit
        | Decl::Integer(_)
        | Decl::Dimension(_)
        | Decl::Parameter(_)
        | Decl::Save(_)
        | Decl::Comment(_) => false,
    }
}
