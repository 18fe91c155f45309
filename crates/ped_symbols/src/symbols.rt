//! The kinds of the names of a program.

ghost use Rattle.std.specs.Prelude.{◌≡◌, ◌++◌, ◌^◌, ◌<◌, [], List, map, length, Some, IfOk, IfErr, OnOk};
ghost use Rattle.ped_tree.specs.Numbering.{statements_count};
ghost use Rattle.ped_tree.specs.Tree.{ProgramTree};
ghost use Rattle.ped_refs.specs.References.{Reference, references};
ghost use Rattle.ped_tree.specs.Grammar.RefusalViews.{found_of};
ghost use Rattle.ped_tree.specs.Views.{program_tree, stmt_trees};
ghost use Rattle.ped_symbols.specs.Sites.{stmts_sites};
ghost use Rattle.ped_symbols.specs.Declarations as Plain;
ghost use Rattle.ped_symbols.specs.Declarations.{declared_in};
ghost use Rattle.ped_symbols.specs.Passed.{HasPassed, GoesOver};
ghost use Rattle.ped_symbols.specs.Passes.{Knows, Holds, CountsTo, Stands, kind_with, with_kinds, first_with};
ghost use Rattle.ped_symbols.specs.Entries.{entry_of};
ghost use Rattle.ped_symbols.specs.Kinds.{names_at, kind_in, table_of};
ghost use Rattle.ped_symbols.specs.NameRefusals.{Before, at_first, name_refusals};
ghost use Rattle.ped_symbols.specs.Refused.{IsFirstOf};
ghost use Rattle.ped_symbols.specs.RightUses.RightUses.{is_scalar, is_scalar_kind};
ghost use Rattle.ped_symbols.specs.declared.symbols.NameRefusal.TheVariants as variant;

use crate::declarations::{Held, declarations};
use crate::declared::Declared;
use crate::pairs::until_many_pairs;
use crate::sites::Found;
use crate::statements::{Known, statements};
use crate::tables::NameTable;
use crate::uses::{Use, push_decls};
use indexmap::IndexMap;
use ped_base::{Bounds, Name, Names, NoMemory, both};
use ped_tree::constants::Consts;
use ped_tree::grammar::Refusal;
use ped_tree::{Program, Stmt};
use std::alloc::Global;
use std::marker::Model;
use thiserror::Error;

/// What a name stands for (ANSI X3.9-1978, sections 5 and 8.6).
#[derive(Clone, Copy, PartialEq, Eq)]
pub enum Kind {
    /// A scalar variable.
    Scalar,
    /// An array with these bounds, which lie within 2147483647 of zero, none below its lower bound.
    Array(Bounds),
    /// A constant of this value, which lies within 2147483647 of zero.
    Constant(i64),
}

/// Why the names of a program aren't right.
#[derive(Clone, Copy, Debug, PartialEq, Eq, Error)]
pub enum NameRefusal {
    /// The first of the refusals of its names.
    #[error("a name is refused")]
    At(Refusal),
    /// Memory ran out.
    #[error("out of memory")]
    NoMemory,
}

impl From<NoMemory> for NameRefusal {
    ghost from_gives = { λ _ e. e ≡ variant.NoMemory };

    fn from(_: NoMemory) -> NameRefusal {
        NameRefusal::NoMemory
    }
}

/// What the names of a program stand for. Contracts see its names in the order of their first occurrence,
/// each with its kind, and its constants with their values.
#[derive(Drop)]
pub struct Symbols {
    kinds: IndexMap<Name, Kind>,
    constants: Consts,
}

impl Model for Symbols {
    ghost use Rattle.ped_symbols.specs.Kinds.{Table};

    ghost Value = { Table };

    ghost view = { λ s. record { kinds = s.kinds.entries; constants = s.constants } };
}

impl Symbols {
    /// What the name stands for: none exactly where it doesn't occur, or only in PROGRAM.
    pub fn kind(&self, name: &Name) -> Option<Kind>
        ensures { result ≡ entry_of self.now.kinds name.now }
    {
        self.kinds.get(name).copied()
    }

    /// Whether the name is that of a scalar variable of the program (ANSI X3.9-1978, section 2.5).
    pub fn is_scalar(&self, name: &Name) -> bool
        ensures { (t : ProgramTree) → self.now ≡ table_of t → result ≡ is_scalar (kind_in t) name.now }
    {
        is_scalar_kind(self.kind(name))
    }

    /// The named constants with their values, in the order of their PARAMETER items.
    pub fn consts(&self) -> &Consts
        ensures { result.now ≡ self.now.constants }
    {
        &self.constants
    }

    /// The names in the order of their first occurrence.
    pub fn names(&self, alloc: Global) -> Result<Names, NoMemory>
        ensures { IfOk result (λ names. names ≡ map (λ e. e.0) self.now.kinds) }
    {
        let mut names = Names::new(alloc);
        for name in self.kinds.keys() {
            names.push(*name)?;
        }
        Ok(names)
    }
}

fn is_scalar_kind(kind: Option<Kind>) -> bool
    ensures { result ≡ is_scalar_kind kind }
{
    match kind {
        Some(Kind::Scalar) => true,
        Some(Kind::Array(_)) => false,
        Some(Kind::Constant(_)) => false,
        None => false,
    }
}

/// What the names of the program stand for. The lines of a refusal are those that the program was read from;
/// 0 where it wasn't read from a text. The time is linear in the program.
///
/// # Errors
///
/// `At` exactly where the names of the program break a rule, or its arrays or the pairs of its references pass
/// a limit, with the first refusal by line and then by number; `NoMemory` where memory runs out.
pub fn symbols_of(alloc: Global, program: &Program) -> Result<Symbols, NameRefusal>
    requires statements { statements_count (program_tree program.now).body < 2 ^ 32 }
    requires references { length (references (program_tree program.now)) < 2 ^ 32 }
    ensures right { IfOk result (λ s. name_refusals program.now.lines.items (program_tree program.now) ≡ []) }
    ensures table { IfOk result (λ s. s ≡ table_of (program_tree program.now)) }
    ensures refused { IfErr result (λ e. IsFirstOf (name_refusals program.now.lines.items (program_tree program.now)) e) }
{
    let passed = over_program(alloc, program)?;
    match passed.first {
        Some(refusal) => Err(NameRefusal::At(refusal)),
        None => Ok(Symbols {
            kinds: passed.kinds.entries,
            constants: passed.consts,
        }),
    }
}

/// What both passes over a program have found.
#[derive(Drop)]
pub struct Passed {
    /// The first refusal of its names.
    pub first: Option<Refusal>,
    /// Its names with what they stand for.
    pub kinds: NameTable<Kind>,
    /// Its named constants.
    pub consts: Consts,
}

/// Goes over the declarations of a program and then over its statements.
fn over_program(alloc: Global, program: &Program) -> Result<Passed, NoMemory>
    requires statements { statements_count (program_tree program.now).body < 2 ^ 32 }
    requires references { length (references (program_tree program.now)) < 2 ^ 32 }
    ensures { IfOk result (HasPassed program.now.lines.items (program_tree program.now)) }
{
    let mut uses = Vec::new(alloc);
    push_decls(&mut uses, &program.decls)?;
    over_uses(alloc, program, &uses)
}

/// Goes over a program whose declarations have these uses of names.
fn over_uses(alloc: Global, program: &Program, uses: &[Use]) -> Result<Passed, NoMemory>
    requires statements { statements_count (program_tree program.now).body < 2 ^ 32 }
    requires references { length (references (program_tree program.now)) < 2 ^ 32 }
    requires uses { uses.now ≡ (declared_in (program_tree program.now).decls).uses }
    ensures { IfOk result (HasPassed program.now.lines.items (program_tree program.now)) }
{
    let declared = Declared::new(alloc, &program.decls, uses)?;
    over_declared(alloc, program, uses, &declared)
}

/// Goes over a program whose declarations say this.
fn over_declared(
    alloc: Global,
    program: &Program,
    uses: &[Use],
    declared: &Declared,
) -> Result<Passed, NoMemory>
    requires statements { statements_count (program_tree program.now).body < 2 ^ 32 }
    requires references { length (references (program_tree program.now)) < 2 ^ 32 }
    requires uses { uses.now ≡ (declared_in (program_tree program.now).decls).uses }
    requires declared { Knows declared.now (declared_in (program_tree program.now).decls) }
    ensures { IfOk result (HasPassed program.now.lines.items (program_tree program.now)) }
{
    let until_many_pairs = until_many_pairs(alloc, program)?;
    let mut held = Held::nothing(alloc);
    let walked = over_sites(alloc, program, uses, declared, until_many_pairs, &mut held);
    let (consts, (first, kinds)) = both(held.into_consts(), walked)?;
    Ok(Passed {
        first,
        kinds,
        consts,
    })
}

/// Goes over the sites of a program, of which nothing is held yet: its first refusal, and its names with what they
/// stand for.
fn over_sites(
    alloc: Global,
    program: &Program,
    uses: &[Use],
    declared: &Declared,
    until_many_pairs: Option<u32>,
    held: &mut Held,
) -> Result<(Option<Refusal>, NameTable<Kind>), NoMemory>
    requires uses { uses.now ≡ (declared_in (program_tree program.now).decls).uses }
    requires declared { Knows declared.now (declared_in (program_tree program.now).decls) }
    requires until { CountsTo (references (program_tree program.now)) 0 until_many_pairs }
    requires held { Holds held.old at_first }
    ensures { IfOk result (λ r. HasPassed program.now.lines.items (program_tree program.now) (record { first = r.0; kinds = r.1; consts = held.new.consts })) }
{
    let found = Found {
        first: None,
        lines: &program.lines,
        until_many_pairs,
    };
    let found = declarations(alloc, declared, held, found, &program.decls)?;
    in_body(alloc, declared, held, uses, found, &program.body)
}

/// Goes over the statements of a program, whose declarations have these uses of names.
fn in_body(
    alloc: Global,
    declared: &Declared,
    held: &Held,
    uses: &[Use],
    found: Found,
    body: &[Stmt],
) -> Result<(Option<Refusal>, NameTable<Kind>), NoMemory>
    ensures { IfOk result (λ r. GoesOver declared.now held.now uses.now found.entry (stmts_sites (stmt_trees body.now)) r.0 r.1) }
{
    let known = Known {
        declared,
        consts: &held.consts,
        arrays: &held.arrays,
    };
    let mut kinds = NameTable::new(alloc);
    let first = with_names(alloc, &known, &mut kinds, uses, found, body)?;
    Ok((first, kinds))
}

/// Adds the names that are used in declarations and those in statements, and finds the first refusal.
fn with_names(
    alloc: Global,
    known: &Known,
    kinds: &mut NameTable<Kind>,
    uses: &[Use],
    found: Found,
    body: &[Stmt],
) -> Result<Option<Refusal>, NoMemory>
    ensures refusal { IfOk result (λ first. (d : Plain.Declared) → Knows known.now.declared.now d → (refs : List Reference) → (b : Before) → Stands known.now refs found.entry b →
        found_of first ≡ first_with d refs b found.entry (stmts_sites (stmt_trees body.now))) }
    ensures names { OnOk result (kinds.new.entries.entries ≡ with_kinds (kind_with known.now) kinds.old.entries.entries (map (λ u. u.name) uses.now ++ names_at (stmts_sites (stmt_trees body.now)))) }
{
    known.keep_kinds(kinds, uses)?;
    let found = statements(alloc, known, kinds, found, body)?;
    Ok(found.first)
}
