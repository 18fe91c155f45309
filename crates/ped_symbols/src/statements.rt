//! The pass over executable statements: the first refusal of names in them, and the kinds of the names.

ghost use Rattle.std.specs.Prelude.{◌≡◌, [], ◌∷◌, map, IfOk, OnOk};
ghost use Rattle.ped_tree.specs.Views.{stmt_tree, stmt_trees};
ghost use Rattle.ped_symbols.specs.Sites.{stmt_sites, stmts_sites, private_site, statement as statement_site};
ghost use Rattle.ped_symbols.specs.Entries.{with_entry};
ghost use Rattle.ped_symbols.specs.Passes.{At, Goes, kind_with, with_kinds};

use crate::declared::Declared;
use crate::pairs::is_none_left;
use crate::repeating::{rejects_twice, stands_twice};
use crate::sites::{Faults, Found};
use crate::symbols::Kind;
use crate::tables::NameTable;
use crate::uses::{Role, Use, push_all, push_own};
use crate::values::stmt_fails;
use ped_base::{Bounds, Name, NoMemory};
use ped_tree::Stmt;
use ped_tree::constants::Consts;
use std::alloc::Global;

/// What is known of the names of a program.
#[derive(Clone, Copy)]
pub struct Known<'a> {
    /// What its declarations say.
    pub declared: &'a Declared,
    /// Its named constants.
    pub consts: &'a Consts,
    /// Its arrays with their bounds.
    pub arrays: &'a NameTable<Bounds>,
}

impl Known<'_> {
    /// Adds names with what they stand for, where they aren't there.
    pub fn keep_kinds(&self, kinds: &mut NameTable<Kind>, uses: &[Use]) -> Result<(), NoMemory>
        ensures { OnOk result (kinds.new.entries.entries ≡ with_kinds (kind_with self.now) kinds.old.entries.entries (map (λ u. u.name) uses.now)) }
    {
        for u in uses {
            self.keep_kind(kinds, &u.name)?;
        }
        Ok(())
    }

    /// Adds a name with what it stands for, where it isn't there. Most names are, and aren't asked for what they stand for.
    fn keep_kind(&self, kinds: &mut NameTable<Kind>, name: &Name) -> Result<(), NoMemory>
        ensures { OnOk result (kinds.new.entries.entries ≡ with_entry kinds.old.entries.entries name.now (kind_with self.now name.now)) }
    {
        if kinds.has(name) {
            return Ok(());
        }
        kinds.keep(name, self.kind(name))
    }

    /// What the name stands for.
    fn kind(&self, name: &Name) -> Kind
        ensures { result ≡ kind_with self.now name.now }
    {
        match (self.consts.get(name), self.arrays.get(name)) {
            (Some(value), _) => Kind::Constant(value),
            (None, Some(bounds)) => Kind::Array(bounds),
            (None, None) => Kind::Scalar,
        }
    }
}

/// Goes over statements one after another.
#[cycle(statements)]
pub fn statements<'l>(
    alloc: Global,
    known: &Known,
    kinds: &mut NameTable<Kind>,
    found: Found<'l>,
    all: &[Stmt],
) -> Result<Found<'l>, NoMemory>
    ensures { IfOk result (λ next. Goes known.now kinds.old kinds.new found.entry next (stmts_sites (stmt_trees all.now))) }
{
    let mut next = found;
    for statement in all {
        next = in_statement(alloc, known, kinds, next, statement)?;
    }
    Ok(next)
}

/// Goes over a statement and its parts.
#[cycle(statements)]
fn in_statement<'l>(
    alloc: Global,
    known: &Known,
    kinds: &mut NameTable<Kind>,
    found: Found<'l>,
    statement: &Stmt,
) -> Result<Found<'l>, NoMemory>
    ensures { IfOk result (λ next. Goes known.now kinds.old kinds.new found.entry next (stmt_sites (stmt_tree statement.now))) }
{
    match statement {
        Stmt::Assign { .. } | Stmt::Print(_) | Stmt::Read(_) | Stmt::Stop => {
            own(alloc, known, kinds, found, statement)
        }
        Stmt::If {
            then_part,
            else_part,
            ..
        } => {
            let next = own(alloc, known, kinds, found, statement)?;
            let next = statements(alloc, known, kinds, next, then_part)?;
            statements(alloc, known, kinds, next, else_part)
        }
        Stmt::Do(d) => {
            let next = own(alloc, known, kinds, found, statement)?;
            let next = private(alloc, known, kinds, next, d.private.as_slice())?;
            statements(alloc, known, kinds, next, &d.body)
        }
        Stmt::Comment(_) => Ok(found),
    }
}

/// Goes over a statement by itself.
fn own<'l>(
    alloc: Global,
    known: &Known,
    kinds: &mut NameTable<Kind>,
    found: Found<'l>,
    statement: &Stmt,
) -> Result<Found<'l>, NoMemory>
    ensures { IfOk result (λ next. Goes known.now kinds.old kinds.new found.entry next (statement_site (stmt_tree statement.now) ∷ [])) }
{
    let mut uses = Vec::new(alloc);
    push_own(&mut uses, statement)?;
    let faults = Faults {
        repeats: rejects_twice(alloc, statement)?,
        fails: stmt_fails(known.consts, statement),
        is_empty: false,
        passes_limit: is_none_left(found.until_many_pairs),
    };
    at_site(known, kinds, found.counted(), &uses, faults)
}

/// Goes over a site with these uses of names, where it has these faults.
fn at_site<'l>(
    known: &Known,
    kinds: &mut NameTable<Kind>,
    found: Found<'l>,
    uses: &[Use],
    faults: Faults,
) -> Result<Found<'l>, NoMemory>
    ensures { IfOk result (λ next. At known.now kinds.old kinds.new found.entry next uses.now faults) }
{
    known.keep_kinds(kinds, uses)?;
    Ok(found.behind(known.declared, uses, faults))
}

/// Goes over the PRIVATE statement of a DO, where it has one.
fn private<'l>(
    alloc: Global,
    known: &Known,
    kinds: &mut NameTable<Kind>,
    found: Found<'l>,
    names: &[Name],
) -> Result<Found<'l>, NoMemory>
    ensures { IfOk result (λ next. Goes known.now kinds.old kinds.new found.entry next (private_site names.now)) }
{
    if names.is_empty() {
        return Ok(found);
    }
    let mut uses = Vec::new(alloc);
    push_all(&mut uses, Role::Private, names)?;
    let faults = Faults {
        repeats: stands_twice(alloc, names)?,
        fails: false,
        is_empty: false,
        passes_limit: false,
    };
    at_site(known, kinds, found, &uses, faults)
}
