//! What a program's declarations say about its names, found by hash.

ghost use Rattle.std.specs.Prelude.{◌≡◌, [], ◌∷◌, ◌++◌, List, ℕ, map, OnOk, IfOk};
ghost use Rattle.std.specs.List.{list_any, flat_map};
ghost use Rattle.ped_tree.specs.Views.{decl_tree};
ghost use Rattle.ped_symbols.specs.Declarations as Plain;
ghost use Rattle.ped_symbols.specs.Declarations.{declared_in, is_implicit, program_name};
ghost use Rattle.ped_symbols.specs.Entries.{entry_of};
ghost use Rattle.ped_symbols.specs.Passes.{HaveSame, KnowsUses, Knows};
ghost use Rattle.ped_symbols.specs.declared.uses.Use.{Use as PlainUse};

use crate::repeating::insert_where;
use crate::tables::NameTable;
use crate::uses::{Role, Use};
use ped_base::{Name, NoMemory};
use ped_tree::Decl;
use ped_tree::names::NameSet;
use std::alloc::Global;

/// What declarations say about names.
#[derive(Drop)]
pub struct Declared {
    /// Whether IMPLICIT INTEGER (A-Z) is there.
    pub implicit: bool,
    /// The program's name, where it has one.
    pub program: NameSet,
    /// The names in INTEGER.
    pub typed: NameSet,
    /// The named constants.
    pub constants: NameSet,
    /// The names with dimensions, each with the number that it gets first.
    pub ranks: NameTable<usize>,
}

impl Declared {
    /// What these declarations say, whose uses of names these are.
    pub fn new(alloc: Global, decls: &[Decl], uses: &[Use]) -> Result<Declared, NoMemory>
        requires { uses.now ≡ (declared_in (map decl_tree decls.now)).uses }
        ensures { IfOk result (λ d. Knows d (declared_in (map decl_tree decls.now))) }
    {
        let mut declared = Declared::empty(alloc, decls)?;
        declared.note_all(uses)?;
        Ok(declared)
    }

    /// What these declarations say but for uses of names.
    fn empty(alloc: Global, decls: &[Decl]) -> Result<Declared, NoMemory>
        ensures { IfOk result (λ d. (d.implicit ≡ list_any is_implicit (map decl_tree decls.now))
            × HaveSame d.program (flat_map program_name (map decl_tree decls.now)) × KnowsUses d []) }
    {
        Ok(Declared {
            implicit: has_implicit(decls),
            program: program_names(alloc, decls)?,
            typed: NameSet::new(alloc),
            constants: NameSet::new(alloc),
            ranks: NameTable::new(alloc),
        })
    }

    /// Adds what uses say, one after another.
    fn note_all(&mut self, uses: &[Use]) -> Result<(), NoMemory>
        ensures implicit { OnOk result (self.new.implicit ≡ self.old.implicit) }
        ensures program { OnOk result (self.new.program ≡ self.old.program) }
        ensures uses { OnOk result (KnowsUses self.old [] → KnowsUses self.new uses.now) }
    {
        for u in uses {
            self.note(u)?;
        }
        Ok(())
    }

    /// Adds what a use says.
    fn note(&mut self, u: &Use) -> Result<(), NoMemory>
        ensures implicit { OnOk result (self.new.implicit ≡ self.old.implicit) }
        ensures program { OnOk result (self.new.program ≡ self.old.program) }
        ensures uses { OnOk result ((before : List PlainUse) → KnowsUses self.old before → KnowsUses self.new (before ++ u.now ∷ [])) }
    {
        insert_where(u.role.is_typing(), &mut self.typed, &u.name)?;
        insert_where(u.role.is_naming(), &mut self.constants, &u.name)?;
        keep_rank(&mut self.ranks, &u.name, u.role)
    }

    /// Whether the name is of type REAL.
    pub fn is_real(&self, name: &Name) -> bool
        ensures { (d : Plain.Declared) → Knows self.now d → result ≡ Plain.is_real d name.now }
    {
        !self.implicit && !begins_integer(name) && !self.typed.contains(name)
    }

    /// Whether the name is a constant.
    pub fn is_constant(&self, name: &Name) -> bool
        ensures { (d : Plain.Declared) → Knows self.now d → result ≡ Plain.is_constant d name.now }
    {
        self.constants.contains(name)
    }

    /// Whether the name is the program's.
    pub fn is_program(&self, name: &Name) -> bool
        ensures { (d : Plain.Declared) → Knows self.now d → result ≡ Plain.is_program d name.now }
    {
        self.program.contains(name)
    }

    /// How many dimensions the name has: a constant has none, also where it is given some.
    pub fn rank(&self, name: &Name) -> usize
        ensures { (d : Plain.Declared) → Knows self.now d → result ≡ Plain.rank_of d name.now }
    {
        if self.is_constant(name) {
            0
        } else {
            self.given_rank(name)
        }
    }

    /// How many dimensions declarations give the name.
    fn given_rank(&self, name: &Name) -> usize
        ensures { (d : Plain.Declared) → Knows self.now d → result ≡ Plain.given_rank d.uses name.now }
    {
        match self.ranks.get(name) {
            Some(count) => count,
            None => 0,
        }
    }
}

/// Keeps how many dimensions a role gives a name, where it gives some.
fn keep_rank(ranks: &mut NameTable<usize>, name: &Name, role: Role) -> Result<(), NoMemory>
    ensures { OnOk result ((before : List (List ℕ × ℕ)) → ((x : List ℕ) → entry_of ranks.old.entries.entries x ≡ entry_of before x) →
        (x : List ℕ) → entry_of ranks.new.entries.entries x ≡ entry_of (before ++ Plain.rank_by name.now role) x) }
{
    match role {
        Role::Dimensioned(count) => ranks.keep(name, count),
        Role::Typed => Ok(()),
        Role::Named => Ok(()),
        Role::Saved => Ok(()),
        Role::Rejected => Ok(()),
        Role::Private => Ok(()),
        Role::Index => Ok(()),
        Role::Assigned(_) => Ok(()),
        Role::Operand(_) => Ok(()),
    }
}

/// Whether the name begins with I to N.
fn begins_integer(name: &Name) -> bool
    ensures { result ≡ Plain.begins_integer name.now }
{
    match name.as_bytes() {
        [first, ..] => (b'I'..=b'N').contains(first),
        [] => false,
    }
}

fn has_implicit(decls: &[Decl]) -> bool
    ensures { result ≡ list_any is_implicit (map decl_tree decls.now) }
{
    for decl in decls {
        if is_implicit(decl) {
            return true;
        }
    }
    false
}

fn is_implicit(decl: &Decl) -> bool
    ensures { result ≡ Plain.is_implicit (decl_tree decl.now) }
{
    matches!(decl, Decl::Implicit)
}

fn program_names(alloc: Global, decls: &[Decl]) -> Result<NameSet, NoMemory>
    ensures { IfOk result (λ names. HaveSame names (flat_map program_name (map decl_tree decls.now))) }
{
    let mut names = NameSet::new(alloc);
    for decl in decls {
        add_program_name(&mut names, decl)?;
    }
    Ok(names)
}

fn add_program_name(names: &mut NameSet, decl: &Decl) -> Result<(), NoMemory>
    ensures { OnOk result ((before : List (List ℕ)) → HaveSame names.old before → HaveSame names.new (before ++ program_name (decl_tree decl.now))) }
{
    match decl {
        Decl::Program(name) => names.insert(name),
        Decl::Implicit
        | Decl::Integer(_)
        | Decl::Dimension(_)
        | Decl::Parameter(_)
        | Decl::Save(_)
        | Decl::Comment(_) => Ok(()),
    }
}
