//! Programs built from the statements of a text.

ghost use Rattle.std.specs.Prelude.{◌≡◌, [], IfOk, map};
ghost use Rattle.ped_tree.specs.Views.{decl_tree, program_tree};
ghost use Rattle.ped_tree.specs.Grammar.Items.{declares, saves_all};
ghost use Rattle.ped_tree.specs.Grammar.ProgramForms.{first_lines};
ghost use Rattle.ped_tree.specs.Grammar.StatementViews.{statement_of};
ghost use Rattle.ped_tree.specs.Grammar.ItemViews.{entry_of, item_of};
ghost use Rattle.ped_blocks.specs.Machine;
ghost use Rattle.ped_blocks.specs.Machine.{nothing_built, take_entries, built_program};
ghost use Rattle.ped_blocks.specs.BlockViews.{built_of};

use crate::declarations::{behind_front, push_declaration, push_save};
use crate::lines::first_lines;
use crate::nesting::Nesting;
use ped_base::{Names, NoMemory};
use ped_tree::grammar::{Entry, Item, Statement, StatementReading};
use ped_tree::{Decl, Program};
use std::alloc::Global;

/// What is built of the statements so far.
#[derive(Drop)]
pub struct Built {
    /// The declarations.
    pub decls: Vec<Decl>,
    /// How the executable statements nest.
    pub nesting: Nesting,
}

/// The program that these statements nest to, where SAVE without a list is read as `saved`.
pub fn program_of(alloc: Global, entries: Vec<Entry>, saved: &Names) -> Result<Program, NoMemory>
    ensures tree { IfOk result (λ p. program_tree p ≡ built_program (take_entries saved.now nothing_built (map entry_of entries.items))) }
    ensures lines { IfOk result (λ p. p.lines.items ≡ first_lines saved.now (map entry_of entries.items)) }
{
    let lines = first_lines(alloc, &entries, saved)?;
    let mut built = Built::new(alloc);
    for entry in entries {
        built = built.with_entry(alloc, entry, saved)?;
    }
    built.program(alloc, lines)
}

impl Built {
    /// Nothing, before the first statement.
    fn new(alloc: Global) -> Built
        ensures { built_of result ≡ nothing_built }
    {
        Built {
            decls: Vec::new(alloc),
            nesting: Nesting::new(alloc),
        }
    }

    /// A statement is taken; one that has no form adds nothing.
    fn with_entry(self, alloc: Global, entry: Entry, saved: &Names) -> Result<Built, NoMemory>
        ensures { IfOk result (λ b. built_of b ≡ Machine.take_entry saved.now (built_of self) (entry_of entry)) }
    {
        let Entry { statement, reading } = entry;
        match reading {
            StatementReading::Says(Item::Declaration(decl)) => {
                self.with_declaration(statement, decl)
            }
            StatementReading::Says(Item::SaveAll) => self.with_save(alloc, statement, saved),
            StatementReading::Says(item) => self.with_nested(alloc, statement, item),
            StatementReading::OutsideProfile | StatementReading::NoForm => Ok(self),
        }
    }

    /// A declaration is taken, with the comments before it.
    fn with_declaration(self, statement: Statement, decl: Decl) -> Result<Built, NoMemory>
        ensures { IfOk result (λ b. built_of b ≡ Machine.take_item [] (built_of self) (statement_of statement) (declares (decl_tree decl))) }
    {
        let Built { mut decls, nesting } = self;
        push_declaration(&mut decls, statement.comments, decl)?;
        Ok(Built { decls, nesting })
    }

    /// SAVE without a list is taken, with the comments before it.
    fn with_save(
        self,
        alloc: Global,
        statement: Statement,
        saved: &Names,
    ) -> Result<Built, NoMemory>
        ensures { IfOk result (λ b. built_of b ≡ Machine.take_item saved.now (built_of self) (statement_of statement) saves_all) }
    {
        let Built { mut decls, nesting } = self;
        push_save(alloc, &mut decls, statement.comments, saved)?;
        Ok(Built { decls, nesting })
    }

    /// An executable statement is taken, with the comments before it.
    fn with_nested(self, alloc: Global, statement: Statement, item: Item) -> Result<Built, NoMemory>
        ensures { IfOk result (λ b. built_of b ≡ Machine.with_nested (built_of self) (statement_of statement) (item_of item)) }
    {
        let Built { decls, nesting } = self;
        let nesting = nesting.with_item(alloc, statement, item)?;
        Ok(Built { decls, nesting })
    }

    /// The program that is built; comments before the first executable statement belong to the
    /// declarations.
    fn program(self, alloc: Global, lines: Vec<u64>) -> Result<Program, NoMemory>
        ensures tree { IfOk result (λ p. program_tree p ≡ built_program (built_of self)) }
        ensures lines { IfOk result (λ p. p.lines.items ≡ lines.items) }
    {
        let Built { mut decls, nesting } = self;
        let body = behind_front(alloc, &mut decls, nesting.current)?;
        Ok(Program { decls, body, lines })
    }
}
