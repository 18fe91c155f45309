//! What is open at a statement, and what has come before it (ANSI X3.9-1978, sections 3.5 and 8). Each
//! statement updates it, whatever is refused there.

ghost use Rattle.std.specs.Prelude.{◌≡◌, ◌+◌, ◌<◌, ◌^◌, ◌++◌, List, ℕ, IfOk, OnOk, false, map, ◌||◌};
ghost use Rattle.ped_tree.specs.Grammar.Contexts as Spec;
ghost use Rattle.ped_tree.specs.Grammar.ProgramRefusals.{block_depth};
ghost use Rattle.ped_base.specs.Lists.{is_among};
ghost use Rattle.ped_tree.specs.Grammar.Occurrences.{constants_of};
ghost use Rattle.ped_tree.specs.Views.{decl_tree, value_tree};
ghost use Rattle.ped_tree.specs.Grammar.StatementViews.{statement_of};
ghost use Rattle.ped_tree.specs.Grammar.ItemViews.{item_of, entry_of};
ghost use Rattle.ped_refusals.specs.OpenBlocks.{blocks_of};
ghost use Rattle.ped_refusals.specs.OpenContexts.{context_of, IsLike};

use crate::blocks::{Block, leave_by, take_on};
use crate::limits::numbered_in;
use ped_base::{Name, NoMemory};
use ped_tree::grammar::{Entry, Item, Statement, StatementReading};
use ped_tree::names::NameSet;
use ped_tree::{Decl, Expr};
use std::alloc::Global;

/// What is open where a statement begins, and what has come before it.
#[derive(Drop)]
pub struct Context {
    /// How far the order of statements has come: the greatest rank so far.
    pub phase: u8,
    /// The open blocks, the innermost last.
    pub blocks: Vec<Block>,
    /// The numbered statements before it.
    pub statements: usize,
    /// The named constants.
    pub constants: NameSet,
    /// Whether a SAVE with a list has come.
    pub saves_names: bool,
    /// Whether a SAVE without a list has come.
    pub saves_everything: bool,
    /// Whether the statement before it is a DO.
    pub behind_do: bool,
}

impl Context {
    /// The context of the first statement.
    pub fn at_start(alloc: Global) -> Context
        ensures { context_of result ≡ Spec.at_start }
    {
        Context {
            phase: 0,
            blocks: Vec::new(alloc),
            statements: 0,
            constants: NameSet::new(alloc),
            saves_names: false,
            saves_everything: false,
            behind_do: false,
        }
    }

    /// The context after a statement.
    pub fn behind(self, alloc: Global, entry: &Entry) -> Result<Context, NoMemory>
        requires { block_depth (blocks_of self.blocks.items) + 1 < 2 ^ 64 }
        ensures { IfOk result (λ c. IsLike (Spec.behind (context_of self) (entry_of entry.now)) (context_of c)) }
    {
        match &entry.reading {
            StatementReading::Says(item) => self.behind_item(alloc, &entry.statement, item),
            StatementReading::OutsideProfile | StatementReading::NoForm => {
                Ok(self.behind_other(&entry.statement))
            }
        }
    }

    /// The context after a statement whose text says nothing.
    fn behind_other(self, statement: &Statement) -> Context
        ensures { context_of result ≡ record (context_of self) { blocks = Spec.left_by (statement_of statement.now).label (blocks_of self.blocks.items); behind_do = false } }
    {
        let mut blocks = self.blocks;
        leave_by(&mut blocks, statement.label);
        Context {
            phase: self.phase,
            blocks,
            statements: self.statements,
            constants: self.constants,
            saves_names: self.saves_names,
            saves_everything: self.saves_everything,
            behind_do: false,
        }
    }

    fn behind_item(
        self,
        alloc: Global,
        statement: &Statement,
        item: &Item,
    ) -> Result<Context, NoMemory>
        requires { block_depth (blocks_of self.blocks.items) + 1 < 2 ^ 64 }
        ensures { IfOk result (λ c. IsLike (Spec.behind_item (context_of self) (statement_of statement.now) (item_of item.now)) (context_of c)) }
    {
        let mut blocks = self.blocks;
        take_on(alloc, &mut blocks, self.behind_do, statement, item)?;
        let mut constants = self.constants;
        add_constants(&mut constants, item)?;
        Ok(Context {
            phase: self.phase.max(rank(item)),
            blocks,
            statements: self.statements.saturating_add(numbered_in(item)),
            constants,
            saves_names: either(self.saves_names, saves_list(item)),
            saves_everything: either(self.saves_everything, saves_without(item)),
            behind_do: is_do(item),
        })
    }
}

fn either(before: bool, now: bool) -> bool
    ensures { result ≡ (before || now) }
{
    before || now
}

/// The rank of a statement in the order of statements (section 3.5).
pub fn rank(item: &Item) -> u8
    ensures { result ≡ Spec.rank (item_of item.now) }
{
    match item {
        Item::Declaration(decl) => decl_rank(decl),
        Item::SaveAll => 3,
        Item::Simple(_)
        | Item::Continue
        | Item::LogicalIf(_, _)
        | Item::BlockIf(_)
        | Item::ElseIf(_)
        | Item::Else
        | Item::EndIf
        | Item::Do(_)
        | Item::EndDo
        | Item::Private(_) => 4,
        Item::End => 5,
    }
}

fn decl_rank(decl: &Decl) -> u8
    ensures { result ≡ Spec.decl_rank (decl_tree decl.now) }
{
    match decl {
        Decl::Program(_) => 1,
        Decl::Implicit => 2,
        Decl::Integer(_)
        | Decl::Dimension(_)
        | Decl::Parameter(_)
        | Decl::Save(_)
        | Decl::Comment(_) => 3,
    }
}

/// Whether a statement is a DO.
pub fn is_do(item: &Item) -> bool
    ensures { result ≡ Spec.is_do (item_of item.now) }
{
    match item {
        Item::Do(_) => true,
        _ => false,
    }
}

/// Whether a statement is a SAVE with a list.
pub fn saves_list(item: &Item) -> bool
    ensures { result ≡ Spec.saves_list (item_of item.now) }
{
    match item {
        Item::Declaration(Decl::Save(_)) => true,
        _ => false,
    }
}

/// Whether a statement is a SAVE without a list.
pub fn saves_without(item: &Item) -> bool
    ensures { result ≡ Spec.saves_without (item_of item.now) }
{
    match item {
        Item::SaveAll => true,
        _ => false,
    }
}

fn add_constants(constants: &mut NameSet, item: &Item) -> Result<(), NoMemory>
    ensures { OnOk result ((x : List ℕ) → is_among x constants.new ≡ is_among x (constants.old ++ constants_of (item_of item.now))) }
{
    match item {
        Item::Declaration(Decl::Parameter(values)) => add_names(constants, values),
        _ => Ok(()),
    }
}

fn add_names(constants: &mut NameSet, values: &[(Name, Expr)]) -> Result<(), NoMemory>
    ensures { OnOk result ((x : List ℕ) → is_among x constants.new ≡ is_among x (constants.old ++ map (λ v. v.0) (map value_tree values.now))) }
{
    for (name, _) in values {
        constants.insert(name)?;
    }
    Ok(())
}
