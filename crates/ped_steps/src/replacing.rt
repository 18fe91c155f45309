//! New programs in which statements replace one statement.

ghost use Rattle.std.specs.Prelude.{◌≡◌, ◌+◌, ◌<◌, ◌^◌, [], IfOk, OnOk};
ghost use Rattle.ped_tree.specs.Views.{stmt_tree, stmt_trees, program_tree};
ghost use Rattle.ped_tree.specs.Numbering.{statement_count, statements_count};
ghost use Rattle.ped_tree.specs.Tree;
ghost use Rattle.ped_tree.specs.Views.{head_of};
ghost use Rattle.ped_steps.specs.Replacing as Spec;
ghost use Rattle.ped_steps.specs.Placing.{placed, all_placed};

use ped_base::NoMemory;
use ped_tree::{Do, Program, Stmt, copy_decls, count_statement, count_statements};
use std::alloc::Global;

/// The program with copies of these statements in the place of its statement with this number. It has no lines.
pub fn program_with(
    alloc: Global,
    program: &Program,
    number: u32,
    new: &[Stmt],
) -> Result<Program, NoMemory>
    requires { statements_count (program_tree program.now).body + 1 < 2 ^ 32 }
    ensures tree { IfOk result (λ p. program_tree p ≡ Spec.program_with (λ s. stmt_trees new.now) number (program_tree program.now)) }
    ensures lines { IfOk result (λ p. p.lines.items ≡ []) }
{
    let decls = copy_decls(&program.decls, alloc)?;
    let body = body_with(alloc, &program.body, number, new)?;
    Ok(Program {
        decls,
        body,
        lines: Vec::new(alloc),
    })
}

/// The body of a program with copies of these statements in the place of the statement with this number.
pub fn body_with(
    alloc: Global,
    body: &[Stmt],
    number: u32,
    new: &[Stmt],
) -> Result<Vec<Stmt>, NoMemory>
    requires { statements_count (stmt_trees body.now) + 1 < 2 ^ 32 }
    ensures { IfOk result (λ all. stmt_trees all.items ≡ Spec.all_replaced (λ s. stmt_trees new.now) number (stmt_trees body.now) 1) }
{
    let place = Place { number, new };
    filled(alloc, body, 1, &place)
}

/// Where new statements come.
#[derive(Clone, Copy)]
pub(crate) struct Place<'a> {
    /// The number of the statement in whose place they come.
    pub(crate) number: u32,
    /// The new statements.
    pub(crate) new: &'a [Stmt],
}

/// Copies of statements, of which the first has the number `first`, with the new ones in their place.
#[cycle(filled)]
fn filled(
    alloc: Global,
    statements: &[Stmt],
    first: u32,
    place: &Place,
) -> Result<Vec<Stmt>, NoMemory>
    requires { first + statements_count (stmt_trees statements.now) < 2 ^ 32 }
    ensures { IfOk result (λ all. stmt_trees all.items ≡ all_placed place.now (stmt_trees statements.now) first) }
{
    let mut all = Vec::new(alloc);
    let mut next = first;
    for statement in statements {
        add(alloc, statement, next, place, &mut all)?;
        next += count_statement(statement);
    }
    Ok(all)
}

/// Adds a copy of a statement, which has this number, with the new ones in their place.
#[cycle(filled)]
fn add(
    alloc: Global,
    statement: &Stmt,
    number: u32,
    place: &Place,
    all: &mut Vec<Stmt>,
) -> Result<(), NoMemory>
    requires { number + statement_count (stmt_tree statement.now) < 2 ^ 32 }
    ensures { OnOk result (stmt_trees all.new.items ≡ Spec.followed (stmt_trees all.old.items) (placed place.now (stmt_tree statement.now) number)) }
{
    match statement {
        Stmt::Comment(_) => {
            return add_copy(alloc, all, statement);
        }
        Stmt::If {
            condition,
            then_part,
            else_part,
        } => {
            if number == place.number {
                return add_copies(alloc, all, place.new);
            }
            let then_new = filled(alloc, then_part, number + 1, place)?;
            let after = number + 1 + count_statements(then_part);
            let else_new = filled(alloc, else_part, after, place)?;
            let condition = condition.copy(alloc)?;
            return add_one(all, Stmt::block_if(condition, then_new, else_new));
        }
        Stmt::Do(d) => {
            if number == place.number {
                return add_copies(alloc, all, place.new);
            }
            let body = filled(alloc, &d.body, number + 1, place)?;
            let new = loop_with(alloc, d, body)?;
            return add_one(all, new);
        }
        Stmt::Assign { left: _, right: _ } | Stmt::Print(_) | Stmt::Read(_) | Stmt::Stop => {
            if number == place.number {
                return add_copies(alloc, all, place.new);
            }
            return add_copy(alloc, all, statement);
        }
    }
}

/// Adds a statement.
#[tactic(auto, using(crate::proofs::Followed::following))]
fn add_one(all: &mut Vec<Stmt>, statement: Stmt) -> Result<(), NoMemory>
    ensures { OnOk result (stmt_trees all.new.items ≡ Spec.followed (stmt_trees all.old.items) (Spec.alone (stmt_tree statement))) }
{
    all.push(statement)?;
    Ok(())
}

/// Adds a copy of a statement.
fn add_copy(alloc: Global, all: &mut Vec<Stmt>, statement: &Stmt) -> Result<(), NoMemory>
    ensures { OnOk result (stmt_trees all.new.items ≡ Spec.followed (stmt_trees all.old.items) (Spec.alone (stmt_tree statement.now))) }
{
    add_one(all, statement.copy(alloc)?)
}

/// Adds copies of statements.
#[tactic(auto, using(crate::proofs::Followed::following))]
fn add_copies(alloc: Global, all: &mut Vec<Stmt>, statements: &[Stmt]) -> Result<(), NoMemory>
    ensures { OnOk result (stmt_trees all.new.items ≡ Spec.followed (stmt_trees all.old.items) (stmt_trees statements.now)) }
{
    for statement in statements {
        add_copy(alloc, all, statement)?;
    }
    Ok(())
}

/// A DO as a statement, with the head of another and these statements as its body.
fn loop_with(alloc: Global, d: &Do, body: Vec<Stmt>) -> Result<Stmt, NoMemory>
    ensures { IfOk result (λ new. stmt_tree new ≡ Tree.Do (head_of d.now) (stmt_trees body.items)) }
{
    Ok(Stmt::of_loop(d.with_body(body, alloc)?))
}
