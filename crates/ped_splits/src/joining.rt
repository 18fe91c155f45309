//! Two DO loops as one: the new program, and which statements the step keeps.

ghost use Rattle.std.specs.Prelude.{◌≡◌, ◌==◌, ◌&&◌, ◌+◌, ◌<◌, ◌≤◌, ◌^◌, ◌++◌, ◌∷◌, [], not, map, filter, if◌then◌else◌, IfOk, OnOk};
ghost use Rattle.std.specs.List.{range_with_len};
ghost use Rattle.ped_tree.specs.Names.Collecting.{with_name, with_names};
ghost use Rattle.ped_tree.specs.Numbering.{statement_count, statements_count};
ghost use Rattle.ped_tree.specs.Tree as Tree;
ghost use Rattle.ped_tree.specs.Views.{stmt_tree, stmt_trees, do_tree, head_of, program_tree};
ghost use Rattle.ped_rules.specs.ped_steps.specs.Replacing.{followed, alone};
ghost use Rattle.ped_splits.specs.CodePairs as Code;
ghost use Rattle.ped_splits.specs.CodePairs.{IsPair, all_joined, one_joined};
ghost use Rattle.ped_splits.specs.Neighbours as Spec;
ghost use Rattle.ped_rules.specs.KeepMaps as KeepMaps;

use crate::alike::is_same;
use crate::neighbours::Pair;
use ped_base::{Listed, Name, Names, NoMemory, is_among};
use ped_rules::{Keep, is_comment};
use ped_symbolic::substitute_in_statements;
use ped_tree::{Do, Expr, Program, Stmt, copy_decls, count_statement, count_statements};
use std::alloc::Global;

/// Where the one DO comes.
#[derive(Clone, Copy)]
struct Joint<'a> {
    /// The number of the first of the two.
    number: u32,
    /// The one DO.
    new: &'a Do,
}

/// The program with the two DO loops as one. It has no lines.
pub(crate) fn fused(alloc: Global, program: &Program, pair: &Pair) -> Result<Program, NoMemory>
    requires few { statements_count (program_tree program.now).body + 1 < 2 ^ 32 }
    requires pair { IsPair (program_tree program.now) pair.now }
    ensures tree { IfOk result (λ p. (is : IsPair (program_tree program.now) pair.now) → program_tree p ≡ Spec.fused is.neighbour) }
    ensures lines { IfOk result (λ p. p.lines.items ≡ []) }
{
    let decls = copy_decls(&program.decls, alloc)?;
    let new = joined_loop(alloc, pair)?;
    let joint = Joint {
        number: pair.number,
        new: &new,
    };
    let body = joined_among(alloc, &program.body, 1, &joint);
    drop(new);
    let body = body?;
    Ok(Program {
        decls,
        body,
        lines: Vec::new(alloc),
    })
}

/// The two as one: the head of the first, and both bodies with the comments between.
fn joined_loop(alloc: Global, pair: &Pair) -> Result<Do, NoMemory>
    ensures { IfOk result (λ d. do_tree d ≡ Tree.Do (Spec.joined_head (head_of pair.now.own.now) (head_of pair.now.next.now))
        (followed (stmt_trees pair.now.own.now.body.items) (followed (stmt_trees pair.now.between.now)
        (Spec.renamed_body (head_of pair.now.own.now) (head_of pair.now.next.now) (stmt_trees pair.now.next.now.body.items))))) }
{
    let rejected = joined_names(alloc, &pair.own.rejected, &pair.next.rejected)?;
    let mut body = Vec::new(alloc);
    add_copies(alloc, &mut body, &pair.own.body)?;
    add_copies(alloc, &mut body, pair.between)?;
    let mut second = renamed_body(alloc, pair)?;
    body.append(&mut second)?;
    let mut new = pair.own.with_body(body, alloc)?;
    new.rejected = rejected;
    Ok(new)
}

/// The names of both lists, each once.
#[tactic(auto, using(crate::proofs::Joints::with_both))]
fn joined_names(alloc: Global, first: &Names, second: &Names) -> Result<Names, NoMemory>
    ensures { IfOk result (λ names. names ≡ with_names [] (first.now ++ second.now)) }
{
    let mut names = Listed::new(alloc);
    add_names(&mut names, first.as_slice())?;
    add_names(&mut names, second.as_slice())?;
    Ok(names)
}

/// Adds names that aren't there.
fn add_names(names: &mut Names, others: &[Name]) -> Result<(), NoMemory>
    ensures { OnOk result (names.new ≡ with_names names.old others.now) }
{
    for name in others {
        add_name(names, name)?;
    }
    Ok(())
}

/// Adds a name, where it isn't there.
fn add_name(names: &mut Names, name: &Name) -> Result<(), NoMemory>
    ensures { OnOk result (names.new ≡ with_name names.old name.now) }
{
    if is_among(name, names.as_slice()) {
        return Ok(());
    }
    names.push(*name)?;
    Ok(())
}

/// The body of the second DO with the variable of the first in the place of its own.
fn renamed_body(alloc: Global, pair: &Pair) -> Result<Vec<Stmt>, NoMemory>
    ensures { IfOk result (λ body. stmt_trees body.items ≡ Spec.renamed_body (head_of pair.now.own.now) (head_of pair.now.next.now) (stmt_trees pair.now.next.now.body.items)) }
{
    if is_same(&pair.own.variable, &pair.next.variable) {
        let mut body = Vec::new(alloc);
        add_copies(alloc, &mut body, &pair.next.body)?;
        return Ok(body);
    }
    let by = Expr::Var(pair.own.variable);
    let body = substitute_in_statements(alloc, &pair.next.body, &pair.next.variable, &by);
    drop(by);
    body
}

/// Copies of statements, of which the first has the number `first`, with the one DO in the place of the two.
#[cycle(joined)]
fn joined_among(
    alloc: Global,
    statements: &[Stmt],
    first: u32,
    joint: &Joint,
) -> Result<Vec<Stmt>, NoMemory>
    requires { first + statements_count (stmt_trees statements.now) < 2 ^ 32 }
    ensures { IfOk result (λ all. stmt_trees all.items ≡ all_joined (do_tree joint.now.new.now) joint.now.number (stmt_trees statements.now) first) }
{
    let mut all = Vec::new(alloc);
    let mut next = first;
    for (place, statement) in statements.iter().enumerate() {
        if is_there(statement, next, joint.number) {
            add_one(&mut all, Stmt::of_loop(joint.new.copy(alloc)?))?;
            add_copies(alloc, &mut all, behind_next(&statements[place + 1..]))?;
            return Ok(all);
        }
        add_one(&mut all, joined_in(alloc, statement, next, joint)?)?;
        next += count_statement(statement);
    }
    Ok(all)
}

/// A copy of a statement, which has this number, with the one DO in the place of the two in it.
#[cycle(joined)]
fn joined_in(alloc: Global, statement: &Stmt, number: u32, joint: &Joint) -> Result<Stmt, NoMemory>
    requires { number + statement_count (stmt_tree statement.now) < 2 ^ 32 }
    ensures { IfOk result (λ s. stmt_tree s ≡ one_joined (do_tree joint.now.new.now) joint.now.number (stmt_tree statement.now) number) }
{
    match statement {
        Stmt::Do(d) => {
            let body = joined_among(alloc, &d.body, number + 1, joint)?;
            return loop_with(alloc, d, body);
        }
        Stmt::If {
            condition,
            then_part,
            else_part,
        } => {
            let then_new = joined_among(alloc, then_part, number + 1, joint)?;
            let after = number + 1 + count_statements(then_part);
            let else_new = joined_among(alloc, else_part, after, joint)?;
            let condition = condition.copy(alloc)?;
            return Ok(Stmt::block_if(condition, then_new, else_new));
        }
        Stmt::Assign { left: _, right: _ }
        | Stmt::Print(_)
        | Stmt::Read(_)
        | Stmt::Stop
        | Stmt::Comment(_) => {
            return statement.copy(alloc);
        }
    }
}

/// A DO as a statement, with the head of another and these statements as its body.
pub(crate) fn loop_with(alloc: Global, d: &Do, body: Vec<Stmt>) -> Result<Stmt, NoMemory>
    ensures { IfOk result (λ new. stmt_tree new ≡ Tree.Do (head_of d.now) (stmt_trees body.items)) }
{
    Ok(Stmt::of_loop(d.with_body(body, alloc)?))
}

/// Whether the statement is no comment and has the sought number, where this is its own.
fn is_there(statement: &Stmt, number: u32, sought: u32) -> bool
    ensures { result ≡ ((number == sought) && not (statement_count (stmt_tree statement.now) == 0)) }
{
    number == sought && !is_comment(statement)
}

/// What follows the first of these statements that is no comment.
fn behind_next(statements: &[Stmt]) -> &[Stmt]
    ensures { stmt_trees result.now ≡ Code.behind_next (stmt_trees statements.now) }
{
    for (place, statement) in statements.iter().enumerate() {
        if !is_comment(statement) {
            return &statements[place + 1..];
        }
    }
    &[]
}

/// Adds a statement.
#[tactic(auto, using(crate::proofs::Joints::following))]
fn add_one(all: &mut Vec<Stmt>, statement: Stmt) -> Result<(), NoMemory>
    ensures { OnOk result (stmt_trees all.new.items ≡ followed (stmt_trees all.old.items) (alone (stmt_tree statement))) }
{
    all.push(statement)?;
    Ok(())
}

/// Adds copies of statements.
#[tactic(auto, using(crate::proofs::Joints::following))]
fn add_copies(alloc: Global, all: &mut Vec<Stmt>, statements: &[Stmt]) -> Result<(), NoMemory>
    ensures { OnOk result (stmt_trees all.new.items ≡ followed (stmt_trees all.old.items) (stmt_trees statements.now)) }
{
    for statement in statements {
        add_one(all, statement.copy(alloc)?)?;
    }
    Ok(())
}

/// Each statement but the second DO, which has this number, with its number after the step.
pub(crate) fn kept_without(alloc: Global, program: &Program, number: u32) -> Result<Keep, NoMemory>
    requires { statements_count (program_tree program.now).body + 1 < 2 ^ 32 }
    ensures { IfOk result (λ keep. keep ≡ Spec.kept_without number (program_tree program.now)) }
{
    kept_up_to(alloc, count_statements(&program.body), number)
}

/// The same of this many statements.
fn kept_up_to(alloc: Global, count: u32, number: u32) -> Result<Keep, NoMemory>
    requires { count + 1 < 2 ^ 32 }
    ensures { IfOk result (λ keep. keep ≡ filter (λ p. not (p.0 == number)) (map (λ k. (k, KeepMaps.closed_up number k)) (range_with_len 1 count))) }
{
    let mut keep = Listed::new(alloc);
    for n in 0..count {
        add_unless(&mut keep, number, n + 1)?;
    }
    Ok(keep)
}

/// Adds a statement with its number after the step, where it isn't the second DO.
fn add_unless(keep: &mut Keep, number: u32, k: u32) -> Result<(), NoMemory>
    requires { 1 ≤ k }
    ensures { OnOk result (keep.new ≡ keep.old ++ (if k == number then [] else (k, KeepMaps.closed_up number k) ∷ [])) }
{
    if k == number {
        return Ok(());
    }
    keep.push((k, closed_up(number, k)))?;
    Ok(())
}

/// The number after the step of a statement.
fn closed_up(number: u32, k: u32) -> u32
    requires { 1 ≤ k }
    ensures { result ≡ KeepMaps.closed_up number k }
{
    if k < number { k } else { k - 1 }
}

/// The number before the step of a statement of the new program.
pub(crate) fn opened_at(number: u32, k: u32) -> u32
    requires { k + 1 < 2 ^ 32 }
    ensures { result ≡ KeepMaps.opened_at number k }
{
    if k < number { k } else { k + 1 }
}
