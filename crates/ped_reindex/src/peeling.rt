//! `peel`: the first or the last iteration of a DO is taken out of it.

ghost use Rattle.std.specs.Prelude.{◌≡◌, ◌+◌, ◌<◌, ◌≤◌, ◌^◌, ℕ, [], true, false, Some, IfOk, MatchOption, unsigned_abs};
ghost use Rattle.ped_tree.specs.Numbering.{statements_count};
ghost use Rattle.ped_tree.specs.Tree as Tree;
ghost use Rattle.ped_tree.specs.Views.{expr_tree, stmt_tree, stmt_trees, program_tree, head_of};
ghost use Rattle.ped_rules.specs.Rules.{WhereEscape, has_private};
ghost use Rattle.ped_rules.specs.Steps.{Answers};
ghost use Rattle.ped_rules.specs.ped_steps.specs.Changes.{IsChange};
ghost use Rattle.ped_rules.specs.ped_steps.specs.Scenes.{IsSceneOf};
ghost use Rattle.ped_symbolic.specs.Arithmetic;
ghost use Rattle.ped_rules.specs.ped_flow.specs.Questions.{IsLoop};
ghost use Rattle.ped_rules.specs.ped_symbols.specs.Kinds.{table_of};
ghost use Rattle.ped_rules.specs.ped_symbols.specs.NameRefusals.{IsValid};
ghost use Rattle.ped_reindex.specs.CodePeeling.{IsNear, peeled_in};
ghost use Rattle.ped_reindex.specs.Peeling as Spec;

use crate::iterations::{Iteration, TakenOut, iteration_of};
use crate::lists::has_list;
use ped_base::{NoMemory, both};
use ped_rules::{
    Change, Keep, Rule, Scene, StepAnswer, against, behind_comments, body_with, change_to, escapes,
    literal, loop_at, moved_by,
};
use ped_symbolic::substitute_in_statements;
use ped_tree::{Do, Expr, Program, Stmt, copy_decls, count_statements};
use std::alloc::Global;
use std::sync::ledger::Ledger;

/// Takes the first or the last iteration out of the DO with this number: it is done before or after the DO, with the
/// literal of its value for the variable (Allen and Kennedy, section 5.7.2; ParaScope). The numbers of the statements
/// after it grow by the number of statements of the body.
///
/// # Errors
///
/// `Refused` exactly where a rule forbids the step, with the rule of the least number: NoLoop, ParallelState,
/// HasPrivate, IndexEscapes, Range, NotConstant or Limit. No dependence forbids the step.
pub fn peel<L: Ledger>(alloc: Global, scene: &Scene<L>, number: u32, last: bool) -> StepAnswer
    requires { IsSceneOf (program_tree scene.now.tree.now) scene.now }
    ensures { IfOk result (Answers (Spec.peeling number last) (program_tree scene.now.tree.now)) }
{
    match loop_at(scene.tree, number) {
        Some(d) => {
            return peel_in(alloc, scene, number, d, last);
        }
        None => {
            return Ok(Err(against(Rule::NoLoop, number)));
        }
    }
}

/// The same, where the statement is this DO.
fn peel_in<L: Ledger>(
    alloc: Global,
    scene: &Scene<L>,
    number: u32,
    d: &Do,
    last: bool,
) -> StepAnswer
    requires scene { IsSceneOf (program_tree scene.now.tree.now) scene.now }
    requires is { IsLoop (program_tree scene.now.tree.now) number (head_of d.now) (stmt_trees d.now.body.items) }
    ensures { IfOk result (Answers (Spec.peeling number last) (program_tree scene.now.tree.now)) }
{
    if d.parallel {
        return Ok(Err(against(Rule::ParallelState, number)));
    }
    if has_list(d) {
        return Ok(Err(against(Rule::HasPrivate, number)));
    }
    if let Some(statement) = escapes(scene, number) {
        return Ok(Err(against(Rule::IndexEscapes, statement)));
    }
    peel_contained(alloc, scene, number, d, last)
}

/// The same, where the DO is no PARALLEL DO, has no PRIVATE names, and no variable of it is read outside its DO.
fn peel_contained<L: Ledger>(
    alloc: Global,
    scene: &Scene<L>,
    number: u32,
    d: &Do,
    last: bool,
) -> StepAnswer
    requires scene { IsSceneOf (program_tree scene.now.tree.now) scene.now }
    requires is { IsLoop (program_tree scene.now.tree.now) number (head_of d.now) (stmt_trees d.now.body.items) }
    requires serial { (head_of d.now).parallel ≡ false }
    requires shared { has_private (head_of d.now) (stmt_trees d.now.body.items) ≡ false }
    requires contained { (n : ℕ) → WhereEscape (program_tree scene.now.tree.now) number n → ⊥ }
    ensures { IfOk result (Answers (Spec.peeling number last) (program_tree scene.now.tree.now)) }
{
    match iteration_of(scene.symbols.consts(), d, last) {
        Iteration::Far => {
            return Ok(Err(against(Rule::Range, number)));
        }
        Iteration::Unknown => {
            return Ok(Err(against(Rule::NotConstant, number)));
        }
        Iteration::Near(taken) => {
            return peel_off(alloc, scene, number, d, last, taken);
        }
    }
}

/// The same, where this iteration is taken out and only the rule Limit may forbid the step.
fn peel_off<L: Ledger>(
    alloc: Global,
    scene: &Scene<L>,
    number: u32,
    d: &Do,
    last: bool,
    taken: TakenOut,
) -> StepAnswer
    requires scene { IsSceneOf (program_tree scene.now.tree.now) scene.now }
    requires is { IsLoop (program_tree scene.now.tree.now) number (head_of d.now) (stmt_trees d.now.body.items) }
    requires serial { (head_of d.now).parallel ≡ false }
    requires shared { has_private (head_of d.now) (stmt_trees d.now.body.items) ≡ false }
    requires contained { (n : ℕ) → WhereEscape (program_tree scene.now.tree.now) number n → ⊥ }
    requires taken { Spec.peeled_of last (table_of (program_tree scene.now.tree.now)).constants (head_of d.now) ≡ Some (peeled_in taken) }
    requires near { IsNear taken }
    ensures { IfOk result (Answers (Spec.peeling number last) (program_tree scene.now.tree.now)) }
{
    match peeled(alloc, scene, number, d, last, taken)? {
        Some(change) => {
            return Ok(Ok(change));
        }
        None => {
            return Ok(Err(against(Rule::Limit, number)));
        }
    }
}

/// The change to the program with this iteration taken out of the DO of this number: none exactly where that program isn't
/// valid.
fn peeled<L: Ledger>(
    alloc: Global,
    scene: &Scene<L>,
    number: u32,
    d: &Do,
    last: bool,
    taken: TakenOut,
) -> Result<Option<Change>, NoMemory>
    requires scene { IsSceneOf (program_tree scene.now.tree.now) scene.now }
    requires is { IsLoop (program_tree scene.now.tree.now) number (head_of d.now) (stmt_trees d.now.body.items) }
    requires near { IsNear taken }
    ensures { IfOk result (λ found. MatchOption found (IsValid (Spec.peeled (program_tree scene.now.tree.now) number last (peeled_in taken)) → ⊥)
        (IsChange (Spec.peeled (program_tree scene.now.tree.now) number last (peeled_in taken)) (Spec.peel_kept (program_tree scene.now.tree.now) number last (stmt_trees d.now.body.items)))) }
{
    let tree = with_peeled(alloc, scene.tree, number, d, last, taken)?;
    let keep = peel_kept(alloc, scene.tree, number, d, last)?;
    change_to(alloc, tree, keep)
}

/// The program with this iteration taken out of the DO of this number.
fn with_peeled(
    alloc: Global,
    program: &Program,
    number: u32,
    d: &Do,
    last: bool,
    taken: TakenOut,
) -> Result<Program, NoMemory>
    requires few { statements_count (program_tree program.now).body + 1 < 2 ^ 32 }
    requires is { IsLoop (program_tree program.now) number (head_of d.now) (stmt_trees d.now.body.items) }
    requires near { IsNear taken }
    ensures tree { IfOk result (λ p. program_tree p ≡ Spec.peeled (program_tree program.now) number last (peeled_in taken)) }
    ensures lines { IfOk result (λ p. p.lines.items ≡ []) }
{
    let mut decls = copy_decls(&program.decls, alloc)?;
    let new = new_statements(alloc, d, last, taken)?;
    let all = body_with(alloc, &program.body, number, &new)?;
    let body = behind_comments(alloc, &mut decls, all)?;
    Ok(Program {
        decls,
        body,
        lines: Vec::new(alloc),
    })
}

/// The iteration before or after the DO, which begins later or ends earlier.
fn new_statements(alloc: Global, d: &Do, last: bool, taken: TakenOut) -> Result<Vec<Stmt>, NoMemory>
    requires near { IsNear taken }
    ensures { IfOk result (λ new. stmt_trees new.items ≡ Spec.with_peeled last (peeled_in taken) (head_of d.now) (stmt_trees d.now.body.items)) }
{
    if last {
        loop_first(alloc, d, taken)
    } else {
        loop_last(alloc, d, taken)
    }
}

/// The iteration, and after it the DO, which begins later.
fn loop_last(alloc: Global, d: &Do, taken: TakenOut) -> Result<Vec<Stmt>, NoMemory>
    requires near { IsNear taken }
    ensures { IfOk result (λ new. stmt_trees new.items ≡ Spec.with_peeled false (peeled_in taken) (head_of d.now) (stmt_trees d.now.body.items)) }
{
    let mut new = iteration(alloc, d, taken.value)?;
    new.push(beginning_at(alloc, d, taken.bound)?)?;
    Ok(new)
}

/// The DO, which ends earlier, and after it the iteration.
fn loop_first(alloc: Global, d: &Do, taken: TakenOut) -> Result<Vec<Stmt>, NoMemory>
    requires near { IsNear taken }
    ensures { IfOk result (λ new. stmt_trees new.items ≡ Spec.with_peeled true (peeled_in taken) (head_of d.now) (stmt_trees d.now.body.items)) }
{
    let mut new = Vec::new(alloc);
    new.push(ending_at(alloc, d, taken.bound)?)?;
    let mut behind = iteration(alloc, d, taken.value)?;
    new.append(&mut behind)?;
    Ok(new)
}

/// The body of the DO with the literal of this value for its variable.
fn iteration(alloc: Global, d: &Do, value: i64) -> Result<Vec<Stmt>, NoMemory>
    requires { unsigned_abs value ≤ 2147483647 }
    ensures { IfOk result (λ new. stmt_trees new.items ≡ Spec.iteration_of value (head_of d.now) (stmt_trees d.now.body.items)) }
{
    let value = literal(alloc, value)?;
    let body = substitute_in_statements(alloc, &d.body, &d.variable, &value);
    drop(value);
    body
}

/// The DO with the literal of this number for its initial value.
fn beginning_at(alloc: Global, d: &Do, bound: i64) -> Result<Stmt, NoMemory>
    requires { unsigned_abs bound ≤ 2147483647 }
    ensures { IfOk result (λ new. stmt_tree new ≡ Tree.Do (record (head_of d.now) { first = Arithmetic.literal bound }) (stmt_trees d.now.body.items)) }
{
    let (first, last) = both(literal(alloc, bound)?, d.last.copy(alloc))?;
    with_bounds(alloc, d, first, last)
}

/// The DO with the literal of this number for its limit.
fn ending_at(alloc: Global, d: &Do, bound: i64) -> Result<Stmt, NoMemory>
    requires { unsigned_abs bound ≤ 2147483647 }
    ensures { IfOk result (λ new. stmt_tree new ≡ Tree.Do (record (head_of d.now) { last = Arithmetic.literal bound }) (stmt_trees d.now.body.items)) }
{
    let (first, last) = both(d.first.copy(alloc)?, literal(alloc, bound))?;
    with_bounds(alloc, d, first, last)
}

/// The DO with these bounds in place of its own.
fn with_bounds(alloc: Global, d: &Do, first: Expr, last: Expr) -> Result<Stmt, NoMemory>
    ensures { IfOk result (λ new. stmt_tree new ≡ Tree.Do (record (head_of d.now) { first = expr_tree first; last = expr_tree last }) (stmt_trees d.now.body.items)) }
{
    let ((first, last), step) = both((first, last), d.step.copy(alloc))?;
    let new = d.with_header(first, last, step, alloc)?;
    Ok(Stmt::of_loop(new))
}

/// Which statements the step keeps.
fn peel_kept(
    alloc: Global,
    program: &Program,
    number: u32,
    d: &Do,
    last: bool,
) -> Result<Keep, NoMemory>
    requires few { statements_count (program_tree program.now).body + statements_count (stmt_trees d.now.body.items) + 1 < 2 ^ 32 }
    requires some { 1 ≤ number }
    requires inside { number + statements_count (stmt_trees d.now.body.items) ≤ statements_count (program_tree program.now).body }
    ensures { IfOk result (λ keep. keep ≡ Spec.peel_kept (program_tree program.now) number last (stmt_trees d.now.body.items)) }
{
    let size = count_statements(&d.body);
    let end = if last { number + size } else { number - 1 };
    moved_by(alloc, program, end, size)
}
