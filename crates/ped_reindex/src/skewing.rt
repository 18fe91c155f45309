//! `skew`: the bounds of the inner of two DO loops are shifted by a multiple of the outer one's variable.

ghost use Rattle.std.specs.Prelude.{◌≡◌, ◌+◌, ◌<◌, ◌≤◌, ◌^◌, ℕ, [], ◌∷◌, ◌++◌, ◌||◌, true, false, Some, IfOk, MatchOption, length, unsigned_abs};
ghost use Rattle.ped_tree.specs.Numbering.{statements_count};
ghost use Rattle.ped_tree.specs.Tree as Tree;
ghost use Rattle.ped_tree.specs.Views.{expr_tree, stmt_tree, stmt_trees, do_tree, program_tree, head_of};
ghost use Rattle.ped_rules.specs.OnlyLoops as Only;
ghost use Rattle.ped_rules.specs.Rules.{setting_at, isnt_perfect, WhereEscape};
ghost use Rattle.ped_rules.specs.Rules as Rules;
ghost use Rattle.ped_rules.specs.Steps.{Answers};
ghost use Rattle.ped_rules.specs.ped_steps.specs.Changes.{IsChange};
ghost use Rattle.ped_rules.specs.ped_steps.specs.Replacing as Replacing;
ghost use Rattle.ped_rules.specs.ped_steps.specs.Scenes.{IsSceneOf};
ghost use Rattle.ped_rules.specs.ped_affine.specs.PairViews.{heads_of};
ghost use Rattle.ped_rules.specs.ped_flow.specs.Questions.{IsLoop};
ghost use Rattle.ped_refs.specs.Loops.{nest_of};
ghost use Rattle.ped_symbolic.specs.Substitution.{statements_substituted};
ghost use Rattle.ped_rules.specs.ped_symbols.specs.NameRefusals.{IsValid};
ghost use Rattle.ped_reindex.specs.Skewing as Spec;
ghost use Rattle.ped_reindex.specs.CodeSkewing.{skewed_statement, all_skewed};

use ped_base::{Name, NoMemory, both};
use ped_refs::Loop;
use ped_rules::{
    Change, Rule, Scene, StepAnswer, against, all_kept, change_to, escapes, leaves, loop_at,
    loops_round, only_loop, program_with,
};
use ped_symbolic::{minus, plus, substitute_in_statements, times};
use ped_tree::{Do, Expr, Program, Stmt};
use std::alloc::Global;
use std::sync::ledger::Ledger;

/// Adds a multiple of the variable of the DO with this number to the bounds of the only DO in its body, and takes it
/// from the inner variable in the inner body (Allen and Kennedy, section 5.9; ParaScope). Each statement keeps its
/// number.
///
/// # Errors
///
/// `Refused` exactly where a rule forbids the step, with the rule of the least number: NoLoop, NotPerfect,
/// ParallelState, IndexEscapes, Range, Limit or BadFactor. No dependence forbids the step.
pub fn skew<L: Ledger>(alloc: Global, scene: &Scene<L>, number: u32, factor: i64) -> StepAnswer
    requires { IsSceneOf (program_tree scene.now.tree.now) scene.now }
    ensures { IfOk result (Answers (Spec.skewing number factor) (program_tree scene.now.tree.now)) }
{
    match loop_at(scene.tree, number) {
        Some(d) => {
            return skew_in(alloc, scene, number, d, factor);
        }
        None => {
            return Ok(Err(against(Rule::NoLoop, number)));
        }
    }
}

/// The same, where the statement is this DO.
fn skew_in<L: Ledger>(
    alloc: Global,
    scene: &Scene<L>,
    number: u32,
    d: &Do,
    factor: i64,
) -> StepAnswer
    requires scene { IsSceneOf (program_tree scene.now.tree.now) scene.now }
    requires is { IsLoop (program_tree scene.now.tree.now) number (head_of d.now) (stmt_trees d.now.body.items) }
    ensures { IfOk result (Answers (Spec.skewing number factor) (program_tree scene.now.tree.now)) }
{
    match only_loop(&d.body) {
        Some(inner) => {
            return skew_inner(alloc, scene, number, d, inner, factor);
        }
        None => {
            return Ok(Err(against(Rule::NotPerfect, number)));
        }
    }
}

/// The same, where the body of the DO is this one.
fn skew_inner<L: Ledger>(
    alloc: Global,
    scene: &Scene<L>,
    number: u32,
    d: &Do,
    inner: &Do,
    factor: i64,
) -> StepAnswer
    requires scene { IsSceneOf (program_tree scene.now.tree.now) scene.now }
    requires is { IsLoop (program_tree scene.now.tree.now) number (head_of d.now) (stmt_trees d.now.body.items) }
    requires only { Only.only_loop (stmt_trees d.now.body.items) ≡ Some (head_of inner.now, stmt_trees inner.now.body.items) }
    ensures { IfOk result (Answers (Spec.skewing number factor) (program_tree scene.now.tree.now)) }
{
    if is_either_parallel(d, inner) {
        return Ok(Err(against(Rule::ParallelState, number)));
    }
    if let Some(statement) = escapes(scene, number) {
        return Ok(Err(against(Rule::IndexEscapes, statement)));
    }
    if is_bad_factor(factor) {
        return Ok(Err(against(Rule::BadFactor, number)));
    }
    skew_by(alloc, scene, number, d, inner, factor)
}

/// Whether one of both DO loops is a PARALLEL DO.
fn is_either_parallel(d: &Do, inner: &Do) -> bool
    ensures { result ≡ ((head_of d.now).parallel || (head_of inner.now).parallel) }
{
    d.parallel || inner.parallel
}

/// Whether the factor isn't allowed.
fn is_bad_factor(factor: i64) -> bool
    ensures { result ≡ Spec.is_bad_factor factor }
{
    factor == 0 || factor.unsigned_abs() > 1000
}

/// The same, where only the rules Range and Limit may forbid the step.
fn skew_by<L: Ledger>(
    alloc: Global,
    scene: &Scene<L>,
    number: u32,
    d: &Do,
    inner: &Do,
    factor: i64,
) -> StepAnswer
    requires scene { IsSceneOf (program_tree scene.now.tree.now) scene.now }
    requires is { IsLoop (program_tree scene.now.tree.now) number (head_of d.now) (stmt_trees d.now.body.items) }
    requires only { Only.only_loop (stmt_trees d.now.body.items) ≡ Some (head_of inner.now, stmt_trees inner.now.body.items) }
    requires serial { ((head_of d.now).parallel || (head_of inner.now).parallel) ≡ false }
    requires contained { (n : ℕ) → WhereEscape (program_tree scene.now.tree.now) number n → ⊥ }
    requires good { Spec.is_bad_factor factor ≡ false }
    ensures { IfOk result (Answers (Spec.skewing number factor) (program_tree scene.now.tree.now)) }
{
    if skew_leaves(alloc, scene, number, d, inner, factor)? {
        return Ok(Err(against(Rule::Range, number)));
    }
    match skewed(alloc, scene, number, d, factor)? {
        Some(change) => {
            return Ok(Ok(change));
        }
        None => {
            return Ok(Err(against(Rule::Limit, number)));
        }
    }
}

/// Whether a new bound of the inner DO may leave 2^62.
fn skew_leaves<L: Ledger>(
    alloc: Global,
    scene: &Scene<L>,
    number: u32,
    d: &Do,
    inner: &Do,
    factor: i64,
) -> Result<bool, NoMemory>
    requires scene { IsSceneOf (program_tree scene.now.tree.now) scene.now }
    requires is { IsLoop (program_tree scene.now.tree.now) number (head_of d.now) (stmt_trees d.now.body.items) }
    requires only { Only.only_loop (stmt_trees d.now.body.items) ≡ Some (head_of inner.now, stmt_trees inner.now.body.items) }
    requires good { Spec.is_bad_factor factor ≡ false }
    ensures { IfOk result (λ r. r ≡ Spec.skew_leaves (program_tree scene.now.tree.now) number factor (head_of d.now) (stmt_trees d.now.body.items)) }
{
    let mut nest = loops_round(alloc, scene.tree, number)?;
    nest.push(Loop {
        number,
        statement: d,
    })?;
    let first = bound_leaves(alloc, scene, &nest, factor, d.variable, &inner.first)?;
    let last = bound_leaves(alloc, scene, &nest, factor, d.variable, &inner.last)?;
    Ok(either(first, last))
}

/// Whether one of both is so.
fn either(first: bool, last: bool) -> bool
    ensures { result ≡ (first || last) }
{
    first || last
}

/// Whether this bound, skewed, may leave 2^62 in these DO loops.
fn bound_leaves<L: Ledger>(
    alloc: Global,
    scene: &Scene<L>,
    nest: &[Loop],
    factor: i64,
    outer: Name,
    bound: &Expr,
) -> Result<bool, NoMemory>
    requires scene { IsSceneOf (program_tree scene.now.tree.now) scene.now }
    requires nest { length nest.now ≤ 6 }
    requires good { Spec.is_bad_factor factor ≡ false }
    ensures { IfOk result (λ r. (s : ℕ) → r ≡ Rules.leaves (setting_at (program_tree scene.now.tree.now) s) (heads_of (nest_of nest.now)) (Spec.skewed_bound factor outer (expr_tree bound.now))) }
{
    let skewed = skewed_bound(alloc, factor, outer, bound)?;
    let leaves = leaves(alloc, scene, nest, &skewed);
    drop(skewed);
    leaves
}

/// The bound with the factor times the outer variable added.
fn skewed_bound(alloc: Global, factor: i64, outer: Name, bound: &Expr) -> Result<Expr, NoMemory>
    requires { Spec.is_bad_factor factor ≡ false }
    ensures { IfOk result (λ e. expr_tree e ≡ Spec.skewed_bound factor outer (expr_tree bound.now)) }
{
    let offset = offset(alloc, factor, outer)?;
    if factor < 0 {
        let new = minus(alloc, bound, &offset);
        drop(offset);
        new
    } else {
        let new = plus(alloc, bound, &offset);
        drop(offset);
        new
    }
}

/// The size of the factor times the outer variable.
fn offset(alloc: Global, factor: i64, outer: Name) -> Result<Expr, NoMemory>
    requires { Spec.is_bad_factor factor ≡ false }
    ensures { IfOk result (λ e. expr_tree e ≡ Spec.offset factor outer) }
{
    let variable = Expr::scalar(outer);
    let offset = times(alloc, size_of(factor), &variable);
    drop(variable);
    offset
}

/// The size of the factor.
fn size_of(factor: i64) -> u32
    requires { Spec.is_bad_factor factor ≡ false }
    ensures value { result ≡ unsigned_abs factor }
    ensures least { 1 ≤ result }
    ensures most { result ≤ 2147483647 }
{
    factor.unsigned_abs() as u32
}

/// What the inner variable was, by what it is now.
fn unskewed(alloc: Global, factor: i64, outer: Name, inner: Name) -> Result<Expr, NoMemory>
    requires { Spec.is_bad_factor factor ≡ false }
    ensures { IfOk result (λ e. expr_tree e ≡ Spec.unskewed factor outer inner) }
{
    let offset = offset(alloc, factor, outer)?;
    let variable = Expr::scalar(inner);
    if factor < 0 {
        Expr::sum(alloc, variable, offset)
    } else {
        Expr::difference(alloc, variable, offset)
    }
}

/// The change to the program with the DO of this number skewed: none exactly where that program isn't valid.
fn skewed<L: Ledger>(
    alloc: Global,
    scene: &Scene<L>,
    number: u32,
    d: &Do,
    factor: i64,
) -> Result<Option<Change>, NoMemory>
    requires scene { IsSceneOf (program_tree scene.now.tree.now) scene.now }
    requires is { IsLoop (program_tree scene.now.tree.now) number (head_of d.now) (stmt_trees d.now.body.items) }
    requires perfect { isnt_perfect (head_of d.now) (stmt_trees d.now.body.items) ≡ false }
    requires good { Spec.is_bad_factor factor ≡ false }
    ensures { IfOk result (λ found. MatchOption found (IsValid (Spec.skewed (program_tree scene.now.tree.now) number factor) → ⊥)
        (IsChange (Spec.skewed (program_tree scene.now.tree.now) number factor) (Replacing.all_kept (program_tree scene.now.tree.now)))) }
{
    let tree = with_skewed(alloc, scene.tree, number, d, factor)?;
    let keep = all_kept(alloc, scene.tree)?;
    change_to(alloc, tree, keep)
}

/// The program with the DO of this number skewed.
fn with_skewed(
    alloc: Global,
    program: &Program,
    number: u32,
    d: &Do,
    factor: i64,
) -> Result<Program, NoMemory>
    requires few { statements_count (program_tree program.now).body + 1 < 2 ^ 32 }
    requires is { IsLoop (program_tree program.now) number (head_of d.now) (stmt_trees d.now.body.items) }
    requires perfect { isnt_perfect (head_of d.now) (stmt_trees d.now.body.items) ≡ false }
    requires good { Spec.is_bad_factor factor ≡ false }
    ensures tree { IfOk result (λ p. program_tree p ≡ Spec.skewed (program_tree program.now) number factor) }
    ensures lines { IfOk result (λ p. p.lines.items ≡ []) }
{
    let mut new = Vec::new(alloc);
    new.push(outer_with(alloc, d, factor)?)?;
    program_with(alloc, program, number, &new)
}

/// The outer DO with the DO in its body skewed.
fn outer_with(alloc: Global, d: &Do, factor: i64) -> Result<Stmt, NoMemory>
    requires perfect { isnt_perfect (head_of d.now) (stmt_trees d.now.body.items) ≡ false }
    requires good { Spec.is_bad_factor factor ≡ false }
    ensures { IfOk result (λ new. Replacing.alone (stmt_tree new) ≡ Spec.with_skewed factor (head_of d.now) (stmt_trees d.now.body.items)) }
{
    let body = skew_each(alloc, factor, d.variable, &d.body)?;
    Ok(Stmt::of_loop(d.with_body(body, alloc)?))
}

/// Copies of these statements, each DO among them skewed.
fn skew_each(
    alloc: Global,
    factor: i64,
    outer: Name,
    statements: &[Stmt],
) -> Result<Vec<Stmt>, NoMemory>
    requires { Spec.is_bad_factor factor ≡ false }
    ensures { IfOk result (λ new. stmt_trees new.items ≡ all_skewed factor outer (stmt_trees statements.now)) }
{
    let mut new = Vec::new(alloc);
    for statement in statements {
        new.push(skew_statement(alloc, factor, outer, statement)?)?;
    }
    Ok(new)
}

/// A DO skewed, or a copy of another statement.
fn skew_statement(
    alloc: Global,
    factor: i64,
    outer: Name,
    statement: &Stmt,
) -> Result<Stmt, NoMemory>
    requires { Spec.is_bad_factor factor ≡ false }
    ensures { IfOk result (λ new. stmt_tree new ≡ skewed_statement factor outer (stmt_tree statement.now)) }
{
    match statement {
        Stmt::Do(inner) => {
            let new = skewed_loop(alloc, factor, outer, inner)?;
            Ok(Stmt::of_loop(new))
        }
        Stmt::Assign { left: _, right: _ }
        | Stmt::If {
            condition: _,
            then_part: _,
            else_part: _,
        }
        | Stmt::Print(_)
        | Stmt::Read(_)
        | Stmt::Stop
        | Stmt::Comment(_) => statement.copy(alloc),
    }
}

/// The inner DO with its bounds skewed, and what its variable was for the variable in its body.
fn skewed_loop(alloc: Global, factor: i64, outer: Name, inner: &Do) -> Result<Do, NoMemory>
    requires { Spec.is_bad_factor factor ≡ false }
    ensures { IfOk result (λ new. do_tree new ≡ Spec.skewed_loop factor outer (head_of inner.now) (stmt_trees inner.now.body.items)) }
{
    let body = unskewed_body(alloc, factor, outer, inner)?;
    let first = skewed_bound(alloc, factor, outer, &inner.first)?;
    let (first, last) = both(first, skewed_bound(alloc, factor, outer, &inner.last))?;
    let ((first, last), step) = both((first, last), inner.step.copy(alloc))?;
    inner.with_header_and_body(first, last, step, body, alloc)
}

/// The body of the inner DO with what its variable was for the variable.
fn unskewed_body(alloc: Global, factor: i64, outer: Name, inner: &Do) -> Result<Vec<Stmt>, NoMemory>
    requires { Spec.is_bad_factor factor ≡ false }
    ensures { IfOk result (λ new. stmt_trees new.items ≡ statements_substituted inner.now.variable (Spec.unskewed factor outer inner.now.variable) (stmt_trees inner.now.body.items)) }
{
    let by = unskewed(alloc, factor, outer, inner.variable)?;
    let body = substitute_in_statements(alloc, &inner.body, &inner.variable, &by);
    drop(by);
    body
}
