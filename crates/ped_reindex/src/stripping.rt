//! `strip`: the iterations of a DO are done in strips.

ghost use Rattle.std.specs.Prelude.{◌≡◌, ◌+◌, ◌<◌, ◌≤◌, ◌^◌, ℕ, [], ◌∷◌, ◌++◌, true, false, Some, IfOk, MatchOption, length};
ghost use Rattle.ped_tree.specs.Numbering.{statements_count};
ghost use Rattle.ped_tree.specs.Tree as Tree;
ghost use Rattle.ped_tree.specs.Views.{expr_tree, stmt_tree, stmt_trees, do_tree, program_tree, head_of};
ghost use Rattle.ped_rules.specs.KeepMaps.{moved_by as MovedBy};
ghost use Rattle.ped_rules.specs.Rules as Rules;
ghost use Rattle.ped_rules.specs.Rules.{WhereEscape, has_private, is_one, has_other_step, setting_at};
ghost use Rattle.ped_rules.specs.Steps.{Answers};
ghost use Rattle.ped_rules.specs.ped_steps.specs.Changes.{IsChange};
ghost use Rattle.ped_rules.specs.ped_steps.specs.Replacing as Replacing;
ghost use Rattle.ped_rules.specs.ped_steps.specs.Scenes.{IsSceneOf};
ghost use Rattle.ped_rules.specs.ped_affine.specs.PairViews.{heads_of};
ghost use Rattle.ped_rules.specs.ped_flow.specs.PlainBounds.{IsPlain};
ghost use Rattle.ped_rules.specs.ped_flow.specs.Questions.{IsLoop};
ghost use Rattle.ped_refs.specs.Loops.{nest_of};
ghost use Rattle.ped_rules.specs.ped_symbols.specs.Kinds.{table_of};
ghost use Rattle.ped_rules.specs.ped_symbols.specs.NameRefusals.{IsValid};
ghost use Rattle.ped_reindex.specs.Stripping as Spec;

use crate::lists::has_list;
use ped_base::{Name, Names, NoMemory, both};
use ped_refs::Loop;
use ped_rules::{
    Change, NewName, Rule, Scene, StepAnswer, against, change_to, escapes, fresh_name,
    has_step_one, is_plain, leaves, literal, loop_at, loops_round, moved_by, program_with,
};
use ped_symbolic::plus;
use ped_tree::{Do, Expr, Intrinsic, Program, Stmt};
use std::alloc::Global;
use std::sync::ledger::Ledger;

/// Puts a DO over strips of this many iterations around the DO with this number, which then does one strip (strip
/// mining: Allen and Kennedy, section 6.6.1; ParaScope). The new DO takes its number, and the numbers of the statements
/// after it grow by one.
///
/// # Errors
///
/// `Refused` exactly where a rule forbids the step, with the rule of the least number: NoLoop, ParallelState,
/// HasPrivate, IndexEscapes, BoundNotPlain, StepShape, Range, Limit or BadFactor. No dependence forbids the step.
pub fn strip<L: Ledger>(alloc: Global, scene: &Scene<L>, number: u32, size: i64) -> StepAnswer
    requires { IsSceneOf (program_tree scene.now.tree.now) scene.now }
    ensures { IfOk result (Answers (Spec.stripping number size) (program_tree scene.now.tree.now)) }
{
    match loop_at(scene.tree, number) {
        Some(d) => {
            return strip_in(alloc, scene, number, d, size);
        }
        None => {
            return Ok(Err(against(Rule::NoLoop, number)));
        }
    }
}

/// The same, where the statement is this DO.
fn strip_in<L: Ledger>(
    alloc: Global,
    scene: &Scene<L>,
    number: u32,
    d: &Do,
    size: i64,
) -> StepAnswer
    requires scene { IsSceneOf (program_tree scene.now.tree.now) scene.now }
    requires is { IsLoop (program_tree scene.now.tree.now) number (head_of d.now) (stmt_trees d.now.body.items) }
    ensures { IfOk result (Answers (Spec.stripping number size) (program_tree scene.now.tree.now)) }
{
    if d.parallel {
        return Ok(Err(against(Rule::ParallelState, number)));
    }
    if has_list(d) {
        return Ok(Err(against(Rule::HasPrivate, number)));
    }
    if let Some(statement) = escapes(scene, number) {
        return Ok(Err(against(Rule::IndexEscapes, statement)));
    }
    strip_contained(alloc, scene, number, d, size)
}

/// The same, where the DO is no PARALLEL DO, has no PRIVATE names, and no variable of it is read outside its DO.
fn strip_contained<L: Ledger>(
    alloc: Global,
    scene: &Scene<L>,
    number: u32,
    d: &Do,
    size: i64,
) -> StepAnswer
    requires scene { IsSceneOf (program_tree scene.now.tree.now) scene.now }
    requires is { IsLoop (program_tree scene.now.tree.now) number (head_of d.now) (stmt_trees d.now.body.items) }
    requires serial { (head_of d.now).parallel ≡ false }
    requires shared { has_private (head_of d.now) (stmt_trees d.now.body.items) ≡ false }
    requires contained { (n : ℕ) → WhereEscape (program_tree scene.now.tree.now) number n → ⊥ }
    ensures { IfOk result (Answers (Spec.stripping number size) (program_tree scene.now.tree.now)) }
{
    if !is_plain(alloc, scene, number, &d.last)? {
        return Ok(Err(against(Rule::BoundNotPlain, number)));
    }
    if !has_step_one(scene.symbols.consts(), d) {
        return Ok(Err(against(Rule::StepShape, number)));
    }
    if is_bad_size(size) {
        return Ok(Err(against(Rule::BadFactor, number)));
    }
    strip_by(alloc, scene, number, d, size)
}

/// Whether the size isn't allowed.
fn is_bad_size(size: i64) -> bool
    ensures { result ≡ Spec.is_bad_size size }
{
    size < 2 || size > 1000
}

/// The same, where only the rules Range and Limit may forbid the step.
fn strip_by<L: Ledger>(
    alloc: Global,
    scene: &Scene<L>,
    number: u32,
    d: &Do,
    size: i64,
) -> StepAnswer
    requires scene { IsSceneOf (program_tree scene.now.tree.now) scene.now }
    requires is { IsLoop (program_tree scene.now.tree.now) number (head_of d.now) (stmt_trees d.now.body.items) }
    requires serial { (head_of d.now).parallel ≡ false }
    requires shared { has_private (head_of d.now) (stmt_trees d.now.body.items) ≡ false }
    requires contained { (n : ℕ) → WhereEscape (program_tree scene.now.tree.now) number n → ⊥ }
    requires plain { IsPlain (table_of (program_tree scene.now.tree.now)).constants (program_tree scene.now.tree.now) number (head_of d.now).last }
    requires unit { has_other_step (table_of (program_tree scene.now.tree.now)).constants is_one (head_of d.now) (stmt_trees d.now.body.items) ≡ false }
    requires good { Spec.is_bad_size size ≡ false }
    ensures { IfOk result (Answers (Spec.stripping number size) (program_tree scene.now.tree.now)) }
{
    match fresh_name(alloc, NewName::Variable, scene.tree, scene.symbols)? {
        Some(name) => {
            return strip_named(alloc, scene, number, d, size, name);
        }
        None => {
            return Ok(Err(against(Rule::Limit, number)));
        }
    }
}

/// The same, where this is the name of the new variable.
fn strip_named<L: Ledger>(
    alloc: Global,
    scene: &Scene<L>,
    number: u32,
    d: &Do,
    size: i64,
    name: Name,
) -> StepAnswer
    requires scene { IsSceneOf (program_tree scene.now.tree.now) scene.now }
    requires is { IsLoop (program_tree scene.now.tree.now) number (head_of d.now) (stmt_trees d.now.body.items) }
    requires serial { (head_of d.now).parallel ≡ false }
    requires shared { has_private (head_of d.now) (stmt_trees d.now.body.items) ≡ false }
    requires contained { (n : ℕ) → WhereEscape (program_tree scene.now.tree.now) number n → ⊥ }
    requires plain { IsPlain (table_of (program_tree scene.now.tree.now)).constants (program_tree scene.now.tree.now) number (head_of d.now).last }
    requires unit { has_other_step (table_of (program_tree scene.now.tree.now)).constants is_one (head_of d.now) (stmt_trees d.now.body.items) ≡ false }
    requires good { Spec.is_bad_size size ≡ false }
    requires fresh { Spec.strip_variable (program_tree scene.now.tree.now) ≡ Some name }
    ensures { IfOk result (Answers (Spec.stripping number size) (program_tree scene.now.tree.now)) }
{
    if strip_leaves(alloc, scene, number, d, size, name)? {
        return Ok(Err(against(Rule::Range, number)));
    }
    match stripped(alloc, scene, number, d, size, name)? {
        Some(change) => {
            return Ok(Ok(change));
        }
        None => {
            return Ok(Err(against(Rule::Limit, number)));
        }
    }
}

/// Whether the last value of a whole strip may leave 2^62.
fn strip_leaves<L: Ledger>(
    alloc: Global,
    scene: &Scene<L>,
    number: u32,
    d: &Do,
    size: i64,
    name: Name,
) -> Result<bool, NoMemory>
    requires scene { IsSceneOf (program_tree scene.now.tree.now) scene.now }
    requires is { IsLoop (program_tree scene.now.tree.now) number (head_of d.now) (stmt_trees d.now.body.items) }
    requires good { Spec.is_bad_size size ≡ false }
    requires fresh { Spec.strip_variable (program_tree scene.now.tree.now) ≡ Some name }
    ensures { IfOk result (λ r. r ≡ Spec.strip_leaves (program_tree scene.now.tree.now) number size (head_of d.now) (stmt_trees d.now.body.items)) }
{
    let nest = loops_round(alloc, scene.tree, number)?;
    let (end, strips) = both(
        strip_end(alloc, size, name)?,
        strips_loop(alloc, d, size, name, Vec::new(alloc)),
    )?;
    let inner = Loop {
        number,
        statement: &strips,
    };
    let leaves = leaves_inside(alloc, scene, nest, inner, &end);
    drop(strips);
    drop(end);
    leaves
}

/// Whether this expression may leave 2^62 in these DO loops, the outermost first, and in one more inside them.
fn leaves_inside<'a, L: Ledger>(
    alloc: Global,
    scene: &Scene<L>,
    nest: Vec<Loop<'a>>,
    inner: Loop<'a>,
    e: &Expr,
) -> Result<bool, NoMemory>
    requires scene { IsSceneOf (program_tree scene.now.tree.now) scene.now }
    requires nest { length (nest.items ++ inner ∷ []) ≤ 6 }
    ensures { IfOk result (λ r. (s : ℕ) → r ≡ Rules.leaves (setting_at (program_tree scene.now.tree.now) s) (heads_of (nest_of (nest.entry.items ++ inner.entry ∷ []))) (expr_tree e.now)) }
{
    let mut nest = nest;
    nest.push(inner)?;
    leaves(alloc, scene, &nest, e)
}

/// The last value of a whole strip.
fn strip_end(alloc: Global, size: i64, name: Name) -> Result<Expr, NoMemory>
    requires { Spec.is_bad_size size ≡ false }
    ensures { IfOk result (λ e. expr_tree e ≡ Spec.strip_end size name) }
{
    let further = literal(alloc, size - 1)?;
    let variable = Expr::scalar(name);
    let end = plus(alloc, &variable, &further);
    drop(variable);
    drop(further);
    end
}

/// The change to the program with the DO of this number in strips: none exactly where that program isn't valid.
fn stripped<L: Ledger>(
    alloc: Global,
    scene: &Scene<L>,
    number: u32,
    d: &Do,
    size: i64,
    name: Name,
) -> Result<Option<Change>, NoMemory>
    requires scene { IsSceneOf (program_tree scene.now.tree.now) scene.now }
    requires is { IsLoop (program_tree scene.now.tree.now) number (head_of d.now) (stmt_trees d.now.body.items) }
    requires good { Spec.is_bad_size size ≡ false }
    ensures { IfOk result (λ found. MatchOption found (IsValid (Spec.stripped (program_tree scene.now.tree.now) number size name) → ⊥)
        (IsChange (Spec.stripped (program_tree scene.now.tree.now) number size name) (MovedBy number 1 (program_tree scene.now.tree.now)))) }
{
    let tree = with_strips(alloc, scene.tree, number, d, size, name)?;
    let keep = moved_by(alloc, scene.tree, number, 1)?;
    change_to(alloc, tree, keep)
}

/// The program with the DO of this number in strips.
fn with_strips(
    alloc: Global,
    program: &Program,
    number: u32,
    d: &Do,
    size: i64,
    name: Name,
) -> Result<Program, NoMemory>
    requires few { statements_count (program_tree program.now).body + 1 < 2 ^ 32 }
    requires is { IsLoop (program_tree program.now) number (head_of d.now) (stmt_trees d.now.body.items) }
    requires good { Spec.is_bad_size size ≡ false }
    ensures tree { IfOk result (λ p. program_tree p ≡ Spec.stripped (program_tree program.now) number size name) }
    ensures lines { IfOk result (λ p. p.lines.items ≡ []) }
{
    let mut new = Vec::new(alloc);
    new.push(strips_with(alloc, d, size, name)?)?;
    program_with(alloc, program, number, &new)
}

/// The DO over the strips with the DO over one strip in it.
fn strips_with(alloc: Global, d: &Do, size: i64, name: Name) -> Result<Stmt, NoMemory>
    requires { Spec.is_bad_size size ≡ false }
    ensures { IfOk result (λ new. Replacing.alone (stmt_tree new) ≡ Spec.with_strips size name (head_of d.now) (stmt_trees d.now.body.items)) }
{
    let mut body = Vec::new(alloc);
    body.push(strip_loop(alloc, d, size, name)?)?;
    Ok(Stmt::of_loop(strips_loop(alloc, d, size, name, body)?))
}

/// The DO over the strips with this body.
fn strips_loop(
    alloc: Global,
    d: &Do,
    size: i64,
    name: Name,
    body: Vec<Stmt>,
) -> Result<Do, NoMemory>
    requires { Spec.is_bad_size size ≡ false }
    ensures { IfOk result (λ new. do_tree new ≡ Tree.Do (Spec.strips_head size name (head_of d.now)) (stmt_trees body.items)) }
{
    let (first, last) = both(d.first.copy(alloc)?, d.last.copy(alloc))?;
    let ((first, last), step) = both((first, last), literal(alloc, size))?;
    Ok(Do {
        variable: name,
        first,
        last,
        step,
        parallel: false,
        private: Names::new(alloc),
        rejected: Names::new(alloc),
        body,
    })
}

/// The DO over one strip.
fn strip_loop(alloc: Global, d: &Do, size: i64, name: Name) -> Result<Stmt, NoMemory>
    requires { Spec.is_bad_size size ≡ false }
    ensures { IfOk result (λ new. stmt_tree new ≡ Tree.Do (Spec.strip_head size name (head_of d.now)) (stmt_trees d.now.body.items)) }
{
    let last = strip_limit(alloc, d, size, name)?;
    let new = d.with_header(Expr::scalar(name), last, Expr::literal(1), alloc)?;
    Ok(Stmt::of_loop(new))
}

/// The limit of a strip: its last value, or the limit of the DO where this is less.
fn strip_limit(alloc: Global, d: &Do, size: i64, name: Name) -> Result<Expr, NoMemory>
    requires { Spec.is_bad_size size ≡ false }
    ensures { IfOk result (λ e. expr_tree e ≡ (Spec.strip_head size name (head_of d.now)).last) }
{
    let mut arguments = Vec::new(alloc);
    arguments.push(strip_end(alloc, size, name)?)?;
    arguments.push(d.last.copy(alloc)?)?;
    Ok(Expr::call(Intrinsic::Min, arguments))
}
