//! `reverse`: the iterations of a DO are done from the last to the first.

ghost use Rattle.std.specs.Prelude.{◌≡◌, ◌+◌, ◌<◌, ◌^◌, ℕ, [], true, false, Some, IfOk, MatchOption};
ghost use Rattle.ped_symbolic.specs.Arithmetic.{literal};
ghost use Rattle.ped_tree.specs.Constants.ConstantExpressions.{constant_value};
ghost use Rattle.ped_tree.specs.Numbering.{statements_count};
ghost use Rattle.ped_tree.specs.Tree as Tree;
ghost use Rattle.ped_tree.specs.Views.{stmt_tree, stmt_trees, program_tree, head_of};
ghost use Rattle.ped_evidence.specs.Lines.{lines_of};
ghost use Rattle.ped_rules.specs.Rules.{is_unit, WhereEscape};
ghost use Rattle.ped_rules.specs.Steps.{Answers};
ghost use Rattle.ped_rules.specs.ped_steps.specs.Changes.{IsChange};
ghost use Rattle.ped_rules.specs.ped_steps.specs.Replacing as Replacing;
ghost use Rattle.ped_rules.specs.ped_steps.specs.Scenes.{IsSceneOf};
ghost use Rattle.ped_rules.specs.ped_flow.specs.Questions.{IsLoop};
ghost use Rattle.ped_rules.specs.ped_symbols.specs.Kinds.{table_of};
ghost use Rattle.ped_rules.specs.ped_symbols.specs.NameRefusals.{IsValid};
ghost use Rattle.ped_loops.specs.ByEvidence.{reversing_by};
ghost use Rattle.ped_loops.specs.CodeEnding.{IsByRules};
ghost use Rattle.ped_loops.specs.Reversing as Spec;

use crate::ending::unless_forbidden;
use crate::openness::first_open;
use ped_base::{NoMemory, both};
use ped_evidence::EvidenceLine;
use ped_rules::{
    Change, Rule, Scene, StepAnswer, against, all_kept, change_to, escapes, first_carried, literal,
    loop_at, program_with, unit_step,
};
use ped_tree::{Do, Program, Stmt};
use std::alloc::Global;
use std::sync::ledger::Ledger;

/// Exchanges the bounds of the DO with this number and negates its increment (Allen and Kennedy, section 5.2;
/// ParaScope). Each statement keeps its number.
///
/// # Errors
///
/// `Refused` exactly where a rule forbids the step, with the rule of the least number: NoLoop, ParallelState,
/// IndexEscapes, StepShape or Limit; and else where the DO carries a dependence that the user hasn't rejected, with the
/// first one in the order of the pane.
pub fn reverse<L: Ledger>(alloc: Global, scene: &Scene<L>, number: u32) -> StepAnswer
    requires { IsSceneOf (program_tree scene.now.tree.now) scene.now }
    ensures { IfOk result (Answers (Spec.reversing number) (program_tree scene.now.tree.now)) }
{
    match reverse_by_rules(alloc, scene, number)? {
        Ok(change) => return unless_forbidden(change, first_carried(alloc, scene, number)),
        Err(refused) => return Ok(Err(refused)),
    }
}

/// The same with evidence: a dependence doesn't forbid the step where the evidence disproves each of its vectors.
pub fn reverse_by<L: Ledger>(
    alloc: Global,
    scene: &Scene<L>,
    number: u32,
    evidence: &[EvidenceLine],
) -> StepAnswer
    requires { IsSceneOf (program_tree scene.now.tree.now) scene.now }
    ensures { IfOk result (Answers (reversing_by number (lines_of evidence.now)) (program_tree scene.now.tree.now)) }
{
    match reverse_by_rules(alloc, scene, number)? {
        Ok(change) => return unless_forbidden(change, first_open(alloc, scene, number, evidence)),
        Err(refused) => return Ok(Err(refused)),
    }
}

/// What the rules answer, before any dependence is asked.
fn reverse_by_rules<L: Ledger>(alloc: Global, scene: &Scene<L>, number: u32) -> StepAnswer
    requires { IsSceneOf (program_tree scene.now.tree.now) scene.now }
    ensures { IfOk result (IsByRules (Spec.StandsAgainstReversal number (program_tree scene.now.tree.now)) (Spec.reversed (program_tree scene.now.tree.now) number) (Replacing.all_kept (program_tree scene.now.tree.now))) }
{
    match loop_at(scene.tree, number) {
        Some(d) => {
            return reverse_loop_by_rules(alloc, scene, number, d);
        }
        None => {
            return Ok(Err(against(Rule::NoLoop, number)));
        }
    }
}

/// The same, where the statement is this DO.
fn reverse_loop_by_rules<L: Ledger>(
    alloc: Global,
    scene: &Scene<L>,
    number: u32,
    d: &Do,
) -> StepAnswer
    requires scene { IsSceneOf (program_tree scene.now.tree.now) scene.now }
    requires is { IsLoop (program_tree scene.now.tree.now) number (head_of d.now) (stmt_trees d.now.body.items) }
    ensures { IfOk result (IsByRules (Spec.StandsAgainstReversal number (program_tree scene.now.tree.now)) (Spec.reversed (program_tree scene.now.tree.now) number) (Replacing.all_kept (program_tree scene.now.tree.now))) }
{
    if d.parallel {
        return Ok(Err(against(Rule::ParallelState, number)));
    }
    if let Some(statement) = escapes(scene, number) {
        return Ok(Err(against(Rule::IndexEscapes, statement)));
    }
    match unit_step(scene.symbols.consts(), d) {
        Some(step) => {
            return unless_limited(alloc, scene, number, d, step);
        }
        None => {
            return Ok(Err(against(Rule::StepShape, number)));
        }
    }
}

/// The same, where the DO is no PARALLEL DO, none of its variables is read outside it, and its increment is this one.
fn unless_limited<L: Ledger>(
    alloc: Global,
    scene: &Scene<L>,
    number: u32,
    d: &Do,
    step: i64,
) -> StepAnswer
    requires scene { IsSceneOf (program_tree scene.now.tree.now) scene.now }
    requires is { IsLoop (program_tree scene.now.tree.now) number (head_of d.now) (stmt_trees d.now.body.items) }
    requires serial { (head_of d.now).parallel ≡ false }
    requires contained { (n : ℕ) → WhereEscape (program_tree scene.now.tree.now) number n → ⊥ }
    requires step { constant_value (table_of (program_tree scene.now.tree.now)).constants (head_of d.now).step ≡ Some step }
    requires unit { is_unit step ≡ true }
    ensures { IfOk result (IsByRules (Spec.StandsAgainstReversal number (program_tree scene.now.tree.now)) (Spec.reversed (program_tree scene.now.tree.now) number) (Replacing.all_kept (program_tree scene.now.tree.now))) }
{
    match reversed(alloc, scene, number, d, step)? {
        Some(change) => {
            return Ok(Ok(change));
        }
        None => {
            return Ok(Err(against(Rule::Limit, number)));
        }
    }
}

/// The change to the program with the DO of this number reversed: none exactly where that program isn't valid.
fn reversed<L: Ledger>(
    alloc: Global,
    scene: &Scene<L>,
    number: u32,
    d: &Do,
    step: i64,
) -> Result<Option<Change>, NoMemory>
    requires scene { IsSceneOf (program_tree scene.now.tree.now) scene.now }
    requires is { IsLoop (program_tree scene.now.tree.now) number (head_of d.now) (stmt_trees d.now.body.items) }
    requires step { constant_value (table_of (program_tree scene.now.tree.now)).constants (head_of d.now).step ≡ Some step }
    requires unit { is_unit step ≡ true }
    ensures { IfOk result (λ found. MatchOption found (IsValid (Spec.reversed (program_tree scene.now.tree.now) number) → ⊥)
        (IsChange (Spec.reversed (program_tree scene.now.tree.now) number) (Replacing.all_kept (program_tree scene.now.tree.now)))) }
{
    let tree = with_turned(alloc, scene.tree, number, d, step)?;
    let keep = all_kept(alloc, scene.tree)?;
    change_to(alloc, tree, keep)
}

/// The program with the DO of this number reversed.
fn with_turned(
    alloc: Global,
    program: &Program,
    number: u32,
    d: &Do,
    step: i64,
) -> Result<Program, NoMemory>
    requires few { statements_count (program_tree program.now).body + 1 < 2 ^ 32 }
    requires is { IsLoop (program_tree program.now) number (head_of d.now) (stmt_trees d.now.body.items) }
    requires step { constant_value (table_of (program_tree program.now)).constants (head_of d.now).step ≡ Some step }
    requires unit { is_unit step ≡ true }
    ensures tree { IfOk result (λ p. program_tree p ≡ Spec.reversed (program_tree program.now) number) }
    ensures lines { IfOk result (λ p. p.lines.items ≡ []) }
{
    let mut new = Vec::new(alloc);
    new.push(turned(alloc, d, -step)?)?;
    program_with(alloc, program, number, &new)
}

/// The DO with its bounds exchanged and this increment.
fn turned(alloc: Global, d: &Do, step: i64) -> Result<Stmt, NoMemory>
    requires { is_unit step ≡ true }
    ensures { IfOk result (λ new. stmt_tree new ≡ Tree.Do (record (head_of d.now) { first = (head_of d.now).last; last = (head_of d.now).first; step = literal step }) (stmt_trees d.now.body.items)) }
{
    let first = d.last.copy(alloc)?;
    let bounds = both(first, d.first.copy(alloc))?;
    let ((first, last), step) = both(bounds, literal(alloc, step))?;
    let new = d.with_header(first, last, step, alloc)?;
    Ok(Stmt::of_loop(new))
}
