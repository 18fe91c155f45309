//! `expand`: a scalar becomes an array with an element for each value of a DO's variable.

ghost use Rattle.std.specs.Prelude.{◌≡◌, ◌||◌, ℕ, IfOk, false, MatchOption, Some};
ghost use Rattle.std.specs.List.{list_any};
ghost use Rattle.ped_base.specs.Lists.{is_among};
ghost use Rattle.ped_tree.specs.NamesIn as Names;
ghost use Rattle.ped_tree.specs.Tree;
ghost use Rattle.ped_tree.specs.Views.{stmt_trees, program_tree};
ghost use Rattle.ped_refs.specs.Loops.{nest_of};
ghost use Rattle.ped_tree.specs.Views.{head_of};
ghost use Rattle.ped_rules.specs.ped_flow.specs.PlainBounds.{nest_round};
ghost use Rattle.ped_rules.specs.ped_flow.specs.Questions.{IsLoop};
ghost use Rattle.ped_rules.specs.ped_steps.specs.Scenes.{IsSceneOf};
ghost use Rattle.ped_rules.specs.ped_symbols.specs.Kinds.{table_of};
ghost use Rattle.ped_rules.specs.Scalars as Scalars;
ghost use Rattle.ped_rules.specs.Steps.{Answers};
ghost use Rattle.ped_rules.specs.Spans as Spans;
ghost use Rattle.ped_rules.specs.CodeSpans.{IsKnown};
ghost use Rattle.ped_scalar.specs.CodeElements.{AreElements};
ghost use Rattle.ped_scalar.specs.Expanding as Spec;

use crate::elements::Elements;
use crate::keeping::expand_kept;
use crate::scalars::{is_unfit, live_by};
use ped_base::Name;
use ped_refs::Loop;
use ped_rules::{
    Course, NewName, Rule, Scene, Span, StepAnswer, against, change_to, course_of, fresh_name,
    is_private_in, is_private_round, loop_at, loops_round,
};
use ped_tree::Do;
use std::alloc::Global;
use std::sync::ledger::Ledger;

/// Makes a scalar an array with an element for each value of the variable of the DO with this number (Allen and
/// Kennedy, section 5.3). The numbers of the statements after the DO grow by one where the scalar is live after it.
///
/// # Errors
///
/// `Refused` exactly where a rule forbids the step, with the rule of the least number: NoLoop, ParallelState, Range,
/// ExposedOrLive, NotScalar, NotConstant, Limit or AlreadyPrivate. No dependence forbids the step.
pub fn expand<L: Ledger>(alloc: Global, scene: &Scene<L>, number: u32, name: &Name) -> StepAnswer
    requires { IsSceneOf (program_tree scene.now.tree.now) scene.now }
    ensures { IfOk result (Answers (Spec.expanding number name.now) (program_tree scene.now.tree.now)) }
{
    match loop_at(scene.tree, number) {
        Some(d) => {
            return expand_in(alloc, scene, number, d, name);
        }
        None => {
            return Ok(Err(against(Rule::NoLoop, number)));
        }
    }
}

/// The same, where the statement is this DO.
fn expand_in<L: Ledger>(
    alloc: Global,
    scene: &Scene<L>,
    number: u32,
    d: &Do,
    name: &Name,
) -> StepAnswer
    requires scene { IsSceneOf (program_tree scene.now.tree.now) scene.now }
    requires is { IsLoop (program_tree scene.now.tree.now) number (head_of d.now) (stmt_trees d.now.body.items) }
    ensures { IfOk result (Answers (Spec.expanding number name.now) (program_tree scene.now.tree.now)) }
{
    if d.parallel {
        return Ok(Err(against(Rule::ParallelState, number)));
    }
    match course_of(scene.symbols.consts(), d) {
        Course::Far => {
            return Ok(Err(against(Rule::Range, number)));
        }
        Course::Near(span) => {
            return expand_known(alloc, scene, number, d, name, Some(span));
        }
        Course::Unknown => {
            return expand_known(alloc, scene, number, d, name, None);
        }
    }
}

/// The same, where the DO is no PARALLEL DO; these are the values of the DO's variable, none where a bound isn't
/// constant or there is no iteration.
fn expand_known<L: Ledger>(
    alloc: Global,
    scene: &Scene<L>,
    number: u32,
    d: &Do,
    name: &Name,
    span: Option<Span>,
) -> StepAnswer
    requires scene { IsSceneOf (program_tree scene.now.tree.now) scene.now }
    requires is { IsLoop (program_tree scene.now.tree.now) number (head_of d.now) (stmt_trees d.now.body.items) }
    requires span { IsKnown (Spans.span_of (table_of (program_tree scene.now.tree.now)).constants (head_of d.now)) span }
    requires serial { (head_of d.now).parallel ≡ false }
    ensures { IfOk result (Answers (Spec.expanding number name.now) (program_tree scene.now.tree.now)) }
{
    if let Some(statement) = lost_by(scene, number, name) {
        return Ok(Err(against(Rule::ExposedOrLive, statement)));
    }
    let round = loops_round(alloc, scene.tree, number)?;
    if is_unfit(alloc, scene, number, d, &round, name)? {
        return Ok(Err(against(Rule::NotScalar, number)));
    }
    match span {
        Some(span) => {
            return expand_over(alloc, scene, number, d, name, span, &round);
        }
        None => {
            return Ok(Err(against(Rule::NotConstant, number)));
        }
    }
}

/// The same, where the scalar wouldn't be lost and each iteration can have its own copy of it; these are the values of
/// the DO's variable and the DO loops around it.
fn expand_over<L: Ledger>(
    alloc: Global,
    scene: &Scene<L>,
    number: u32,
    d: &Do,
    name: &Name,
    span: Span,
    round: &[Loop],
) -> StepAnswer
    requires scene { IsSceneOf (program_tree scene.now.tree.now) scene.now }
    requires is { IsLoop (program_tree scene.now.tree.now) number (head_of d.now) (stmt_trees d.now.body.items) }
    requires span { IsKnown (Spans.span_of (table_of (program_tree scene.now.tree.now)).constants (head_of d.now)) (Some span) }
    requires round { nest_of round.now ≡ nest_round (program_tree scene.now.tree.now) number }
    requires serial { (head_of d.now).parallel ≡ false }
    requires kept { (n : ℕ) → Spec.IsScalarLostBy (program_tree scene.now.tree.now) number name.now n → ⊥ }
    requires fit { Scalars.is_unfit (program_tree scene.now.tree.now) number name.now (head_of d.now) (stmt_trees d.now.body.items) ≡ false }
    ensures { IfOk result (Answers (Spec.expanding number name.now) (program_tree scene.now.tree.now)) }
{
    match fresh_name(alloc, NewName::Array, scene.tree, scene.symbols)? {
        Some(array) => {
            let elements = Elements {
                scalar: *name,
                array,
                span,
                live: is_live(scene, number, name),
            };
            return expand_to(alloc, scene, number, d, &elements, round);
        }
        None => {
            return Ok(Err(against(Rule::Limit, number)));
        }
    }
}

/// The same, with the elements of the new array.
fn expand_to<L: Ledger>(
    alloc: Global,
    scene: &Scene<L>,
    number: u32,
    d: &Do,
    elements: &Elements,
    round: &[Loop],
) -> StepAnswer
    requires scene { IsSceneOf (program_tree scene.now.tree.now) scene.now }
    requires is { IsLoop (program_tree scene.now.tree.now) number (head_of d.now) (stmt_trees d.now.body.items) }
    requires round { nest_of round.now ≡ nest_round (program_tree scene.now.tree.now) number }
    requires elements { AreElements (program_tree scene.now.tree.now) number (head_of d.now) elements.now }
    requires serial { (head_of d.now).parallel ≡ false }
    requires kept { (n : ℕ) → Spec.IsScalarLostBy (program_tree scene.now.tree.now) number elements.now.scalar n → ⊥ }
    requires fit { Scalars.is_unfit (program_tree scene.now.tree.now) number elements.now.scalar (head_of d.now) (stmt_trees d.now.body.items) ≡ false }
    ensures { IfOk result (Answers (Spec.expanding number elements.now.scalar) (program_tree scene.now.tree.now)) }
{
    let tree = elements.expand(alloc, scene.tree, number, d)?;
    let keep = expand_kept(alloc, scene.tree, number, d, elements.live)?;
    match change_to(alloc, tree, keep)? {
        Some(change) => {
            if is_private_near(&elements.scalar, d, round) {
                return Ok(Err(against(Rule::AlreadyPrivate, number)));
            }
            return Ok(Ok(change));
        }
        None => {
            return Ok(Err(against(Rule::Limit, number)));
        }
    }
}

/// Whether the name is in the PRIVATE list of the DO, of one in it or of one of these around it.
fn is_private_near(name: &Name, d: &Do, round: &[Loop]) -> bool
    ensures { result ≡ (is_among name.now (Names.private_names_in (Tree.Do (head_of d.now) (stmt_trees d.now.body.items))) || list_any (λ l. is_among name.now l.head.private) (nest_of round.now)) }
{
    is_private_in(name, d) || is_private_round(name, round)
}

/// Whether the scalar is live after the DO with this number.
fn is_live<L: Ledger>(scene: &Scene<L>, number: u32, name: &Name) -> bool
    requires { IsSceneOf (program_tree scene.now.tree.now) scene.now }
    ensures { Spec.SaysLive (program_tree scene.now.tree.now) number name.now result }
{
    match scene.flow.live_after(number, name) {
        Some(_reader) => {
            return true;
        }
        None => {
            return false;
        }
    }
}

/// The statement by which the name, where it is that of a scalar variable, is exposed in the DO with this number, or
/// live after it and not assigned on each path through the body.
fn lost_by<L: Ledger>(scene: &Scene<L>, number: u32, name: &Name) -> Option<u32>
    requires { IsSceneOf (program_tree scene.now.tree.now) scene.now }
    ensures { MatchOption result ((n : ℕ) → Spec.IsScalarLostBy (program_tree scene.now.tree.now) number name.now n → ⊥) (Spec.IsScalarLostBy (program_tree scene.now.tree.now) number name.now) }
{
    if !scene.symbols.is_scalar(name) {
        return None;
    }
    match scene.flow.exposed(number, name) {
        Some(statement) => {
            return Some(statement);
        }
        None => {
            if scene.flow.assigned_through(number, name) {
                return None;
            }
            return live_by(scene.flow, number, name);
        }
    }
}
