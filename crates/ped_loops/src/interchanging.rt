//! `interchange`: a DO and the only DO in its body change places.

ghost use Rattle.std.specs.Prelude.{◌≡◌, ◌||◌, ◌&&◌, ◌+◌, ◌<◌, ◌≤◌, ◌^◌, ℕ, [], length, true, false, Some, IfOk, MatchOption};
ghost use Rattle.ped_base.specs.Lists.{has_some};
ghost use Rattle.ped_tree.specs.Numbering.{statements_count};
ghost use Rattle.ped_tree.specs.Views.{stmt_trees, do_tree, program_tree, head_of};
ghost use Rattle.ped_evidence.specs.Lines.{lines_of};
ghost use Rattle.ped_rules.specs.KeepMaps as KeepMaps;
ghost use Rattle.ped_rules.specs.OnlyLoops.{only_loop};
ghost use Rattle.ped_rules.specs.Rules as Rules;
ghost use Rattle.ped_rules.specs.Rules.{WhereUnplain, setting_at, heads_round};
ghost use Rattle.ped_rules.specs.Steps.{Answers};
ghost use Rattle.ped_rules.specs.ped_steps.specs.Changes.{IsChange};
ghost use Rattle.ped_rules.specs.ped_steps.specs.Replacing.{alone};
ghost use Rattle.ped_rules.specs.ped_steps.specs.Scenes.{IsSceneOf};
ghost use Rattle.ped_rules.specs.ped_affine.specs.PairViews.{heads_of};
ghost use Rattle.ped_rules.specs.ped_flow.specs.Questions.{IsLoop};
ghost use Rattle.ped_refs.specs.Loops.{nest_of};
ghost use Rattle.ped_rules.specs.ped_symbols.specs.NameRefusals.{IsValid};
ghost use Rattle.ped_loops.specs.ByEvidence.{interchanging_by};
ghost use Rattle.ped_loops.specs.CodeEnding.{IsByRules};
ghost use Rattle.ped_loops.specs.CodeInterchanging.{NoneUpTo};
ghost use Rattle.ped_loops.specs.CodeShapes.{HasShapes};
ghost use Rattle.ped_loops.specs.Interchanging as Spec;
ghost use Rattle.ped_loops.specs.Shapes.{names_outer};

use crate::ending::unless_forbidden;
use crate::openness::first_open_crossing;
use crate::shapes::{Pair, exchanged, names_outer, pair_of};
use ped_base::NoMemory;
use ped_evidence::EvidenceLine;
use ped_refs::Loop;
use ped_rules::{
    Change, Rule, Scene, StepAnswer, against, all_but, are_plain, change_to, escapes,
    first_crossing, has_step_one, leaves, loop_at, loops_round, only_loop, program_with,
};
use ped_tree::constants::Consts;
use ped_tree::{Do, Program, Stmt};
use std::alloc::Global;
use std::sync::ledger::Ledger;

/// Exchanges the DO with this number and the only DO in its body (Allen and Kennedy, section 5.2; ParaScope). Each
/// other statement keeps its number.
///
/// # Errors
///
/// `Refused` exactly where a rule forbids the step, with the rule of the least number: NoLoop, NotPerfect,
/// ParallelState, HasPrivate, IndexEscapes, BoundNotPlain, BoundsShape, StepShape, Range or Limit; and else where the
/// DO carries a dependence that the user hasn't rejected and of which the sink is in an earlier iteration of the inner
/// DO, with the first one in the order of the pane.
pub fn interchange<L: Ledger>(alloc: Global, scene: &Scene<L>, number: u32) -> StepAnswer
    requires { IsSceneOf (program_tree scene.now.tree.now) scene.now }
    ensures { IfOk result (Answers (Spec.interchanging number) (program_tree scene.now.tree.now)) }
{
    match interchange_by_rules(alloc, scene, number)? {
        Ok(change) => return unless_forbidden(change, first_crossing(alloc, scene, number)),
        Err(refused) => return Ok(Err(refused)),
    }
}

/// The same with evidence: of a dependence only a vector that the evidence doesn't disprove forbids the step.
pub fn interchange_by<L: Ledger>(
    alloc: Global,
    scene: &Scene<L>,
    number: u32,
    evidence: &[EvidenceLine],
) -> StepAnswer
    requires { IsSceneOf (program_tree scene.now.tree.now) scene.now }
    ensures { IfOk result (Answers (interchanging_by number (lines_of evidence.now)) (program_tree scene.now.tree.now)) }
{
    match interchange_by_rules(alloc, scene, number)? {
        Ok(change) => {
            let found = first_open_crossing(alloc, scene, number, evidence);
            return unless_forbidden(change, found);
        }
        Err(refused) => return Ok(Err(refused)),
    }
}

/// What the rules answer, before any dependence is asked.
fn interchange_by_rules<L: Ledger>(alloc: Global, scene: &Scene<L>, number: u32) -> StepAnswer
    requires { IsSceneOf (program_tree scene.now.tree.now) scene.now }
    ensures { IfOk result (IsByRules (Spec.StandsAgainstInterchange number (program_tree scene.now.tree.now)) (Spec.interchanged (program_tree scene.now.tree.now) number) (KeepMaps.all_but number (number + 1) (program_tree scene.now.tree.now))) }
{
    match loop_at(scene.tree, number) {
        Some(outer) => {
            return interchange_loop_by_rules(alloc, scene, number, outer);
        }
        None => {
            return Ok(Err(against(Rule::NoLoop, number)));
        }
    }
}

/// The same, where the statement is this DO.
fn interchange_loop_by_rules<L: Ledger>(
    alloc: Global,
    scene: &Scene<L>,
    number: u32,
    outer: &Do,
) -> StepAnswer
    requires scene { IsSceneOf (program_tree scene.now.tree.now) scene.now }
    requires is { IsLoop (program_tree scene.now.tree.now) number (head_of outer.now) (stmt_trees outer.now.body.items) }
    ensures { IfOk result (IsByRules (Spec.StandsAgainstInterchange number (program_tree scene.now.tree.now)) (Spec.interchanged (program_tree scene.now.tree.now) number) (KeepMaps.all_but number (number + 1) (program_tree scene.now.tree.now))) }
{
    match only_loop(&outer.body) {
        Some(inner) => {
            return interchange_two(alloc, scene, number, outer, inner);
        }
        None => {
            return Ok(Err(against(Rule::NotPerfect, number)));
        }
    }
}

/// The same, where the body of the DO is this one.
fn interchange_two<L: Ledger>(
    alloc: Global,
    scene: &Scene<L>,
    number: u32,
    outer: &Do,
    inner: &Do,
) -> StepAnswer
    requires scene { IsSceneOf (program_tree scene.now.tree.now) scene.now }
    requires is { IsLoop (program_tree scene.now.tree.now) number (head_of outer.now) (stmt_trees outer.now.body.items) }
    requires only { only_loop (stmt_trees outer.now.body.items) ≡ Some (head_of inner.now, stmt_trees inner.now.body.items) }
    ensures { IfOk result (IsByRules (Spec.StandsAgainstInterchange number (program_tree scene.now.tree.now)) (Spec.interchanged (program_tree scene.now.tree.now) number) (KeepMaps.all_but number (number + 1) (program_tree scene.now.tree.now))) }
{
    if are_parallel(outer, inner) {
        return Ok(Err(against(Rule::ParallelState, number)));
    }
    if have_private(outer, inner) {
        return Ok(Err(against(Rule::HasPrivate, number)));
    }
    match escapes(scene, number) {
        Some(statement) => {
            return Ok(Err(against(Rule::IndexEscapes, statement)));
        }
        None => {
            return unless_unplain(alloc, scene, number, outer, inner);
        }
    }
}

/// Whether one of the two is a PARALLEL DO.
fn are_parallel(outer: &Do, inner: &Do) -> bool
    ensures { result ≡ ((head_of outer.now).parallel || (head_of inner.now).parallel) }
{
    outer.parallel || inner.parallel
}

/// Whether one of the two has PRIVATE names.
fn have_private(outer: &Do, inner: &Do) -> bool
    ensures { result ≡ (has_some (head_of outer.now).private || has_some (head_of inner.now).private) }
{
    has_private(outer) || has_private(inner)
}

/// Whether the DO has PRIVATE names.
fn has_private(d: &Do) -> bool
    ensures { result ≡ has_some (head_of d.now).private }
{
    !d.private.is_empty()
}

/// The same, where no rule up to the fifth forbids it.
fn unless_unplain<L: Ledger>(
    alloc: Global,
    scene: &Scene<L>,
    number: u32,
    outer: &Do,
    inner: &Do,
) -> StepAnswer
    requires scene { IsSceneOf (program_tree scene.now.tree.now) scene.now }
    requires is { IsLoop (program_tree scene.now.tree.now) number (head_of outer.now) (stmt_trees outer.now.body.items) }
    requires only { only_loop (stmt_trees outer.now.body.items) ≡ Some (head_of inner.now, stmt_trees inner.now.body.items) }
    requires none { NoneUpTo 5 (Spec.StandsAgainstInterchange number (program_tree scene.now.tree.now)) }
    ensures { IfOk result (IsByRules (Spec.StandsAgainstInterchange number (program_tree scene.now.tree.now)) (Spec.interchanged (program_tree scene.now.tree.now) number) (KeepMaps.all_but number (number + 1) (program_tree scene.now.tree.now))) }
{
    match first_unplain(alloc, scene, number, outer, inner)? {
        Some(statement) => {
            return Ok(Err(against(Rule::BoundNotPlain, statement)));
        }
        None => {
            return unless_tied(alloc, scene, number, outer, inner);
        }
    }
}

/// The first of the two DO loops of which a bound isn't plain, by its number.
fn first_unplain<L: Ledger>(
    alloc: Global,
    scene: &Scene<L>,
    number: u32,
    outer: &Do,
    inner: &Do,
) -> Result<Option<u32>, NoMemory>
    requires scene { IsSceneOf (program_tree scene.now.tree.now) scene.now }
    requires is { IsLoop (program_tree scene.now.tree.now) number (head_of outer.now) (stmt_trees outer.now.body.items) }
    requires only { only_loop (stmt_trees outer.now.body.items) ≡ Some (head_of inner.now, stmt_trees inner.now.body.items) }
    ensures { IfOk result (λ found. MatchOption found ((n : ℕ) → WhereUnplain (program_tree scene.now.tree.now) number (Spec.IsBoundOfEither (program_tree scene.now.tree.now) number) n → ⊥)
        (WhereUnplain (program_tree scene.now.tree.now) number (Spec.IsBoundOfEither (program_tree scene.now.tree.now) number))) }
{
    if !are_plain(alloc, scene, number, outer)? {
        return Ok(Some(number));
    }
    if !are_plain(alloc, scene, number + 1, inner)? {
        return Ok(Some(number + 1));
    }
    Ok(None)
}

/// The same, where no rule up to the sixth forbids it.
fn unless_tied<L: Ledger>(
    alloc: Global,
    scene: &Scene<L>,
    number: u32,
    outer: &Do,
    inner: &Do,
) -> StepAnswer
    requires scene { IsSceneOf (program_tree scene.now.tree.now) scene.now }
    requires is { IsLoop (program_tree scene.now.tree.now) number (head_of outer.now) (stmt_trees outer.now.body.items) }
    requires only { only_loop (stmt_trees outer.now.body.items) ≡ Some (head_of inner.now, stmt_trees inner.now.body.items) }
    requires none { NoneUpTo 6 (Spec.StandsAgainstInterchange number (program_tree scene.now.tree.now)) }
    ensures { IfOk result (IsByRules (Spec.StandsAgainstInterchange number (program_tree scene.now.tree.now)) (Spec.interchanged (program_tree scene.now.tree.now) number) (KeepMaps.all_but number (number + 1) (program_tree scene.now.tree.now))) }
{
    match pair_of(outer, inner) {
        Some(pair) => {
            return unless_stepping(alloc, scene, number, outer, inner, &pair);
        }
        None => {
            return Ok(Err(against(Rule::BoundsShape, number)));
        }
    }
}

/// The same, where no rule up to the seventh forbids it, and the bounds of the inner DO have these shapes.
fn unless_stepping<L: Ledger>(
    alloc: Global,
    scene: &Scene<L>,
    number: u32,
    outer: &Do,
    inner: &Do,
    pair: &Pair,
) -> StepAnswer
    requires scene { IsSceneOf (program_tree scene.now.tree.now) scene.now }
    requires is { IsLoop (program_tree scene.now.tree.now) number (head_of outer.now) (stmt_trees outer.now.body.items) }
    requires only { only_loop (stmt_trees outer.now.body.items) ≡ Some (head_of inner.now, stmt_trees inner.now.body.items) }
    requires none { NoneUpTo 7 (Spec.StandsAgainstInterchange number (program_tree scene.now.tree.now)) }
    requires outer { pair.now.outer.now ≡ outer.now }
    requires inner { pair.now.inner.now ≡ inner.now }
    requires shapes { HasShapes pair.now }
    ensures { IfOk result (IsByRules (Spec.StandsAgainstInterchange number (program_tree scene.now.tree.now)) (Spec.interchanged (program_tree scene.now.tree.now) number) (KeepMaps.all_but number (number + 1) (program_tree scene.now.tree.now))) }
{
    if lacks_units(scene.symbols.consts(), outer, inner) {
        return Ok(Err(against(Rule::StepShape, number)));
    }
    let new = exchanged(alloc, pair)?;
    let answer = unless_far(alloc, scene, number, outer, inner, &new);
    drop(new);
    answer
}

/// Whether a bound of the inner DO names the variable of the outer one, and the increment of one of the two isn't 1.
fn lacks_units(consts: &Consts, outer: &Do, inner: &Do) -> bool
    ensures { result ≡ (names_outer (head_of outer.now) (head_of inner.now)
        && (Rules.has_other_step consts.now Rules.is_one (head_of outer.now) (stmt_trees outer.now.body.items) || Rules.has_other_step consts.now Rules.is_one (head_of inner.now) (stmt_trees inner.now.body.items))) }
{
    names_outer(outer, inner) && (steps_otherwise(consts, outer) || steps_otherwise(consts, inner))
}

/// Whether the increment of the DO isn't 1.
fn steps_otherwise(consts: &Consts, d: &Do) -> bool
    ensures { result ≡ Rules.has_other_step consts.now Rules.is_one (head_of d.now) (stmt_trees d.now.body.items) }
{
    !has_step_one(consts, d)
}

/// The same, where no rule up to the eighth forbids it, and these are the new loops.
fn unless_far<L: Ledger>(
    alloc: Global,
    scene: &Scene<L>,
    number: u32,
    outer: &Do,
    inner: &Do,
    new: &Do,
) -> StepAnswer
    requires scene { IsSceneOf (program_tree scene.now.tree.now) scene.now }
    requires is { IsLoop (program_tree scene.now.tree.now) number (head_of outer.now) (stmt_trees outer.now.body.items) }
    requires only { only_loop (stmt_trees outer.now.body.items) ≡ Some (head_of inner.now, stmt_trees inner.now.body.items) }
    requires none { NoneUpTo 8 (Spec.StandsAgainstInterchange number (program_tree scene.now.tree.now)) }
    requires new { alone (do_tree new.now) ≡ Spec.with_exchanged (head_of outer.now) (stmt_trees outer.now.body.items) }
    ensures { IfOk result (IsByRules (Spec.StandsAgainstInterchange number (program_tree scene.now.tree.now)) (Spec.interchanged (program_tree scene.now.tree.now) number) (KeepMaps.all_but number (number + 1) (program_tree scene.now.tree.now))) }
{
    if leaves_either(alloc, scene, number, outer, inner, new)? {
        return Ok(Err(against(Rule::Range, number)));
    }
    match interchanged(alloc, scene, number, outer, new)? {
        Some(change) => {
            return Ok(Ok(change));
        }
        None => {
            return Ok(Err(against(Rule::Limit, number)));
        }
    }
}

/// Whether a bound of the new loops has a part whose values may leave 2^62.
fn leaves_either<L: Ledger>(
    alloc: Global,
    scene: &Scene<L>,
    number: u32,
    outer: &Do,
    inner: &Do,
    new: &Do,
) -> Result<bool, NoMemory>
    requires scene { IsSceneOf (program_tree scene.now.tree.now) scene.now }
    requires is { IsLoop (program_tree scene.now.tree.now) number (head_of outer.now) (stmt_trees outer.now.body.items) }
    requires only { only_loop (stmt_trees outer.now.body.items) ≡ Some (head_of inner.now, stmt_trees inner.now.body.items) }
    requires new { alone (do_tree new.now) ≡ Spec.with_exchanged (head_of outer.now) (stmt_trees outer.now.body.items) }
    ensures { IfOk result (λ r. r ≡ Spec.makes_far (setting_at (program_tree scene.now.tree.now) number) (heads_round (program_tree scene.now.tree.now) number) (head_of outer.now) (stmt_trees outer.now.body.items)) }
{
    let mut round = loops_round(alloc, scene.tree, number)?;
    if leaves_bound(alloc, scene, &round, new)? {
        return Ok(true);
    }
    round.push(Loop {
        number,
        statement: new,
    })?;
    match only_loop(&new.body) {
        Some(inside) => {
            return leaves_bound(alloc, scene, &round, inside);
        }
        None => {
            return Ok(false);
        }
    }
}

/// Whether a bound of a new DO in these DO loops has a part whose values may leave 2^62.
fn leaves_bound<L: Ledger>(
    alloc: Global,
    scene: &Scene<L>,
    round: &[Loop],
    new: &Do,
) -> Result<bool, NoMemory>
    requires scene { IsSceneOf (program_tree scene.now.tree.now) scene.now }
    requires short { length round.now ≤ 6 }
    ensures { IfOk result (λ r. (s : ℕ) → r ≡ (Rules.leaves (setting_at (program_tree scene.now.tree.now) s) (heads_of (nest_of round.now)) (head_of new.now).first
        || Rules.leaves (setting_at (program_tree scene.now.tree.now) s) (heads_of (nest_of round.now)) (head_of new.now).last)) }
{
    if leaves(alloc, scene, round, &new.first)? {
        return Ok(true);
    }
    leaves(alloc, scene, round, &new.last)
}

/// The change to the program with the new loops in the place of the DO of this number: none exactly where that program
/// isn't valid.
fn interchanged<L: Ledger>(
    alloc: Global,
    scene: &Scene<L>,
    number: u32,
    outer: &Do,
    new: &Do,
) -> Result<Option<Change>, NoMemory>
    requires scene { IsSceneOf (program_tree scene.now.tree.now) scene.now }
    requires is { IsLoop (program_tree scene.now.tree.now) number (head_of outer.now) (stmt_trees outer.now.body.items) }
    requires new { alone (do_tree new.now) ≡ Spec.with_exchanged (head_of outer.now) (stmt_trees outer.now.body.items) }
    ensures { IfOk result (λ found. MatchOption found (IsValid (Spec.interchanged (program_tree scene.now.tree.now) number) → ⊥)
        (IsChange (Spec.interchanged (program_tree scene.now.tree.now) number) (KeepMaps.all_but number (number + 1) (program_tree scene.now.tree.now)))) }
{
    let tree = with_new(alloc, scene.tree, number, outer, new)?;
    let keep = all_but(alloc, scene.tree, number, number + 1)?;
    change_to(alloc, tree, keep)
}

/// The program with the new loops in the place of the DO of this number.
fn with_new(
    alloc: Global,
    program: &Program,
    number: u32,
    outer: &Do,
    new: &Do,
) -> Result<Program, NoMemory>
    requires few { statements_count (program_tree program.now).body + 1 < 2 ^ 32 }
    requires is { IsLoop (program_tree program.now) number (head_of outer.now) (stmt_trees outer.now.body.items) }
    requires new { alone (do_tree new.now) ≡ Spec.with_exchanged (head_of outer.now) (stmt_trees outer.now.body.items) }
    ensures tree { IfOk result (λ p. program_tree p ≡ Spec.interchanged (program_tree program.now) number) }
    ensures lines { IfOk result (λ p. p.lines.items ≡ []) }
{
    let mut statements = Vec::new(alloc);
    statements.push(Stmt::of_loop(new.copy(alloc)?))?;
    program_with(alloc, program, number, &statements)
}
