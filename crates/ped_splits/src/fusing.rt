//! `fuse`: a DO and the next one in its list become one.

ghost use Rattle.std.specs.Prelude.{◌≡◌, ◌||◌, ◌+◌, ◌<◌, ◌^◌, [], ℕ, IfOk, MatchOption};
ghost use Rattle.ped_tree.specs.Numbering.{statements_count};
ghost use Rattle.ped_tree.specs.Views.{stmt_trees, program_tree, head_of};
ghost use Rattle.ped_rules.specs.Steps.{Answers};
ghost use Rattle.ped_rules.specs.ped_steps.specs.Scenes.{IsSceneOf};
ghost use Rattle.ped_rules.specs.ped_flow.specs.Questions.{IsLoop, LoopOf, IsBrokenBy, IsShown};
ghost use Rattle.ped_refs.specs.References.{references, pairs};
ghost use Rattle.ped_rules.specs.ped_steps.specs.Causes.{NoRule};
ghost use Rattle.ped_rules.specs.ped_steps.specs.Changes.{IsChange};
ghost use Rattle.ped_rules.specs.Carried as Carried;
ghost use Rattle.ped_rules.specs.Rules.{is_parallel, has_private};
ghost use Rattle.ped_splits.specs.CodePairs.{IsPair};
ghost use Rattle.ped_splits.specs.CodeFusing.{bodies_of, IsFirstBack, IsReaderOf, IsBrokenInTwo, IsShownInTwo, IsBrokenInNew, HasPlainBounds};
ghost use Rattle.ped_splits.specs.CodeFusing as Code;
ghost use Rattle.ped_splits.specs.Neighbours.{Neighbour, AreAlike};
ghost use Rattle.ped_splits.specs.Neighbours as Two;
ghost use Rattle.ped_splits.specs.Fusing as Spec;

use crate::alike::are_alike;
use crate::joining::{fused, kept_without, opened_at};
use crate::neighbours::{Pair, pair_at};
use crate::returning::first_back;
use ped_base::NoMemory;
use ped_edges::Edge;
use ped_rules::{
    Change, Reader, Refused, Rule, Scene, StepAnswer, against, change_to, flow_of, is_plain,
    level_at, loop_at,
};
use ped_tree::{Do, Program};
use std::alloc::Global;
use std::sync::ledger::Ledger;

/// Makes one DO of the DO with this number and the next one in its list, with nothing but comments between (loop
/// fusion: Allen and Kennedy, section 6.2.5; ParaScope). The second one's number goes.
///
/// # Errors
///
/// `Refused` exactly where a rule forbids the step, with the rule of the least number: NoLoop, ParallelState,
/// HasPrivate, IndexEscapes, BoundNotPlain, NoNeighbour or Limit; and else where the new DO would carry a dependence
/// from the second body to the first one that the user hasn't rejected, with the first one in the order of the pane,
/// under the present numbers.
pub fn fuse<L: Ledger>(alloc: Global, scene: &Scene<L>, number: u32) -> StepAnswer
    requires { IsSceneOf (program_tree scene.now.tree.now) scene.now }
    ensures { IfOk result (Answers (Spec.fusing number) (program_tree scene.now.tree.now)) }
{
    match loop_at(scene.tree, number) {
        Some(own) => {
            return fuse_in(alloc, scene, number, own);
        }
        None => {
            return Ok(Err(against(Rule::NoLoop, number)));
        }
    }
}

/// The same, where the statement is this DO.
fn fuse_in<L: Ledger>(alloc: Global, scene: &Scene<L>, number: u32, own: &Do) -> StepAnswer
    requires scene { IsSceneOf (program_tree scene.now.tree.now) scene.now }
    requires is { IsLoop (program_tree scene.now.tree.now) number (head_of own.now) (stmt_trees own.now.body.items) }
    ensures { IfOk result (Answers (Spec.fusing number) (program_tree scene.now.tree.now)) }
{
    match pair_at(scene.tree, number) {
        Some(pair) => {
            return fuse_pair(alloc, scene, &pair);
        }
        None => {
            return refused_alone(alloc, scene, number, own);
        }
    }
}

/// The rule that forbids the step where no DO comes next.
fn refused_alone<L: Ledger>(alloc: Global, scene: &Scene<L>, number: u32, own: &Do) -> StepAnswer
    requires scene { IsSceneOf (program_tree scene.now.tree.now) scene.now }
    requires is { IsLoop (program_tree scene.now.tree.now) number (head_of own.now) (stmt_trees own.now.body.items) }
    requires none { Neighbour (program_tree scene.now.tree.now) number → ⊥ }
    ensures { IfOk result (Answers (Spec.fusing number) (program_tree scene.now.tree.now)) }
{
    if own.parallel {
        return Ok(Err(against(Rule::ParallelState, number)));
    }
    if has_list(own) {
        return Ok(Err(against(Rule::HasPrivate, number)));
    }
    if let Some(statement) = escapes_alone(scene, number) {
        return Ok(Err(against(Rule::IndexEscapes, statement)));
    }
    no_neighbour(alloc, scene, number, own)
}

/// The rule that forbids the step where none before BoundNotPlain does, and no DO comes next that is alike.
fn no_neighbour<L: Ledger>(alloc: Global, scene: &Scene<L>, number: u32, own: &Do) -> StepAnswer
    requires scene { IsSceneOf (program_tree scene.now.tree.now) scene.now }
    requires is { IsLoop (program_tree scene.now.tree.now) number (head_of own.now) (stmt_trees own.now.body.items) }
    requires serial { (n : ℕ) → Spec.WhereEither (program_tree scene.now.tree.now) number is_parallel n → ⊥ }
    requires unshared { (n : ℕ) → Spec.WhereEither (program_tree scene.now.tree.now) number has_private n → ⊥ }
    requires contained { (n : ℕ) → Spec.WhereFusionEscapes (program_tree scene.now.tree.now) number n → ⊥ }
    requires nobody { Spec.Match (program_tree scene.now.tree.now) number → ⊥ }
    ensures { IfOk result (Answers (Spec.fusing number) (program_tree scene.now.tree.now)) }
{
    let first = is_plain(alloc, scene, number, &own.first)?;
    if !first {
        return Ok(Err(against(Rule::BoundNotPlain, number)));
    }
    let last = is_plain(alloc, scene, number, &own.last)?;
    if !last {
        return Ok(Err(against(Rule::BoundNotPlain, number)));
    }
    Ok(Err(against(Rule::NoNeighbour, number)))
}

/// The same, where these are the DO and the next one.
fn fuse_pair<L: Ledger>(alloc: Global, scene: &Scene<L>, pair: &Pair) -> StepAnswer
    requires scene { IsSceneOf (program_tree scene.now.tree.now) scene.now }
    requires pair { IsPair (program_tree scene.now.tree.now) pair.now }
    ensures { IfOk result (Answers (Spec.fusing pair.now.number) (program_tree scene.now.tree.now)) }
{
    if is_either_parallel(pair) {
        return Ok(Err(against(Rule::ParallelState, pair.number)));
    }
    if has_either_list(pair) {
        return Ok(Err(against(Rule::HasPrivate, pair.number)));
    }
    if are_alike(pair.own, pair.next) {
        return fuse_alike(alloc, scene, pair);
    }
    refused_unlike(alloc, scene, pair)
}

/// Whether one of the two is a PARALLEL DO.
fn is_either_parallel(pair: &Pair) -> bool
    ensures { result ≡ ((head_of pair.now.own.now).parallel || (head_of pair.now.next.now).parallel) }
{
    pair.own.parallel || pair.next.parallel
}

/// Whether one of the two has PRIVATE names (ParaScope).
fn has_either_list(pair: &Pair) -> bool
    ensures { result ≡ (has_private (head_of pair.now.own.now) (stmt_trees pair.now.own.now.body.items)
        || has_private (head_of pair.now.next.now) (stmt_trees pair.now.next.now.body.items)) }
{
    has_list(pair.own) || has_list(pair.next)
}

/// Whether a DO has PRIVATE names (ParaScope).
fn has_list(d: &Do) -> bool
    ensures { result ≡ has_private (head_of d.now) (stmt_trees d.now.body.items) }
{
    !d.private.is_empty()
}

/// The rule that forbids the step where the two aren't alike.
fn refused_unlike<L: Ledger>(alloc: Global, scene: &Scene<L>, pair: &Pair) -> StepAnswer
    requires scene { IsSceneOf (program_tree scene.now.tree.now) scene.now }
    requires pair { IsPair (program_tree scene.now.tree.now) pair.now }
    requires serial { (n : ℕ) → Spec.WhereEither (program_tree scene.now.tree.now) pair.now.number is_parallel n → ⊥ }
    requires unshared { (n : ℕ) → Spec.WhereEither (program_tree scene.now.tree.now) pair.now.number has_private n → ⊥ }
    requires unlike { AreAlike (head_of pair.now.own.now) (head_of pair.now.next.now) (stmt_trees pair.now.next.now.body.items) → ⊥ }
    ensures { IfOk result (Answers (Spec.fusing pair.now.number) (program_tree scene.now.tree.now)) }
{
    if let Some(statement) = escapes_unlike(scene, pair) {
        return Ok(Err(against(Rule::IndexEscapes, statement)));
    }
    no_neighbour(alloc, scene, pair.number, pair.own)
}

/// The same, where the two are alike.
fn fuse_alike<L: Ledger>(alloc: Global, scene: &Scene<L>, pair: &Pair) -> StepAnswer
    requires scene { IsSceneOf (program_tree scene.now.tree.now) scene.now }
    requires pair { IsPair (program_tree scene.now.tree.now) pair.now }
    requires serial { (n : ℕ) → Spec.WhereEither (program_tree scene.now.tree.now) pair.now.number is_parallel n → ⊥ }
    requires unshared { (n : ℕ) → Spec.WhereEither (program_tree scene.now.tree.now) pair.now.number has_private n → ⊥ }
    requires alike { AreAlike (head_of pair.now.own.now) (head_of pair.now.next.now) (stmt_trees pair.now.next.now.body.items) }
    ensures { IfOk result (Answers (Spec.fusing pair.now.number) (program_tree scene.now.tree.now)) }
{
    let tree = fused(alloc, scene.tree, pair)?;
    if let Some(statement) = escapes_alike(alloc, scene, pair, &tree)? {
        return Ok(Err(against(Rule::IndexEscapes, statement)));
    }
    fuse_contained(alloc, scene, pair, tree)
}

/// The same, where no variable is read outside its DO, and this is the new program.
fn fuse_contained<L: Ledger>(
    alloc: Global,
    scene: &Scene<L>,
    pair: &Pair,
    tree: Program,
) -> StepAnswer
    requires scene { IsSceneOf (program_tree scene.now.tree.now) scene.now }
    requires pair { IsPair (program_tree scene.now.tree.now) pair.now }
    requires serial { (n : ℕ) → Spec.WhereEither (program_tree scene.now.tree.now) pair.now.number is_parallel n → ⊥ }
    requires unshared { (n : ℕ) → Spec.WhereEither (program_tree scene.now.tree.now) pair.now.number has_private n → ⊥ }
    requires alike { AreAlike (head_of pair.now.own.now) (head_of pair.now.next.now) (stmt_trees pair.now.next.now.body.items) }
    requires contained { (n : ℕ) → Spec.WhereFusionEscapes (program_tree scene.now.tree.now) pair.now.number n → ⊥ }
    requires tree { (is : IsPair (program_tree scene.now.tree.now) pair.now) → program_tree tree ≡ Two.fused is.neighbour }
    requires lines { tree.lines.items ≡ [] }
    ensures { IfOk result (Answers (Spec.fusing pair.now.number) (program_tree scene.now.tree.now)) }
{
    let first = is_plain(alloc, scene, pair.number, &pair.own.first)?;
    if !first {
        return Ok(Err(against(Rule::BoundNotPlain, pair.number)));
    }
    let last = is_plain(alloc, scene, pair.number, &pair.own.last)?;
    if !last {
        return Ok(Err(against(Rule::BoundNotPlain, pair.number)));
    }
    fuse_plain(alloc, scene, pair, tree)
}

/// The same, where only the rule Limit or a dependence may forbid the step.
fn fuse_plain<L: Ledger>(alloc: Global, scene: &Scene<L>, pair: &Pair, tree: Program) -> StepAnswer
    requires scene { IsSceneOf (program_tree scene.now.tree.now) scene.now }
    requires pair { IsPair (program_tree scene.now.tree.now) pair.now }
    requires serial { (n : ℕ) → Spec.WhereEither (program_tree scene.now.tree.now) pair.now.number is_parallel n → ⊥ }
    requires unshared { (n : ℕ) → Spec.WhereEither (program_tree scene.now.tree.now) pair.now.number has_private n → ⊥ }
    requires alike { AreAlike (head_of pair.now.own.now) (head_of pair.now.next.now) (stmt_trees pair.now.next.now.body.items) }
    requires contained { (n : ℕ) → Spec.WhereFusionEscapes (program_tree scene.now.tree.now) pair.now.number n → ⊥ }
    requires plain { HasPlainBounds (program_tree scene.now.tree.now) pair.now.number (head_of pair.now.own.now) }
    requires tree { (is : IsPair (program_tree scene.now.tree.now) pair.now) → program_tree tree ≡ Two.fused is.neighbour }
    requires lines { tree.lines.items ≡ [] }
    ensures { IfOk result (Answers (Spec.fusing pair.now.number) (program_tree scene.now.tree.now)) }
{
    let keep = kept_without(alloc, scene.tree, pair.next_number())?;
    match change_to(alloc, tree, keep)? {
        Some(change) => {
            return unless_back(alloc, scene, pair, change);
        }
        None => {
            return Ok(Err(against(Rule::Limit, pair.number)));
        }
    }
}

/// The same, where only a dependence may forbid the step, and this is the change.
fn unless_back<L: Ledger>(
    alloc: Global,
    scene: &Scene<L>,
    pair: &Pair,
    change: Change,
) -> StepAnswer
    requires scene { IsSceneOf (program_tree scene.now.tree.now) scene.now }
    requires pair { IsPair (program_tree scene.now.tree.now) pair.now }
    requires alike { AreAlike (head_of pair.now.own.now) (head_of pair.now.next.now) (stmt_trees pair.now.next.now.body.items) }
    requires nothing { NoRule (Spec.StandsAgainstFusion pair.now.number (program_tree scene.now.tree.now)) }
    requires change { (is : IsPair (program_tree scene.now.tree.now) pair.now)
        → IsChange (Two.fused is.neighbour) (Two.kept_without (Two.next_number is.neighbour) (program_tree scene.now.tree.now)) change }
    ensures { IfOk result (Answers (Spec.fusing pair.now.number) (program_tree scene.now.tree.now)) }
{
    match first_forbidding(alloc, scene, pair, &change) {
        Ok(Some(edge)) => {
            drop(change);
            return Ok(Err(Refused::Dependence(edge)));
        }
        Ok(None) => {
            return Ok(Ok(change));
        }
        Err(error) => {
            drop(change);
            return Err(error);
        }
    }
}

/// The first dependence that forbids the step, where this is the change.
fn first_forbidding<L: Ledger>(
    alloc: Global,
    scene: &Scene<L>,
    pair: &Pair,
    change: &Change,
) -> Result<Option<Edge>, NoMemory>
    requires scene { IsSceneOf (program_tree scene.now.tree.now) scene.now }
    requires pair { IsPair (program_tree scene.now.tree.now) pair.now }
    requires change { (is : IsPair (program_tree scene.now.tree.now) pair.now)
        → IsChange (Two.fused is.neighbour) (Two.kept_without (Two.next_number is.neighbour) (program_tree scene.now.tree.now)) change.now }
    ensures { IfOk result (λ found. (is : IsPair (program_tree scene.now.tree.now) pair.now)
        → IsFirstBack (Two.fused is.neighbour) (bodies_of pair.now (Carried.level_at (program_tree scene.now.tree.now) pair.now.number)) (pairs (references (Two.fused is.neighbour))) found) }
{
    let level = level_at(alloc, scene, pair.number)?;
    first_back(alloc, &change.tree, change.symbols.consts(), pair, level)
}

/// The statement that the rule IndexEscapes names, where no DO comes next.
fn escapes_alone<L: Ledger>(scene: &Scene<L>, number: u32) -> Option<u32>
    requires scene { IsSceneOf (program_tree scene.now.tree.now) scene.now }
    requires is { LoopOf (program_tree scene.now.tree.now) number }
    requires none { Neighbour (program_tree scene.now.tree.now) number → ⊥ }
    ensures { MatchOption result ((n : ℕ) → Spec.WhereFusionEscapes (program_tree scene.now.tree.now) number n → ⊥) (Spec.WhereFusionEscapes (program_tree scene.now.tree.now) number) }
{
    named(own_reader(scene, number), number)
}

/// The statement that the rule IndexEscapes names, where the two aren't alike.
fn escapes_unlike<L: Ledger>(scene: &Scene<L>, pair: &Pair) -> Option<u32>
    requires scene { IsSceneOf (program_tree scene.now.tree.now) scene.now }
    requires pair { IsPair (program_tree scene.now.tree.now) pair.now }
    requires unlike { AreAlike (head_of pair.now.own.now) (head_of pair.now.next.now) (stmt_trees pair.now.next.now.body.items) → ⊥ }
    ensures { MatchOption result ((n : ℕ) → Spec.WhereFusionEscapes (program_tree scene.now.tree.now) pair.now.number n → ⊥)
        (Spec.WhereFusionEscapes (program_tree scene.now.tree.now) pair.now.number) }
{
    named(readers_of_two(scene, pair), pair.number)
}

/// The statement that the rule IndexEscapes names, where the two are alike and this is the new program.
fn escapes_alike<L: Ledger>(
    alloc: Global,
    scene: &Scene<L>,
    pair: &Pair,
    tree: &Program,
) -> Result<Option<u32>, NoMemory>
    requires scene { IsSceneOf (program_tree scene.now.tree.now) scene.now }
    requires pair { IsPair (program_tree scene.now.tree.now) pair.now }
    requires alike { AreAlike (head_of pair.now.own.now) (head_of pair.now.next.now) (stmt_trees pair.now.next.now.body.items) }
    requires tree { (is : IsPair (program_tree scene.now.tree.now) pair.now) → program_tree tree.now ≡ Two.fused is.neighbour }
    ensures { IfOk result (λ found. MatchOption found ((n : ℕ) → Spec.WhereFusionEscapes (program_tree scene.now.tree.now) pair.now.number n → ⊥)
        (Spec.WhereFusionEscapes (program_tree scene.now.tree.now) pair.now.number)) }
{
    let inside = reader_in_fused(alloc, tree, pair)?;
    let reader = earlier(readers_of_two(scene, pair), inside);
    Ok(named(reader, pair.number))
}

/// By whom the DO with this number isn't contained.
fn own_reader<L: Ledger>(scene: &Scene<L>, number: u32) -> Option<Reader>
    requires scene { IsSceneOf (program_tree scene.now.tree.now) scene.now }
    ensures { IsReaderOf (IsBrokenBy (program_tree scene.now.tree.now) number) (IsShown (program_tree scene.now.tree.now) number) result }
{
    scene.flow.escapes(number)
}

/// By whom the two aren't contained: the first statement that reads; where none does, the program's end.
fn readers_of_two<L: Ledger>(scene: &Scene<L>, pair: &Pair) -> Option<Reader>
    requires scene { IsSceneOf (program_tree scene.now.tree.now) scene.now }
    requires pair { IsPair (program_tree scene.now.tree.now) pair.now }
    ensures { IsReaderOf (IsBrokenInTwo (program_tree scene.now.tree.now) pair.now.number (pair.now.number + 1 + statements_count (stmt_trees pair.now.own.now.body.items))) (IsShownInTwo (program_tree scene.now.tree.now) pair.now.number (pair.now.number + 1 + statements_count (stmt_trees pair.now.own.now.body.items))) result }
{
    let first = own_reader(scene, pair.number);
    earlier(first, own_reader(scene, pair.next_number()))
}

/// By whom the one DO isn't contained, with the present number.
fn reader_in_fused(alloc: Global, tree: &Program, pair: &Pair) -> Result<Option<Reader>, NoMemory>
    requires few { statements_count (program_tree tree.now).body + 1 < 2 ^ 32 }
    requires next { pair.now.number + 1 + statements_count (stmt_trees pair.now.own.now.body.items) < 2 ^ 32 }
    ensures { IfOk result (IsReaderOf (IsBrokenInNew (program_tree tree.now) pair.now.number (pair.now.number + 1 + statements_count (stmt_trees pair.now.own.now.body.items))) (IsShown (program_tree tree.now) pair.now.number)) }
{
    let flow = flow_of(alloc, tree)?;
    match flow.escapes(pair.number) {
        Some(Reader::Statement(statement)) => {
            return Ok(Some(Reader::Statement(opened_at(pair.next_number(), statement))));
        }
        Some(Reader::Saved) => {
            return Ok(Some(Reader::Saved));
        }
        None => {
            return Ok(None);
        }
    }
}

/// Of two readers the earlier statement; where neither is a statement, the program's end.
fn earlier(one: Option<Reader>, other: Option<Reader>) -> Option<Reader>
    ensures { result ≡ Code.earlier one other }
{
    match one {
        None => other,
        Some(Reader::Saved) => match other {
            None => Some(Reader::Saved),
            Some(reader) => Some(reader),
        },
        Some(Reader::Statement(k)) => Some(Reader::Statement(before(k, other))),
    }
}

/// The statement with this number, or the one that this reader is, where that comes before it.
fn before(k: u32, other: Option<Reader>) -> u32
    ensures { result ≡ Code.before k other }
{
    match other {
        Some(Reader::Statement(n)) => { if k < n { k } else { n } }
        Some(Reader::Saved) | None => k,
    }
}

/// The statement that the rule names where this reads.
fn named(reader: Option<Reader>, number: u32) -> Option<u32>
    ensures { result ≡ Code.named_by number reader }
{
    match reader {
        Some(Reader::Statement(statement)) => Some(statement),
        Some(Reader::Saved) => Some(number),
        None => None,
    }
}
