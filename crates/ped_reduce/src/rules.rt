//! The rules that forbid sums in any order.

ghost use Rattle.std.specs.Prelude.{◌≡◌, ◌<◌, ◌+◌, ◌^◌, not, false, IfOk};
ghost use Rattle.std.specs.List.{list_any};
ghost use Rattle.ped_tree.specs.Numbering.{statements_count};
ghost use Rattle.ped_tree.specs.Views.{stmt_trees, program_tree, head_of};
ghost use Rattle.ped_rules.specs.ped_steps.specs.Scenes.{IsSceneOf};
ghost use Rattle.ped_rules.specs.ped_symbols.specs.Kinds.{table_of};
ghost use Rattle.ped_rules.specs.ped_flow.specs.Questions.{IsLoop};
ghost use Rattle.ped_refs.specs.Occurrences.{references_of};
ghost use Rattle.ped_refs.specs.References.{references};
ghost use Rattle.ped_rules.specs.Scalars.{has_far_value};
ghost use Rattle.ped_rules.specs.Chains.{no_rules};
ghost use Rattle.ped_rules.specs.Rules.{isnt_constant};
ghost use Rattle.ped_rules.specs.Spans.{span_of};
ghost use Rattle.ped_rules.specs.CodeSpans.{IsCourse};
ghost use Rattle.ped_reduce.specs.Reducing as Spec;
ghost use Rattle.ped_reduce.specs.CodeRules.{also_from_range, behind_limit, IsFirstOf};

use crate::privacy::{has_twice, is_in_parallel, is_some_private};
use crate::referring::{Extent, first_beside_sums, is_referred};
use ped_base::{Name, NoMemory};
use ped_refs::{Occurrence, occurrences};
use ped_rules::{Course, Rule, Scene, course_of, escapes, is_index_of, loops_round};
use ped_tree::{Do, count_statements};
use std::alloc::Global;
use std::sync::ledger::Ledger;

/// A rule that forbids the step, with the statement that it names.
#[derive(Clone, Copy)]
pub(crate) struct Standing {
    /// The rule.
    pub(crate) rule: Rule,
    /// The number of the statement.
    pub(crate) statement: u32,
}

/// The first rule with a number below Limit's that forbids sums of these names in any order in the DO with this number.
pub(crate) fn early<L: Ledger>(
    alloc: Global,
    scene: &Scene<L>,
    number: u32,
    d: &Do,
    names: &[Name],
) -> Result<Option<Standing>, NoMemory>
    requires scene { IsSceneOf (program_tree scene.now.tree.now) scene.now }
    requires is { IsLoop (program_tree scene.now.tree.now) number (head_of d.now) (stmt_trees d.now.body.items) }
    ensures { IfOk result (IsFirstOf (Spec.also_against_sums number names.now (program_tree scene.now.tree.now) no_rules)) }
{
    let round = loops_round(alloc, scene.tree, number)?;
    if is_in_parallel(d, &round) {
        return Ok(Some(Standing {
            rule: Rule::ParallelState,
            statement: number,
        }));
    }
    if let Some(statement) = escapes(scene, number) {
        return Ok(Some(Standing {
            rule: Rule::IndexEscapes,
            statement,
        }));
    }
    early_by_course(
        alloc,
        scene,
        number,
        d,
        names,
        course_of(scene.symbols.consts(), d),
    )
}

/// The same, where neither ParallelState nor IndexEscapes forbids it; so the DO goes through its iterations.
fn early_by_course<L: Ledger>(
    alloc: Global,
    scene: &Scene<L>,
    number: u32,
    d: &Do,
    names: &[Name],
    course: Course,
) -> Result<Option<Standing>, NoMemory>
    requires scene { IsSceneOf (program_tree scene.now.tree.now) scene.now }
    requires is { IsLoop (program_tree scene.now.tree.now) number (head_of d.now) (stmt_trees d.now.body.items) }
    requires course { IsCourse (span_of (table_of (program_tree scene.now.tree.now)).constants (head_of d.now)) course }
    ensures { IfOk result (IsFirstOf (also_from_range number names.now (program_tree scene.now.tree.now) no_rules)) }
{
    match course {
        Course::Far => {
            return Ok(Some(Standing {
                rule: Rule::Range,
                statement: number,
            }));
        }
        Course::Near(_span) => {
            return early_by_names(alloc, scene, number, d, names, true);
        }
        Course::Unknown => {
            return early_by_names(alloc, scene, number, d, names, false);
        }
    }
}

/// The same, where Range doesn't forbid it either; `known` says whether the bounds are constant and there is an
/// iteration.
fn early_by_names<L: Ledger>(
    alloc: Global,
    scene: &Scene<L>,
    number: u32,
    d: &Do,
    names: &[Name],
    known: bool,
) -> Result<Option<Standing>, NoMemory>
    requires scene { IsSceneOf (program_tree scene.now.tree.now) scene.now }
    requires is { IsLoop (program_tree scene.now.tree.now) number (head_of d.now) (stmt_trees d.now.body.items) }
    requires near { has_far_value (table_of (program_tree scene.now.tree.now)).constants (head_of d.now) (stmt_trees d.now.body.items) ≡ false }
    requires known { isnt_constant (table_of (program_tree scene.now.tree.now)).constants (head_of d.now) (stmt_trees d.now.body.items) ≡ not known }
    ensures { IfOk result (IsFirstOf (also_from_range number names.now (program_tree scene.now.tree.now) no_rules)) }
{
    if has_unsummable(alloc, scene, number, d, names)? {
        return Ok(Some(Standing {
            rule: Rule::NotScalar,
            statement: number,
        }));
    }
    if known {
        return Ok(None);
    }
    Ok(Some(Standing {
        rule: Rule::NotConstant,
        statement: number,
    }))
}

/// Whether the DO with this number can't add to one of these names.
fn has_unsummable<L: Ledger>(
    alloc: Global,
    scene: &Scene<L>,
    number: u32,
    d: &Do,
    names: &[Name],
) -> Result<bool, NoMemory>
    requires scene { IsSceneOf (program_tree scene.now.tree.now) scene.now }
    requires is { IsLoop (program_tree scene.now.tree.now) number (head_of d.now) (stmt_trees d.now.body.items) }
    ensures { IfOk result (λ r. r ≡ Spec.has_unsummable (program_tree scene.now.tree.now) number names.now (head_of d.now) (stmt_trees d.now.body.items)) }
{
    let found = occurrences(alloc, scene.tree)?;
    Ok(is_some_unsummable(scene, &found, number, d, names))
}

/// The same, where these are all references of the program.
fn is_some_unsummable<L: Ledger>(
    scene: &Scene<L>,
    found: &[Occurrence],
    number: u32,
    d: &Do,
    names: &[Name],
) -> bool
    requires small { number + statements_count (stmt_trees d.now.body.items) + 1 < 2 ^ 32 }
    requires scene { IsSceneOf (program_tree scene.now.tree.now) scene.now }
    requires all { references_of found.now ≡ references (program_tree scene.now.tree.now) }
    ensures { result ≡ list_any (Spec.is_unsummable (program_tree scene.now.tree.now) number (stmt_trees d.now.body.items)) names.now }
{
    for name in names {
        if is_unsummable(scene, found, number, d, name) {
            return true;
        }
    }
    false
}

/// Whether the DO with this number can't add to the name, where these are all references of the program.
fn is_unsummable<L: Ledger>(
    scene: &Scene<L>,
    found: &[Occurrence],
    number: u32,
    d: &Do,
    name: &Name,
) -> bool
    requires small { number + statements_count (stmt_trees d.now.body.items) + 1 < 2 ^ 32 }
    requires scene { IsSceneOf (program_tree scene.now.tree.now) scene.now }
    requires all { references_of found.now ≡ references (program_tree scene.now.tree.now) }
    ensures { result ≡ Spec.is_unsummable (program_tree scene.now.tree.now) number (stmt_trees d.now.body.items) name.now }
{
    if !scene.symbols.is_scalar(name) {
        return true;
    }
    if is_index_of(name, &scene.tree.body) {
        return true;
    }
    !is_referred(found, extent_of(number, d), name)
}

/// The place of the DO with this number.
fn extent_of(number: u32, d: &Do) -> Extent
    requires { statements_count (stmt_trees d.now.body.items) + 1 < 2 ^ 32 }
    ensures { result ≡ record { number = number; count = statements_count (stmt_trees d.now.body.items) + 1 } }
{
    Extent {
        number,
        count: count_statements(&d.body) + 1,
    }
}

/// Whether one of these names is private near the DO with this number, or given twice.
pub(crate) fn has_private_or_twice<L: Ledger>(
    alloc: Global,
    scene: &Scene<L>,
    number: u32,
    d: &Do,
    names: &[Name],
) -> Result<bool, NoMemory>
    requires { IsSceneOf (program_tree scene.now.tree.now) scene.now }
    ensures { IfOk result (λ r. r ≡ Spec.has_private_or_twice (program_tree scene.now.tree.now) number names.now (head_of d.now) (stmt_trees d.now.body.items)) }
{
    let round = loops_round(alloc, scene.tree, number)?;
    if is_some_private(names, d, &round) {
        return Ok(true);
    }
    Ok(has_twice(names))
}

/// The first statement in the body of the DO with this number that refers to one of these names and is no sum of it.
pub(crate) fn first_no_sum<L: Ledger>(
    alloc: Global,
    scene: &Scene<L>,
    number: u32,
    d: &Do,
    names: &[Name],
) -> Result<Option<u32>, NoMemory>
    requires scene { IsSceneOf (program_tree scene.now.tree.now) scene.now }
    requires is { IsLoop (program_tree scene.now.tree.now) number (head_of d.now) (stmt_trees d.now.body.items) }
    ensures { IfOk result (λ n. n ≡ Spec.first_beside_sums (program_tree scene.now.tree.now) number (statements_count (stmt_trees d.now.body.items) + 1) names.now) }
{
    let found = occurrences(alloc, scene.tree)?;
    let extent = extent_of(number, d);
    Ok(first_beside_sums(scene.tree, &found, extent, names))
}

/// The first rule after Limit that forbids sums of these names in any order in the DO with this number.
pub(crate) fn late<L: Ledger>(
    alloc: Global,
    scene: &Scene<L>,
    number: u32,
    d: &Do,
    names: &[Name],
) -> Result<Option<Standing>, NoMemory>
    requires scene { IsSceneOf (program_tree scene.now.tree.now) scene.now }
    requires is { IsLoop (program_tree scene.now.tree.now) number (head_of d.now) (stmt_trees d.now.body.items) }
    ensures { IfOk result (IsFirstOf (behind_limit number names.now (program_tree scene.now.tree.now))) }
{
    if has_private_or_twice(alloc, scene, number, d, names)? {
        return Ok(Some(Standing {
            rule: Rule::AlreadyPrivate,
            statement: number,
        }));
    }
    match first_no_sum(alloc, scene, number, d, names)? {
        Some(statement) => {
            return Ok(Some(Standing {
                rule: Rule::NotSum,
                statement,
            }));
        }
        None => {
            return Ok(None);
        }
    }
}
