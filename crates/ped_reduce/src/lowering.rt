//! The program that results when the live lists of a program are lowered.

ghost use Rattle.std.specs.Prelude.{◌≡◌, ◌≤◌, ◌<◌, ◌+◌, ◌-◌, ◌^◌, ◌↔◌, [], length, map, true, IsTrue, IfOk, OnOk};
ghost use Rattle.std.specs.List.{range_with_len};
ghost use Rattle.ped_tree.specs.Numbering.{statements_count};
ghost use Rattle.ped_tree.specs.Views.{stmt_trees, program_tree, head_of};
ghost use Rattle.ped_rules.specs.ped_steps.specs.Scenes.{IsSceneOf};
ghost use Rattle.ped_rules.specs.ped_symbols.specs.Kinds.{table_of};
ghost use Rattle.ped_rules.specs.ped_symbols.specs.NameRefusals.{IsValid};
ghost use Rattle.ped_rules.specs.ped_flow.specs.Questions.{IsLoop};
ghost use Rattle.ped_rules.specs.CodeSpans.{span_in, IsNear};
ghost use Rattle.ped_reduce.specs.Lowering as Lowering;
ghost use Rattle.ped_reduce.specs.Reducing as Spec;
ghost use Rattle.ped_reduce.specs.CodeLowering.{partials_view};
ghost use Rattle.ped_reduce.specs.CodeLowered.{lowered_view, next_view, IsKept, IsFree, IsLiveAt, IsNext, IsNextBy, IsLowerable, IsMade};

use crate::edges::first_carried_beside;
use crate::lists::list_of;
use crate::origins::{gained, origins_behind};
use crate::partials::{Partials, declare, partials_of};
use crate::rules::{early, late};
use crate::summing::lowered_loop;
use ped_base::{Name, NoMemory};
use ped_rules::{
    Course, Scene, Span, Symbols, body_with, course_of, loop_at, loops_round, valid_symbols,
};
use ped_tree::{Do, Program, copy_decls, count_statements};
use std::alloc::Global;
use std::sync::ledger::Ledger;

/// What comes of a program when lists are lowered.
#[derive(Drop)]
pub struct Lowered {
    /// The program, which is valid. It was read from no text, so it has no lines.
    pub tree: Program,
    /// What its names stand for.
    pub symbols: Symbols,
    /// For each of its statements the number of the one from which it comes.
    pub origin: Vec<u32>,
    /// The numbers of the DO loops that are lowered, as they were.
    pub live: Vec<u32>,
    /// How many statements it has more than the other program.
    pub more: u32,
}

/// What comes of a program when all its live lists are lowered, in text order (Allen and Kennedy, section 5.6). A list
/// is live where the DO is in none that is lowered, the list has at most eight names, nothing forbids that its
/// iterations add to these in any order, and the program in which it is lowered is valid.
pub fn lower<L: Ledger>(alloc: Global, scene: &Scene<L>) -> Result<Lowered, NoMemory>
    requires { IsSceneOf (program_tree scene.now.tree.now) scene.now }
    ensures lowered { IfOk result (λ l. Spec.IsLowered (program_tree scene.now.tree.now) (lowered_view l)) }
    ensures valid { IfOk result (λ l. IsValid (program_tree l.tree)) }
    ensures symbols { IfOk result (λ l. l.symbols ≡ table_of (program_tree l.tree)) }
    ensures lines { IfOk result (λ l. l.tree.lines.items ≡ []) }
{
    lower_front(alloc, scene, count_statements(&scene.tree.body))
}

/// What comes of a program when its live lists up to this statement are lowered.
pub(crate) fn lower_front<L: Ledger>(
    alloc: Global,
    scene: &Scene<L>,
    last: u32,
) -> Result<Lowered, NoMemory>
    requires scene { IsSceneOf (program_tree scene.now.tree.now) scene.now }
    requires inside { last ≤ statements_count (program_tree scene.now.tree.now).body }
    ensures lowers { IfOk result (λ l. Spec.Lowers (program_tree scene.now.tree.now) (range_with_len 1 last) (Lowering.not_lowered (program_tree scene.now.tree.now)) (lowered_view l)) }
    ensures kept { IfOk result (IsKept last) }
{
    let mut lowered = not_lowered(alloc, scene)?;
    for before in 0..last {
        lower_at(alloc, scene, before + 1, &mut lowered)?;
    }
    Ok(lowered)
}

/// The program in which nothing is lowered.
fn not_lowered<L: Ledger>(alloc: Global, scene: &Scene<L>) -> Result<Lowered, NoMemory>
    requires scene { IsSceneOf (program_tree scene.now.tree.now) scene.now }
    ensures is { IfOk result (λ l. lowered_view l ≡ Lowering.not_lowered (program_tree scene.now.tree.now)) }
    ensures kept { IfOk result (IsKept 0) }
{
    let mut origin = Vec::new(alloc);
    for before in 0..count_statements(&scene.tree.body) {
        origin.push(before + 1)?;
    }
    let tree = copy_of(alloc, scene.tree)?;
    match valid_symbols(alloc, &tree)? {
        Some(symbols) => Ok(Lowered {
            tree,
            symbols,
            origin,
            live: Vec::new(alloc),
            more: 0,
        }),
        None => unreachable!(),
    }
}

/// A copy of a program, without the lines that it was read from.
fn copy_of(alloc: Global, program: &Program) -> Result<Program, NoMemory>
    requires { statements_count (program_tree program.now).body + 1 < 2 ^ 32 }
    ensures tree { IfOk result (λ p. program_tree p ≡ program_tree program.now) }
    ensures lines { IfOk result (λ p. p.lines.items ≡ []) }
{
    let decls = copy_decls(&program.decls, alloc)?;
    let mut body = Vec::new(alloc);
    for statement in &program.body {
        body.push(statement.copy(alloc)?)?;
    }
    Ok(Program {
        decls,
        body,
        lines: Vec::new(alloc),
    })
}

/// Lowers the statement with this number, where it is a DO with a list that is live; what comes before it is lowered
/// already.
fn lower_at<L: Ledger>(
    alloc: Global,
    scene: &Scene<L>,
    number: u32,
    lowered: &mut Lowered,
) -> Result<(), NoMemory>
    requires scene { IsSceneOf (program_tree scene.now.tree.now) scene.now }
    requires kept { IsKept (number - 1) lowered.old }
    requires inside { number ≤ statements_count (program_tree scene.now.tree.now).body }
    ensures lowers { OnOk result (Spec.LowersOne (program_tree scene.now.tree.now) number (lowered_view lowered.old) (lowered_view lowered.new)) }
    ensures kept { OnOk result (IsKept number lowered.new) }
{
    match lowered_at(alloc, scene, number, lowered) {
        Ok(Some(new)) => {
            *lowered = new;
            return Ok(());
        }
        Ok(None) => {
            return Ok(());
        }
        Err(NoMemory) => {
            return Err(NoMemory);
        }
    }
}

/// What comes of lowering the statement with this number too, where it is a DO with a list that is live.
fn lowered_at<L: Ledger>(
    alloc: Global,
    scene: &Scene<L>,
    number: u32,
    lowered: &Lowered,
) -> Result<Option<Lowered>, NoMemory>
    requires scene { IsSceneOf (program_tree scene.now.tree.now) scene.now }
    requires kept { IsKept (number - 1) lowered.now }
    requires inside { number ≤ statements_count (program_tree scene.now.tree.now).body }
    ensures { IfOk result (IsLiveAt (program_tree scene.now.tree.now) number lowered.now) }
{
    match loop_at(scene.tree, number) {
        Some(d) => {
            return lowered_in(alloc, scene, number, d, lowered);
        }
        None => {
            return Ok(None);
        }
    }
}

/// The same, where the statement is this DO.
fn lowered_in<L: Ledger>(
    alloc: Global,
    scene: &Scene<L>,
    number: u32,
    d: &Do,
    lowered: &Lowered,
) -> Result<Option<Lowered>, NoMemory>
    requires scene { IsSceneOf (program_tree scene.now.tree.now) scene.now }
    requires kept { IsKept (number - 1) lowered.now }
    requires inside { number ≤ statements_count (program_tree scene.now.tree.now).body }
    requires is { IsLoop (program_tree scene.now.tree.now) number (head_of d.now) (stmt_trees d.now.body.items) }
    ensures { IfOk result (IsLiveAt (program_tree scene.now.tree.now) number lowered.now) }
{
    let names = list_of(alloc, &d.body)?;
    if names.is_empty() {
        return Ok(None);
    }
    if names.len() > 8 {
        return Ok(None);
    }
    if is_in_live(alloc, scene.tree, lowered, number)? {
        return Ok(None);
    }
    if !is_free(alloc, scene, number, d, &names)? {
        return Ok(None);
    }
    lowered_with(alloc, lowered, number, &names)
}

/// Whether a DO around the statement with this number is lowered.
pub(crate) fn is_in_live(
    alloc: Global,
    program: &Program,
    lowered: &Lowered,
    number: u32,
) -> Result<bool, NoMemory>
    requires { statements_count (program_tree program.now).body + 1 < 2 ^ 32 }
    ensures { IfOk result (λ r. r ≡ Spec.is_in_live (program_tree program.now) (lowered_view lowered.now) number) }
{
    let round = loops_round(alloc, program, number)?;
    for l in &round {
        if lowered.live.contains(&l.number) {
            return Ok(true);
        }
    }
    Ok(false)
}

/// Whether nothing forbids that the iterations of the DO with this number add to these names in any order.
fn is_free<L: Ledger>(
    alloc: Global,
    scene: &Scene<L>,
    number: u32,
    d: &Do,
    names: &[Name],
) -> Result<bool, NoMemory>
    requires scene { IsSceneOf (program_tree scene.now.tree.now) scene.now }
    requires is { IsLoop (program_tree scene.now.tree.now) number (head_of d.now) (stmt_trees d.now.body.items) }
    ensures { IfOk result (λ free. IsTrue free ↔ IsFree (program_tree scene.now.tree.now) number names.now) }
{
    if early(alloc, scene, number, d, names)?.is_some() {
        return Ok(false);
    }
    if late(alloc, scene, number, d, names)?.is_some() {
        return Ok(false);
    }
    let edge = first_carried_beside(alloc, scene, number, names)?;
    Ok(edge.is_none())
}

/// A program in which a DO is lowered, with the arrays for its scalars.
#[derive(Drop)]
pub(crate) struct Made {
    /// The program.
    pub(crate) tree: Program,
    /// The arrays.
    pub(crate) partials: Vec<Partials>,
}

/// What comes of lowering the DO with this number too, for these names: none where the program wouldn't be valid.
fn lowered_with(
    alloc: Global,
    lowered: &Lowered,
    number: u32,
    names: &[Name],
) -> Result<Option<Lowered>, NoMemory>
    requires small { number ≤ 4000 }
    requires from { 1 ≤ number }
    requires few { length names.now ≤ 8 }
    requires kept { IsKept (number - 1) lowered.now }
    ensures { IfOk result (IsNext number names.now lowered.now) }
{
    match loop_at(&lowered.tree, number + lowered.more) {
        Some(d) => {
            return lowered_loop_with(alloc, lowered, number, d, names);
        }
        None => {
            return Ok(None);
        }
    }
}

/// The same, where this is the DO by now.
fn lowered_loop_with(
    alloc: Global,
    lowered: &Lowered,
    number: u32,
    d: &Do,
    names: &[Name],
) -> Result<Option<Lowered>, NoMemory>
    requires small { number ≤ 4000 }
    requires from { 1 ≤ number }
    requires kept { IsKept (number - 1) lowered.now }
    requires is { IsLoop (program_tree lowered.now.tree) (number + lowered.now.more) (head_of d.now) (stmt_trees d.now.body.items) }
    requires few { length names.now ≤ 8 }
    ensures { IfOk result (IsNext number names.now lowered.now) }
{
    match made_with(alloc, lowered, number, d, names)? {
        Some(made) => {
            return if_valid(alloc, lowered, number, d, made);
        }
        None => {
            return Ok(None);
        }
    }
}

/// The same, where this is the program.
fn if_valid(
    alloc: Global,
    lowered: &Lowered,
    number: u32,
    d: &Do,
    made: Made,
) -> Result<Option<Lowered>, NoMemory>
    requires small { number ≤ 4000 }
    requires from { 1 ≤ number }
    requires kept { IsKept (number - 1) lowered.now }
    requires is { IsLoop (program_tree lowered.now.tree) (number + lowered.now.more) (head_of d.now) (stmt_trees d.now.body.items) }
    requires few { length made.partials.items ≤ 8 }
    requires lines { made.tree.lines.items ≡ [] }
    ensures { IfOk result (IsNextBy number lowered.now (stmt_trees d.now.body.items) made) }
{
    match valid_symbols(alloc, &made.tree)? {
        Some(symbols) => {
            let next = next_lowered(alloc, lowered, number, d, made, symbols)?;
            return Ok(Some(next));
        }
        None => {
            return Ok(None);
        }
    }
}

/// Whether the program is valid in which the DO with this number is lowered too, for these names.
pub(crate) fn is_lowerable(
    alloc: Global,
    lowered: &Lowered,
    number: u32,
    names: &[Name],
) -> Result<bool, NoMemory>
    requires small { number ≤ 4000 }
    requires from { 1 ≤ number }
    requires kept { IsKept (number - 1) lowered.now }
    ensures { IfOk result (λ valid. IsTrue valid ↔ IsLowerable number names.now lowered.now) }
{
    match loop_at(&lowered.tree, number + lowered.more) {
        Some(d) => match made_with(alloc, lowered, number, d, names)? {
            Some(made) => {
                return is_valid(alloc, &made.tree);
            }
            None => {
                return Ok(false);
            }
        },
        None => {
            return Ok(false);
        }
    }
}

/// Whether the program is valid.
fn is_valid(alloc: Global, tree: &Program) -> Result<bool, NoMemory>
    requires { tree.now.lines.items ≡ [] }
    ensures { IfOk result (λ valid. IsTrue valid ↔ IsValid (program_tree tree.now)) }
{
    let symbols = valid_symbols(alloc, tree)?;
    Ok(symbols.is_some())
}

/// The program in which the DO with this number is lowered too, for these names: none where the values of its variable aren't
/// known, or where there are too few names for the arrays.
fn made_with(
    alloc: Global,
    lowered: &Lowered,
    number: u32,
    d: &Do,
    names: &[Name],
) -> Result<Option<Made>, NoMemory>
    requires small { number ≤ 4000 }
    requires from { 1 ≤ number }
    requires kept { IsKept (number - 1) lowered.now }
    requires is { IsLoop (program_tree lowered.now.tree) (number + lowered.now.more) (head_of d.now) (stmt_trees d.now.body.items) }
    ensures { IfOk result (IsMade number names.now lowered.now (head_of d.now) (stmt_trees d.now.body.items)) }
{
    let Course::Near(span) = course_of(lowered.symbols.consts(), d) else {
        return Ok(None);
    };
    match partials_of(alloc, &lowered.tree, &lowered.symbols, names)? {
        Some(partials) => {
            let tree = tree_with(alloc, lowered, number, d, span, &partials)?;
            return Ok(Some(Made { tree, partials }));
        }
        None => {
            return Ok(None);
        }
    }
}

/// The program in which the DO with this number is lowered with these arrays.
fn tree_with(
    alloc: Global,
    lowered: &Lowered,
    number: u32,
    d: &Do,
    span: Span,
    partials: &[Partials],
) -> Result<Program, NoMemory>
    requires small { number ≤ 4000 }
    requires from { 1 ≤ number }
    requires kept { IsKept (number - 1) lowered.now }
    requires is { IsLoop (program_tree lowered.now.tree) (number + lowered.now.more) (head_of d.now) (stmt_trees d.now.body.items) }
    requires near { IsNear span }
    ensures tree { IfOk result (λ tree. program_tree tree ≡ (Lowering.lowered_with true (lowered_view lowered.now) number (stmt_trees d.now.body.items) (span_in span) (map partials_view partials.now)).tree) }
    ensures lines { IfOk result (λ tree. tree.lines.items ≡ []) }
{
    let new = lowered_loop(alloc, partials, d)?;
    let body = body_with(alloc, &lowered.tree.body, number + lowered.more, &new)?;
    let mut decls = copy_decls(&lowered.tree.decls, alloc)?;
    declare(alloc, &mut decls, span, partials)?;
    Ok(Program {
        decls,
        body,
        lines: Vec::new(alloc),
    })
}

/// What comes of lowering the DO with this number too, with this program and its names.
fn next_lowered(
    alloc: Global,
    lowered: &Lowered,
    number: u32,
    d: &Do,
    made: Made,
    symbols: Symbols,
) -> Result<Lowered, NoMemory>
    requires small { number ≤ 4000 }
    requires from { 1 ≤ number }
    requires kept { IsKept (number - 1) lowered.now }
    requires is { IsLoop (program_tree lowered.now.tree) (number + lowered.now.more) (head_of d.now) (stmt_trees d.now.body.items) }
    requires few { length made.partials.items ≤ 8 }
    requires lines { made.tree.lines.items ≡ [] }
    requires valid { IsValid (program_tree made.tree) }
    requires symbols { symbols ≡ table_of (program_tree made.tree) }
    ensures is { IfOk result (λ l. lowered_view l ≡ next_view number lowered.now (stmt_trees d.now.body.items) made) }
    ensures kept { IfOk result (IsKept number) }
{
    let by_now = number + lowered.more;
    let origin = origins_behind(
        alloc,
        number,
        by_now,
        &made.partials,
        &d.body,
        &lowered.origin,
    )?;
    let mut live = lowered.live.to_vec(alloc)?;
    live.push(number)?;
    Ok(Lowered {
        tree: made.tree,
        symbols,
        origin,
        live,
        more: lowered.more + gained(&made.partials, &d.body),
    })
}
