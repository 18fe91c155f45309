//! What the paths of statements do to many scalars, statement by statement, with what is known of each.

ghost use Rattle.std.specs.Prelude.{◌≡◌, ◌+◌, ◌<◌, ◌≤◌, ◌^◌, ◌++◌, ◌↔◌, ℕ, List, Option, Some, Ok, length, slice_set, IsTrue, IfOk, OnOk};
ghost use Rattle.ped_tree.specs.Tree;
ghost use Rattle.ped_tree.specs.Tree.{StmtTrees};
ghost use Rattle.ped_tree.specs.Views.{cond_tree, stmt_tree, stmt_trees};
ghost use Rattle.ped_tree.specs.Numbering.{statement_count, statements_count};
ghost use Rattle.ped_tree.specs.Views.{head_of};
ghost use Rattle.ped_tree.specs.NamesIn.{loop_variables, all_loop_variables};
ghost use Rattle.ped_flow.specs.Events as Event;
ghost use Rattle.ped_flow.specs.Summaries as Spec;
ghost use Rattle.ped_flow.specs.Kept.{first_reader, first_outside, all_first_outside};
ghost use Rattle.ped_flow.specs.RowMarks.{names_in, constants_in};
ghost use Rattle.ped_flow.specs.Parts.{IsPart};
ghost use Rattle.ped_flow.specs.Made.{IsMade};
ghost use Rattle.ped_flow.specs.Entries.{IsEntry, Knows, KnowsAll, KnowsInside, AreSameBut};
ghost use Rattle.ped_flow.specs.declared.parts.Part.{Part};
ghost use Rattle.ped_flow.specs.declared.summaries.Summary.{Summary};

use crate::entries::Entry;
use crate::parts::Part;
use crate::places::Places;
use crate::row_events::{assignment, deciding, printing, reading};
use crate::row_loops::loop_part;
use ped_base::NoMemory;
use ped_tree::{Cond, Do, Stmt};
use std::alloc::Global;
use std::mem;

/// What statements do to the scalars that have places. The number of the first becomes that of the statement after
/// them. The table gets to know each of them.
#[cycle(rows)]
pub(crate) fn all_parts(
    alloc: Global,
    places: &Places,
    table: &mut [Option<Entry>],
    body: &[Stmt],
    number: &mut u32,
) -> Result<Part, NoMemory>
    requires few { number.old + statements_count (stmt_trees body.now) < 2 ^ 32 }
    requires room { number.old + statements_count (stmt_trees body.now) ≤ length table.old }
    ensures number { OnOk result (number.new ≡ number.old + statements_count (stmt_trees body.now)) }
    ensures part { IfOk result (λ p. IsPart (names_in places.now) p (λ x. Spec.summary_of_all (constants_in places.now) x (stmt_trees body.now) number.old) (λ x. all_first_outside (constants_in places.now) x (stmt_trees body.now) number.old) (all_loop_variables (stmt_trees body.now))) }
    ensures known { OnOk result (KnowsAll places.now table.new (stmt_trees body.now) number.old) }
    ensures others { OnOk result (AreSameBut table.old table.new number.old (number.old + statements_count (stmt_trees body.now))) }
{
    let mut part = Part::nothing(alloc, places.names.len())?;
    for s in body {
        if let Err(error) = add_part(alloc, places, table, &mut part, s, number) {
            drop(part);
            return Err(error);
        }
    }
    Ok(part)
}

/// What a statement does after what others do. Its number becomes that of the statement after it.
#[cycle(rows)]
fn add_part(
    alloc: Global,
    places: &Places,
    table: &mut [Option<Entry>],
    part: &mut Part,
    s: &Stmt,
    number: &mut u32,
) -> Result<(), NoMemory>
    requires few { number.old + statement_count (stmt_tree s.now) < 2 ^ 32 }
    requires room { number.old + statement_count (stmt_tree s.now) ≤ length table.old }
    requires wide { part.old.summaries.width ≡ length (names_in places.now) }
    ensures number { OnOk result (number.new ≡ number.old + statement_count (stmt_tree s.now)) }
    ensures part { OnOk result ((f : List ℕ → Summary) (o : List ℕ → Option ℕ) (u : List (List ℕ)) → IsPart (names_in places.now) part.old f o u → IsPart (names_in places.now) part.new (λ x. Spec.summary_in_turn (f x) (Spec.summary_of (constants_in places.now) x (stmt_tree s.now) number.old)) (λ x. Spec.least_of (o x) (first_outside (constants_in places.now) x (stmt_tree s.now) number.old)) (u ++ loop_variables (stmt_tree s.now))) }
    ensures known { OnOk result (Knows places.now table.new (stmt_tree s.now) number.old) }
    ensures others { OnOk result (AreSameBut table.old table.new number.old (number.old + statement_count (stmt_tree s.now))) }
{
    if !is_numbered(s) {
        return Ok(());
    }
    let own = *number;
    let entry = entry_of(alloc, places, table, s, number)?;
    match part.then(alloc, &entry.part) {
        Ok(()) => {
            keep(table, own, entry);
            return Ok(());
        }
        Err(error) => {
            drop(entry);
            return Err(error);
        }
    }
}

/// Writes what is known of the statement with a number into the table.
fn keep(table: &mut [Option<Entry>], number: u32, entry: Entry)
    requires { number < length table.old }
    ensures { table.new ≡ slice_set table.old number (Some entry) }
{
    let former = mem::replace(&mut table[number as usize], Some(entry));
    drop(former);
}

/// Whether a statement has a number, as each but a comment has.
pub(crate) fn is_numbered(s: &Stmt) -> bool
    ensures { IsTrue result ↔ (0 < statement_count (stmt_tree s.now)) }
{
    match s {
        Stmt::Comment(_) => {
            return false;
        }
        Stmt::Stop => {
            return true;
        }
        Stmt::Assign { left: _, right: _ } => {
            return true;
        }
        Stmt::Print(_) => {
            return true;
        }
        Stmt::Read(_) => {
            return true;
        }
        Stmt::If {
            condition: _,
            then_part: _,
            else_part: _,
        } => {
            return true;
        }
        Stmt::Do(_) => {
            return true;
        }
    }
}

/// What is known of a statement. Its number becomes that of the statement after it.
#[cycle(rows)]
fn entry_of(
    alloc: Global,
    places: &Places,
    table: &mut [Option<Entry>],
    s: &Stmt,
    number: &mut u32,
) -> Result<Entry, NoMemory>
    requires few { number.old + statement_count (stmt_tree s.now) < 2 ^ 32 }
    requires room { number.old + statement_count (stmt_tree s.now) ≤ length table.old }
    ensures number { OnOk result (number.new ≡ number.old + statement_count (stmt_tree s.now)) }
    ensures entry { IfOk result (λ e. IsEntry places.now e (stmt_tree s.now) number.old) }
    ensures known { OnOk result (KnowsInside places.now table.new (stmt_tree s.now) number.old) }
    ensures others { OnOk result (AreSameBut table.old table.new (number.old + 1) (number.old + statement_count (stmt_tree s.now))) }
{
    let own = *number;
    match s {
        Stmt::Comment(_) => {
            return entry_with(alloc, Part::nothing(alloc, places.names.len()), own);
        }
        Stmt::Stop => {
            *number = own + 1;
            return entry_with(alloc, Part::stopped(alloc, places.names.len()), own + 1);
        }
        Stmt::Assign { left, right } => {
            *number = own + 1;
            return entry_with(alloc, assignment(alloc, places, left, right), own + 1);
        }
        Stmt::Print(items) => {
            *number = own + 1;
            return entry_with(alloc, printing(alloc, places, items), own + 1);
        }
        Stmt::Read(items) => {
            *number = own + 1;
            return entry_with(alloc, reading(alloc, places, items), own + 1);
        }
        Stmt::If {
            condition: c,
            then_part,
            else_part,
        } => {
            *number = own + 1;
            let first = all_parts(alloc, places, table, then_part, number)?;
            let second = all_parts(alloc, places, table, else_part, number);
            return branches_entry(alloc, places, c, first, second, *number);
        }
        Stmt::Do(d) => {
            *number = own + 1;
            let body = all_parts(alloc, places, table, &d.body, number)?;
            return loop_entry(alloc, places, d, body, *number);
        }
    }
}

/// What is known of a statement with this number after it, from what it does, where that was found.
fn entry_with(alloc: Global, part: Result<Part, NoMemory>, behind: u32) -> Result<Entry, NoMemory>
    ensures { IfOk result (λ e. (p : Part) × (part ≡ Ok p) × IsMade p behind e) }
{
    Entry::new(alloc, part?, behind)
}

/// What is known of an IF, from what its parts do, where that of the second one was found.
fn branches_entry(
    alloc: Global,
    places: &Places,
    c: &Cond,
    first: Part,
    second: Result<Part, NoMemory>,
    behind: u32,
) -> Result<Entry, NoMemory>
    requires first { first.summaries.width ≡ length (names_in places.now) }
    requires second { IfOk second (λ q. q.summaries.width ≡ length (names_in places.now)) }
    ensures { IfOk result (λ e. (q : Part) × (second ≡ Ok q) × ((n : ℕ) (a b : StmtTrees) → IsPart (names_in places.now) first (λ x. Spec.summary_of_all (constants_in places.now) x a (n + 1)) (λ x. all_first_outside (constants_in places.now) x a (n + 1)) (all_loop_variables a) → IsPart (names_in places.now) q (λ x. Spec.summary_of_all (constants_in places.now) x b (n + 1 + statements_count a)) (λ x. all_first_outside (constants_in places.now) x b (n + 1 + statements_count a)) (all_loop_variables b) → behind ≡ n + statement_count (Tree.If (cond_tree c.now) a b) → IsEntry places.now e (Tree.If (cond_tree c.now) a b) n)) }
{
    match second {
        Ok(second) => {
            let part = branching(alloc, places, c, first, &second);
            drop(second);
            entry_with(alloc, part, behind)
        }
        Err(error) => {
            drop(first);
            Err(error)
        }
    }
}

/// An IF, from what its parts do.
fn branching(
    alloc: Global,
    places: &Places,
    c: &Cond,
    first: Part,
    second: &Part,
) -> Result<Part, NoMemory>
    requires first { first.summaries.width ≡ length (names_in places.now) }
    requires second { second.now.summaries.width ≡ length (names_in places.now) }
    ensures { IfOk result (λ p. (n : ℕ) (f g : List ℕ → Summary) (o q : List ℕ → Option ℕ) (u v : List (List ℕ)) → IsPart (names_in places.now) first f o u → IsPart (names_in places.now) second.now g q v → IsPart (names_in places.now) p (λ x. Spec.summary_in_turn (Spec.summary_events x (Event.reads_of n (Event.scalars_in_cond (constants_in places.now) (cond_tree c.now)))) (Spec.summary_either (f x) (g x))) (λ x. Spec.least_of (first_reader x (Event.reads_of n (Event.scalars_in_cond (constants_in places.now) (cond_tree c.now)))) (Spec.least_of (o x) (q x))) (u ++ v)) }
{
    let parts = first.either(alloc, second)?;
    let part = decided(alloc, places, c, &parts);
    drop(parts);
    part
}

/// An IF, from what either of its parts does.
fn decided(alloc: Global, places: &Places, c: &Cond, parts: &Part) -> Result<Part, NoMemory>
    requires { parts.now.summaries.width ≡ length (names_in places.now) }
    ensures { IfOk result (λ p. (n : ℕ) (g : List ℕ → Summary) (q : List ℕ → Option ℕ) (v : List (List ℕ)) → IsPart (names_in places.now) parts.now g q v → IsPart (names_in places.now) p (λ x. Spec.summary_in_turn (Spec.summary_events x (Event.reads_of n (Event.scalars_in_cond (constants_in places.now) (cond_tree c.now)))) (g x)) (λ x. Spec.least_of (first_reader x (Event.reads_of n (Event.scalars_in_cond (constants_in places.now) (cond_tree c.now)))) (q x)) v) }
{
    let part = deciding(alloc, places, c)?;
    part.followed(alloc, parts)
}

/// What is known of a DO, from what its body does.
fn loop_entry(
    alloc: Global,
    places: &Places,
    d: &Do,
    body: Part,
    behind: u32,
) -> Result<Entry, NoMemory>
    requires { body.summaries.width ≡ length (names_in places.now) }
    ensures { IfOk result (λ e. (n : ℕ) → IsPart (names_in places.now) body (λ x. Spec.summary_of_all (constants_in places.now) x (stmt_trees d.now.body.items) (n + 1)) (λ x. all_first_outside (constants_in places.now) x (stmt_trees d.now.body.items) (n + 1)) (all_loop_variables (stmt_trees d.now.body.items)) → behind ≡ n + (statements_count (stmt_trees d.now.body.items) + 1) → IsEntry places.now e (Tree.Do (head_of d.now) (stmt_trees d.now.body.items)) n) }
{
    let part = loop_part(alloc, places, d, &body);
    drop(body);
    entry_with(alloc, part, behind)
}
