//! Statements in order.

ghost use Rattle.std.specs.Prelude.{◌≡◌, ◌<◌, ◌+◌, ◌∷◌, ℕ, map, true, false, Ok, Err, OnOk, IfErr, IfSome};
ghost use Rattle.ped_tree.specs.Tree.{Var, Element, Assign};
ghost use Rattle.ped_tree.specs.Views.{expr_tree, pack_exprs, stmt_tree, stmt_trees, do_tree};
ghost use Rattle.ped_tree.specs.Numbering.{statement_count, statements_count};
ghost use Rattle.ped_store.specs.Cells.{Scalar};
ghost use Rattle.ped_store.specs.Stores.{Number};
ghost use Rattle.ped_store.specs.Memories.{with_content};
ghost use Rattle.ped_store.specs.Keeping.{memory_of};
ghost use Rattle.ped_eval.specs.Scopes.{cell_of};
ghost use Rattle.ped_eval.specs.ScopeViews.{names_at, outside};
ghost use Rattle.ped_eval.specs.Statements.{Stored, assigned};
ghost use Rattle.ped_eval.specs.Loops.{frame};
ghost use Rattle.ped_eval.specs.Runs as Runs;
ghost use Rattle.ped_symbols.specs.RightUses.RightUses.{target_is_right};
ghost use Rattle.ped_eval.specs.Readiness.{kinds_by, setting_by, IsReady, CanDo, CanRun};
ghost use Rattle.ped_eval.specs.Agreement.{before, before_turn};
ghost use Rattle.ped_eval.specs.Plans.{entered_by, IsPlan};
ghost use Rattle.ped_tree.specs.Views.{head_of};
ghost use Rattle.ped_eval.specs.Turns.{turns_end, body_run};
ghost use Rattle.ped_eval.specs.Noting.{place_by, HasAdded};
ghost use Rattle.ped_eval.specs.StatementNotes.{assignment_noted};
ghost use Rattle.ped_eval.specs.Watched.{Watched, turns_run};
ghost use Rattle.ped_eval.specs.Told.{Ran, TellsFrom, StaysReady, OnGoing, OnStopped};

use crate::evaluation::{first_places, ranked_places, target_cell, value_of};
use crate::exits::leave_loop;
use crate::narrow::{unnoted_value, whole_value};
use crate::notes::Notes;
use crate::plans::{Plan, plan_of};
use crate::printing::watched_print;
use crate::reading::run_read;
use crate::scopes::Scope;
use crate::states::{Flow, RunError, State};
use crate::surroundings::Surroundings;
use crate::telling::{tell, tell_exit, watched_truth};
use crate::turns::{close_copies, enter_loop, open_turn};
use crate::watches::Watch;
use ped_base::Name;
use ped_store::RunFault;
use ped_symbols::Symbols;
use ped_tree::{Do, Expr, Stmt, count_statement, count_statements};
use std::alloc::Global;

/// Runs statements, of which the first has this number.
///
/// # Errors
///
/// `Fault` with the first fault and its statement, or `NoMemory`.
#[cycle(run)]
pub(crate) fn run_all<W: Watch>(
    alloc: Global,
    symbols: &Symbols,
    state: &mut State,
    watch: &mut W,
    stmts: &[Stmt],
    first: u32,
) -> Result<Flow, RunError>
    requires can { CanRun symbols.now state.old.scope first (stmt_trees stmts.now) }
    requires ready { IsReady symbols.now state.old.scope (memory_of state.old.store) }
    ensures told { Ran state.old.scope first (memory_of state.old.store) (first + statements_count (stmt_trees stmts.now)) result (memory_of state.new.store)
        (Runs.run_all (setting_by symbols.now) (stmt_trees stmts.now) first state.old.scope) }
    ensures ready { StaysReady symbols.now result state.old.scope state.new.scope (memory_of state.new.store) }
    ensures watched { Watched W.follows watch.old watch.new state.old.scope (before state.old.scope first) (memory_of state.old.store).cells result
        (Runs.run_all (setting_by symbols.now) (stmt_trees stmts.now) first state.old.scope) }
{
    let mut number = first;
    for stmt in stmts {
        match run_one(alloc, symbols, state, watch, stmt, number) {
            Ok(Flow::Going) => number += count_statement(stmt),
            Ok(Flow::Stopped) => return Ok(Flow::Stopped),
            Err(error) => return Err(error),
        }
    }
    Ok(Flow::Going)
}

/// Runs the statement with this number, or a comment before it.
#[cycle(run)]
fn run_one<W: Watch>(
    alloc: Global,
    symbols: &Symbols,
    state: &mut State,
    watch: &mut W,
    stmt: &Stmt,
    number: u32,
) -> Result<Flow, RunError>
    requires can { CanDo symbols.now state.old.scope number (stmt_tree stmt.now) }
    requires ready { IsReady symbols.now state.old.scope (memory_of state.old.store) }
    ensures told { Ran state.old.scope number (memory_of state.old.store) (number + statement_count (stmt_tree stmt.now)) result (memory_of state.new.store)
        (Runs.run (setting_by symbols.now) (stmt_tree stmt.now) number state.old.scope) }
    ensures ready { StaysReady symbols.now result state.old.scope state.new.scope (memory_of state.new.store) }
    ensures watched { Watched W.follows watch.old watch.new state.old.scope (before state.old.scope number) (memory_of state.old.store).cells result
        (Runs.run (setting_by symbols.now) (stmt_tree stmt.now) number state.old.scope) }
{
    match stmt {
        Stmt::Assign { left, right } => return watched_assignment(
            alloc, symbols, state, watch, left, right, number,
        ),
        Stmt::If {
            condition,
            then_part,
            else_part,
        } => match watched_truth(alloc, symbols, state, watch, condition, number) {
            Ok(true) => return run_part(alloc, symbols, state, watch, then_part, number + 1),
            Ok(false) => {
                if else_part.is_empty() {
                    return Ok(Flow::Going);
                }
                let behind = number + 1 + count_statements(then_part);
                return run_part(alloc, symbols, state, watch, else_part, behind);
            }
            Err(error) => return Err(error),
        },
        Stmt::Do(d) => return run_do(alloc, symbols, state, watch, d, number),
        Stmt::Print(items) => return watched_print(alloc, symbols, state, watch, items, number),
        Stmt::Read(items) => return run_read(alloc, symbols, state, watch, items, number),
        Stmt::Stop => return Ok(Flow::Stopped),
        Stmt::Comment(_) => return Ok(Flow::Going),
    }
}

/// Runs a part of a block IF or the body of a DO, of which the first statement has this number. Of one statement, as each
/// ELSE IF is, no count is needed.
#[cycle(run)]
fn run_part<W: Watch>(
    alloc: Global,
    symbols: &Symbols,
    state: &mut State,
    watch: &mut W,
    stmts: &[Stmt],
    first: u32,
) -> Result<Flow, RunError>
    requires can { CanRun symbols.now state.old.scope first (stmt_trees stmts.now) }
    requires ready { IsReady symbols.now state.old.scope (memory_of state.old.store) }
    ensures told { Ran state.old.scope first (memory_of state.old.store) (first + statements_count (stmt_trees stmts.now)) result (memory_of state.new.store)
        (Runs.run_all (setting_by symbols.now) (stmt_trees stmts.now) first state.old.scope) }
    ensures ready { StaysReady symbols.now result state.old.scope state.new.scope (memory_of state.new.store) }
    ensures watched { Watched W.follows watch.old watch.new state.old.scope (before state.old.scope first) (memory_of state.old.store).cells result
        (Runs.run_all (setting_by symbols.now) (stmt_trees stmts.now) first state.old.scope) }
{
    let [only] = stmts else {
        return run_all(alloc, symbols, state, watch, stmts, first);
    };
    run_one(alloc, symbols, state, watch, only, first)
}

/// Runs the assignment with this number, and gives a watch what it reads and writes.
fn watched_assignment<W: Watch>(
    alloc: Global,
    symbols: &Symbols,
    state: &mut State,
    watch: &mut W,
    left: &Expr,
    right: &Expr,
    number: u32,
) -> Result<Flow, RunError>
    requires can { CanDo symbols.now state.old.scope number (Assign (expr_tree left.now) (expr_tree right.now)) }
    requires ready { IsReady symbols.now state.old.scope (memory_of state.old.store) }
    ensures told { Ran state.old.scope number (memory_of state.old.store) (number + 1) result (memory_of state.new.store)
        (Runs.run (setting_by symbols.now) (Assign (expr_tree left.now) (expr_tree right.now)) number state.old.scope) }
    ensures ready { StaysReady symbols.now result state.old.scope state.new.scope (memory_of state.new.store) }
    ensures watched { Watched W.follows watch.old watch.new state.old.scope (before state.old.scope number) (memory_of state.old.store).cells result
        (Runs.run (setting_by symbols.now) (Assign (expr_tree left.now) (expr_tree right.now)) number state.old.scope) }
{
    let mut notes = Notes::of_statement(alloc, watch);
    let answer = run_assignment(symbols, state, left, right, number, &mut notes);
    tell(alloc, watch, &state.scope, number, &notes)?;
    answer
}

/// Runs the assignment with this number (ANSI X3.9-1978, section 10.1).
fn run_assignment(
    symbols: &Symbols,
    state: &mut State,
    left: &Expr,
    right: &Expr,
    number: u32,
    notes: &mut Notes,
) -> Result<Flow, RunError>
    requires can { CanDo symbols.now state.old.scope number (Assign (expr_tree left.now) (expr_tree right.now)) }
    requires ready { IsReady symbols.now state.old.scope (memory_of state.old.store) }
    ensures told { Ran state.old.scope number (memory_of state.old.store) (number + 1) result (memory_of state.new.store)
        (Runs.run (setting_by symbols.now) (Assign (expr_tree left.now) (expr_tree right.now)) number state.old.scope) }
    ensures ready { StaysReady symbols.now result state.old.scope state.new.scope (memory_of state.new.store) }
    ensures scope { state.new.scope ≡ state.old.scope }
    ensures noted { HasAdded notes.old (assignment_noted notes.old.next (assigned (names_at (memory_of state.old.store) state.old.scope symbols.now.constants) (expr_tree left.now) (expr_tree right.now) (memory_of state.old.store).cells)) notes.new }
{
    match assign(symbols, state, left, right, notes) {
        Ok(()) => return Ok(Flow::Going),
        Err(fault) => return Err(RunError::Fault {
            fault,
            statement: number,
        }),
    }
}

/// Stores the value of the right side in the cell of the left side; notes are made of what is read, and of the write.
///
/// # Errors
///
/// The first fault.
pub fn assign(
    symbols: &Symbols,
    state: &mut State,
    left: &Expr,
    right: &Expr,
    notes: &mut Notes,
) -> Result<(), RunFault>
    requires right { target_is_right (kinds_by symbols.now) (expr_tree left.now) ≡ true }
    requires ready { IsReady symbols.now state.old.scope (memory_of state.old.store) }
    ensures ok { OnOk result ((w : Stored) × ((assigned (names_at (memory_of state.old.store) state.old.scope symbols.now.constants) (expr_tree left.now) (expr_tree right.now) (memory_of state.old.store).cells).result ≡ Ok w)
        × (memory_of state.new.store ≡ with_content w.cell (Number w.number) (memory_of state.old.store))) }
    ensures err { IfErr result (λ n. (assigned (names_at (memory_of state.old.store) state.old.scope symbols.now.constants) (expr_tree left.now) (expr_tree right.now) (memory_of state.old.store).cells).result ≡ Err n) }
    ensures scope { state.new.scope ≡ state.old.scope }
    ensures noted { HasAdded notes.old (assignment_noted notes.old.next (assigned (names_at (memory_of state.old.store) state.old.scope symbols.now.constants) (expr_tree left.now) (expr_tree right.now) (memory_of state.old.store).cells)) notes.new }
{
    match unnoted_scalar(left, &state.scope, notes) {
        Some(name) => return assign_scalar(symbols, state, name, right, notes),
        None => return assign_other(symbols, state, left, right, notes),
    }
}

/// The scalar that a left side is, where it stands for its own cell and no notes are kept.
fn unnoted_scalar<'a>(left: &'a Expr, scope: &Scope, notes: &Notes) -> Option<&'a Name>
    ensures { IfSome result (λ x. (expr_tree left.now ≡ Var x.now) × (cell_of scope.now x.now ≡ Scalar x.now) × (notes.now.kept ≡ false)) }
{
    if notes.kept {
        return None;
    }
    match left {
        Expr::Var(name) => return own_scalar(name, scope),
        Expr::Int(_)
        | Expr::Element(_, _)
        | Expr::Neg(_)
        | Expr::Add(_, _)
        | Expr::Sub(_, _)
        | Expr::Mul(_, _)
        | Expr::Div(_, _)
        | Expr::Pow(_, _)
        | Expr::Call(_, _) => return None,
    }
}

/// The scalar, where it stands for its own cell.
fn own_scalar<'a>(name: &'a Name, scope: &Scope) -> Option<&'a Name>
    ensures { IfSome result (λ x. (x.now ≡ name.now) × (cell_of scope.now name.now ≡ Scalar name.now)) }
{
    if scope.has_copy(name) {
        return None;
    }
    Some(name)
}

/// Stores the value of the right side in a scalar that stands for its own cell. No notes are kept.
fn assign_scalar(
    symbols: &Symbols,
    state: &mut State,
    name: &Name,
    right: &Expr,
    notes: &mut Notes,
) -> Result<(), RunFault>
    requires right { target_is_right (kinds_by symbols.now) (Var name.now) ≡ true }
    requires own { cell_of state.old.scope name.now ≡ Scalar name.now }
    requires kept { notes.old.kept ≡ false }
    requires ready { IsReady symbols.now state.old.scope (memory_of state.old.store) }
    ensures ok { OnOk result ((w : Stored) × ((assigned (names_at (memory_of state.old.store) state.old.scope symbols.now.constants) (Var name.now) (expr_tree right.now) (memory_of state.old.store).cells).result ≡ Ok w)
        × (memory_of state.new.store ≡ with_content w.cell (Number w.number) (memory_of state.old.store))) }
    ensures err { IfErr result (λ n. (assigned (names_at (memory_of state.old.store) state.old.scope symbols.now.constants) (Var name.now) (expr_tree right.now) (memory_of state.old.store).cells).result ≡ Err n) }
    ensures scope { state.new.scope ≡ state.old.scope }
    ensures noted { HasAdded notes.old (assignment_noted notes.old.next (assigned (names_at (memory_of state.old.store) state.old.scope symbols.now.constants) (Var name.now) (expr_tree right.now) (memory_of state.old.store).cells)) notes.new }
{
    let around = Surroundings {
        store: &state.store,
        scope: &state.scope,
        consts: symbols.consts(),
    };
    match unnoted_value(right, &around, notes) {
        Ok(value) => return state.store.set_scalar(name, &value),
        Err(fault) => return Err(fault),
    }
}

/// Stores the value of the right side in the cell of the left side. The cell is made for kept notes alone, and for private
/// copies.
fn assign_other(
    symbols: &Symbols,
    state: &mut State,
    left: &Expr,
    right: &Expr,
    notes: &mut Notes,
) -> Result<(), RunFault>
    requires right { target_is_right (kinds_by symbols.now) (expr_tree left.now) ≡ true }
    requires ready { IsReady symbols.now state.old.scope (memory_of state.old.store) }
    ensures ok { OnOk result ((w : Stored) × ((assigned (names_at (memory_of state.old.store) state.old.scope symbols.now.constants) (expr_tree left.now) (expr_tree right.now) (memory_of state.old.store).cells).result ≡ Ok w)
        × (memory_of state.new.store ≡ with_content w.cell (Number w.number) (memory_of state.old.store))) }
    ensures err { IfErr result (λ n. (assigned (names_at (memory_of state.old.store) state.old.scope symbols.now.constants) (expr_tree left.now) (expr_tree right.now) (memory_of state.old.store).cells).result ≡ Err n) }
    ensures scope { state.new.scope ≡ state.old.scope }
    ensures noted { HasAdded notes.old (assignment_noted notes.old.next (assigned (names_at (memory_of state.old.store) state.old.scope symbols.now.constants) (expr_tree left.now) (expr_tree right.now) (memory_of state.old.store).cells)) notes.new }
{
    if notes.kept {
        return assign_cell(symbols, state, left, right, notes);
    }
    match left {
        Expr::Element(name, indices) => return assign_element(
            symbols, state, name, indices, right, notes,
        ),
        Expr::Int(_)
        | Expr::Var(_)
        | Expr::Neg(_)
        | Expr::Add(_, _)
        | Expr::Sub(_, _)
        | Expr::Mul(_, _)
        | Expr::Div(_, _)
        | Expr::Pow(_, _)
        | Expr::Call(_, _) => return assign_cell(symbols, state, left, right, notes),
    }
}

/// Stores the value of the right side in an element. No notes are kept. One subscript needs no room for seven.
fn assign_element(
    symbols: &Symbols,
    state: &mut State,
    name: &Name,
    indices: &[Expr],
    right: &Expr,
    notes: &mut Notes,
) -> Result<(), RunFault>
    requires right { target_is_right (kinds_by symbols.now) (Element name.now (pack_exprs (map expr_tree indices.now))) ≡ true }
    requires kept { notes.old.kept ≡ false }
    requires ready { IsReady symbols.now state.old.scope (memory_of state.old.store) }
    ensures ok { OnOk result ((w : Stored) × ((assigned (names_at (memory_of state.old.store) state.old.scope symbols.now.constants) (Element name.now (pack_exprs (map expr_tree indices.now))) (expr_tree right.now) (memory_of state.old.store).cells).result ≡ Ok w)
        × (memory_of state.new.store ≡ with_content w.cell (Number w.number) (memory_of state.old.store))) }
    ensures err { IfErr result (λ n. (assigned (names_at (memory_of state.old.store) state.old.scope symbols.now.constants) (Element name.now (pack_exprs (map expr_tree indices.now))) (expr_tree right.now) (memory_of state.old.store).cells).result ≡ Err n) }
    ensures scope { state.new.scope ≡ state.old.scope }
    ensures noted { HasAdded notes.old (assignment_noted notes.old.next (assigned (names_at (memory_of state.old.store) state.old.scope symbols.now.constants) (Element name.now (pack_exprs (map expr_tree indices.now))) (expr_tree right.now) (memory_of state.old.store).cells)) notes.new }
{
    let [index] = indices else {
        return assign_by_more(symbols, state, name, indices, right, notes);
    };
    let around = Surroundings {
        store: &state.store,
        scope: &state.scope,
        consts: symbols.consts(),
    };
    match unnoted_value(right, &around, notes) {
        Ok(value) => match whole_value(index, &around, notes) {
            Ok(place) => return state.store.set_element(name, &[place], &value),
            Err(fault) => return Err(fault),
        },
        Err(fault) => return Err(fault),
    }
}

/// Stores the value of the right side in an element that hasn't one subscript. No notes are kept.
#[inline(never)]
fn assign_by_more(
    symbols: &Symbols,
    state: &mut State,
    name: &Name,
    indices: &[Expr],
    right: &Expr,
    notes: &mut Notes,
) -> Result<(), RunFault>
    requires right { target_is_right (kinds_by symbols.now) (Element name.now (pack_exprs (map expr_tree indices.now))) ≡ true }
    requires kept { notes.old.kept ≡ false }
    requires ready { IsReady symbols.now state.old.scope (memory_of state.old.store) }
    ensures ok { OnOk result ((w : Stored) × ((assigned (names_at (memory_of state.old.store) state.old.scope symbols.now.constants) (Element name.now (pack_exprs (map expr_tree indices.now))) (expr_tree right.now) (memory_of state.old.store).cells).result ≡ Ok w)
        × (memory_of state.new.store ≡ with_content w.cell (Number w.number) (memory_of state.old.store))) }
    ensures err { IfErr result (λ n. (assigned (names_at (memory_of state.old.store) state.old.scope symbols.now.constants) (Element name.now (pack_exprs (map expr_tree indices.now))) (expr_tree right.now) (memory_of state.old.store).cells).result ≡ Err n) }
    ensures scope { state.new.scope ≡ state.old.scope }
    ensures noted { HasAdded notes.old (assignment_noted notes.old.next (assigned (names_at (memory_of state.old.store) state.old.scope symbols.now.constants) (Element name.now (pack_exprs (map expr_tree indices.now))) (expr_tree right.now) (memory_of state.old.store).cells)) notes.new }
{
    let around = Surroundings {
        store: &state.store,
        scope: &state.scope,
        consts: symbols.consts(),
    };
    match unnoted_value(right, &around, notes) {
        Ok(value) => match ranked_places(indices, &around, notes) {
            Ok(places) => return state
                .store
                .set_element(name, first_places(&places, indices.len()), &value),
            Err(fault) => return Err(fault),
        },
        Err(fault) => return Err(fault),
    }
}

/// Stores the value of the right side in the cell of the left side; notes are made of what is read, and of the write.
#[inline(never)]
fn assign_cell(
    symbols: &Symbols,
    state: &mut State,
    left: &Expr,
    right: &Expr,
    notes: &mut Notes,
) -> Result<(), RunFault>
    requires right { target_is_right (kinds_by symbols.now) (expr_tree left.now) ≡ true }
    requires ready { IsReady symbols.now state.old.scope (memory_of state.old.store) }
    ensures ok { OnOk result ((w : Stored) × ((assigned (names_at (memory_of state.old.store) state.old.scope symbols.now.constants) (expr_tree left.now) (expr_tree right.now) (memory_of state.old.store).cells).result ≡ Ok w)
        × (memory_of state.new.store ≡ with_content w.cell (Number w.number) (memory_of state.old.store))) }
    ensures err { IfErr result (λ n. (assigned (names_at (memory_of state.old.store) state.old.scope symbols.now.constants) (expr_tree left.now) (expr_tree right.now) (memory_of state.old.store).cells).result ≡ Err n) }
    ensures scope { state.new.scope ≡ state.old.scope }
    ensures noted { HasAdded notes.old (assignment_noted notes.old.next (assigned (names_at (memory_of state.old.store) state.old.scope symbols.now.constants) (expr_tree left.now) (expr_tree right.now) (memory_of state.old.store).cells)) notes.new }
{
    let around = Surroundings {
        store: &state.store,
        scope: &state.scope,
        consts: symbols.consts(),
    };
    match value_of(right, &around, notes) {
        Ok(value) => match target_cell(left, &around, notes) {
            Ok(cell) => match state.store.set(&cell, value) {
                Ok(()) => {
                    notes.refer(&cell, true);
                    return Ok(());
                }
                Err(fault) => return Err(fault),
            },
            Err(fault) => return Err(fault),
        },
        Err(fault) => return Err(fault),
    }
}

/// Runs the DO with this number (ANSI X3.9-1978, section 11.10).
#[cycle(run)]
fn run_do<W: Watch>(
    alloc: Global,
    symbols: &Symbols,
    state: &mut State,
    watch: &mut W,
    d: &Do,
    number: u32,
) -> Result<Flow, RunError>
    requires can { CanDo symbols.now state.old.scope number (do_tree d.now) }
    requires ready { IsReady symbols.now state.old.scope (memory_of state.old.store) }
    ensures told { Ran state.old.scope number (memory_of state.old.store) (number + statement_count (do_tree d.now)) result (memory_of state.new.store)
        (Runs.run (setting_by symbols.now) (do_tree d.now) number state.old.scope) }
    ensures ready { StaysReady symbols.now result state.old.scope state.new.scope (memory_of state.new.store) }
    ensures watched { Watched W.follows watch.old watch.new state.old.scope (before state.old.scope number) (memory_of state.old.store).cells result
        (Runs.run (setting_by symbols.now) (do_tree d.now) number state.old.scope) }
{
    match plan_of(alloc, symbols, state, watch, d, number) {
        Ok(plan) => return run_turns(alloc, symbols, state, watch, d, &plan),
        Err(error) => return Err(error),
    }
}

/// Runs the iterations of a DO that has been entered, and leaves it.
#[cycle(run)]
fn run_turns<W: Watch>(
    alloc: Global,
    symbols: &Symbols,
    state: &mut State,
    watch: &mut W,
    d: &Do,
    plan: &Plan,
) -> Result<Flow, RunError>
    requires can { CanDo symbols.now state.old.scope plan.now.number (do_tree d.now) }
    requires ready { IsReady symbols.now state.old.scope (memory_of state.old.store) }
    requires plan { IsPlan (head_of d.now) (stmt_trees d.now.body.items) plan.now }
    ensures told { (behind : ℕ) → TellsFrom state.old.scope (before state.old.scope plan.now.number) (memory_of state.old.store).cells (before state.old.scope (plan.now.number + statement_count (do_tree d.now))) result (memory_of state.new.store).cells
        (turns_end plan.now.count 1 (entered_by (head_of d.now) plan.now behind) state.old.scope (body_run (setting_by symbols.now) (stmt_trees d.now.body.items) plan.now.number state.old.scope)) }
    ensures ready { StaysReady symbols.now result state.old.scope state.new.scope (memory_of state.new.store) }
    ensures watched { Watched W.follows watch.old watch.new state.old.scope (before state.old.scope plan.now.number) (memory_of state.old.store).cells result
        (turns_run plan.now.count 1 (entered_by (head_of d.now) plan.now plan.now.behind) state.old.scope (place_by plan.now.number state.old.scope) (body_run (setting_by symbols.now) (stmt_trees d.now.body.items) plan.now.number state.old.scope)) }
{
    enter_loop(alloc, state, d, plan)?;
    for earlier in 0..plan.count {
        match run_turn(alloc, symbols, state, watch, d, plan, earlier) {
            Ok(Flow::Going) => {}
            Ok(Flow::Stopped) => return Ok(Flow::Stopped),
            Err(error) => return Err(error),
        }
    }
    leave_loop(state, d, plan);
    tell_exit(alloc, &state.scope, watch, d, plan)?;
    Ok(Flow::Going)
}

/// Runs the iteration of a DO before which there are this many.
#[cycle(run)]
fn run_turn<W: Watch>(
    alloc: Global,
    symbols: &Symbols,
    state: &mut State,
    watch: &mut W,
    d: &Do,
    plan: &Plan,
    earlier: u64,
) -> Result<Flow, RunError>
    requires can { CanDo symbols.now (outside state.old.scope) plan.now.number (do_tree d.now) }
    requires ready { IsReady symbols.now (outside state.old.scope) (memory_of state.old.store) }
    requires plan { IsPlan (head_of d.now) (stmt_trees d.now.body.items) plan.now }
    requires earlier { earlier < plan.now.count }
    requires inside { state.old.scope ≡ frame (entered_by (head_of d.now) plan.now 0) earlier ∷ outside state.old.scope }
    ensures told { TellsFrom (outside state.old.scope) (before_turn (outside state.old.scope) plan.now.number (earlier + 1)) (memory_of state.old.store).cells (before_turn (outside state.old.scope) plan.now.number (earlier + 2)) result (memory_of state.new.store).cells
        (λ s. (body_run (setting_by symbols.now) (stmt_trees d.now.body.items) plan.now.number (outside state.old.scope) (frame (entered_by (head_of d.now) plan.now 0) (earlier + 1)) s).ending) }
    ensures ready { OnGoing result ((state.new.scope ≡ frame (entered_by (head_of d.now) plan.now 0) (earlier + 1) ∷ outside state.old.scope) × IsReady symbols.now (outside state.old.scope) (memory_of state.new.store)) }
    ensures bounds { OnStopped result ((memory_of state.new.store).bounds ≡ (setting_by symbols.now).bounds) }
    ensures watched { Watched W.follows watch.old watch.new (outside state.old.scope) (before_turn (outside state.old.scope) plan.now.number (earlier + 1)) (memory_of state.old.store).cells result
        (body_run (setting_by symbols.now) (stmt_trees d.now.body.items) plan.now.number (outside state.old.scope) (frame (entered_by (head_of d.now) plan.now 0) (earlier + 1))) }
{
    open_turn(alloc, state, d, plan, earlier)?;
    match run_part(alloc, symbols, state, watch, &d.body, plan.number + 1) {
        Ok(Flow::Going) => {
            close_copies(state, plan.copied.as_slice());
            return Ok(Flow::Going);
        }
        Ok(Flow::Stopped) => return Ok(Flow::Stopped),
        Err(error) => return Err(error),
    }
}
