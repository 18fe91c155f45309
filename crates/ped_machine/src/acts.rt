//! Statements of one act, and the conditions of IF statements.

ghost use Rattle.std.specs.Prelude.{◌≡◌, ◌<◌, ◌+◌, ◌^◌, ◌∷◌, map, false, None, IfOk, OnOk, OnErr, Ok};
ghost use Rattle.ped_tree.specs.Tree.{Assign, Print, Read};
ghost use Rattle.ped_tree.specs.Views.{expr_tree, cond_tree, item_tree, stmt_tree, stmt_trees};
ghost use Rattle.ped_store.specs.Keeping.{memory_of};
ghost use Rattle.ped_interleavings.specs.ped_eval.specs.ScopeViews.{names_at};
ghost use Rattle.ped_interleavings.specs.ped_eval.specs.Values.{truth};
ghost use Rattle.ped_interleavings.specs.ped_eval.specs.Readiness.{setting_by, IsReady, CanDo};
ghost use Rattle.ped_interleavings.specs.Lefts.{Left};
ghost use Rattle.ped_interleavings.specs.Steps.{begun};
ghost use Rattle.ped_machine.specs.Doing.{IsActed, IsDone, IfGoing, IfOpen, IfSafe, HasGrown, HasRoom};
ghost use Rattle.ped_machine.specs.declared.steps.Done.TheVariants as done;
ghost use Rattle.ped_machine.specs.Parts.{base_of, CanGo, is_comment, is_loop, parts_left, parts_of};

use crate::parts::{Part, Parts};
use crate::steps::Done;
use ped_base::NoMemory;
use ped_eval::{Notes, PrintError, State, Surroundings, assign, line_of, take_items, truth_of};
use ped_store::RunFault;
use ped_symbols::Symbols;
use ped_tree::{Cond, Expr, PrintItem, Stmt, count_statements};
use std::alloc::Global;

/// Begins a statement other than a DO, where the parts are the rest after it.
pub(crate) fn begin<'a>(
    alloc: Global,
    symbols: &Symbols,
    state: &mut State,
    parts: &mut Parts<'a>,
    stmt: &'a Stmt,
    number: u32,
) -> Result<Done, NoMemory>
    requires can { CanDo symbols.now state.old.scope number (stmt_tree stmt.now) }
    requires simple { is_loop (stmt_tree stmt.now) ≡ false }
    requires real { is_comment (stmt_tree stmt.now) ≡ false }
    requires ready { IsReady symbols.now state.old.scope (memory_of state.old.store) }
    requires go { CanGo symbols.now (parts_of parts.old) state.old.scope }
    ensures does { IfOk result (λ d. (l : Left) → IsDone (begun (setting_by symbols.now) (stmt_tree stmt.now) number state.old.scope (parts_left (parts_of parts.old) state.old.scope) (memory_of state.old.store).cells)
        l (memory_of state.old.store).cells d (parts_left (parts_of parts.new) state.old.scope) (memory_of state.new.store).cells) }
    ensures kept { OnErr result (((parts_of parts.new) ≡ (parts_of parts.old)) × HasRoom (memory_of state.old.store) (memory_of state.new.store)) }
    ensures go { IfOpen result (CanGo symbols.now (parts_of parts.new) state.old.scope) }
    ensures base { IfSafe result (base_of (parts_of parts.new) state.old.scope ≡ base_of (parts_of parts.old) state.old.scope) }
    ensures grown { IfSafe result (HasGrown (memory_of state.old.store) (memory_of state.new.store)) }
    ensures scope { state.new.scope ≡ state.old.scope }
{
    match stmt {
        Stmt::Assign { left, right } => {
            return Ok(do_assignment(alloc, symbols, state, left, right, number));
        }
        Stmt::If {
            condition,
            then_part,
            else_part,
        } => match do_condition(alloc, symbols, state, condition) {
            Ok(true) => return push_block(parts, then_part, number + 1),
            Ok(false) => {
                let behind = number + 1 + count_statements(then_part);
                return push_block(parts, else_part, behind);
            }
            Err(fault) => return Ok(Done::Fault {
                fault,
                statement: number,
            }),
        },
        Stmt::Print(items) => return do_print(alloc, symbols, state, items, number),
        Stmt::Read(items) => return Ok(do_read(alloc, symbols, state, items, number)),
        Stmt::Stop => return Ok(Done::Halted),
        Stmt::Do(_) | Stmt::Comment(_) => return Ok(Done::Ended),
    }
}

/// Puts statements before the rest.
fn push_block<'a>(parts: &mut Parts<'a>, stmts: &'a [Stmt], first: u32) -> Result<Done, NoMemory>
    ensures done { IfOk result (λ d. d ≡ done.Went) }
    ensures ok { OnOk result ((parts_of parts.new) ≡ record { stmts = stmt_trees stmts.now; first = first; turn = None } ∷ (parts_of parts.old)) }
    ensures err { OnErr result ((parts_of parts.new) ≡ (parts_of parts.old)) }
{
    parts.push(Part {
        stmts,
        first,
        turn: None,
    })?;
    Ok(Done::Went)
}

/// Does an assignment (ANSI X3.9-1978, section 10.1).
fn do_assignment(
    alloc: Global,
    symbols: &Symbols,
    state: &mut State,
    left: &Expr,
    right: &Expr,
    number: u32,
) -> Done
    requires can { CanDo symbols.now state.old.scope number (Assign (expr_tree left.now) (expr_tree right.now)) }
    requires ready { IsReady symbols.now state.old.scope (memory_of state.old.store) }
    ensures does { IsActed symbols.now state.old.scope number (Assign (expr_tree left.now) (expr_tree right.now)) (memory_of state.old.store) result (memory_of state.new.store) }
    ensures grown { IfSafe {E = ⊥} (Ok result) (HasGrown (memory_of state.old.store) (memory_of state.new.store)) }
    ensures scope { state.new.scope ≡ state.old.scope }
{
    let mut notes = Notes::unkept(alloc);
    match assign(symbols, state, left, right, &mut notes) {
        Ok(()) => return Done::Went,
        Err(fault) => return Done::Fault {
            fault,
            statement: number,
        },
    }
}

/// Does a PRINT (ANSI X3.9-1978, section 12.8).
fn do_print(
    alloc: Global,
    symbols: &Symbols,
    state: &mut State,
    items: &[PrintItem],
    number: u32,
) -> Result<Done, NoMemory>
    requires can { CanDo symbols.now state.old.scope number (Print (map item_tree items.now)) }
    requires ready { IsReady symbols.now state.old.scope (memory_of state.old.store) }
    ensures does { IfOk result (λ d. IsActed symbols.now state.old.scope number (Print (map item_tree items.now)) (memory_of state.old.store) d (memory_of state.new.store)) }
    ensures grown { IfSafe result (HasGrown (memory_of state.old.store) (memory_of state.new.store)) }
    ensures kept { OnErr result (state.new.store ≡ state.old.store) }
    ensures scope { state.new.scope ≡ state.old.scope }
{
    let mut notes = Notes::unkept(alloc);
    match line_of(alloc, symbols, state, items, &mut notes) {
        Ok(line) => {
            state.store.put_line(alloc, line.as_slice())?;
            return Ok(Done::Went);
        }
        Err(error) => match &error {
            PrintError::Fault(fault) => return Ok(Done::Fault {
                fault: *fault,
                statement: number,
            }),
            PrintError::NoMemory => return Err(NoMemory),
        },
    }
}

/// Does a READ (ANSI X3.9-1978, section 12.8).
fn do_read(alloc: Global, symbols: &Symbols, state: &mut State, items: &[Expr], number: u32) -> Done
    requires can { CanDo symbols.now state.old.scope number (Read (map expr_tree items.now)) }
    requires ready { IsReady symbols.now state.old.scope (memory_of state.old.store) }
    ensures does { IsActed symbols.now state.old.scope number (Read (map expr_tree items.now)) (memory_of state.old.store) result (memory_of state.new.store) }
    ensures grown { IfSafe {E = ⊥} (Ok result) (HasGrown (memory_of state.old.store) (memory_of state.new.store)) }
    ensures scope { state.new.scope ≡ state.old.scope }
{
    let mut notes = Notes::unkept(alloc);
    match take_items(symbols, state, items, &mut notes) {
        Ok(()) => return Done::Went,
        Err(fault) => return Done::Fault {
            fault,
            statement: number,
        },
    }
}

/// Whether a condition is true (ANSI X3.9-1978, section 6.4).
fn do_condition(
    alloc: Global,
    symbols: &Symbols,
    state: &State,
    condition: &Cond,
) -> Result<bool, RunFault>
    ensures { result ≡ (truth (names_at (memory_of state.now.store) state.now.scope symbols.now.constants) (cond_tree condition.now) (memory_of state.now.store).cells).result }
{
    let around = Surroundings {
        store: &state.store,
        scope: &state.scope,
        consts: symbols.consts(),
    };
    let mut notes = Notes::unkept(alloc);
    truth_of(condition, &around, &mut notes)
}
