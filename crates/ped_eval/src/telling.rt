//! What a watch learns of statements.

ghost use Rattle.std.specs.Prelude.{◌≡◌, List, map, true, OnOk, IfOk};
ghost use Rattle.ped_tree.specs.Views.{cond_tree, stmt_trees};
ghost use Rattle.ped_store.specs.Keeping.{memory_of};
ghost use Rattle.ped_eval.specs.ScopeViews.{names_at};
ghost use Rattle.ped_eval.specs.Values as Values;
ghost use Rattle.ped_eval.specs.Loops as Loops;
ghost use Rattle.ped_eval.specs.Plans.{entered_by};
ghost use Rattle.ped_tree.specs.Views.{head_of};
ghost use Rattle.ped_eval.specs.Follow.{Follow};
ghost use Rattle.ped_eval.specs.Noting as Noting;
ghost use Rattle.ped_eval.specs.Noting.{noted, noted_by, noted_view, accesses_by, AreNoted};
ghost use Rattle.ped_eval.specs.StatementNotes.{reads_noted};
ghost use Rattle.ped_eval.specs.Watched.{IsWatchedTruth};

use crate::accesses::Access;
use crate::evaluation::truth_of;
use crate::exit_notes::exit_notes;
use crate::notes::{Noted, Notes};
use crate::plans::Plan;
use crate::scopes::Scope;
use crate::states::{RunError, State};
use crate::surroundings::Surroundings;
use crate::watches::Watch;
use ped_base::NoMemory;
use ped_store::Cell;
use ped_symbols::Symbols;
use ped_tree::{Cond, Do};
use std::alloc::Global;

/// Tells a watch the accesses of the statement with this number, unless the watch keeps nothing. Where there was no memory
/// for one of them, there is none to give them.
pub(crate) fn tell<W: Watch>(
    alloc: Global,
    watch: &mut W,
    scope: &Scope,
    statement: u32,
    notes: &Notes,
) -> Result<(), NoMemory>
    ensures { OnOk result ((ns : List Noting.Noted) → AreNoted notes.now ns → Follow W.follows watch.old (accesses_by statement scope.now ns) watch.new) }
{
    if watch.keeps_nothing() {
        return Ok(());
    }
    if !notes.kept {
        return Err(NoMemory);
    }
    tell_each(alloc, watch, scope, statement, &notes.touches)
}

/// Tells a watch accesses of the statement with this number.
fn tell_each<W: Watch>(
    alloc: Global,
    watch: &mut W,
    scope: &Scope,
    statement: u32,
    touches: &[Noted],
) -> Result<(), NoMemory>
    ensures { OnOk result (Follow W.follows watch.old (accesses_by statement scope.now (map noted_view touches.now)) watch.new) }
{
    let mut access = Access {
        cell: Cell::In,
        writes: false,
        statement,
        reference: 0,
        path: scope.path(alloc)?,
    };
    for touch in touches {
        access.cell = touch.cell;
        access.writes = touch.writes;
        access.reference = touch.reference;
        watch.access(&access)?;
    }
    Ok(())
}

/// Gives a watch what the bounds of a DO read, and returns the number after the references in them.
pub(crate) fn tell_bounds<W: Watch>(
    alloc: Global,
    watch: &mut W,
    scope: &Scope,
    statement: u32,
    notes: &Notes,
) -> Result<u32, NoMemory>
    ensures kept { OnOk result (notes.now.kept ≡ true) }
    ensures next { IfOk result (λ n. n ≡ notes.now.next) }
    ensures told { OnOk result (Follow W.follows watch.old (accesses_by statement scope.now (noted_by notes.now)) watch.new) }
{
    if !notes.kept {
        return Err(NoMemory);
    }
    tell(alloc, watch, scope, statement, notes)?;
    Ok(notes.next)
}

/// The truth of the condition of the statement with this number; a watch gets what it reads.
pub(crate) fn watched_truth<W: Watch>(
    alloc: Global,
    symbols: &Symbols,
    state: &State,
    watch: &mut W,
    condition: &Cond,
    number: u32,
) -> Result<bool, RunError>
    ensures { IsWatchedTruth (Values.truth (names_at (memory_of state.now.store) state.now.scope symbols.now.constants) (cond_tree condition.now) (memory_of state.now.store).cells) number result
        (Follow W.follows watch.old (accesses_by number state.now.scope (reads_noted (Values.truth (names_at (memory_of state.now.store) state.now.scope symbols.now.constants) (cond_tree condition.now) (memory_of state.now.store).cells).seen)) watch.new) }
{
    let around = Surroundings {
        store: &state.store,
        scope: &state.scope,
        consts: symbols.consts(),
    };
    let mut notes = Notes::of_statement(alloc, watch);
    let truth = truth_of(condition, &around, &mut notes);
    tell(alloc, watch, &state.scope, number, &notes)?;
    match truth {
        Ok(holds) => return Ok(holds),
        Err(fault) => return Err(RunError::Fault {
            fault,
            statement: number,
        }),
    }
}

/// Tells a watch what the exit of a DO writes.
pub(crate) fn tell_exit<W: Watch>(
    alloc: Global,
    scope: &Scope,
    watch: &mut W,
    d: &Do,
    plan: &Plan,
) -> Result<(), NoMemory>
    ensures { OnOk result (Follow W.follows watch.old (accesses_by plan.now.number scope.now (noted (Loops.exit_touches (entered_by (head_of d.now) plan.now plan.now.behind) scope.now))) watch.new) }
{
    if watch.keeps_nothing() {
        return Ok(());
    }
    let notes = exit_notes(alloc, scope, d, plan);
    tell(alloc, watch, scope, plan.number, &notes)
}
