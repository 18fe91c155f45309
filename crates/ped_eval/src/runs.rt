//! Runs of programs in order.

ghost use Rattle.std.specs.Prelude.{◌≡◌, [], IfOk, OnOk};
ghost use Rattle.std.specs.Str.Lines.{lines};
ghost use Rattle.ped_tree.specs.Tree.{ProgramTree};
ghost use Rattle.ped_store.specs.Cells.{Out};
ghost use Rattle.ped_store.specs.Stores.{lines_in};
ghost use Rattle.ped_store.specs.Memories.{memory_at_start};
ghost use Rattle.ped_store.specs.Keeping.{memory_of};
ghost use Rattle.ped_tree.specs.Views.{program_tree};
ghost use Rattle.ped_symbols.specs.Kinds.{table_of};
ghost use Rattle.ped_symbols.specs.NameRefusals.{IsValid};
ghost use Rattle.ped_eval.specs.Outcomes.{outcome, live_names, run_of};
ghost use Rattle.ped_store.specs.Races.{accesses};
ghost use Rattle.ped_eval.specs.Follow.{Follow};
ghost use Rattle.ped_eval.specs.Outcomes as Outcomes;
ghost use Rattle.ped_eval.specs.Live.{rows_in, shapes_by};
ghost use Rattle.ped_eval.specs.Endings.{IsOutcomeBy};
ghost use Rattle.ped_eval.specs.OutcomeViews.{outcome_view};

use crate::live::{copy_lines, live_rows};
use crate::outcomes::Outcome;
use crate::scopes::Scope;
use crate::shapes::shapes_of;
use crate::statements::run_all;
use crate::states::{Flow, RunError, State};
use crate::watches::{NoWatch, Watch};
use ped_base::NoMemory;
use ped_store::Store;
use ped_symbols::Symbols;
use ped_symbols::right_uses::right_where_valid;
use ped_tree::Program;
use std::alloc::Global;

/// Runs a valid program, whose names these are, on the lines of its data. The iterations of a PARALLEL DO run in
/// order. The outcome has the lines that are printed and what the live-out variables hold, or the number of the fault
/// and the statement that met it.
///
/// # Errors
///
/// Want of memory alone; a fault of the program is an outcome.
pub fn run_in_order(
    alloc: Global,
    program: &Program,
    symbols: &Symbols,
    input: &[u8],
) -> Result<Outcome, NoMemory>
    requires valid { IsValid (program_tree program.now) }
    requires symbols { symbols.now ≡ table_of (program_tree program.now) }
    ensures { IfOk result (λ o. outcome_view o ≡ outcome (program_tree program.now) input.now) }
{
    run_watched(alloc, program, symbols, input, &mut NoWatch)
}

/// Runs a valid program as `run_in_order` does, and gives a watch its accesses in order, those of a statement that
/// faults too. The states of the watch follow one another by what each access may make of it (this project). Of an
/// outcome that wants memory nothing is said of the watch.
///
/// # Errors
///
/// Want of memory, also the watch's.
pub fn run_watched<W: Watch>(
    alloc: Global,
    program: &Program,
    symbols: &Symbols,
    input: &[u8],
    watch: &mut W,
) -> Result<Outcome, NoMemory>
    requires valid { IsValid (program_tree program.now) }
    requires symbols { symbols.now ≡ table_of (program_tree program.now) }
    ensures outcome { IfOk result (λ o. outcome_view o ≡ outcome (program_tree program.now) input.now) }
    ensures watch { OnOk result (Follow W.follows watch.old (accesses (run_of (program_tree program.now) input.now).acts) watch.new) }
{
    right_where_valid();
    let mut state = start(alloc, symbols, input)?;
    let answer = run_all(alloc, symbols, &mut state, watch, &program.body, 1);
    finished(alloc, program, &state.store, answer)
}

/// The outcome of a program whose run has answered so.
fn finished(
    alloc: Global,
    program: &Program,
    store: &Store,
    answer: Result<Flow, RunError>,
) -> Result<Outcome, NoMemory>
    ensures { IfOk result (λ o. IsOutcomeBy (program_tree program.now) (memory_of store.now) answer (outcome_view o)) }
{
    match &answer {
        Ok(_) => return ended(alloc, program, store),
        Err(RunError::Fault { fault, statement }) => return Ok(Outcome::Fault {
            fault: *fault,
            statement: *statement,
        }),
        Err(RunError::NoMemory) => return Err(NoMemory),
    }
}

/// What a run keeps before the first statement.
///
/// # Errors
///
/// Want of memory.
pub fn start(alloc: Global, symbols: &Symbols, input: &[u8]) -> Result<State, NoMemory>
    ensures memory { IfOk result (λ state. memory_of state.store ≡ memory_at_start (shapes_by symbols.now.kinds) (lines input.now)) }
    ensures scope { IfOk result (λ state. state.scope ≡ []) }
{
    let shapes = shapes_of(alloc, symbols)?;
    Ok(State {
        store: Store::new(alloc, &shapes, input)?,
        scope: Scope::new(alloc),
    })
}

/// The outcome of a program that has ended without a fault.
///
/// # Errors
///
/// Want of memory.
pub fn ended(alloc: Global, program: &Program, store: &Store) -> Result<Outcome, NoMemory>
    ensures { IfOk result (λ o. outcome_view o ≡ Outcomes.Ended (lines_in ((memory_of store.now).cells Out)) (rows_in (memory_of store.now) (live_names (program_tree program.now)))) }
{
    let output = copy_lines(alloc, store.output().as_slice())?;
    let live = live_rows(alloc, program, store)?;
    Ok(Outcome::Ended { output, live })
}
