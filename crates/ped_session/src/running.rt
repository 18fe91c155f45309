//! Runs of a session's programs.

ghost use Rattle.std.specs.Prelude.{◌≡◌, IfOk};
ghost use Rattle.ped_tree.specs.Views.{program_tree};
ghost use Rattle.ped_transformations.specs.ped_symbols.specs.Kinds.{table_of};
ghost use Rattle.ped_transformations.specs.ped_symbols.specs.NameRefusals.{IsValid};
ghost use Rattle.ped_eval.specs.OutcomeViews.{outcome_view};
ghost use Rattle.ped_order.specs.ped_interleavings.specs.Interleavings.{IsInterleaved};
ghost use Rattle.ped_transformations.specs.ped_reduce.specs.Reducing.{IsLowered};
ghost use Rattle.ped_transformations.specs.ped_reduce.specs.CodeLowered.{lowered_view};
ghost use Rattle.ped_versions.specs.Holding.{IsPresent};
ghost use Rattle.ped_session.specs.LoweredRuns as Spec;
ghost use Rattle.ped_session.specs.LoweredRuns.{IsLoweredRun};

use crate::listing::some_holds_list;
use ped_base::NoMemory;
use ped_eval::{Outcome, run_in_order};
use ped_machine::run_by_choices;
use ped_order::{an_interleaving, flow_of, without_choices};
use ped_transformations::{Lowered, Scene, lower};
use ped_tree::Program;
use ped_versions::{Present, Symbols};
use std::alloc::Global;
use std::sync::ledger::Ledger;

/// Runs what the present program is lowered to, on these data. The choices pick which iteration of an open
/// PARALLEL DO does the next step, and after their end 0 does. A fault is reported with the statement of the program
/// itself. Where no DO has a list of sums, the program runs as it is.
pub(crate) fn run_present<L: Ledger>(
    alloc: Global,
    present: &Present<'_, L>,
    input: &[u8],
    choices: &[u64],
) -> Result<Outcome, NoMemory>
    requires { IsPresent present.now }
    ensures { IfOk result (λ o. IsLoweredRun choices.now input.now (program_tree present.now.program.now) (outcome_view o)) }
{
    if some_holds_list(alloc, &present.program.body)? {
        let lowered = lower_present(alloc, present)?;
        return run_lowered(alloc, &lowered, input, choices);
    }
    run_program(alloc, present.program, present.symbols, input, choices)
}

/// What the present program is lowered to.
fn lower_present<L: Ledger>(alloc: Global, present: &Present<'_, L>) -> Result<Lowered, NoMemory>
    requires { IsPresent present.now }
    ensures lowered { IfOk result (λ l. IsLowered (program_tree present.now.program.now) (lowered_view l)) }
    ensures valid { IfOk result (λ l. IsValid (program_tree l.tree)) }
    ensures symbols { IfOk result (λ l. l.symbols ≡ table_of (program_tree l.tree)) }
{
    let flow = flow_of(alloc, present.program)?;
    let scene = Scene {
        tree: present.program,
        symbols: present.symbols,
        graph: present.graph,
        flow: &flow,
    };
    lower(alloc, &scene)
}

/// Runs what a program is lowered to, and reports the outcome of the program itself.
fn run_lowered(
    alloc: Global,
    lowered: &Lowered,
    input: &[u8],
    choices: &[u64],
) -> Result<Outcome, NoMemory>
    requires valid { IsValid (program_tree lowered.now.tree) }
    requires symbols { lowered.now.symbols ≡ table_of (program_tree lowered.now.tree) }
    ensures { IfOk result (λ o. Spec.TellsRun choices.now input.now (lowered_view lowered.now) (outcome_view o)) }
{
    let outcome = run_program(alloc, &lowered.tree, &lowered.symbols, input, choices)?;
    Ok(told_by(lowered, outcome))
}

/// An outcome of what a program is lowered to, as it is reported for the program itself.
fn told_by(lowered: &Lowered, outcome: Outcome) -> Outcome
    ensures { outcome_view result ≡ Spec.told_by (lowered_view lowered.now) (outcome_view outcome) }
{
    match outcome {
        Outcome::Ended { output, live } => Outcome::Ended { output, live },
        Outcome::Fault { fault, statement } => Outcome::Fault {
            fault,
            statement: origin_at(&lowered.origin, statement),
        },
    }
}

/// The number of the statement from which the one with this number comes, by these for all statements.
fn origin_at(origin: &[u32], number: u32) -> u32
    ensures { result ≡ Spec.origin_at origin.now number }
{
    if number == 0 {
        return 0;
    }
    match origin.get(number as usize - 1) {
        Some(own) => *own,
        None => number,
    }
}

/// Runs a valid program, whose names these are, as it is. Where there are no choices, a run in order serves.
fn run_program(
    alloc: Global,
    program: &Program,
    symbols: &Symbols,
    input: &[u8],
    choices: &[u64],
) -> Result<Outcome, NoMemory>
    requires valid { IsValid (program_tree program.now) }
    requires symbols { symbols.now ≡ table_of (program_tree program.now) }
    ensures { IfOk result (λ o. IsInterleaved (program_tree program.now) input.now choices.now (outcome_view o)) }
{
    an_interleaving();
    without_choices();
    if choices.is_empty() {
        return run_in_order(alloc, program, symbols, input);
    }
    run_by_choices(alloc, program, symbols, input, choices)
}
