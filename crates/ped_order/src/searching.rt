//! Races of a program on its data.

ghost use Rattle.std.specs.Prelude.{◌≡◌, List, IfOk};
ghost use Rattle.ped_tree.specs.Views.{program_tree};
ghost use Rattle.ped_laws.specs.ped_graph.specs.ped_symbols.specs.Kinds.{table_of};
ghost use Rattle.ped_laws.specs.ped_graph.specs.ped_symbols.specs.NameRefusals.{IsValid};
ghost use Rattle.ped_laws.specs.ped_edges.specs.Edges.{Edge};
ghost use Rattle.ped_laws.specs.ped_graph.specs.Dependences.{AreEdges};
ghost use Rattle.ped_laws.specs.ped_eval.specs.OutcomeViews.{outcome_view};
ghost use Rattle.ped_order.specs.Reports.{IsReport};
ghost use Rattle.ped_order.specs.ReportViews.{report_view, report_of};
ghost use Rattle.ped_order.specs.CarriedRaces.{IsCarried};

use crate::reports::RaceReport;
use crate::watches::{FoundRace, RaceWatch};
use ped_base::NoMemory;
use ped_eval::{Outcome, Symbols, run_watched};
use ped_laws::conflicts::races_are_covered;
use ped_tree::Program;
use std::alloc::Global;

/// Looks for a race of a valid program, whose names these are, on the lines of its data, with the iterations of
/// PARALLEL DOs in order (Allen and Kennedy, section 2.2.1; this project). Where it reports a race, a PARALLEL DO
/// carries a dependence of the program from the statement of the earlier access to that of the later (Allen and
/// Kennedy, section 2.2.5). It reports that there is no race exactly where the program runs without a fault and
/// without a race; else the first access that races with an earlier one, with the earliest such, their cell
/// and both statements, or the fault that comes before any race.
///
/// # Errors
///
/// Only running out of memory; a fault of the program is a report.
pub fn races(
    alloc: Global,
    program: &Program,
    symbols: &Symbols,
    input: &[u8],
) -> Result<RaceReport, NoMemory>
    requires valid { IsValid (program_tree program.now) }
    requires symbols { symbols.now ≡ table_of (program_tree program.now) }
    ensures report { IfOk result (λ report. IsReport (program_tree program.now) input.now (report_view report)) }
    ensures carried { (edges : List Edge) → AreEdges (program_tree program.now) edges → IfOk result (λ report. IsCarried (program_tree program.now) edges (report_view report)) }
{
    races_are_covered();
    let mut watch = RaceWatch::new(alloc);
    let outcome = run_watched(alloc, program, symbols, input, &mut watch)?;
    Ok(report(&watch.found, &outcome))
}

/// The report of a run that has ended so.
fn report(found: &Option<FoundRace>, outcome: &Outcome) -> RaceReport
    ensures { report_view result ≡ report_of found.now (outcome_view outcome.now) }
{
    match found {
        Some(race) => return RaceReport::Race {
            cell: race.cell,
            first: race.first,
            second: race.second,
        },
        None => match outcome {
            Outcome::Ended { output: _, live: _ } => return RaceReport::NoRace,
            Outcome::Fault { fault, statement } => return RaceReport::Fault {
                fault: *fault,
                statement: *statement,
            },
        },
    }
}
