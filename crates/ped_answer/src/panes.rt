//! Both panes of a program.

ghost use Rattle.std.specs.Prelude.{◌≡◌, ◌+◌, ◌≤◌, IfOk, OnOk};
ghost use Rattle.ped_tree.specs.Views.{program_tree};
ghost use Rattle.ped_session.specs.ped_symbols.specs.NameRefusals.{IsValid};
ghost use Rattle.ped_session.specs.ped_symbols.specs.Kinds.{table_of};
ghost use Rattle.ped_session.specs.ped_refs.specs.References.{references, pair_count};
ghost use Rattle.ped_session.specs.Panes.{ArePanes};

use ped_base::{Bytes, NoMemory};
use ped_print::source_pane;
use ped_session::Graph;
use ped_tree::Program;
use ped_tree::constants::Consts;
use ped_verdict::Steps;
use std::alloc::Global;
use std::sync::ledger::Ledger;

/// The source pane of a valid program, whose named constants these are, and after it the dependence pane. Each
/// ordered pair of references is tested once.
pub fn panes<L: Ledger>(
    alloc: Global,
    program: &Program,
    consts: &Consts,
    steps: &mut Steps<L>,
) -> Result<Bytes, NoMemory>
    requires valid { IsValid (program_tree program.now) }
    requires constants { consts.now ≡ (table_of (program_tree program.now)).constants }
    ensures panes { IfOk result (ArePanes (program_tree program.now)) }
    ensures ticks { OnOk result (steps.new ≡ steps.old + pair_count (references (program_tree program.now))) }
    ensures least { steps.old ≤ steps.new }
    ensures most { steps.new ≤ steps.old + pair_count (references (program_tree program.now)) }
{
    let mut panes = source_pane(alloc, program)?;
    let graph = Graph::build(alloc, program, consts, steps)?;
    let dependences = graph.dependence_pane(alloc, None)?;
    panes.extend_from_slice(dependences.as_slice())?;
    Ok(panes)
}
