//! Interleavings that have the outcome of the run in order.

ghost use Rattle.std.specs.Prelude.{◌≡◌, ℕ, List, []};
ghost use Rattle.ped_interleavings.specs.ped_tree.specs.Tree.{ProgramTree};
ghost use Rattle.ped_interleavings.specs.ped_eval.specs.Outcomes.{Outcome, outcome, IsRaceFree};
ghost use Rattle.ped_interleavings.specs.Interleavings.{IsInterleaved};
ghost use Rattle.ped_laws.specs.ped_graph.specs.ped_symbols.specs.NameRefusals.{IsValid};

use ped_interleavings::one_interleaving;
use ped_laws::acts::race_free_acts;
use ped_laws::flow_runs::no_stop_in_loops;
use ped_laws::runs::{lines_are_written, own_store, program_runs, told_by_acts};

/// Where a program of the profile runs in order without a fault and without a race, it has the outcome of that run with
/// every list of choices: the same output and the same values of the live-out variables, and no fault.
pub fn interleavings_agree()
    ensures { (t : ProgramTree) (data_bytes choices : List ℕ) (o : Outcome) → IsValid t → IsRaceFree t data_bytes → IsInterleaved t data_bytes choices o → o ≡ outcome t data_bytes }
{
    lines_are_written();
    no_stop_in_loops();
    one_interleaving();
    own_store();
    program_runs();
    race_free_acts();
    told_by_acts();
}

/// Without choices each program has on each data the outcome of its run in order, whatever it races or faults at.
pub fn without_choices()
    ensures { (t : ProgramTree) (data_bytes : List ℕ) (o : Outcome) → IsInterleaved t data_bytes [] o → o ≡ outcome t data_bytes }
{
    one_interleaving();
}
