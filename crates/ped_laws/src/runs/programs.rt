//! Whole programs: their runs, and what they show at the end.

ghost use Rattle.std.specs.Prelude.{◌≡◌, ℕ, List, []};
ghost use Rattle.std.specs.Str.Lines.{lines};
ghost use Rattle.ped_flow.specs.ped_tree.specs.Tree.{ProgramTree};
ghost use Rattle.ped_eval.specs.ped_store.specs.Stores.{Store, store_at_start};
ghost use Rattle.ped_eval.specs.ped_store.specs.Acts.{Act};
ghost use Rattle.ped_laws.specs.Acts.Fitting.{Fits, store_after};
ghost use Rattle.ped_laws.specs.Acts.Sets.{AgreeIn};
ghost use Rattle.ped_eval.specs.Runs.{run_all};
ghost use Rattle.ped_eval.specs.Outcomes.{setting_of, run_of, outcome_of, outcome};
ghost use Rattle.ped_laws.specs.Runs.Replaying.{Finish, ending_with, Replays};
ghost use Rattle.ped_laws.specs.Runs.Showing.{shown_at_end};

/// The acts of a program fit the store at its start; and a list of acts that fits there and that the program replays is
/// its run. For a new program, whose list is made of the old one.
pub fn program_runs()
    ensures fits { (t : ProgramTree) (data_bytes : List ℕ) → Fits (run_of t data_bytes).acts (store_at_start (lines data_bytes)) }
    ensures run { (t : ProgramTree) (data_bytes : List ℕ) (acts : List Act) (finish : Finish) → Replays (run_all (setting_of t) t.body 1 []) acts finish → Fits acts (store_at_start (lines data_bytes)) → run_of t data_bytes ≡ record { acts = acts; ending = ending_with finish (store_after acts (store_at_start (lines data_bytes))) } }
    ensures outcome { (t : ProgramTree) (data_bytes : List ℕ) (acts : List Act) (finish : Finish) → Replays (run_all (setting_of t) t.body 1 []) acts finish → Fits acts (store_at_start (lines data_bytes)) → outcome t data_bytes ≡ outcome_of t (ending_with finish (store_after acts (store_at_start (lines data_bytes)))) }
{}

/// Stores that agree on what is shown at the end give one outcome. For cells that a step leaves in another state.
pub fn same_outcome()
    ensures { (t : ProgramTree) (u v : Store) (finish : Finish) → AgreeIn (shown_at_end t) u v → outcome_of t (ending_with finish u) ≡ outcome_of t (ending_with finish v) }
{}
