//! Runs are bounded.

ghost use Rattle.std.specs.Prelude.{ℕ, ◌≤◌, List, length};
ghost use Rattle.ped_laws.specs.ped_flow.specs.ped_tree.specs.Tree.{ProgramTree};
ghost use Rattle.ped_laws.specs.ped_eval.specs.Outcomes.{setting_of, run_of};
ghost use Rattle.ped_rows.specs.Bounded.{all_steps_at_most};

/// A run of a program in order has at most as many steps as its text says. Each DO counts with as many iterations as
/// its constant bounds give, or else with as many as a DO may have. So a reader can compute a bound.
pub fn runs_are_bounded()
    ensures { (t : ProgramTree) (data_bytes : List ℕ) → length (run_of t data_bytes).acts ≤ all_steps_at_most (setting_of t).constants t.body }
{}
