//! Where a STOP is.

ghost use Rattle.std.specs.Prelude.{◌≡◌, ℕ, false, true};
ghost use Rattle.ped_flow.specs.ped_tree.specs.Tree.{ProgramTree};
ghost use Rattle.ped_flow.specs.ped_tree.specs.Grammar.Fits.{fits};
ghost use Rattle.ped_flow.specs.Questions.{LoopOf};
ghost use Rattle.ped_laws.specs.FlowRuns.Covering.{some_stop, some_stops_in_loop};

/// In a program of the profile no STOP is in a DO, as the other laws ask, and so none is in the body of one.
pub fn no_stop_in_loops()
    ensures program { (t : ProgramTree) → fits t ≡ true → some_stops_in_loop t.body ≡ false }
    ensures body { (t : ProgramTree) (l : ℕ) (loop : LoopOf t l) → some_stops_in_loop t.body ≡ false → some_stop loop.body ≡ false }
{}
