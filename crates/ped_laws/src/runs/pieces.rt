//! Pieces of runs: a statement, statements, or turns of a DO, each determined by its acts.

ghost use Rattle.std.specs.Prelude.{◌≡◌, ℕ, List};
ghost use Rattle.ped_flow.specs.ped_tree.specs.Tree.{StmtTree, StmtTrees};
ghost use Rattle.ped_eval.specs.ped_store.specs.Stores.{Store};
ghost use Rattle.ped_eval.specs.ped_store.specs.Acts.{Place, Act};
ghost use Rattle.ped_laws.specs.Acts.Fitting.{Fits, store_after};
ghost use Rattle.ped_eval.specs.Scopes.{Setting, Scope};
ghost use Rattle.ped_eval.specs.Loops.{Entered};
ghost use Rattle.ped_eval.specs.Runs.{Run, turns, parallel_turns, run, run_all};
ghost use Rattle.ped_eval.specs.Turns.{body_run};
ghost use Rattle.ped_laws.specs.Runs.Replaying.{Finish, finish_of, ending_with, Replays, IsToldByActs};

/// The acts of a piece of a run determine it: they fit the store that it starts from, and from each store that they fit
/// it does the same acts, ends alike, and leaves the store that they leave. A piece is a statement, or statements, or
/// the rest of the turns of a DO, at any place of a program. For turning laws of lists into laws of programs.
pub fn told_by_acts()
    ensures statement { (p : Setting) (t : StmtTree) (n : ℕ) (scope : Scope) → IsToldByActs (run p t n scope) }
    ensures statements { (p : Setting) (ts : StmtTrees) (n : ℕ) (scope : Scope) → IsToldByActs (run_all p ts n scope) }
    ensures turns { (p : Setting) (body : StmtTrees) (n left k : ℕ) (scope : Scope) (e : Entered) (at : Place) → IsToldByActs (turns left k e scope at (body_run p body n scope)) }
    ensures parallel_turns { (p : Setting) (body : StmtTrees) (n left k : ℕ) (scope : Scope) (e : Entered) → IsToldByActs (parallel_turns left k e (body_run p body n scope)) }
{}

/// A piece that its acts determine ends with the store that they leave.
pub fn own_store()
    ensures { (piece : Store → Run) (s : Store) → IsToldByActs piece → (piece s).ending ≡ ending_with (finish_of (piece s).ending) (store_after (piece s).acts s) }
{}

/// From one store a piece does one list of acts: two that it replays from there are the same, with the same ending.
pub fn one_run()
    ensures acts { (piece : Store → Run) (acts others : List Act) (finish other : Finish) (s : Store) → Replays piece acts finish → Replays piece others other → Fits acts s → Fits others s → acts ≡ others }
    ensures finish { (piece : Store → Run) (acts others : List Act) (finish other : Finish) (s : Store) → Replays piece acts finish → Replays piece others other → Fits acts s → Fits others s → finish ≡ other }
{}
