//! What statements do to the cell of a scalar, and what a path of them does to the scalar.

ghost use Rattle.std.specs.Prelude.{◌≡◌, ℕ, List, false};
ghost use Rattle.ped_flow.specs.ped_base.specs.Lists.{is_among};
ghost use Rattle.ped_flow.specs.ped_tree.specs.Tree.{StmtTree, StmtTrees};
ghost use Rattle.ped_eval.specs.ped_store.specs.Stores.{Store};
ghost use Rattle.ped_laws.specs.Acts.Fitting.{touches_of};
ghost use Rattle.ped_eval.specs.Scopes.{Scope, Setting, cell_of};
ghost use Rattle.ped_eval.specs.Runs.{run, run_all};
ghost use Rattle.ped_flow.specs.Paths.{paths, all_paths};
ghost use Rattle.ped_laws.specs.FlowRuns.Covering.{AreCovered, stops_in_loop, some_stops_in_loop};

/// Where statements run without a fault, some path of them covers their acts, as to a scalar and the cell that it
/// stands for at their place: what they read before they write it, the path reads before it overwrites it; what the
/// path overwrites, they write; and where the scalar has a value at the path's end, the cell holds a number after
/// them. A path overwrites the variable of a DO at its entry and a private name at each iteration's start, while the
/// cell is written at the exit; between them nothing reads it. The run's statements may count under other numbers,
/// and its constants may be any; the scalar is no named constant, and no STOP is in a DO.
pub fn paths_cover_runs()
    ensures statement { (p : Setting) (constants : List (List ℕ)) (x : List ℕ) (t : StmtTree) (n : ℕ) (scope : Scope) (s : Store) → is_among x constants ≡ false → stops_in_loop t ≡ false → AreCovered (paths constants t n) x (cell_of scope x) (touches_of (run p t n scope s).acts) (run p t n scope s).ending }
    ensures statements { (p : Setting) (constants : List (List ℕ)) (x : List ℕ) (ts : StmtTrees) (n : ℕ) (scope : Scope) (s : Store) → is_among x constants ≡ false → some_stops_in_loop ts ≡ false → AreCovered (all_paths constants ts n) x (cell_of scope x) (touches_of (run_all p ts n scope s).acts) (run_all p ts n scope s).ending }
{}
