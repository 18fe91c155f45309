//! Copies that belong to iterations inside an execution.

ghost use Rattle.std.specs.Prelude.{◌≡◌, ℕ, List, false};
ghost use Rattle.ped_bodies.specs.ped_flow.specs.ped_tree.specs.Tree.{StmtTrees, ProgramTree};
ghost use Rattle.ped_bodies.specs.ped_store.specs.Cells.{Cell};
ghost use Rattle.ped_bodies.specs.ped_store.specs.Stores.{Undefined, Store, store_at_start};
ghost use Rattle.ped_bodies.specs.ped_store.specs.Acts.{Act};
ghost use Rattle.ped_bodies.specs.ped_laws.specs.Acts.Sets.{needs};
ghost use Rattle.ped_bodies.specs.ped_laws.specs.Runs.Replaying.{finish_of, has_fault};
ghost use Rattle.ped_bodies.specs.ped_eval.specs.Scopes.{Setting, Scope};
ghost use Rattle.ped_bodies.specs.ped_eval.specs.Runs.{run_all};
ghost use Rattle.ped_loop_runs.specs.Copies.{IsTheirs};
ghost use Rattle.ped_loop_runs.specs.Executions.{IsCopyInside, IsExecuted};

/// Copies that belong to iterations inside an execution are undefined when it begins, no other act reads or writes
/// them, and nobody wants them after it; nor do statements need them that run there without a fault. For copies that a
/// step gives other names, and for those of a loop that becomes a PARALLEL DO or ceases to be one.
pub fn copies_inside()
    ensures theirs { (p : Setting) (t : ProgramTree) (data_lines : List (List ℕ)) (l count : ℕ) (scope : Scope) (front acts behind : List Act) (u : Store) (c : Cell) → IsExecuted p t (store_at_start data_lines) l count scope front acts behind u → IsCopyInside p scope l count c → IsTheirs front behind u c }
    ensures unneeded { (p : Setting) (scope : Scope) (l count : ℕ) (c : Cell) (ts : StmtTrees) (n : ℕ) (inside : Scope) (u : Store) → IsCopyInside p scope l count c → u c ≡ Undefined → has_fault (finish_of (run_all p ts n inside u).ending) ≡ false → needs (run_all p ts n inside u).acts c ≡ false }
{}
