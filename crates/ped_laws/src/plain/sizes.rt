//! Which scalars hold only numbers of 32 bits.

ghost use Rattle.std.specs.Prelude.{◌≡◌, ℕ, List, false, true};
ghost use Rattle.ped_flow.specs.ped_base.specs.Lists.{is_among};
ghost use Rattle.ped_flow.specs.ped_tree.specs.Tree.{StmtTree, StmtTrees};
ghost use Rattle.ped_eval.specs.ped_store.specs.Cells.{Cell};
ghost use Rattle.ped_eval.specs.ped_store.specs.Stores.{Store};
ghost use Rattle.ped_eval.specs.ped_store.specs.Acts.{Act};
ghost use Rattle.ped_laws.specs.Acts.Fitting.{store_after, touches_of};
ghost use Rattle.ped_eval.specs.Scopes.{Scope, Setting};
ghost use Rattle.ped_eval.specs.Runs.{run, run_all};
ghost use Rattle.ped_flow.specs.ped_tree.specs.NamesIn.{loop_variables, all_loop_variables};
ghost use Rattle.ped_laws.specs.FlowRuns.Covering.{is_cell_of};
ghost use Rattle.ped_laws.specs.Plain.Executions.{is_small, WriteSmall};

/// Where a scalar isn't the variable of a DO among statements, a run of them writes numbers of 32 bits alone into its
/// cell and its copies, also a run that faults; so a cell of it that holds no greater number holds none after such
/// acts, and after the first of them. A DO leaves in its variable what may be beyond 32 bits.
pub fn scalars_are_small()
    ensures statement { (p : Setting) (x : List ℕ) (t : StmtTree) (n : ℕ) (scope : Scope) (s : Store) (c : Cell) → is_among x (loop_variables t) ≡ false → is_cell_of x c ≡ true → WriteSmall c (touches_of (run p t n scope s).acts) }
    ensures statements { (p : Setting) (x : List ℕ) (ts : StmtTrees) (n : ℕ) (scope : Scope) (s : Store) (c : Cell) → is_among x (all_loop_variables ts) ≡ false → is_cell_of x c ≡ true → WriteSmall c (touches_of (run_all p ts n scope s).acts) }
    ensures kept { (c : Cell) (acts : List Act) (s : Store) → WriteSmall c (touches_of acts) → is_small (s c) ≡ true → is_small (store_after acts s c) ≡ true }
{}
