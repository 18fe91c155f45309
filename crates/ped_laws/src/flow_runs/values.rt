//! Where the cell of a scalar holds a number, and where no act writes it.

ghost use Rattle.std.specs.Prelude.{◌≡◌, ℕ, List, ◌∷◌, false, true, ◌+◌};
ghost use Rattle.ped_flow.specs.ped_base.specs.Lists.{is_among};
ghost use Rattle.ped_flow.specs.ped_tree.specs.Tree.{StmtTree, StmtTrees, ProgramTree};
ghost use Rattle.ped_flow.specs.ped_tree.specs.Accesses.{constant_names};
ghost use Rattle.ped_flow.specs.ped_affine.specs.Assigned.{assigned_in, assigned_in_all};
ghost use Rattle.ped_eval.specs.ped_store.specs.Cells.{Cell, Scalar};
ghost use Rattle.ped_eval.specs.ped_store.specs.Stores.{Store};
ghost use Rattle.ped_eval.specs.ped_store.specs.Acts.{Act};
ghost use Rattle.ped_laws.specs.Acts.Fitting.{store_after, touches_of};
ghost use Rattle.ped_laws.specs.Acts.Sets.{written};
ghost use Rattle.ped_eval.specs.Scopes.{Scope, Setting, cell_of};
ghost use Rattle.ped_eval.specs.Runs.{going, run, run_all};
ghost use Rattle.ped_flow.specs.Events.{Event};
ghost use Rattle.ped_flow.specs.Paths.{paths_to_outermost};
ghost use Rattle.ped_flow.specs.Questions.{LoopOf, IsAssignedThrough, IsAssignedBefore};
ghost use Rattle.ped_laws.specs.FlowRuns.Covering.{Covers, is_cell_of, is_number, some_stops_in_loop};
ghost use Rattle.ped_laws.specs.FlowRuns.Entries.{IsEntry};
ghost use Rattle.ped_laws.specs.FlowRuns.Exits.{IsOneToOne};

/// Some path to an outermost DO covers the acts before its entry, as to a scalar and its own cell, also in a run that
/// faults later. So a scalar that is assigned on each path to it holds a number when it is entered.
pub fn assigned_before()
    ensures path { (p : Setting) (t : ProgramTree) → IsOneToOne p.number → some_stops_in_loop t.body ≡ false → (x : List ℕ) → is_among x (constant_names t.decls) ≡ false → (s : Store) (l : ℕ) (front : List Act) → IsEntry p t s l front → (path : List Event) × paths_to_outermost t l path × Covers x (Scalar x) path (touches_of front) }
    ensures number { (p : Setting) (t : ProgramTree) → IsOneToOne p.number → some_stops_in_loop t.body ≡ false → (x : List ℕ) → is_among x (constant_names t.decls) ≡ false → (s : Store) (l : ℕ) (front : List Act) → IsEntry p t s l front → IsAssignedBefore t l x → is_number (store_after front s (Scalar x)) ≡ true }
{}

/// A scalar that is assigned on each path through the body of a DO: where the body has run, in any iterations and from
/// any store, the cell that the scalar stands for in them holds a number.
pub fn assigned_through()
    ensures { (p : Setting) (t : ProgramTree) (l : ℕ) (loop : LoopOf t l) (x : List ℕ) → is_among x (constant_names t.decls) ≡ false → some_stops_in_loop loop.body ≡ false → IsAssignedThrough t l x → (scope : Scope) (s u : Store) → (run_all p loop.body (l + 1) scope s).ending ≡ going u → is_number (store_after (run_all p loop.body (l + 1) scope s).acts s (cell_of scope x)) ≡ true }
{}

/// What statements don't assign, by an assignment, a READ, a DO or a PRIVATE list, no act of theirs writes, neither the
/// scalar's own cell nor a copy, also in a run that faults. So a scalar that isn't overwritten in the outermost DO keeps
/// its value there.
pub fn unassigned_unwritten()
    ensures statement { (p : Setting) (x : List ℕ) (t : StmtTree) (n : ℕ) (scope : Scope) (s : Store) (c : Cell) → is_among x (assigned_in t) ≡ false → is_cell_of x c ≡ true → written (run p t n scope s).acts c ≡ false }
    ensures statements { (p : Setting) (x : List ℕ) (ts : StmtTrees) (n : ℕ) (scope : Scope) (s : Store) (c : Cell) → is_among x (assigned_in_all ts) ≡ false → is_cell_of x c ≡ true → written (run_all p ts n scope s).acts c ≡ false }
{}
