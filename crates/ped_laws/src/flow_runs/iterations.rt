//! What the iterations of a loop read, derived from the questions about paths.

ghost use Rattle.std.specs.Prelude.{◌≡◌, ℕ, List, ◌∷◌, false, true, ◌+◌};
ghost use Rattle.ped_flow.specs.ped_base.specs.Lists.{is_among};
ghost use Rattle.ped_flow.specs.ped_tree.specs.Tree.{Do, ProgramTree};
ghost use Rattle.ped_flow.specs.ped_tree.specs.Accesses.{constant_names};
ghost use Rattle.ped_flow.specs.ped_tree.specs.NamesIn.{loop_variables};
ghost use Rattle.ped_eval.specs.ped_store.specs.Stores.{Store};
ghost use Rattle.ped_laws.specs.Acts.Sets.{needs};
ghost use Rattle.ped_laws.specs.Acts.Conflicts.{ReadNone};
ghost use Rattle.ped_eval.specs.Scopes.{Frame, Scope, Setting, cell_of};
ghost use Rattle.ped_eval.specs.Evaluation.{Seen};
ghost use Rattle.ped_eval.specs.Loops.{Limits, entered_with, frame};
ghost use Rattle.ped_eval.specs.Runs.{run_all};
ghost use Rattle.ped_eval.specs.Outcomes.{Ends};
ghost use Rattle.ped_flow.specs.Questions.{LoopOf, IsExposed, IsContained};
ghost use Rattle.ped_laws.specs.FlowRuns.Covering.{is_cell_of, some_stop};

/// A scalar that isn't exposed in a DO: no iteration that runs without a fault reads the cell that the scalar stands
/// for at the DO before it writes it there. The iteration may be any that some limits give, and the store any.
pub fn unexposed_unneeded()
    ensures { (t : ProgramTree) (l : ℕ) (loop : LoopOf t l) (x : List ℕ) → is_among x (constant_names t.decls) ≡ false → some_stop loop.body ≡ false → ((n : ℕ) → IsExposed t l x n → ⊥) → (p : Setting) (scope : Scope) (seen : List Seen) (m : Limits) (k : ℕ) (s : Store) → Ends (run_all p loop.body (l + 1) (frame (entered_with p l loop.head loop.body seen m) k ∷ scope) s).ending → needs (run_all p loop.body (l + 1) (frame (entered_with p l loop.head loop.body seen m) k ∷ scope) s).acts (cell_of scope x) ≡ false }
{}

/// In a contained DO no act of an iteration reads a cell of the DO's variable or of the variable of a DO in it, its own
/// cells and its copies, also in a run that faults: where such a variable is read, the place gives its value.
pub fn contained_unread()
    ensures { (t : ProgramTree) (l : ℕ) (loop : LoopOf t l) (x : List ℕ) → is_among x (constant_names t.decls) ≡ false → IsContained t l → is_among x (loop_variables (Do loop.head loop.body)) ≡ true → (p : Setting) (scope : Scope) (f : Frame) (s : Store) → f.variable ≡ loop.head.variable → ReadNone (is_cell_of x) (run_all p loop.body (l + 1) (f ∷ scope) s).acts }
{}
