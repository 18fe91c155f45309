//! Executions of a DO among the acts of a run.

ghost use Rattle.std.specs.Prelude.{◌≡◌, ℕ, List, []};
ghost use Rattle.ped_tree.specs.Tree.{Do, ProgramTree};
ghost use Rattle.ped_weaves.specs.ped_store.specs.Stores.{Store};
ghost use Rattle.ped_weaves.specs.ped_store.specs.Acts.{Act};
ghost use Rattle.ped_weaves.specs.ped_eval.specs.Scopes.{Setting, Scope};
ghost use Rattle.ped_weaves.specs.ped_eval.specs.Runs.{run, run_all};
ghost use Rattle.ped_weaves.specs.ped_eval.specs.Outcomes.{Ends};
ghost use Rattle.ped_weaves.specs.ped_laws.specs.Runs.Replaying.{goes_on, finish_of};
ghost use Rattle.ped_weaves.specs.ped_flow.specs.Questions.{LoopOf};
ghost use Rattle.ped_weaves.specs.ped_laws.specs.FlowRuns.Entries.{IsEntry};
ghost use Rattle.ped_weaves.specs.ped_laws.specs.FlowRuns.Exits.{IsExit};
ghost use Rattle.ped_steps.specs.Runs.Pasting.{IsPlaceOf, IsInExecution, IsDone};

/// The last act of an execution of a DO leaves it, and the acts after the execution are those after this exit. For the
/// laws of scalars that aren't live after a DO.
pub fn executions_leave()
    ensures { (p : Setting) (t : ProgramTree) (start : Store) (l : ℕ) (loop : LoopOf t l) (scope : Scope) (u : Store) → Ends (run_all p t.body 1 [] start).ending → IsPlaceOf p t l scope → (done : IsDone p t start l scope (run p (Do loop.head loop.body) l scope u).acts u) → finish_of (run p (Do loop.head loop.body) l scope u).ending ≡ goes_on → IsExit p t start l scope done.part.behind }
{}

/// The outermost DO around an execution, or that DO itself which is executed, is executed once; its entry comes after
/// the acts before that. For plain bounds, which have one value from there on.
pub fn executions_enter()
    ensures entry { (p : Setting) (t : ProgramTree) (start : Store) (l : ℕ) (acts : List Act) (u : Store) → (x : IsInExecution p t start l acts u) → IsEntry p t start l x.execution.front }
    ensures of_loop { (p : Setting) (t : ProgramTree) (start : Store) (l : ℕ) (loop : LoopOf t l) (scope : Scope) (u : Store) → IsPlaceOf p t l scope → IsDone p t start l scope (run p (Do loop.head loop.body) l scope u).acts u → finish_of (run p (Do loop.head loop.body) l scope u).ending ≡ goes_on → IsInExecution p t start l (run p (Do loop.head loop.body) l scope u).acts u }
{}
