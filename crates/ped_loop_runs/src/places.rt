//! The values given by the iterations around an execution.

ghost use Rattle.std.specs.Prelude.{◌≡◌, ℕ, List, [], ◌∷◌};
ghost use Rattle.std.specs.Str.Lines.{lines};
ghost use Rattle.ped_bodies.specs.ped_flow.specs.ped_tree.specs.Tree.{Do, ProgramTree};
ghost use Rattle.ped_bodies.specs.ped_laws.specs.Covering.Nested.{IsInNest};
ghost use Rattle.ped_bodies.specs.ped_laws.specs.FlowRuns.Exits.{IsOneToOne};
ghost use Rattle.ped_bodies.specs.ped_laws.specs.Plain.Executions.{IsPlaceWith, LieInRanges};
ghost use Rattle.ped_bodies.specs.ped_eval.specs.Outcomes.{setting_of, Ends};
ghost use Rattle.ped_bodies.specs.ped_eval.specs.Runs.{run};
ghost use Rattle.ped_bodies.specs.ped_eval.specs.Scopes.{Setting, Frame, Scope};
ghost use Rattle.ped_bodies.specs.ped_flow.specs.PlainBounds.{nest_round, setting_round};
ghost use Rattle.ped_bodies.specs.ped_flow.specs.Questions.{LoopOf};
ghost use Rattle.ped_bodies.specs.ped_graph.specs.Dependences.{setting_in};
ghost use Rattle.ped_bodies.specs.ped_symbols.specs.NameRefusals.{IsValid};
ghost use Rattle.ped_bodies.specs.ped_store.specs.Acts.{Act};
ghost use Rattle.ped_bodies.specs.ped_store.specs.Stores.{Store, store_at_start};
ghost use Rattle.ped_bodies.specs.ped_steps.specs.Runs.Pasting.{IsPlaceOf, IsDone};
ghost use Rattle.ped_loop_runs.specs.Executions.{IsExecuted};
ghost use Rattle.ped_loop_runs.specs.Places.{told_at, AreDuring};

/// Where statements of a valid program are executed, the iterations around them are of the DO loops around them, and
/// each gives a value in the range of its loop (ANSI X3.9-1978, section 11.10.3); so the values that are given there
/// lie in the ranges. For new bounds, whose values a step knows by intervals.
pub fn ranges_entered()
    ensures round { (t : ProgramTree) (data_bytes : List ℕ) → IsValid t → (l count : ℕ) (scope : Scope) (front acts behind : List Act) (u : Store) → IsExecuted (setting_of t) t (store_at_start (lines data_bytes)) l count scope front acts behind u → IsInNest (setting_round (setting_of t).constants t l) (setting_of t) (nest_round t l) scope }
    ensures in_setting { (t : ProgramTree) (data_bytes : List ℕ) → IsValid t → (l count : ℕ) (scope : Scope) (front acts behind : List Act) (u : Store) → IsExecuted (setting_of t) t (store_at_start (lines data_bytes)) l count scope front acts behind u → (n : ℕ) → IsInNest (setting_in t n) (setting_of t) (nest_round t l) scope }
    ensures lie { (t : ProgramTree) (data_bytes : List ℕ) → IsValid t → (l count : ℕ) (scope : Scope) (front acts behind : List Act) (u : Store) → IsExecuted (setting_of t) t (store_at_start (lines data_bytes)) l count scope front acts behind u → LieInRanges (setting_of t).constants t l (told_at scope) }
{}

/// A place at which a run may reach a statement gives a value for each DO around it, and its iterations are those of DO
/// loops in the outermost DO. For the laws of plain bounds, which ask this of places.
pub fn places_tell()
    ensures { (p : Setting) (t : ProgramTree) (l : ℕ) (scope : Scope) → IsOneToOne p.number → IsPlaceOf p t l scope → IsPlaceWith p.constants t l (told_at scope) scope }
{}

/// What is done in a DO is done while the outermost DO around it is executed; and so is what a DO does by itself, which
/// may be the outermost one. For the laws of plain bounds, which are about stores of an execution that has been
/// entered.
pub fn executed_during()
    ensures inside { (p : Setting) (t : ProgramTree) (start : Store) (l : ℕ) (f : Frame) (scope : Scope) (acts : List Act) (u : Store) → IsDone p t start l (f ∷ scope) acts u → AreDuring p t start l acts u }
    ensures whole { (p : Setting) (t : ProgramTree) (start : Store) (l : ℕ) (loop : LoopOf t l) (scope : Scope) (u : Store) → IsPlaceOf p t l scope → IsDone p t start l scope (run p (Do loop.head loop.body) l scope u).acts u → Ends (run p (Do loop.head loop.body) l scope u).ending → AreDuring p t start l (run p (Do loop.head loop.body) l scope u).acts u }
{}
