//! Executions of the statements that a step replaces.

ghost use Rattle.std.specs.Prelude.{◌≡◌, ◌<◌, ℕ, List, [], Bool};
ghost use Rattle.ped_bodies.specs.ped_flow.specs.ped_tree.specs.Tree.{StmtTrees, ProgramTree};
ghost use Rattle.ped_bodies.specs.ped_flow.specs.ped_tree.specs.Numbering.{statements_count};
ghost use Rattle.ped_bodies.specs.ped_store.specs.Cells.{Cell};
ghost use Rattle.ped_bodies.specs.ped_store.specs.Stores.{Store};
ghost use Rattle.ped_bodies.specs.ped_store.specs.Acts.{Act};
ghost use Rattle.ped_bodies.specs.ped_laws.specs.Acts.Pieces.{Part, old_parts, new_parts};
ghost use Rattle.ped_bodies.specs.ped_eval.specs.Scopes.{Setting, Scope, turns_of};
ghost use Rattle.ped_bodies.specs.ped_eval.specs.Runs.{Run, run_all};
ghost use Rattle.ped_bodies.specs.ped_eval.specs.Outcomes.{Ends};
ghost use Rattle.ped_bodies.specs.ped_laws.specs.Runs.Replaying.{finish_of, Replays};
ghost use Rattle.ped_bodies.specs.ped_steps.specs.Runs.Gaps.{Gap, number_at};
ghost use Rattle.ped_loop_runs.specs.Executions.{IsExecuted};
ghost use Rattle.ped_loop_runs.specs.Pasting.{IsPasted, DoInstead, StandInstead, PartsStandBy, AreExchanged};

/// A run of a program that ends is made of parts, of which some are the executions of statements that a step exchanges.
/// Each is done in iterations that have been entered, and no other act touches the copies that belong to iterations
/// inside it. Where others do new acts instead, the new program does the same parts and the new acts in turn, from each
/// store that these fit, and ends alike. For each step that rewrites a loop.
pub fn executions_pasted()
    ensures { (p q : Setting) (gap : Gap) (old new : StmtTrees) (t u : ProgramTree) (start : Store) (fresh : Scope → Store → List Act) → IsPasted p q gap old new t u → DoInstead p q t start (number_at gap 1) (statements_count old) (run_all p old (number_at gap 1)) new fresh → Ends (run_all p t.body 1 [] start).ending
        → (parts : List Part) × (old_parts parts ≡ (run_all p t.body 1 [] start).acts) × AreExchanged p t start (number_at gap 1) (statements_count old) (run_all p old (number_at gap 1)) fresh [] parts [] start × Replays (run_all q u.body 1 []) (new_parts parts) (finish_of (run_all p t.body 1 [] start).ending) }
{}

/// Where the new acts may stand for the old ones in each execution, each changed part of the run may stand for its old
/// one. The cells on which the stores agree are determined by the acts from there on: what these want, or all but cells
/// that are apart.
pub fn parts_stand()
    ensures { (agreed : List Act → Cell → Bool) (p : Setting) (t : ProgramTree) (start : Store) (l count : ℕ) (piece : Scope → Store → Run) (fresh : Scope → Store → List Act) → StandInstead agreed p t start l count piece fresh → (parts : List Part) → AreExchanged p t start l count piece fresh [] parts [] start → PartsStandBy agreed parts start }
{}

/// Statements are executed once in the same iterations around them: two executions there come after the same acts and
/// begin with the same store, and at one place they come before the same acts, too. For accesses of a new program that
/// come from those of an execution: where two of them are in one iteration, they come from one execution.
pub fn executed_once()
    ensures turns { (p : Setting) (t : ProgramTree) (start : Store) (l : ℕ) (ts : StmtTrees) → 0 < statements_count ts → (scope other : Scope) (front others behind rest : List Act) (u v : Store) → turns_of other ≡ turns_of scope
        → IsExecuted p t start l (statements_count ts) scope front (run_all p ts l scope u).acts behind u → IsExecuted p t start l (statements_count ts) other others (run_all p ts l other v).acts rest v → (front ≡ others) × (u ≡ v) }
    ensures place { (p : Setting) (t : ProgramTree) (start : Store) (l : ℕ) (ts : StmtTrees) → 0 < statements_count ts → (scope : Scope) (front others behind rest : List Act) (u v : Store)
        → IsExecuted p t start l (statements_count ts) scope front (run_all p ts l scope u).acts behind u → IsExecuted p t start l (statements_count ts) scope others (run_all p ts l scope v).acts rest v → behind ≡ rest }
{}
