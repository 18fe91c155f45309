//! Cut and paste where names enter or leave PARALLEL DO loops.

ghost use Rattle.std.specs.Prelude.{◌≡◌, ℕ, List, [], ◌++◌, Bool};
ghost use Rattle.ped_bodies.specs.ped_flow.specs.ped_tree.specs.Tree.{StmtTrees, ProgramTree};
ghost use Rattle.ped_bodies.specs.ped_flow.specs.ped_tree.specs.Numbering.{statements_count};
ghost use Rattle.ped_bodies.specs.ped_store.specs.Cells.{Cell};
ghost use Rattle.ped_bodies.specs.ped_store.specs.Stores.{Store};
ghost use Rattle.ped_bodies.specs.ped_store.specs.Acts.{Act};
ghost use Rattle.ped_bodies.specs.ped_laws.specs.Acts.Pieces.{Part, StandsFor, old_parts, new_parts};
ghost use Rattle.ped_bodies.specs.ped_eval.specs.Scopes.{Setting, Scope};
ghost use Rattle.ped_bodies.specs.ped_eval.specs.Runs.{Run, run_all};
ghost use Rattle.ped_bodies.specs.ped_eval.specs.Outcomes.{Ends};
ghost use Rattle.ped_bodies.specs.ped_laws.specs.Runs.Replaying.{finish_of, Replays};
ghost use Rattle.ped_bodies.specs.ped_steps.specs.Runs.Gaps.{Gap, number_at};
ghost use Rattle.ped_bodies.specs.ped_steps.specs.Runs.Meaning.{Keeps};
ghost use Rattle.ped_loop_runs.specs.Meaning.{SuitEnds};
ghost use Rattle.ped_loop_runs.specs.Pasting.{PartsStandBy};
ghost use Rattle.ped_loop_runs.specs.OtherCopies.{IsPastedBut, LeaveApart, IsOtherExit, AreExchangedNear, DoNear, StandNear, AskNothing, IsExchangeNear};

/// A run of a program that ends is made of parts, of which some are the executions of statements that a step exchanges,
/// and some are exits of PARALLEL DO loops around them. Where a name comes into these loops, or goes, their iterations
/// have other copies, and their exits make other names undefined; what else is around the statements does the same acts
/// as before, if it leaves such copies alone. The new program does the same parts, the new acts and the new exits in
/// turn, from each store that these fit, and ends alike. For the variable that strips bring, and for one that fusion
/// takes away.
pub fn executions_pasted_near()
    ensures { (names : List (List ℕ)) (apart : Cell → Bool) (p q : Setting) (gap : Gap) (old new : StmtTrees) (t u : ProgramTree) (start : Store) (fresh : (scope other : Scope) → Store → List Act) → IsPastedBut names apart p q gap old new t u → LeaveApart apart p t (number_at gap 1) (statements_count old) (run_all p t.body 1 [] start).acts
        → DoNear names apart p q t start (number_at gap 1) (statements_count old) (run_all p old (number_at gap 1)) new fresh → Ends (run_all p t.body 1 [] start).ending
        → (parts : List Part) × (old_parts parts ≡ (run_all p t.body 1 [] start).acts) × AreExchangedNear names apart p t start (number_at gap 1) (statements_count old) (run_all p old (number_at gap 1)) fresh [] parts [] start × Replays (run_all q u.body 1 []) (new_parts parts) (finish_of (run_all p t.body 1 [] start).ending) }
{}

/// The exit of a PARALLEL DO that makes other names undefined stands for the old one, where nobody asks for what these
/// names stand for there; and where, in addition, the new acts may stand for the old ones in each execution, each
/// changed part of the run may stand for its old one.
pub fn parts_stand_near()
    ensures exit { (shown : Cell → Bool) (agreed : List Act → Cell → Bool) (names : List (List ℕ)) (apart : Cell → Bool) (p : Setting) (t : ProgramTree) (start : Store) (l : ℕ) → SuitEnds shown agreed → AskNothing agreed names apart p t start l → (front behind : List Act) (u : Store) (old new : List Act)
        → IsOtherExit names apart p t start l front behind u old new → StandsFor (record { agreed = agreed (old ++ behind); old = old; new = new }) (agreed behind) u }
    ensures parts { (shown : Cell → Bool) (agreed : List Act → Cell → Bool) (names : List (List ℕ)) (apart : Cell → Bool) (p : Setting) (t : ProgramTree) (start : Store) (l count : ℕ) (piece : Scope → Store → Run) (fresh : (scope other : Scope) → Store → List Act) → SuitEnds shown agreed → StandNear agreed names apart p t start l count piece fresh → AskNothing agreed names apart p t start l
        → (parts : List Part) → AreExchangedNear names apart p t start l count piece fresh [] parts [] start → PartsStandBy agreed parts start }
{}

/// A program in which statements are exchanged for others keeps its meaning also where names come into the PARALLEL DO
/// loops around them, or go (ParaScope): the end of the proof of such a step.
pub fn exchanged_near_keeps()
    ensures { (names : List (List ℕ)) (apart : Cell → Bool) (gap : Gap) (old new : StmtTrees) (t u : ProgramTree) → IsExchangeNear names apart gap old new t u → Keeps t u }
{}
