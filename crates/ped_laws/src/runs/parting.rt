//! Runs taken apart: first the first part runs. Where that goes on, the rest runs from the store that the acts of the
//! first part have left.

ghost use Rattle.std.specs.Prelude.{◌≡◌, ℕ, suc, ◌+◌, [], ◌∷◌, ◌++◌, Bool, true, false, Ok, Err, if◌then◌else◌};
ghost use Rattle.ped_flow.specs.ped_tree.specs.Tree.{CondTree, Head, StmtTree, StmtTrees, If, Do, more_stmts};
ghost use Rattle.ped_flow.specs.ped_tree.specs.Numbering.{statement_count, statements_count};
ghost use Rattle.ped_eval.specs.ped_store.specs.Stores.{Store};
ghost use Rattle.ped_eval.specs.ped_store.specs.Acts.{Place, did, entered, ended_turn, closed, faulted};
ghost use Rattle.ped_laws.specs.Acts.Fitting.{store_after};
ghost use Rattle.ped_eval.specs.Scopes.{Setting, Scope, names_in, place_of};
ghost use Rattle.ped_eval.specs.Evaluation.{numbered};
ghost use Rattle.ped_eval.specs.Values.{truth};
ghost use Rattle.ped_eval.specs.Loops.{Limits, limits, Entered, entered_with, frame, exit_touches, exit_when_none, entry_touches};
ghost use Rattle.ped_eval.specs.Runs.{failed, fails, does, nothing_done, turns, parallel_turns, run_entered, run, run_all};
ghost use Rattle.ped_eval.specs.Turns.{body_run};
ghost use Rattle.ped_laws.specs.Runs.Replaying.{goes_on, finish_of, is_going, act, behind};

/// A run of statements is that of the first, and then, where that goes on, that of the others.
pub fn statements_parted()
    ensures more { (p : Setting) (t : StmtTree) (rest : StmtTrees) (n : ℕ) (scope : Scope) (s : Store) → finish_of (run p t n scope s).ending ≡ goes_on → run_all p (more_stmts t rest) n scope s ≡ behind (run p t n scope s).acts (run_all p rest (n + statement_count t) scope (store_after (run p t n scope s).acts s)) }
    ensures ended { (p : Setting) (t : StmtTree) (rest : StmtTrees) (n : ℕ) (scope : Scope) (s : Store) → is_going (finish_of (run p t n scope s).ending) ≡ false → run_all p (more_stmts t rest) n scope s ≡ run p t n scope s }
{}

/// A run of turns is that of the next iteration, and then, where that goes on, the end of the turn and the others.
pub fn turns_parted()
    ensures more { (p : Setting) (body : StmtTrees) (n left k : ℕ) (scope : Scope) (e : Entered) (at : Place) (s : Store) → finish_of (body_run p body n scope (frame e k) s).ending ≡ goes_on
        → let ended = (body_run p body n scope (frame e k) s).acts ++ act (ended_turn left) at (exit_when_none left e scope) ∷ [] in turns (suc left) k e scope at (body_run p body n scope) s ≡ behind ended (turns left (k + 1) e scope at (body_run p body n scope) (store_after ended s)) }
    ensures ended { (p : Setting) (body : StmtTrees) (n left k : ℕ) (scope : Scope) (e : Entered) (at : Place) (s : Store) → is_going (finish_of (body_run p body n scope (frame e k) s).ending) ≡ false → turns (suc left) k e scope at (body_run p body n scope) s ≡ body_run p body n scope (frame e k) s }
{}

/// The same of a PARALLEL DO.
pub fn parallel_turns_parted()
    ensures more { (p : Setting) (body : StmtTrees) (n left k : ℕ) (scope : Scope) (e : Entered) (s : Store) → finish_of (body_run p body n scope (frame e k) s).ending ≡ goes_on → parallel_turns (suc left) k e (body_run p body n scope) s ≡ behind (body_run p body n scope (frame e k) s).acts (parallel_turns left (k + 1) e (body_run p body n scope) (store_after (body_run p body n scope (frame e k) s).acts s)) }
    ensures ended { (p : Setting) (body : StmtTrees) (n left k : ℕ) (scope : Scope) (e : Entered) (s : Store) → is_going (finish_of (body_run p body n scope (frame e k) s).ending) ≡ false → parallel_turns (suc left) k e (body_run p body n scope) s ≡ body_run p body n scope (frame e k) s }
{}

/// A run of a DO is its entry, and then its turns; that of a PARALLEL DO is closed after its turns, where they go on.
pub fn loops_parted()
    ensures entry { (p : Setting) (h : Head) (body : StmtTrees) (n : ℕ) (scope : Scope) (s : Store) (l : Limits) → (limits (names_in p scope) h s).result ≡ Ok l
        → let e = entered_with p n h body (limits (names_in p scope) h s).seen l in let entry = act (entered e.count) (place_of p n scope) (entry_touches (limits (names_in p scope) h s).seen e scope) in run p (Do h body) n scope s ≡ behind (entry ∷ []) (run_entered h.parallel e.count e scope (place_of p n scope) (body_run p body n scope) (store_after (entry ∷ []) s)) }
    ensures in_order { (p : Setting) (body : StmtTrees) (n : ℕ) (scope : Scope) (e : Entered) (at : Place) (s : Store) → run_entered false e.count e scope at (body_run p body n scope) s ≡ turns e.count 1 e scope at (body_run p body n scope) s }
    ensures parallel { (p : Setting) (body : StmtTrees) (n more : ℕ) (scope : Scope) (e : Entered) (at : Place) (s : Store) → finish_of (parallel_turns (suc more) 1 e (body_run p body n scope) s).ending ≡ goes_on
        → let acts = (parallel_turns (suc more) 1 e (body_run p body n scope) s).acts in run_entered true (suc more) e scope at (body_run p body n scope) s ≡ behind acts (does closed at (exit_touches e scope) nothing_done (store_after acts s)) }
    ensures unclosed { (p : Setting) (body : StmtTrees) (n more : ℕ) (scope : Scope) (e : Entered) (at : Place) (s : Store) → is_going (finish_of (parallel_turns (suc more) 1 e (body_run p body n scope) s).ending) ≡ false → run_entered true (suc more) e scope at (body_run p body n scope) s ≡ parallel_turns (suc more) 1 e (body_run p body n scope) s }
    ensures fault { (p : Setting) (h : Head) (body : StmtTrees) (n : ℕ) (scope : Scope) (s : Store) (fault : ℕ) → (limits (names_in p scope) h s).result ≡ Err fault → run p (Do h body) n scope s ≡ fails (place_of p n scope) (numbered 1 (limits (names_in p scope) h s).seen) fault }
{}

/// A run of an IF is its condition, and then its part.
pub fn conditions_parted()
    ensures part { (p : Setting) (c : CondTree) (then_part else_part : StmtTrees) (n : ℕ) (scope : Scope) (s : Store) (holds : Bool) → (truth (names_in p scope) c s).result ≡ Ok holds → run p (If c then_part else_part) n scope s ≡ behind (act did (place_of p n scope) (numbered 1 (truth (names_in p scope) c s).seen) ∷ []) ((if holds then run_all p then_part (n + 1) scope else run_all p else_part (n + 1 + statements_count then_part) scope) s) }
    ensures fault { (p : Setting) (c : CondTree) (then_part else_part : StmtTrees) (n : ℕ) (scope : Scope) (s : Store) (fault : ℕ) → (truth (names_in p scope) c s).result ≡ Err fault → run p (If c then_part else_part) n scope s ≡ fails (place_of p n scope) (numbered 1 (truth (names_in p scope) c s).seen) fault }
{}
