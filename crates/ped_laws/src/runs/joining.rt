//! Pieces of runs put together: the acts of a statement are those of its parts, one after the other.

ghost use Rattle.std.specs.Prelude.{◌≡◌, ℕ, suc, ◌+◌, List, [], ◌∷◌, ◌++◌, Bool, true, false, Ok, Err, if◌then◌else◌};
ghost use Rattle.ped_flow.specs.ped_tree.specs.Tree.{ExprTree, CondTree, ItemTree, Head, StmtTree, StmtTrees, Assign, If, Do, Print, Stop, Comment, no_stmts, more_stmts};
ghost use Rattle.ped_flow.specs.ped_tree.specs.Numbering.{statement_count, statements_count};
ghost use Rattle.ped_eval.specs.ped_store.specs.Stores.{Store};
ghost use Rattle.ped_eval.specs.ped_store.specs.Acts.{Place, did, entered, ended_turn, closed, faulted, Act};
ghost use Rattle.ped_eval.specs.Scopes.{Setting, Frame, Scope, names_in, place_of};
ghost use Rattle.ped_eval.specs.Evaluation.{Seen, numbered};
ghost use Rattle.ped_eval.specs.Values.{truth};
ghost use Rattle.ped_eval.specs.Statements.{Stored, assigned, assignment_touches, printed_line, print_touches};
ghost use Rattle.ped_eval.specs.Loops.{limits, Entered, frame, exit_touches, exit_when_none, entry_touches};
ghost use Rattle.ped_eval.specs.Runs.{Run, turns, parallel_turns, run, run_all};
ghost use Rattle.ped_eval.specs.Turns.{body_run};
ghost use Rattle.ped_laws.specs.Runs.Seeing.{ComesTo};
ghost use Rattle.ped_laws.specs.Runs.Replaying.{Finish, goes_on, stops, faults, is_going, act, Replays, IsEntered};

/// Statements do what the first does, and then, where that goes on, what the others do.
pub fn statements_joined()
    ensures none { (p : Setting) (n : ℕ) (scope : Scope) → Replays (run_all p no_stmts n scope) [] goes_on }
    ensures more { (p : Setting) (t : StmtTree) (rest : StmtTrees) (n : ℕ) (scope : Scope) (acts others : List Act) (finish : Finish) → Replays (run p t n scope) acts goes_on → Replays (run_all p rest (n + statement_count t) scope) others finish → Replays (run_all p (more_stmts t rest) n scope) (acts ++ others) finish }
    ensures ended { (p : Setting) (t : StmtTree) (rest : StmtTrees) (n : ℕ) (scope : Scope) (acts : List Act) (finish : Finish) → is_going finish ≡ false → Replays (run p t n scope) acts finish → Replays (run_all p (more_stmts t rest) n scope) acts finish }
{}

/// The turns of a DO that are left do what its body does in the next iteration, and then, where that goes on, the end
/// of this turn and the other turns. The end of the last turn leaves the DO.
pub fn turns_joined()
    ensures none { (k : ℕ) (e : Entered) (scope : Scope) (at : Place) (body : Frame → Store → Run) → Replays (turns 0 k e scope at body) [] goes_on }
    ensures more { (left k : ℕ) (e : Entered) (scope : Scope) (at : Place) (body : Frame → Store → Run) (acts others : List Act) (finish : Finish) → Replays (body (frame e k)) acts goes_on → Replays (turns left (k + 1) e scope at body) others finish → Replays (turns (suc left) k e scope at body) (acts ++ act (ended_turn left) at (exit_when_none left e scope) ∷ others) finish }
    ensures ended { (left k : ℕ) (e : Entered) (scope : Scope) (at : Place) (body : Frame → Store → Run) (acts : List Act) (finish : Finish) → is_going finish ≡ false → Replays (body (frame e k)) acts finish → Replays (turns (suc left) k e scope at body) acts finish }
{}

/// The same of a PARALLEL DO, whose turns have no end of their own.
pub fn parallel_turns_joined()
    ensures none { (k : ℕ) (e : Entered) (body : Frame → Store → Run) → Replays (parallel_turns 0 k e body) [] goes_on }
    ensures more { (left k : ℕ) (e : Entered) (body : Frame → Store → Run) (acts others : List Act) (finish : Finish) → Replays (body (frame e k)) acts goes_on → Replays (parallel_turns left (k + 1) e body) others finish → Replays (parallel_turns (suc left) k e body) (acts ++ others) finish }
    ensures ended { (left k : ℕ) (e : Entered) (body : Frame → Store → Run) (acts : List Act) (finish : Finish) → is_going finish ≡ false → Replays (body (frame e k)) acts finish → Replays (parallel_turns (suc left) k e body) acts finish }
{}

/// A DO does its entry and its turns; a PARALLEL DO is closed after its turns, where they go on and there are some.
pub fn loops_joined()
    ensures in_order { (p : Setting) (h : Head) (body : StmtTrees) (n : ℕ) (scope : Scope) (seen : List Seen) (e : Entered) (acts : List Act) (finish : Finish) → IsEntered p n scope h body seen e → h.parallel ≡ false → Replays (turns e.count 1 e scope (place_of p n scope) (body_run p body n scope)) acts finish → Replays (run p (Do h body) n scope) (act (entered e.count) (place_of p n scope) (entry_touches seen e scope) ∷ acts) finish }
    ensures empty { (p : Setting) (h : Head) (body : StmtTrees) (n : ℕ) (scope : Scope) (seen : List Seen) (e : Entered) → IsEntered p n scope h body seen e → e.count ≡ 0 → Replays (run p (Do h body) n scope) (act (entered e.count) (place_of p n scope) (entry_touches seen e scope) ∷ []) goes_on }
    ensures parallel { (p : Setting) (h : Head) (body : StmtTrees) (n more : ℕ) (scope : Scope) (seen : List Seen) (e : Entered) (acts : List Act) → IsEntered p n scope h body seen e → h.parallel ≡ true → e.count ≡ suc more → Replays (parallel_turns e.count 1 e (body_run p body n scope)) acts goes_on → Replays (run p (Do h body) n scope) (act (entered e.count) (place_of p n scope) (entry_touches seen e scope) ∷ (acts ++ act closed (place_of p n scope) (exit_touches e scope) ∷ [])) goes_on }
    ensures unclosed { (p : Setting) (h : Head) (body : StmtTrees) (n : ℕ) (scope : Scope) (seen : List Seen) (e : Entered) (acts : List Act) (finish : Finish) → IsEntered p n scope h body seen e → h.parallel ≡ true → is_going finish ≡ false → Replays (parallel_turns e.count 1 e (body_run p body n scope)) acts finish → Replays (run p (Do h body) n scope) (act (entered e.count) (place_of p n scope) (entry_touches seen e scope) ∷ acts) finish }
    ensures fault { (p : Setting) (h : Head) (body : StmtTrees) (n : ℕ) (scope : Scope) (seen : List Seen) (fault : ℕ) → ComesTo (limits (names_in p scope) h) seen (Err fault) → Replays (run p (Do h body) n scope) (act faulted (place_of p n scope) (numbered 1 seen) ∷ []) (faults fault (p.number n)) }
{}

/// An IF does its condition, and then the part that this chooses.
pub fn conditions_joined()
    ensures part { (p : Setting) (c : CondTree) (then_part else_part : StmtTrees) (n : ℕ) (scope : Scope) (seen : List Seen) (holds : Bool) (acts : List Act) (finish : Finish) → ComesTo (truth (names_in p scope) c) seen (Ok holds) → Replays (if holds then run_all p then_part (n + 1) scope else run_all p else_part (n + 1 + statements_count then_part) scope) acts finish → Replays (run p (If c then_part else_part) n scope) (act did (place_of p n scope) (numbered 1 seen) ∷ acts) finish }
    ensures fault { (p : Setting) (c : CondTree) (then_part else_part : StmtTrees) (n : ℕ) (scope : Scope) (seen : List Seen) (fault : ℕ) → ComesTo (truth (names_in p scope) c) seen (Err fault) → Replays (run p (If c then_part else_part) n scope) (act faulted (place_of p n scope) (numbered 1 seen) ∷ []) (faults fault (p.number n)) }
{}

/// Assignments and PRINT do one act, by what they evaluate; a STOP does one that touches nothing, and a comment none.
pub fn simple_statements()
    ensures assignment { (p : Setting) (left right : ExprTree) (n : ℕ) (scope : Scope) (seen : List Seen) (w : Stored) → ComesTo (assigned (names_in p scope) left right) seen (Ok w) → Replays (run p (Assign left right) n scope) (act did (place_of p n scope) (assignment_touches seen w) ∷ []) goes_on }
    ensures assignment_fault { (p : Setting) (left right : ExprTree) (n : ℕ) (scope : Scope) (seen : List Seen) (fault : ℕ) → ComesTo (assigned (names_in p scope) left right) seen (Err fault) → Replays (run p (Assign left right) n scope) (act faulted (place_of p n scope) (numbered 1 seen) ∷ []) (faults fault (p.number n)) }
    ensures print { (p : Setting) (items : List ItemTree) (n : ℕ) (scope : Scope) (seen : List Seen) (line : List ℕ) (s : Store) → ComesTo (printed_line (names_in p scope) items) seen (Ok line) → Replays (run p (Print items) n scope) (act did (place_of p n scope) (print_touches seen line s) ∷ []) goes_on }
    ensures print_fault { (p : Setting) (items : List ItemTree) (n : ℕ) (scope : Scope) (seen : List Seen) (fault : ℕ) → ComesTo (printed_line (names_in p scope) items) seen (Err fault) → Replays (run p (Print items) n scope) (act faulted (place_of p n scope) (numbered 1 seen) ∷ []) (faults fault (p.number n)) }
    ensures stop { (p : Setting) (n : ℕ) (scope : Scope) → Replays (run p Stop n scope) (act did (place_of p n scope) [] ∷ []) stops }
    ensures comment { (p : Setting) (text : List ℕ) (n : ℕ) (scope : Scope) → Replays (run p (Comment text) n scope) [] goes_on }
{}
