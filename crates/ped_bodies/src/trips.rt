//! A DO and its trips.

ghost use Rattle.std.specs.Prelude.{◌≡◌, ℕ, ℤ, List, ◌++◌, Bool, true, Ok};
ghost use Rattle.ped_steps.specs.ped_flow.specs.ped_tree.specs.Tree.{Head, StmtTrees, Do};
ghost use Rattle.ped_steps.specs.ped_store.specs.Cells.{Cell};
ghost use Rattle.ped_steps.specs.ped_store.specs.Stores.{Store};
ghost use Rattle.ped_steps.specs.ped_store.specs.Acts.{Act};
ghost use Rattle.ped_steps.specs.ped_eval.specs.Scopes.{Setting, Scope, Names, place_of};
ghost use Rattle.ped_steps.specs.ped_eval.specs.Evaluation.{Seen};
ghost use Rattle.ped_steps.specs.ped_eval.specs.Loops.{is_bound, Limits, limits, Entered, frame};
ghost use Rattle.ped_steps.specs.ped_eval.specs.Runs.{run};
ghost use Rattle.ped_steps.specs.ped_eval.specs.Turns.{body_run};
ghost use Rattle.ped_steps.specs.ped_eval.specs.Values.{value};
ghost use Rattle.ped_steps.specs.ped_laws.specs.Runs.Seeing.{ComesTo};
ghost use Rattle.ped_steps.specs.ped_laws.specs.Runs.Replaying.{goes_on, finish_of, Replays, IsEntered};
ghost use Rattle.ped_bodies.specs.Trips.{HasLimits, loop_acts, OfTrips, entered_from, IsMadeOfTrips, DoTripsLikewise, MakesTripsLikewise};

/// The limits of a DO come from the values of its bounds, the initial value first, each within its range. For the entries
/// of loops whose bounds a step changes.
pub fn limits_of_bounds()
    ensures apart { (g : Names) (d : Head) (s : Store) (l : Limits) → (limits g d s).result ≡ Ok l → HasLimits g d s l }
    ensures made { (g : Names) (d : Head) (xs ys : List Seen) (m n : ℤ) → ComesTo (value g d.first) xs (Ok m) → is_bound m ≡ true → ComesTo (value g d.last) ys (Ok n) → is_bound n ≡ true → ComesTo (limits g d) (xs ++ ys) (Ok (record { first = m; last = n })) }
{}

/// A DO that goes on does its entry, its trips with their ends, and its close; each trip is what the body does in that
/// iteration from the store that is left before it, and goes on. For taking a loop apart that a step changes.
pub fn loops_apart()
    ensures { (p : Setting) (d : Head) (body : StmtTrees) (n : ℕ) (scope : Scope) (s : Store) → finish_of (run p (Do d body) n scope s).ending ≡ goes_on → IsMadeOfTrips p d body n scope s }
{}

/// A DO whose body replays a trip in each iteration replays the loop that is made of these trips. For putting together
/// the loops that a step makes.
pub fn loops_made()
    ensures { (p : Setting) (d : Head) (body : StmtTrees) (n : ℕ) (scope : Scope) (seen : List Seen) (e : Entered) (trip : ℕ → List Act) → IsEntered p n scope d body seen e → OfTrips e (λ k. Replays (body_run p body n scope (frame e k)) (trip k) goes_on) → Replays (run p (Do d body) n scope) (loop_acts seen e scope (place_of p n scope) trip) goes_on }
{}

/// A DO of which each trip does likewise what some trip of an old one did replays the loop that is made of these trips.
/// Which trip of the old one is given for each of the new one. For a loop that a step turns into another one.
pub fn loops_likewise()
    ensures { (p q : Setting) (d h : Head) (body others : StmtTrees) (n m : ℕ) (scope other : Scope) (s : Store) (seen : List Seen) (z : Entered) (name : Cell → Cell) (idle : Cell → Bool) (f of : ℕ → ℕ) (old : IsMadeOfTrips p d body n scope s) → IsEntered q m other h others seen z
        → DoTripsLikewise name idle f p body n scope (entered_from p d body n scope s old.bounds) of q others m other z → MakesTripsLikewise name idle f (entered_from p d body n scope s old.bounds) scope old.trip of q h others m other seen z }
{}
