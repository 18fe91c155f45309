//! What a run does after an exit of a loop, and the paths from that exit.

ghost use Rattle.std.specs.Prelude.{◌≡◌, ℕ, List, false, true, Bool};
ghost use Rattle.std.specs.List.{flat_map};
ghost use Rattle.ped_flow.specs.ped_base.specs.Lists.{is_among};
ghost use Rattle.ped_flow.specs.ped_tree.specs.Tree.{ProgramTree};
ghost use Rattle.ped_flow.specs.ped_tree.specs.Accesses.{constant_names};
ghost use Rattle.ped_eval.specs.ped_store.specs.Cells.{Cell, Scalar};
ghost use Rattle.ped_eval.specs.ped_store.specs.Stores.{Store};
ghost use Rattle.ped_eval.specs.ped_store.specs.Acts.{Act};
ghost use Rattle.ped_laws.specs.Acts.Fitting.{touches_of};
ghost use Rattle.ped_laws.specs.Acts.Sets.{needs, wants};
ghost use Rattle.ped_eval.specs.Scopes.{Scope, Setting, cell_of};
ghost use Rattle.ped_flow.specs.Events.{Event};
ghost use Rattle.ped_flow.specs.PathSets.{Whole};
ghost use Rattle.ped_flow.specs.Paths.{paths_from_exit};
ghost use Rattle.ped_flow.specs.Questions.{IsLiveAfter};
ghost use Rattle.ped_flow.specs.ped_tree.specs.NamesIn.{saved_in};
ghost use Rattle.ped_laws.specs.FlowRuns.Covering.{some_stops_in_loop};
ghost use Rattle.ped_laws.specs.FlowRuns.Exits.{IsOneToOne, Follows, IsExit};

/// After each exit of a DO in a run that ends without a fault, some path from the DO's exit follows the acts, as to a
/// scalar and the cell that it stands for where the DO is: what they read before they write it, the path reads
/// before it overwrites it; and where the cell is the scalar's own, what the path overwrites they write. A copy that
/// belongs to an iteration of a loop around the DO isn't written again where the path begins another iteration. The
/// scalar is no named constant, no STOP is in a DO, and each statement counts under a number of its own.
pub fn exits_are_followed()
    ensures { (p : Setting) (t : ProgramTree) → IsOneToOne p.number → some_stops_in_loop t.body ≡ false → (x : List ℕ) → is_among x (constant_names t.decls) ≡ false → (s : Store) (l : ℕ) (scope : Scope) (behind : List Act) → IsExit p t s l scope behind → (path : List Event) × Whole (paths_from_exit t l) path × Follows x (Scalar x) (cell_of scope x) path (touches_of behind) }
{}

/// Where a scalar isn't live after a DO, the acts after each exit of the DO don't want the cell that the scalar stands
/// for there: an act that reads it follows one that writes it, and where the cell is the scalar's own and the
/// scalar is in SAVE, some act writes it before the end. So what the cell holds at the exit doesn't count. `shown` are
/// the cells that count at the end.
pub fn dead_exits()
    ensures unneeded { (p : Setting) (t : ProgramTree) → IsOneToOne p.number → some_stops_in_loop t.body ≡ false → (x : List ℕ) → is_among x (constant_names t.decls) ≡ false → (s : Store) (l : ℕ) (scope : Scope) (behind : List Act) → IsExit p t s l scope behind → (IsLiveAfter t l x → ⊥) → needs behind (cell_of scope x) ≡ false }
    ensures unwanted { (p : Setting) (t : ProgramTree) → IsOneToOne p.number → some_stops_in_loop t.body ≡ false → (x : List ℕ) → is_among x (constant_names t.decls) ≡ false → (s : Store) (l : ℕ) (scope : Scope) (behind : List Act) → IsExit p t s l scope behind → (IsLiveAfter t l x → ⊥) → (shown : Cell → Bool) → (shown (cell_of scope x) ≡ true → (is_among x (flat_map saved_in t.decls) ≡ true) × (cell_of scope x ≡ Scalar x)) → wants shown behind (cell_of scope x) ≡ false }
{}
