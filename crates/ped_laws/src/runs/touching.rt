//! What acts of a run touch: conflicts are between references, except for what a DO stores itself.

ghost use Rattle.std.specs.Prelude.{◌≡◌, ℕ, ℤ, Bool, true, false};
ghost use Rattle.ped_flow.specs.ped_tree.specs.Tree.{StmtTrees};
ghost use Rattle.ped_eval.specs.ped_store.specs.Cells.{Cell, same_cell};
ghost use Rattle.ped_eval.specs.ped_store.specs.Stores.{Number, Store};
ghost use Rattle.ped_eval.specs.ped_store.specs.Acts.{reads, Touch, Act};
ghost use Rattle.ped_eval.specs.ped_store.specs.Races.{is_lines, Access, accesses_of, conflict, are_apart};
ghost use Rattle.ped_laws.specs.Acts.Sets.{needs};
ghost use Rattle.ped_laws.specs.Acts.Conflicts.{acts_conflict, acts_conflict_outside};
ghost use Rattle.ped_laws.specs.Acts.Orders.{IsIn};
ghost use Rattle.ped_laws.specs.Acts.Origins.{WritesItsLines};
ghost use Rattle.ped_eval.specs.Scopes.{Setting, Scope};
ghost use Rattle.ped_flow.specs.ped_tree.specs.NamesIn.{all_loop_variables};
ghost use Rattle.ped_eval.specs.Runs.{run_all};
ghost use Rattle.ped_laws.specs.Runs.Replaying.{finish_of, has_fault};
ghost use Rattle.ped_laws.specs.Runs.Touching.{is_own_store, StoresWithin, HaveCopies, Meeting};

/// An act of a run that touches the data or the output writes them. For the laws of conflicts and races.
pub fn lines_are_written()
    ensures { (p : Setting) (ts : StmtTrees) (n : ℕ) (scope : Scope) (s : Store) (a : Act) → IsIn a (run_all p ts n scope s).acts → WritesItsLines a }
{}

/// What a DO stores of itself in an iteration of a PARALLEL DO goes to a copy of that iteration or of one in it: no act
/// of another iteration touches it. For races, which are then of references alone.
pub fn own_stores()
    ensures touches { (p : Setting) (ts : StmtTrees) (n : ℕ) (scope : Scope) (s : Store) (a b : Act) (x y : Touch) → HaveCopies scope (all_loop_variables ts) → IsIn a (run_all p ts n scope s).acts → IsIn b (run_all p ts n scope s).acts → are_apart a.place.turns b.place.turns ≡ true → IsIn x a.touches → IsIn y b.touches → is_own_store x ≡ true → same_cell x.cell y.cell ≡ false }
    ensures accesses { (p : Setting) (ts : StmtTrees) (n : ℕ) (scope : Scope) (s : Store) (a b : Act) (x y : Access) → HaveCopies scope (all_loop_variables ts) → IsIn a (run_all p ts n scope s).acts → IsIn b (run_all p ts n scope s).acts → are_apart a.place.turns b.place.turns ≡ true → IsIn x (accesses_of a) → IsIn y (accesses_of b) → x.writes ≡ true → x.reference ≡ 0 → conflict x y ≡ false }
{}

/// Acts of a run that conflict have references that do: where they are in two iterations of a PARALLEL DO, and where
/// what DO loops store of themselves lies in a set of cells that don't count. For finding the dependence that forbids
/// another order.
pub fn references_meet()
    ensures apart { (p : Setting) (ts : StmtTrees) (n : ℕ) (scope : Scope) (s : Store) (a b : Act) → HaveCopies scope (all_loop_variables ts) → IsIn a (run_all p ts n scope s).acts → IsIn b (run_all p ts n scope s).acts → are_apart a.place.turns b.place.turns ≡ true → are_apart b.place.turns a.place.turns ≡ true → acts_conflict a b ≡ true → Meeting a b }
    ensures outside { (p : Setting) (ts : StmtTrees) (n : ℕ) (scope : Scope) (s : Store) (d : Cell → Bool) (a b : Act) → IsIn a (run_all p ts n scope s).acts → IsIn b (run_all p ts n scope s).acts → StoresWithin d a → StoresWithin d b → acts_conflict_outside d a b ≡ true → (m : Meeting a b) × (d m.first.cell ≡ false) }
{}

/// Acts of a run conflict where their references do. For turning a dependence into an order that must be kept.
pub fn references_conflict()
    ensures { (p : Setting) (ts : StmtTrees) (n : ℕ) (scope : Scope) (s : Store) (a b : Act) → IsIn a (run_all p ts n scope s).acts → IsIn b (run_all p ts n scope s).acts → Meeting a b → acts_conflict a b ≡ true }
{}

/// In a run without a fault each read of a cell finds a number, so what is undefined isn't needed after. For cells that
/// a step leaves undefined.
pub fn reads_find_numbers()
    ensures read { (p : Setting) (ts : StmtTrees) (n : ℕ) (scope : Scope) (s : Store) (a : Act) (t : Touch) → has_fault (finish_of (run_all p ts n scope s).ending) ≡ false → IsIn a (run_all p ts n scope s).acts → IsIn t a.touches → t.manner ≡ reads → is_lines t.cell ≡ false → (v : ℤ) × (t.content ≡ Number v) }
    ensures needed { (p : Setting) (ts : StmtTrees) (n : ℕ) (scope : Scope) (s : Store) (c : Cell) → has_fault (finish_of (run_all p ts n scope s).ending) ≡ false → is_lines c ≡ false → needs (run_all p ts n scope s).acts c ≡ true → (v : ℤ) × (s c ≡ Number v) }
{}
