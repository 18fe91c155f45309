//! Races: acts that conflict, accesses that conflict, and lists without a race.

ghost use Rattle.std.specs.Prelude.{◌≡◌, List, Bool, true, false, Option, ◌⊎◌};
ghost use Rattle.ped_eval.specs.ped_store.specs.Cells.{Cell};
ghost use Rattle.ped_eval.specs.ped_store.specs.Acts.{Turn, Act};
ghost use Rattle.ped_eval.specs.ped_store.specs.Races.{Access, accesses_of, accesses, conflict, are_apart, race, HasNoRace};
ghost use Rattle.ped_laws.specs.Acts.Conflicts.{acts_conflict, acts_conflict_outside, blocks_conflict_outside};
ghost use Rattle.ped_laws.specs.Acts.Orders.{IsIn, StandsBefore};
ghost use Rattle.ped_laws.specs.Acts.Origins.{told_to, WritesItsLines, AreOfOneKind, HaveOrigins};

/// Acts with accesses that conflict do conflict, or one of them gets the value of the cell from its place. For turning
/// a dependence into an order that must be kept.
pub fn conflicting_accesses()
    ensures { (a b : Act) (p q : Access) → IsIn p (accesses_of a) → IsIn q (accesses_of b) → conflict p q ≡ true → (acts_conflict a b ≡ true) ⊎ ((told_to a p.cell ≡ true) ⊎ (told_to b q.cell ≡ true)) }
{}

/// Acts that conflict have accesses that do, on a cell outside a set where the acts conflict there. For finding the
/// dependence that forbids another order.
pub fn acts_that_conflict()
    ensures tells { (a b : Act) → WritesItsLines a → WritesItsLines b → acts_conflict a b ≡ true → (p q : Access) × IsIn p (accesses_of a) × IsIn q (accesses_of b) × (conflict p q ≡ true) }
    ensures outside { (d : Cell → Bool) (a b : Act) → WritesItsLines a → WritesItsLines b → acts_conflict_outside d a b ≡ true → (p q : Access) × IsIn p (accesses_of a) × IsIn q (accesses_of b) × (conflict p q ≡ true) × (d p.cell ≡ false) }
{}

/// Blocks that conflict have acts that do. For the iterations of loops.
pub fn blocks_that_conflict()
    ensures { (d : Cell → Bool) (xs ys : List Act) → blocks_conflict_outside d xs ys ≡ true → (a b : Act) × IsIn a xs × IsIn b ys × (acts_conflict_outside d a b ≡ true) }
{}

/// A list of accesses has no race exactly where none races with one after it.
pub fn no_race_by_pairs()
    ensures pairs { (xs : List Access) (p q : Access) → HasNoRace xs → StandsBefore p q xs → race p q ≡ false }
    ensures none { (xs : List Access) → ((p q : Access) → StandsBefore p q xs → race p q ≡ false) → HasNoRace xs }
{}

/// In a list without a race no two acts conflict that are in two iterations of one execution of a PARALLEL DO. For
/// interleavings.
pub fn race_free_acts()
    ensures { (acts : List Act) (a b : Act) → HasNoRace (accesses acts) → StandsBefore a b acts → are_apart a.place.turns b.place.turns ≡ true → WritesItsLines a → WritesItsLines b → acts_conflict a b ≡ false }
{}

/// Two places are in two iterations of one execution of a PARALLEL DO whichever is named first. For origins, whose
/// order may be another one.
pub fn apart_either_way()
    ensures { (ts us : List Turn) → AreOfOneKind ts us → are_apart ts us ≡ true → are_apart us ts ≡ true }
{}

/// A list whose accesses have origins in a list without a race has none. For every step: it makes no race.
pub fn origins()
    ensures { (from : Access → Option Access) (acts others : List Act) → HaveOrigins from acts others → HasNoRace (accesses acts) → HasNoRace (accesses others) }
{}
