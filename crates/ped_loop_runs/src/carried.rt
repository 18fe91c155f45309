//! What a loop carries.

ghost use Rattle.std.specs.Prelude.{◌≡◌, ◌<◌, ℕ, List, ◌∷◌, ◌++◌, length, Bool, true, false, None};
ghost use Rattle.ped_bodies.specs.ped_flow.specs.ped_tree.specs.Tree.{ProgramTree};
ghost use Rattle.ped_bodies.specs.ped_flow.specs.Questions.{LoopOf, IsIndexIn};
ghost use Rattle.ped_bodies.specs.ped_symbols.specs.NameRefusals.{IsValid};
ghost use Rattle.ped_bodies.specs.ped_refs.specs.References.{Reference};
ghost use Rattle.ped_bodies.specs.ped_graph.specs.Dependences.{EdgesOfPairs, AreEdges};
ghost use Rattle.ped_bodies.specs.ped_edges.specs.Edges.{Edge};
ghost use Rattle.ped_bodies.specs.ped_store.specs.Stores.{Store};
ghost use Rattle.ped_bodies.specs.ped_store.specs.Cells.{Cell};
ghost use Rattle.ped_bodies.specs.ped_store.specs.Acts.{Turn, Act};
ghost use Rattle.ped_bodies.specs.ped_store.specs.Races.{Access, conflict};
ghost use Rattle.ped_bodies.specs.ped_laws.specs.Acts.Conflicts.{blocks_conflict_outside};
ghost use Rattle.ped_bodies.specs.ped_laws.specs.Acts.Orders.{IsIn};
ghost use Rattle.ped_bodies.specs.ped_laws.specs.Conflicts.Directions.{share_a_loop};
ghost use Rattle.ped_bodies.specs.ped_laws.specs.Conflicts.Sequence.{IsBeforeInText, AreSuccessive};
ghost use Rattle.ped_bodies.specs.ped_laws.specs.Conflicts.Covered.{ComeInRun};
ghost use Rattle.ped_bodies.specs.ped_steps.specs.Tidy.{is_written_in};
ghost use Rattle.ped_loop_runs.specs.Carried.{MakeConflict, IsCoveredAt, IsCarriedInside, AreInTrips, IsCarriedByLoop, AreTrips, AllStoreWithin, NoneMeetOn, NoneOfScalarsCarriedBy};

use ped_bodies::{accesses_are_made, accesses_in_sequence};

/// Two references that make conflicting accesses: in two iterations of one loop, inside the same iterations of the
/// loops around it, a dependence between them is carried by that loop, among the dependences of any pairs of which
/// theirs is one; and in the same iterations of all loops around both, where the first is before the second in the
/// text, one is independent of loops (Allen and Kennedy, section 2.2.5). Nothing is asked of the run in which the
/// accesses come.
pub fn meetings_are_carried()
    ensures carried { (t : ProgramTree) (first : Store) (a b : Access) (source sink : Reference) → MakeConflict t first a b source sink → (ps : List (Reference × Reference)) (edges : List Edge) → IsIn (source, sink) ps → EdgesOfPairs t ps edges → (outer is js : List Turn) (i j : Turn) → a.place.turns ≡ outer ++ i ∷ is → b.place.turns ≡ outer ++ j ∷ js → AreSuccessive t i j → IsCarriedInside t edges outer is js a b }
    ensures independent { (t : ProgramTree) (first : Store) (a b : Access) (source sink : Reference) → MakeConflict t first a b source sink → (ps : List (Reference × Reference)) (edges : List Edge) → IsIn (source, sink) ps → EdgesOfPairs t ps edges → (outer is js : List Turn) → 0 < length outer → a.place.turns ≡ outer ++ is → b.place.turns ≡ outer ++ js → share_a_loop is js ≡ false → IsBeforeInText a b → IsCoveredAt t edges None a b }
{}

/// Where two accesses of a run that references make conflict in two iterations of one execution of a DO, a dependence
/// between them is carried by that DO: its level is that of the DO, both its statements are in the body, and one of its
/// vectors has `=` for the loops around the DO, `<` for the DO, and then the directions in which the two are in the
/// loops in it (Allen and Kennedy, section 2.2.5). For finding the dependence that forbids another order of iterations.
pub fn trips_are_carried()
    ensures { (t : ProgramTree) (data_bytes : List ℕ) → IsValid t → (edges : List Edge) → AreEdges t edges → (l : ℕ) (loop : LoopOf t l) (a b : Access) (outer : List Turn) (i j : Turn) (is js : List Turn) → ComeInRun t data_bytes a b → conflict a b ≡ true → 0 < a.reference → 0 < b.reference → AreInTrips l outer i j is js a b → IsCarriedByLoop t edges l loop.body outer is js a b }
{
    accesses_are_made();
    accesses_in_sequence();
}

/// Where no dependence that a DO carries occurs in a run, the acts of two of its iterations in one execution don't
/// conflict there, but on cells in which DO loops store of themselves. For iterations in another order, or all at once.
pub fn trips_dont_conflict()
    ensures { (t : ProgramTree) (data_bytes : List ℕ) → IsValid t → (edges : List Edge) → AreEdges t edges → (l : ℕ) (loop : LoopOf t l) (idle : Cell → Bool) (earlier later : List Act) → NoneMeetOn t edges data_bytes l loop.body → AreTrips t data_bytes l earlier later → AllStoreWithin idle earlier → AllStoreWithin idle later → blocks_conflict_outside idle earlier later ≡ false }
{
    accesses_are_made();
    accesses_in_sequence();
}

/// Where a DO carries no dependence of a scalar, no reference in its body writes its variable, nor that of a DO in it.
/// For such a write belongs to no DO, as no DO may have the variable of a DO around it or in it among its PRIVATE names,
/// or else the DO that has it there writes it in its own header; and a write of a scalar that belongs to no DO depends
/// on itself, from each iteration to the next (Allen and Kennedy, section 2.2.1). So a loop may become a PARALLEL DO,
/// whose iterations have copies of these variables.
pub fn indices_unwritten()
    ensures { (t : ProgramTree) → IsValid t → (edges : List Edge) → AreEdges t edges → (l : ℕ) (loop : LoopOf t l) → NoneOfScalarsCarriedBy t edges l loop.body → (w : List ℕ) → IsIndexIn t l w → is_written_in t l loop.body w ≡ false }
{}
