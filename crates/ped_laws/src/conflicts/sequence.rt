//! The order of accesses in a run.

ghost use Rattle.std.specs.Prelude.{◌<◌, ℕ, List};
ghost use Rattle.ped_flow.specs.ped_tree.specs.Tree.{ProgramTree};
ghost use Rattle.ped_graph.specs.ped_symbols.specs.NameRefusals.{IsValid};
ghost use Rattle.ped_eval.specs.ped_store.specs.Races.{Access};
ghost use Rattle.ped_laws.specs.Conflicts.Sequence.{ComesBefore};
ghost use Rattle.ped_laws.specs.Conflicts.Covered.{ComeInRun};

/// Of two accesses of a run that references make, the earlier one is in an earlier iteration of the outermost loop
/// around both in whose iterations they differ; in the same iterations of all of them it is before the other in the
/// text, but for what a DO makes undefined when it is left.
pub fn accesses_in_sequence()
    ensures { (t : ProgramTree) (data_bytes : List ℕ) (a b : Access) → IsValid t → ComeInRun t data_bytes a b → 0 < a.reference → 0 < b.reference → ComesBefore t a b a.place.turns b.place.turns }
{}
