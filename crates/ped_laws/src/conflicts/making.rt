//! Which reference makes an access of a run.

ghost use Rattle.std.specs.Prelude.{ℕ, List};
ghost use Rattle.ped_flow.specs.ped_tree.specs.Tree.{ProgramTree};
ghost use Rattle.ped_graph.specs.ped_symbols.specs.NameRefusals.{IsValid};
ghost use Rattle.ped_eval.specs.ped_store.specs.Stores.{Store};
ghost use Rattle.ped_laws.specs.Conflicts.Making.{AreMade};

/// Each access of a run of a valid program that a reference makes in a DO is made by a reference of the program: of
/// that statement, with that number and to that cell, in iterations that the run has entered and in a store of the
/// execution of the outermost DO around it.
pub fn accesses_are_made()
    ensures { (t : ProgramTree) (data_bytes : List ℕ) → IsValid t → (first : ℕ → Store) × AreMade t data_bytes first }
{}
