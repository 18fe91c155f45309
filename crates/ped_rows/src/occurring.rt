//! Proven dependences occur.

ghost use Rattle.std.specs.Prelude.{◌≡◌, ℕ, List};
ghost use Rattle.ped_laws.specs.ped_graph.specs.ped_views.specs.declared.directions.Direction.{Direction};
ghost use Rattle.ped_laws.specs.ped_flow.specs.ped_tree.specs.Tree.{ProgramTree};
ghost use Rattle.ped_laws.specs.ped_graph.specs.ped_symbols.specs.NameRefusals.{IsValid};
ghost use Rattle.ped_laws.specs.ped_graph.specs.ped_refs.specs.References.{Reference, references, outermost};
ghost use Rattle.ped_laws.specs.ped_graph.specs.ped_edges.specs.Edges.{Edge, proven};
ghost use Rattle.ped_laws.specs.ped_graph.specs.Dependences.{AreEdges, place_of};
ghost use Rattle.ped_laws.specs.ped_eval.specs.ped_store.specs.Stores.{Store};
ghost use Rattle.ped_laws.specs.ped_eval.specs.Runs.{going};
ghost use Rattle.ped_laws.specs.ped_eval.specs.Outcomes.{run_of};
ghost use Rattle.ped_laws.specs.Acts.Orders.{IsIn};
ghost use Rattle.ped_rows.specs.Occurring.{IsUncopied, IsLeft, Occurs};

use ped_laws::conflicts::{accesses_are_made, accesses_in_sequence};

/// A proven dependence occurs in each run that leaves the outermost loop around its references. It occurs in each of
/// its directions, whatever the data are and whatever comes after (Allen and Kennedy, section 2.2.1). Its name may not
/// be the variable of a PARALLEL DO around one of the references, nor of a DO in such a loop, since iterations have
/// their own copies of these. A run that ends by END has left all loops.
pub fn proven_dependences_occur()
    ensures left { (t : ProgramTree) (data_bytes : List ℕ) (edges : List Edge) (e : Edge) (vector : List Direction) → IsValid t → AreEdges t edges → IsIn e edges → e.mark ≡ proven → IsIn vector e.vectors → IsUncopied t e → ((r : Reference) → IsIn r (references t) → place_of r ≡ e.source → IsLeft t data_bytes (outermost r)) → Occurs t data_bytes e vector }
    ensures ended { (t : ProgramTree) (data_bytes : List ℕ) (edges : List Edge) (e : Edge) (vector : List Direction) (s : Store) → IsValid t → AreEdges t edges → IsIn e edges → e.mark ≡ proven → IsIn vector e.vectors → IsUncopied t e → (run_of t data_bytes).ending ≡ going s → Occurs t data_bytes e vector }
{
    accesses_are_made();
    accesses_in_sequence();
}
