//! Programs without C$PED REJECT. The functions do nothing; their contracts are the laws.

ghost use Rattle.std.specs.Prelude.{◌≡◌, ℕ, List, Bool, false};
ghost use Rattle.ped_bodies.specs.ped_flow.specs.ped_tree.specs.Tree.{StmtTree, StmtTrees, ProgramTree};
ghost use Rattle.ped_bodies.specs.ped_graph.specs.Dependences.{EdgesOfPairs, AreEdges};
ghost use Rattle.ped_bodies.specs.ped_edges.specs.Edges.{Edge, rejected};
ghost use Rattle.ped_bodies.specs.ped_laws.specs.Acts.Orders.{IsIn};
ghost use Rattle.ped_bodies.specs.ped_refs.specs.References.{Reference, references};
ghost use Rattle.ped_bodies.specs.ped_steps.specs.Replacing.{program_with};
ghost use Rattle.ped_bodies.specs.ped_steps.specs.Runs.Gaps.{Gap, filled};
ghost use Rattle.ped_loop_runs.specs.Unrejected.{has_rejection, some_rejection};
ghost use Rattle.ped_loop_runs.specs.TrueRejections.{IsTrueOn};

/// No dependence of a program without C$PED REJECT is marked as rejected (ParaScope): so what forbids a step there, no
/// line of the user puts aside, and on all data it is true what these lines say. The same of any pairs of references of it.
pub fn none_rejected()
    ensures edges { (t : ProgramTree) (edges : List Edge) → some_rejection t.body ≡ false → AreEdges t edges → (e : Edge) → IsIn e edges → e.mark ≡ rejected → ⊥ }
    ensures of_pairs { (t : ProgramTree) (ps : List (Reference × Reference)) (edges : List Edge) → some_rejection t.body ≡ false → ((p : Reference × Reference) → IsIn p ps → IsIn p.0 (references t)) → EdgesOfPairs t ps edges
        → (e : Edge) → IsIn e edges → e.mark ≡ rejected → ⊥ }
    ensures true_on { (t : ProgramTree) (data_bytes : List ℕ) → some_rejection t.body ≡ false → IsTrueOn t data_bytes }
{}

/// A program without C$PED REJECT stays so where statements without it come in the place of others.
pub fn stays_unrejected()
    ensures filled { (gap : Gap) (old new : StmtTrees) → (some_rejection old ≡ false → some_rejection new ≡ false) → some_rejection (filled gap old) ≡ false → some_rejection (filled gap new) ≡ false }
    ensures replaced { (by : StmtTree → StmtTrees) (s : ℕ) (t : ProgramTree) → ((x : StmtTree) → has_rejection x ≡ false → some_rejection (by x) ≡ false) → some_rejection t.body ≡ false → some_rejection (program_with by s t).body ≡ false }
{}
