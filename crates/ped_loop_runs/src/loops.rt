//! One loop in place of another.

ghost use Rattle.std.specs.Prelude.{ℕ, List, Bool};
ghost use Rattle.ped_bodies.specs.ped_flow.specs.ped_tree.specs.Tree.{Head, ProgramTree};
ghost use Rattle.ped_bodies.specs.ped_flow.specs.Questions.{LoopOf};
ghost use Rattle.ped_bodies.specs.ped_graph.specs.Dependences.{AreEdges};
ghost use Rattle.ped_bodies.specs.ped_edges.specs.Edges.{Edge};
ghost use Rattle.ped_bodies.specs.ped_eval.specs.Outcomes.{IsRaceFree};
ghost use Rattle.ped_bodies.specs.ped_steps.specs.Runs.Meaning.{Keeps};
ghost use Rattle.ped_loop_runs.specs.Carried.{NoneMeetOn};
ghost use Rattle.ped_loop_runs.specs.Meaning.{KeepsOn};
ghost use Rattle.ped_loop_runs.specs.OneForOne.{IsReordered, IsOneForOne};

use ped_bodies::{accesses_are_made, accesses_in_sequence};

/// A program keeps its meaning where a DO gives way to one with the same body and the same iterations, in the same order
/// or from the last to the first, if no dependence that it carries occurs where their order changes or where it becomes
/// a PARALLEL DO (Allen and Kennedy, sections 2.2.3, 2.4): on data on which that is so, and on all data where it is so
/// on each. For loops that are reversed, made parallel or made serial.
pub fn one_for_one()
    ensures on_data { (t u : ProgramTree) (l : ℕ) (loop : LoopOf t l) (h : Head) (reversed : Bool) → IsOneForOne t u l loop h reversed → (data_bytes : List ℕ) → (IsReordered loop.head h reversed → (edges : List Edge) → AreEdges t edges → NoneMeetOn t edges data_bytes l loop.body) → IsRaceFree t data_bytes → KeepsOn t u data_bytes }
    ensures always { (t u : ProgramTree) (l : ℕ) (loop : LoopOf t l) (h : Head) (reversed : Bool) → IsOneForOne t u l loop h reversed → ((data_bytes : List ℕ) → IsReordered loop.head h reversed → (edges : List Edge) → AreEdges t edges → NoneMeetOn t edges data_bytes l loop.body) → Keeps t u }
{
    accesses_are_made();
    accesses_in_sequence();
}
