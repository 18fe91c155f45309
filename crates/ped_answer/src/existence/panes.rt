//! Dependences and panes of programs. Each function here does nothing; its contract is the law.

ghost use Rattle.std.specs.Prelude.{ℕ, List, Option};
ghost use Rattle.ped_tree.specs.Tree.{ProgramTree};
ghost use Rattle.ped_session.specs.ped_rules.specs.ped_edges.specs.Edges.{Edge};
ghost use Rattle.ped_session.specs.ped_graph.specs.Dependences.{AreEdges};
ghost use Rattle.ped_session.specs.ped_graph.specs.DependencePane.{IsDependencePane, IsDependencePaneOf};
ghost use Rattle.ped_session.specs.ped_transformations.specs.ped_inline.specs.CallsPane.{IsCallsPane};

/// Each program has its dependences: each pair of its references has the vectors of its view.
pub fn dependences_exist()
    ensures { (t : ProgramTree) → (edges : List Edge) × AreEdges t edges }
{}

/// Each program has a dependence pane. That it has no second one says `one_dependence_pane` of ped_graph.
pub fn dependence_pane_exists()
    ensures { (t : ProgramTree) → (pane : List ℕ) × IsDependencePane t pane }
{}

/// Each program has a dependence pane of each of its statements, too.
pub fn dependence_pane_of_exists()
    ensures { (t : ProgramTree) (of : Option ℕ) → (pane : List ℕ) × IsDependencePaneOf t of pane }
{}

/// Each program has a pane of calls. That it has no second one says `one_calls_pane` of ped_inline.
pub fn calls_pane_exists()
    ensures { (t : ProgramTree) → (pane : List ℕ) × IsCallsPane t pane }
{}
