//! One statement that is replaced.

ghost use Rattle.std.specs.Prelude.{◌≡◌, ℕ, Some};
ghost use Rattle.ped_loop_runs.specs.Statements.{GivesWay};
ghost use Rattle.ped_bodies.specs.ped_flow.specs.ped_tree.specs.Numbering.{statement_with};
ghost use Rattle.ped_bodies.specs.ped_flow.specs.ped_tree.specs.Tree.{StmtTree, StmtTrees, ProgramTree};

/// Each statement of a program fills a gap by itself, and others fill it in the program that has these in its place. For
/// steps that exchange one loop.
pub fn statement_gives_way()
    ensures { (by : StmtTree → StmtTrees) (l : ℕ) (s : StmtTree) (t : ProgramTree) → statement_with l t ≡ Some s → GivesWay by l s t }
{}
