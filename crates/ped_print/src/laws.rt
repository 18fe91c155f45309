//! What the definitions of printing determine. The function does nothing; its contract is the law.

ghost use Rattle.std.specs.Prelude.{◌≡◌};
ghost use Rattle.ped_tree.specs.Tree.{ProgramTree};
ghost use Rattle.ped_tree.specs.Numbering.{statements_count};
ghost use Rattle.ped_tree.specs.Printing.{begun_in, program_lines};

/// Each numbered statement begins on one printed line.
pub fn statements_begin_once()
    ensures { (t : ProgramTree) → begun_in (program_lines t) ≡ statements_count t.body }
{}
