//! What becomes of printed statements when their lines are read. Each function here does nothing; its
//! contract is the law.

ghost use Rattle.std.specs.Prelude.{◌≡◌, List, None};
ghost use Rattle.ped_tree.specs.Tree.{ProgramTree};
ghost use Rattle.ped_tree.specs.Printing.{program_text};
ghost use Rattle.ped_tree.specs.Grammar.Grouping.{statements_of};
ghost use Rattle.ped_tree.specs.Grammar.LineRefusals.{first_line_refusal};
ghost use Rattle.ped_lines.specs.Printed.Printed.{PrintedStatement, printed_text};
ghost use Rattle.ped_lines.specs.Printed.Fitting.{StatementsFit};
ghost use Rattle.ped_lines.specs.Printed.Cut.{cut};
ghost use Rattle.ped_lines.specs.Printed.Parts.{printed_statements};

/// The text of printed statements has no line that is refused, and is cut into these statements.
pub fn printed_statements_are_cut()
    ensures not_refused { (ss : List PrintedStatement) → StatementsFit ss → first_line_refusal (printed_text ss) ≡ None }
    ensures statements { (ss : List PrintedStatement) → StatementsFit ss → statements_of (printed_text ss) ≡ cut ss }
{}

/// The printed text of a program is the text of its printed statements.
pub fn program_text_is_printed()
    ensures { (t : ProgramTree) → program_text t ≡ printed_text (printed_statements t) }
{}
