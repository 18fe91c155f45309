//! What the printed text of a single statement or declaration reads as. Each function here does
//! nothing; its contract is the law.

ghost use Rattle.ped_printed.specs.Statements.Printed.{DeclarationPrints, SavePrints, StatementPrints, PrivatePrints, WordsPrint};

/// The printed text of a declaration that some text reads as, with no literal above 2147483647, reads
/// as it and as nothing else, with any number of blanks before and after it.
pub fn printed_declaration()
    ensures { DeclarationPrints }
{}

/// The same of the SAVE statement with a list that a SAVE statement without one stands for.
pub fn printed_save()
    ensures { SavePrints }
{}

/// The same of the first printed line of an executable statement. Each IF is printed as a block IF, and
/// each DO without a label.
pub fn printed_statement()
    ensures { StatementPrints }
{}

/// The same of the PRIVATE statement of a DO loop.
pub fn printed_private()
    ensures { PrivatePrints }
{}

/// The same of ELSE, END IF, END DO and END.
pub fn printed_words()
    ensures { WordsPrint }
{}
