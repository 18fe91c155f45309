//! Texts read as programs.

ghost use Rattle.std.specs.Prelude.{◌≡◌, ℕ, List, None, IfOk, IfErr, map};
ghost use Rattle.ped_tree.specs.Views.{program_tree};
ghost use Rattle.ped_tree.specs.Grammar.Grouping.{statements_of};
ghost use Rattle.ped_tree.specs.Grammar.LineRefusals.{first_line_refusal};
ghost use Rattle.ped_tree.specs.Grammar.Reading.{Reads, HasFirstLines};
ghost use Rattle.ped_tree.specs.Grammar.StatementViews.{statement_of, statements_view};
ghost use Rattle.ped_statements.specs.ped_expressions.specs.ExpressionReading.{saturated};
ghost use Rattle.ped_statements.specs.Saturated.{IsReadAs};
ghost use Rattle.ped_tree.specs.Grammar.ItemViews.{entry_of};
ghost use Rattle.ped_printed.specs.Programs.PrintedPrograms.{PrintsItself};
ghost use Rattle.ped_parse.specs.Entries.{AreReadAs};
ghost use Rattle.ped_parse.specs.Refusals.{IsRefusalOf};

use crate::refusals::ReadRefusal;
use ped_base::NoMemory;
use ped_blocks::program_of;
use ped_lines::{LinesError, statements};
use ped_refusals::{first_refusal, saved_names};
use ped_statements::read_statement;
use ped_tree::Program;
use ped_tree::grammar::{Entry, Statement, Statements};
use std::alloc::Global;

/// The program that the text reads as, with the first lines of its declarations, its numbered statements
/// and its PRIVATE statements; or the text's first refusal. A program that is read is what its printed
/// text says: that text reads as this program, and as no other.
///
/// # Errors
///
/// `At` exactly where the text is refused, with its first refusal: one of 1 to 6, which are of lines, where there
/// is any, and else one of 7 to 13, which are of statements; among these the least line and then the least number.
/// `NoMemory` where memory runs out.
pub fn read(alloc: Global, text: &[u8]) -> Result<Program, ReadRefusal>
    ensures tree { IfOk result (λ p. Reads text.now (program_tree p)) }
    ensures lines { IfOk result (λ p. HasFirstLines text.now p.lines.items) }
    ensures printed { IfOk result (λ p. PrintsItself (program_tree p)) }
    ensures refused { IfErr result (λ e. IsRefusalOf text.now e) }
{
    match statements(alloc, text) {
        Ok(cut) => nested(alloc, cut),
        Err(LinesError::Refused(refusal)) => Err(ReadRefusal::At(refusal)),
        Err(LinesError::NoMemory) => Err(ReadRefusal::NoMemory),
    }
}

/// The program that the statements of a text nest to, or the first refusal among them.
fn nested(alloc: Global, cut: Statements) -> Result<Program, ReadRefusal>
    ensures tree { IfOk result (λ p. (text : List ℕ) → first_line_refusal text ≡ None → statements_view cut ≡ statements_of text → Reads text (program_tree p)) }
    ensures lines { IfOk result (λ p. (text : List ℕ) → first_line_refusal text ≡ None → statements_view cut ≡ statements_of text → HasFirstLines text p.lines.items) }
    ensures refused { IfErr result (λ e. (text : List ℕ) → first_line_refusal text ≡ None → statements_view cut ≡ statements_of text → IsRefusalOf text e) }
{
    let entries = entries(alloc, cut.statements.into_vec())?;
    let saved = saved_names(alloc, &entries)?;
    match first_refusal(
        alloc,
        &entries,
        cut.directives.as_slice(),
        cut.lines,
        &saved,
    )? {
        Some(refusal) => Err(ReadRefusal::At(refusal)),
        None => Ok(program_of(alloc, entries, &saved)?),
    }
}

/// The statements with what they say, one by one.
fn entries(alloc: Global, statements: Vec<Statement>) -> Result<Vec<Entry>, NoMemory>
    ensures { IfOk result (λ entries. AreReadAs (map statement_of statements.items) (map entry_of entries.items)) }
{
    let mut entries = Vec::new(alloc);
    for statement in statements {
        entries.push(entry(alloc, statement)?)?;
    }
    Ok(entries)
}

/// The statement with what it says.
fn entry(alloc: Global, statement: Statement) -> Result<Entry, NoMemory>
    ensures { IfOk result (λ entry. ((entry_of entry).statement ≡ statement_of statement) × IsReadAs saturated (statement_of statement).text (entry_of entry).reading) }
{
    let reading = read_statement(alloc, statement.text.as_slice())?;
    Ok(Entry { statement, reading })
}
