//! One pass over the lines of a text. Each line begins or continues a statement, or is a note. A note goes with the
//! statement after it, or with the one that a later line continues. The same pass looks for refusals; the first may be
//! at a statement whose last line is still to come.

ghost use Rattle.std.specs.Prelude.{◌≡◌, ◌-◌, ◌++◌, [], ℕ, List, None, map, true, false, IfOk, IfErr};
ghost use Rattle.ped_tree.specs.Grammar.Columns as Columns;
ghost use Rattle.ped_tree.specs.Grammar.Grouping.{statements_of};
ghost use Rattle.ped_tree.specs.Grammar.LineRefusals.{first_line_refusal};
ghost use Rattle.ped_tree.specs.Grammar.Refusal.{earliest};
ghost use Rattle.ped_tree.specs.Grammar.StatementViews.{statement_of, statements_view};
ghost use Rattle.ped_lines.specs.Errors.{IsErrorOf};
ghost use Rattle.ped_tree.specs.Grammar.RefusalViews.{found_of};
ghost use Rattle.ped_lines.specs.Cutting.{left_open, cut_with, ended, ended_statement, WithColumns, WithLine};

use crate::characters::OpenText;
use crate::columns::{is_comment, is_continuation, label_of, statement_columns};
use crate::errors::LinesError;
use crate::notes::push_note;
use crate::refusals::{Role, at_line};
use crate::text_lines::first_line;
use ped_base::{Listed, NoMemory};
use ped_tree::grammar::{NoteLine, Refusal, RefusalKind, Statement, Statements, standing};
use std::alloc::Global;

/// The most continuation lines of a statement (section 3.3).
const MOST_CONTINUATIONS: u64 = 19;

/// A statement that may go on.
#[derive(Drop)]
pub struct OpenStatement {
    /// The number of its first line.
    pub line: u64,
    /// Its label.
    pub label: Option<u32>,
    /// How many continuation lines may still come.
    pub left: u64,
    /// Its text so far.
    pub text: OpenText,
    /// The comments before and within it.
    pub comments: Vec<NoteLine>,
    /// The directives before and within it.
    pub directives: Vec<NoteLine>,
}

/// What has been cut and found so far.
#[derive(Drop)]
pub struct Cutting {
    /// The first refusal.
    pub found: Option<Refusal>,
    /// The statements that are complete.
    pub done: Vec<Statement>,
    /// The statement that was begun last.
    pub current: Option<OpenStatement>,
    /// The comments after the last line of a statement.
    pub comments: Vec<NoteLine>,
    /// The directives after the last line of a statement.
    pub directives: Vec<NoteLine>,
}

/// The statements of a text of fixed form, or its first refusal. Each has its line, its label, its text, and the
/// comments and directives that go with it.
pub fn statements(alloc: Global, text: &[u8]) -> Result<Statements, LinesError>
    ensures ok { IfOk result (λ s. (first_line_refusal text.now ≡ None) × (statements_view s ≡ statements_of text.now)) }
    ensures err { IfErr result (λ e. IsErrorOf text.now e) }
{
    let mut cutting = Cutting {
        found: None,
        done: Vec::new(alloc),
        current: None,
        comments: Vec::new(alloc),
        directives: Vec::new(alloc),
    };
    let mut rest = text;
    let mut number = 0;
    while let Some((line, more)) = first_line(rest) {
        number += 1;
        cutting = with_line(cutting, alloc, number, line)?;
        rest = more;
    }
    match at_end(cutting.found, &cutting.current) {
        Some(refusal) => Err(LinesError::Refused(refusal)),
        None => Ok(finished(cutting, alloc, number)?),
    }
}

fn with_line(cutting: Cutting, alloc: Global, number: u64, line: &[u8]) -> Result<Cutting, NoMemory>
    ensures { IfOk result (WithLine cutting number line.now) }
{
    if is_comment(line) {
        return with_note(cutting, alloc, number, line);
    }
    if is_continuation(line) {
        return with_continuation(cutting, alloc, number, line);
    }
    with_initial(cutting, alloc, number, line)
}

fn with_note(cutting: Cutting, alloc: Global, number: u64, line: &[u8]) -> Result<Cutting, NoMemory>
    requires { Columns.is_comment line.now ≡ true }
    ensures { IfOk result (WithLine cutting number line.now) }
{
    let mut cutting = cutting;
    push_note(
        alloc,
        &mut cutting.comments,
        &mut cutting.directives,
        number,
        line,
    )?;
    Ok(cutting)
}

fn with_continuation(
    cutting: Cutting,
    alloc: Global,
    number: u64,
    line: &[u8],
) -> Result<Cutting, NoMemory>
    requires comment { Columns.is_comment line.now ≡ false }
    requires continues { Columns.is_continuation line.now ≡ true }
    ensures { IfOk result (WithLine cutting number line.now) }
{
    let Cutting {
        found,
        done,
        current,
        comments,
        directives,
    } = cutting;
    match current {
        None => {
            let orphan = OpenText::new(alloc)?.with_columns(&statement_columns(line))?;
            Ok(Cutting {
                found: at_line(found, number, Role::Orphan, line, orphan.bad),
                done,
                current: None,
                comments: Vec::new(alloc),
                directives: Vec::new(alloc),
            })
        }
        Some(begun) => {
            let role = Role::Continuation(begun.left);
            let continued = continued(begun, line, comments, directives)?;
            Ok(Cutting {
                found: at_line(found, number, role, line, continued.text.bad),
                done,
                current: Some(continued),
                comments: Vec::new(alloc),
                directives: Vec::new(alloc),
            })
        }
    }
}

/// The statement with one more line, and with the notes before that line.
fn continued(
    begun: OpenStatement,
    line: &[u8],
    comments: Vec<NoteLine>,
    directives: Vec<NoteLine>,
) -> Result<OpenStatement, NoMemory>
    ensures same { IfOk result (λ o. (o.line ≡ begun.line) × (o.label ≡ begun.label) × (o.left ≡ begun.left - 1)) }
    ensures text { IfOk result (λ o. WithColumns begun.text (Columns.statement_columns line.now) o.text) }
    ensures comments { IfOk result (λ o. o.comments.items ≡ begun.comments.items ++ comments.items) }
    ensures directives { IfOk result (λ o. o.directives.items ≡ begun.directives.items ++ directives.items) }
{
    let mut all_comments = begun.comments;
    let mut all_directives = begun.directives;
    let mut comments = comments;
    let mut directives = directives;
    all_comments.append(&mut comments)?;
    all_directives.append(&mut directives)?;
    Ok(OpenStatement {
        line: begun.line,
        label: begun.label,
        left: begun.left.saturating_sub(1),
        text: begun.text.with_columns(&statement_columns(line))?,
        comments: all_comments,
        directives: all_directives,
    })
}

fn with_initial(
    cutting: Cutting,
    alloc: Global,
    number: u64,
    line: &[u8],
) -> Result<Cutting, NoMemory>
    requires comment { Columns.is_comment line.now ≡ false }
    requires continues { Columns.is_continuation line.now ≡ false }
    ensures { IfOk result (WithLine cutting number line.now) }
{
    let found = at_end(cutting.found, &cutting.current);
    let begun = OpenStatement {
        line: number,
        label: label_of(line),
        left: MOST_CONTINUATIONS,
        text: OpenText::new(alloc)?.with_columns(&statement_columns(line))?,
        comments: cutting.comments,
        directives: cutting.directives,
    };
    Ok(Cutting {
        found: at_line(found, number, Role::Initial, line, begun.text.bad),
        done: completed(cutting.done, alloc, cutting.current)?,
        current: Some(begun),
        comments: Vec::new(alloc),
        directives: Vec::new(alloc),
    })
}

/// The first refusal, where the statement that was begun last has no further line.
fn at_end(found: Option<Refusal>, current: &Option<OpenStatement>) -> Option<Refusal>
    ensures { found_of result ≡ earliest (found_of found) (left_open current.now) }
{
    match current {
        None => found,
        Some(open) => standing(
            found,
            open.text.is_open(),
            RefusalKind::OpenConstant,
            open.line,
        ),
    }
}

/// The statements with the one that was begun last, which has no further line.
fn completed(
    done: Vec<Statement>,
    alloc: Global,
    current: Option<OpenStatement>,
) -> Result<Vec<Statement>, NoMemory>
    ensures { IfOk result (λ all. map statement_of all.items ≡ map statement_of done.items ++ ended current) }
{
    let mut all = done;
    if let Some(begun) = current {
        all.push(statement(begun, alloc)?)?;
    }
    Ok(all)
}

/// The statement, its text without the room to grow.
fn statement(begun: OpenStatement, alloc: Global) -> Result<Statement, NoMemory>
    ensures { IfOk result (λ s. statement_of s ≡ ended_statement begun) }
{
    Ok(Statement {
        line: begun.line,
        label: begun.label,
        text: Listed::from_vec(Vec::from_slice(alloc, &begun.text.bytes)?),
        comments: Listed::from_vec(begun.comments),
        directives: Listed::from_vec(begun.directives),
    })
}

fn finished(cutting: Cutting, alloc: Global, lines: u64) -> Result<Statements, NoMemory>
    ensures { IfOk result (λ s. (n : ℕ) → statements_view s ≡ cut_with cutting n [] lines) }
{
    Ok(Statements {
        statements: Listed::from_vec(completed(cutting.done, alloc, cutting.current)?),
        comments: Listed::from_vec(cutting.comments),
        directives: Listed::from_vec(cutting.directives),
        lines,
    })
}
