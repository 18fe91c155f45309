//! Files read as program units, or refused by the rules 1 to 13.

ghost use Rattle.std.specs.Prelude.{◌≡◌, ◌++◌, ◌∷◌, [], ℕ, List, None, IfOk, IfErr, map};
ghost use Rattle.ped_tree.specs.Grammar.Grouping.{statements_of};
ghost use Rattle.ped_tree.specs.Grammar.LineRefusals.{first_line_refusal};
ghost use Rattle.ped_tree.specs.Grammar.Refusal.{first_of};
ghost use Rattle.ped_tree.specs.Grammar.RefusalViews.{finding_of, found_of};
ghost use Rattle.ped_tree.specs.Grammar.Statement.{Statements as PlainStatements};
ghost use Rattle.ped_tree.specs.Grammar.StatementViews.{note_of, statement_of, statements_view};
ghost use Rattle.ped_expressions.specs.ExpressionReading.{saturated};
ghost use Rattle.ped_valid.specs.ped_parse.specs.ped_lines.specs.Errors.{IsErrorOf};
ghost use Rattle.ped_units.specs.Units.{ProgramUnit as PlainUnit, ProgramUnits, all_units};
ghost use Rattle.ped_units.specs.Reading.{Segment as PlainSegment, segments_of, is_subroutine, IsHeaded};
ghost use Rattle.ped_units.specs.Refusals.{ReadsUnits, segments_refusals};
ghost use Rattle.ped_units.specs.Seeing.{AreItemsReadAs, HeadsUnit, IsReadUnit, AreReadUnits, AreReadEach, IsBuiltOf, AreBuiltOf, combined};
ghost use Rattle.ped_units.specs.Naming.{IsFound};
ghost use Rattle.ped_units.specs.UnitReading.{IsItemReadAs};
ghost use Rattle.ped_units.specs.Verdicts.{found_in_text, RefusesUnits};
ghost use Rattle.ped_units.specs.Views.{unit_entry_of, head_of, segment_of, program_unit_of, IsUnitRefusalOf};

use crate::forms::read_unit_item;
use crate::items::{UnitEntry, UnitItem};
use crate::refusals::{UnitFinding, UnitRefusal, UnitRule};
use crate::seen::{Seen, seen_statements};
use crate::segments::{Segment, segments};
use crate::unit_refusals::other_refusal;
use crate::units::ProgramUnit;
use ped_base::{Name, Names, NoMemory};
use ped_blocks::program_of;
use ped_lines::{LinesError, statements};
use ped_refusals::{first_refusal, saved_names};
use ped_tree::grammar::{NoteLine, Refusal, Statement, Statements, standing};
use std::alloc::Global;

/// A unit as its statements are read, with its first refusal.
#[derive(Drop)]
struct ReadUnit {
    head: Heading,
    seen: Seen,
    saved: Names,
    first: Option<Refusal>,
}

/// What a SUBROUTINE statement says; nothing of a main program.
#[derive(Drop)]
struct Heading {
    name: Option<Name>,
    formals: Names,
    line: u64,
}

/// The program units that the text reads as, the main program first.
///
/// # Errors
///
/// `At` exactly where a rule of lines or of statements is broken, with the first; `NoMemory` where memory runs out.
pub fn read_units(alloc: Global, text: &[u8]) -> Result<Vec<ProgramUnit>, UnitRefusal>
    ensures units { IfOk result (λ units. (us : ProgramUnits) × ReadsUnits text.now us × (map program_unit_of units.items ≡ all_units us)) }
    ensures refused { IfErr result (λ e. IsUnitRefusalOf text.now e) }
{
    match statements(alloc, text) {
        Ok(cut) => nested(alloc, cut),
        Err(error) => Err(of_lines(error)),
    }
}

/// Why a text whose lines aren't read isn't opened.
fn of_lines(error: LinesError) -> UnitRefusal
    ensures { (text : List ℕ) → IsErrorOf text error → IsUnitRefusalOf text result }
{
    match error {
        LinesError::Refused(refusal) => at(refusal),
        LinesError::NoMemory => UnitRefusal::NoMemory,
    }
}

/// The program units that the statements of a text nest to, or the first refusal among them.
fn nested(alloc: Global, cut: Statements) -> Result<Vec<ProgramUnit>, UnitRefusal>
    ensures units { IfOk result (λ units. (text : List ℕ) → first_line_refusal text ≡ None → statements_view cut ≡ statements_of text
        → (us : ProgramUnits) × ReadsUnits text us × (map program_unit_of units.items ≡ all_units us)) }
    ensures refused { IfErr result (λ e. (text : List ℕ) → first_line_refusal text ≡ None → statements_view cut ≡ statements_of text → IsUnitRefusalOf text e) }
{
    let entries = entries(alloc, cut.statements.into_vec())?;
    let units = read_all(alloc, entries, cut.directives.as_slice(), cut.lines)?;
    match first_of_all(&units) {
        Some(refusal) => Err(at(refusal)),
        None => Ok(built(alloc, units)?),
    }
}

/// A refusal of texts as one of files of program units.
pub fn at(refusal: Refusal) -> UnitRefusal
    ensures found { IsFound (finding_of refusal) result }
    ensures refuses { (text : List ℕ) → RefusesUnits text (found_in_text (finding_of refusal)) → IsUnitRefusalOf text result }
{
    UnitRefusal::At(UnitFinding {
        rule: UnitRule::Text(refusal.kind),
        line: refusal.line,
    })
}

/// The statements with what they are, one by one.
fn entries(alloc: Global, statements: Vec<Statement>) -> Result<Vec<UnitEntry>, NoMemory>
    ensures { IfOk result (λ entries. AreItemsReadAs (map statement_of statements.items) (map unit_entry_of entries.items)) }
{
    let mut entries = Vec::new(alloc);
    for statement in statements {
        entries.push(entry(alloc, statement)?)?;
    }
    Ok(entries)
}

/// The statement with what it is.
fn entry(alloc: Global, statement: Statement) -> Result<UnitEntry, NoMemory>
    ensures { IfOk result (λ e. ((unit_entry_of e).statement ≡ statement_of statement) × IsItemReadAs saturated (statement_of statement).text (unit_entry_of e).item) }
{
    let item = read_unit_item(alloc, statement.text.as_slice())?;
    Ok(UnitEntry { statement, item })
}

/// The units of a file with their first refusals, where these directives follow its last statement and it has this
/// many lines.
fn read_all(
    alloc: Global,
    entries: Vec<UnitEntry>,
    directives: &[NoteLine],
    lines: u64,
) -> Result<Vec<ReadUnit>, NoMemory>
    ensures { IfOk result (λ units. (all : PlainStatements) → all.lines ≡ lines → all.directives ≡ map note_of directives.now
        → AreReadUnits all (segments_of (map unit_entry_of entries.items)) units.items) }
{
    let mut segments = segments(alloc, entries)?;
    match segments.pop() {
        Some(last) => read_last(alloc, segments, last, directives, lines),
        None => Ok(Vec::new(alloc)),
    }
}

/// Units with their first refusals, and after them one with which the text ends.
fn read_last(
    alloc: Global,
    segments: Vec<Segment>,
    last: Segment,
    directives: &[NoteLine],
    lines: u64,
) -> Result<Vec<ReadUnit>, NoMemory>
    ensures { IfOk result (λ units. (all : PlainStatements) → all.lines ≡ lines → all.directives ≡ map note_of directives.now
        → AreReadUnits all (map segment_of segments.items ++ segment_of last ∷ []) units.items) }
{
    let mut units = match read_earlier(alloc, segments, lines) {
        Ok(units) => units,
        Err(error) => {
            drop(last);
            return Err(error);
        }
    };
    units.push(read_unit(alloc, last, directives, lines)?)?;
    Ok(units)
}

/// Units with their first refusals, after each of which another begins.
fn read_earlier(
    alloc: Global,
    segments: Vec<Segment>,
    lines: u64,
) -> Result<Vec<ReadUnit>, NoMemory>
    ensures { IfOk result (λ units. (all : PlainStatements) → all.lines ≡ lines → AreReadEach all (map segment_of segments.items) units.items) }
{
    let mut units = Vec::new(alloc);
    for segment in segments {
        units.push(read_unit(alloc, segment, &[], lines)?)?;
    }
    Ok(units)
}

/// A unit with its first refusal.
fn read_unit(
    alloc: Global,
    segment: Segment,
    directives: &[NoteLine],
    lines: u64,
) -> Result<ReadUnit, NoMemory>
    ensures { IfOk result (λ r. (all : PlainStatements) → all.lines ≡ lines → all.directives ≡ map note_of directives.now → IsReadUnit all (segment_of segment) r) }
{
    let other = match other_refusal(alloc, &segment) {
        Ok(other) => other,
        Err(error) => {
            drop(segment);
            return Err(error);
        }
    };
    let Segment { head, entries } = segment;
    let in_subroutine = is_headed(&head);
    let head = heading_of(alloc, head);
    let seen = seen_statements(alloc, entries, in_subroutine)?;
    let saved = saved_names(alloc, &seen.entries)?;
    let first = first_refusal(alloc, &seen.entries, directives, lines, &saved)?;
    Ok(ReadUnit {
        head,
        seen,
        saved,
        first: first_of_both(other, first),
    })
}

/// Whether a unit has a SUBROUTINE statement.
fn is_headed(head: &Option<UnitEntry>) -> bool
    ensures { result ≡ is_subroutine (head_of head.now) }
{
    match head {
        Some(_) => true,
        None => false,
    }
}

/// What the SUBROUTINE statement of a unit says.
fn heading_of(alloc: Global, head: Option<UnitEntry>) -> Heading
    ensures { (u : PlainUnit) → HeadsUnit result u → IsHeaded (head_of head) u }
{
    match head {
        Some(entry) => {
            let UnitEntry { statement, item } = entry;
            let line = statement.line;
            match item {
                UnitItem::Subroutine(name, formals) => Heading {
                    name: Some(name),
                    formals,
                    line,
                },
                other => {
                    drop(other);
                    Heading {
                        name: None,
                        formals: Names::new(alloc),
                        line,
                    }
                }
            }
        }
        None => Heading {
            name: None,
            formals: Names::new(alloc),
            line: 0,
        },
    }
}

/// The first of two refusals, where there is one.
pub fn first_of_both(found: Option<Refusal>, other: Option<Refusal>) -> Option<Refusal>
    ensures { found_of result ≡ combined (found_of found) (found_of other) }
{
    match other {
        None => found,
        Some(refusal) => standing(found, true, refusal.kind, refusal.line),
    }
}

/// The first refusal of all units.
fn first_of_all(units: &[ReadUnit]) -> Option<Refusal>
    ensures { (all : PlainStatements) (ss : List PlainSegment) → AreReadUnits all ss units.now → found_of result ≡ first_of (segments_refusals all ss) }
{
    let mut found = None;
    for unit in units {
        found = first_of_both(found, unit.first);
    }
    found
}

/// The units, each nested from its statements.
fn built(alloc: Global, units: Vec<ReadUnit>) -> Result<Vec<ProgramUnit>, NoMemory>
    ensures { IfOk result (λ built. (all : PlainStatements) (ss : List PlainSegment) → AreReadUnits all ss units.items → AreBuiltOf ss built.items) }
{
    let mut built = Vec::new(alloc);
    for unit in units {
        built.push(build(alloc, unit)?)?;
    }
    Ok(built)
}

fn build(alloc: Global, unit: ReadUnit) -> Result<ProgramUnit, NoMemory>
    ensures { IfOk result (λ u. (all : PlainStatements) (s : PlainSegment) → IsReadUnit all s unit → IsBuiltOf s u) }
{
    let ReadUnit {
        head,
        seen,
        saved,
        first: _,
    } = unit;
    let kept = seen.kept(alloc)?;
    let program = program_of(alloc, kept, &saved)?;
    let Heading {
        name,
        formals,
        line,
    } = head;
    Ok(ProgramUnit {
        name,
        formals,
        line,
        program,
    })
}
