//! The refusals 7 to 13 of a unit, in addition to those of its statements with something plain for each CALL.

ghost use Rattle.std.specs.Prelude.{◌≡◌, IfOk, Some, map, true};
ghost use Rattle.std.specs.List.{flat_map};
ghost use Rattle.ped_tree.specs.Views.{decl_tree};
ghost use Rattle.ped_tree.specs.Grammar.Refusal.{earliest, first_of, refused_if, Syntax};
ghost use Rattle.ped_tree.specs.Grammar.ItemViews.{item_of, reading_of};
ghost use Rattle.ped_tree.specs.Grammar.ProgramRefusals as ProgramRefusals;
ghost use Rattle.ped_tree.specs.Grammar.RefusalViews.{found_of};
ghost use Rattle.ped_tree.specs.Grammar.StatementViews.{note_of, statement_of};
ghost use Rattle.ped_units.specs.Refusals as Spec;
ghost use Rattle.ped_units.specs.Views.{called_of, unit_item_of, unit_entry_of, segment_of};

use crate::items::{Called, UnitEntry, UnitItem};
use crate::segments::Segment;
use crate::standing::call_statement;
use ped_base::NoMemory;
use ped_limits::{MOST_CHARACTERS, length, stmt_has_large_literal};
use ped_tree::grammar::{
    Item, NoteLine, Refusal, RefusalKind, Statement, StatementReading, standing,
};
use ped_tree::{Decl, Stmt};
use std::alloc::Global;

/// The first of what is refused at the CALLs of a unit, and at what a subroutine may not have.
pub fn other_refusal(alloc: Global, segment: &Segment) -> Result<Option<Refusal>, NoMemory>
    ensures { IfOk result (λ found. found_of found ≡ first_of (Spec.other_refusals (segment_of segment.now))) }
{
    let found = at_calls(alloc, &segment.entries)?;
    match &segment.head {
        None => Ok(found),
        Some(head) => {
            let found = at_directives(found, &head.statement);
            Ok(at_subroutine_entries(found, &segment.entries))
        }
    }
}

/// The first of what is refused at CALLs for their arguments.
fn at_calls(alloc: Global, entries: &[UnitEntry]) -> Result<Option<Refusal>, NoMemory>
    ensures { IfOk result (λ found. found_of found ≡ first_of (flat_map Spec.at_call (map unit_entry_of entries.now))) }
{
    let mut found = None;
    for entry in entries {
        let passes = call_passes_limit(alloc, &entry.item)?;
        found = standing(found, passes, RefusalKind::Limit, entry.statement.line);
    }
    Ok(found)
}

/// Whether a CALL passes a limit by its arguments.
fn call_passes_limit(alloc: Global, item: &UnitItem) -> Result<bool, NoMemory>
    ensures { IfOk result (λ passes. passes ≡ Spec.call_passes_limit (Spec.call_in (unit_item_of item.now))) }
{
    match item {
        UnitItem::Call(called) => passes_limit(alloc, called),
        UnitItem::LogicalIfCall(_, called) => passes_limit(alloc, called),
        UnitItem::Plain(_) | UnitItem::Subroutine(_, _) | UnitItem::Return => Ok(false),
    }
}

/// Whether a CALL has a literal that is too large, or too many characters: it is printed with one more than the
/// assignment that represents it in trees.
fn passes_limit(alloc: Global, called: &Called) -> Result<bool, NoMemory>
    ensures { IfOk result (λ passes. passes ≡ Spec.call_passes_limit (Some (called_of called.now))) }
{
    let statement = call_statement(alloc, called)?;
    let passes = stmt_has_large_literal(&statement) || length(&statement) >= MOST_CHARACTERS;
    drop(statement);
    Ok(passes)
}

/// The first of what was found and what is refused at the directives of a statement, none of which may occur there.
fn at_directives(found: Option<Refusal>, statement: &Statement) -> Option<Refusal>
    ensures { found_of result ≡ earliest (found_of found) (Spec.at_all_directives (statement_of statement.now)) }
{
    at_notes(found, statement.directives.as_slice())
}

fn at_notes(found: Option<Refusal>, directives: &[NoteLine]) -> Option<Refusal>
    ensures { found_of result ≡ earliest (found_of found) (flat_map (λ d. refused_if true Syntax d.line) (map note_of directives.now)) }
{
    let mut found = found;
    for directive in directives {
        found = standing(found, true, RefusalKind::Syntax, directive.line);
    }
    found
}

/// The first of what was found and what is refused at statements of a subroutine alone.
fn at_subroutine_entries(found: Option<Refusal>, entries: &[UnitEntry]) -> Option<Refusal>
    ensures { found_of result ≡ earliest (found_of found) (flat_map Spec.at_subroutine_entry (map unit_entry_of entries.now)) }
{
    let mut found = found;
    for entry in entries {
        found = at_subroutine_entry(found, entry);
    }
    found
}

#[tactic(auto, using(ped_tree::proofs::GrammarLaws::First::earliest_append))]
fn at_subroutine_entry(found: Option<Refusal>, entry: &UnitEntry) -> Option<Refusal>
    ensures { found_of result ≡ earliest (found_of found) (Spec.at_subroutine_entry (unit_entry_of entry.now)) }
{
    let line = entry.statement.line;
    let found = at_directives(found, &entry.statement);
    let found = standing(found, is_of_main(&entry.item), RefusalKind::Syntax, line);
    standing(found, stops(&entry.item), RefusalKind::StopPlace, line)
}

/// Whether the statement is PROGRAM or SAVE.
fn is_of_main(item: &UnitItem) -> bool
    ensures { result ≡ Spec.where_plain Spec.is_of_main (unit_item_of item.now) }
{
    match item {
        UnitItem::Plain(StatementReading::Says(item)) => says_of_main(item),
        _ => false,
    }
}

fn says_of_main(item: &Item) -> bool
    ensures { result ≡ Spec.is_of_main (item_of item.now) }
{
    match item {
        Item::Declaration(decl) => is_main_declaration(decl),
        Item::SaveAll => true,
        _ => false,
    }
}

fn is_main_declaration(decl: &Decl) -> bool
    ensures { result ≡ Spec.is_main_declaration (decl_tree decl.now) }
{
    match decl {
        Decl::Program(_) | Decl::Save(_) => true,
        Decl::Implicit
        | Decl::Integer(_)
        | Decl::Dimension(_)
        | Decl::Parameter(_)
        | Decl::Comment(_) => false,
    }
}

/// Whether the statement is STOP, also after a logical IF.
fn stops(item: &UnitItem) -> bool
    ensures { result ≡ Spec.where_plain ProgramRefusals.stops (unit_item_of item.now) }
{
    match item {
        UnitItem::Plain(StatementReading::Says(item)) => says_stop(item),
        _ => false,
    }
}

fn says_stop(item: &Item) -> bool
    ensures { result ≡ ProgramRefusals.stops (item_of item.now) }
{
    match item {
        Item::Simple(statement) | Item::LogicalIf(_, Some(statement)) => {
            matches!(statement, Stmt::Stop)
        }
        _ => false,
    }
}
