//! The first refusal among those at statements.

ghost use Rattle.std.specs.Prelude.{◌≡◌, ◌&&◌, ◌<◌, ◌^◌, ◌++◌, List, ℕ, nat_lt, true, IfOk, map};
ghost use Rattle.std.specs.List.{list_all};
ghost use Rattle.ped_tree.specs.Grammar.Statement.{Statements};
ghost use Rattle.ped_tree.specs.Grammar.Refusal.{Syntax, NotInProfile, OpenBlock, BadTerminal, IndexAssigned, StopPlace, first_of, earliest, refused_if};
ghost use Rattle.ped_tree.specs.Grammar.Occurrences as Occurrences;
ghost use Rattle.ped_tree.specs.Grammar.Items.{Entry as PlainEntry};
ghost use Rattle.ped_tree.specs.Grammar.Contexts.{Context as PlainContext, open_variables};
ghost use Rattle.ped_tree.specs.Grammar.ProgramRefusals as Spec;
ghost use Rattle.ped_tree.specs.Grammar.ProgramRefusals.{program_refusals, where_it_says, block_depth};
ghost use Rattle.ped_tree.specs.Grammar.StatementViews.{note_of};
ghost use Rattle.ped_tree.specs.Grammar.ItemViews.{reading_of, entry_of};
ghost use Rattle.ped_tree.specs.Grammar.RefusalViews.{found_of};
ghost use Rattle.ped_refusals.specs.OpenBlocks.{blocks_of};
ghost use Rattle.ped_refusals.specs.OpenContexts.{context_of};

use crate::blocks::{loop_depth, open_variables};
use crate::contexts::Context;
use crate::directives::{at_directives, at_last_directives};
use crate::indices::{assigns_index, at_private};
use crate::limits::passes_limit;
use crate::structure::{breaks_syntax, ends_badly, is_behind_end, is_left_out, leaves_open, stops};
use ped_base::{Name, Names, NoMemory};
use ped_tree::grammar::{Entry, NoteLine, Refusal, RefusalKind, StatementReading, standing};
use std::alloc::Global;

/// The first refusal of the statements of a text, by line and then by number, where `directives`
/// follow the last statement, the text has this many lines, and SAVE without a list is read as `saved`. These are
/// the refusals 7 to 13; none exactly where there is none.
pub fn first_refusal(
    alloc: Global,
    entries: &[Entry],
    directives: &[NoteLine],
    lines: u64,
    saved: &Names,
) -> Result<Option<Refusal>, NoMemory>
    requires saved { saved.now ≡ Occurrences.saved_names (map entry_of entries.now) }
    ensures { IfOk result (λ found. (all : Statements) → all.lines ≡ lines → all.directives ≡ map note_of directives.now →
        found_of found ≡ first_of (program_refusals all (map entry_of entries.now))) }
{
    let mut context = Context::at_start(alloc);
    let mut found = None;
    let mut left = entries;
    while let Some((entry, rest)) = left.split_first() {
        found = with_statement(found, alloc, &context, entry, rest, saved.as_slice())?;
        context = context.behind(alloc, entry)?;
        left = rest;
    }
    Ok(at_end(found, &context, directives, lines))
}

/// The first of what was found and the refusals at a statement. Where something was found before all its
/// lines, only what is refused at an earlier one is looked at.
fn with_statement(
    found: Option<Refusal>,
    alloc: Global,
    context: &Context,
    entry: &Entry,
    rest: &[Entry],
    saved: &[Name],
) -> Result<Option<Refusal>, NoMemory>
    requires { block_depth (blocks_of context.now.blocks.items) < 2 ^ 64 }
    ensures { IfOk result (λ next. found_of next ≡ earliest (found_of found)
        (Spec.at_statement saved.now (context_of context.now) (entry_of entry.now) (map entry_of rest.now))) }
{
    if is_past(found, entry) {
        return Ok(at_private(found, context, &entry.reading));
    }
    at_statement(found, alloc, context, entry, rest, saved)
}

/// Whether something was found before all lines of a statement and of its directives.
fn is_past(found: Option<Refusal>, entry: &Entry) -> bool
    ensures { result ≡ true → (saved : List (List ℕ)) (c : PlainContext) (rest : List PlainEntry) →
        earliest (found_of found) (Spec.at_statement saved c (entry_of entry.now) rest)
        ≡ earliest (found_of found) (Spec.at_private c (reading_of entry.now.reading)) }
{
    match found {
        Some(first) => {
            first.line < entry.statement.line
                && all_behind(first.line, entry.statement.directives.as_slice())
        }
        None => false,
    }
}

fn all_behind(line: u64, directives: &[NoteLine]) -> bool
    ensures { result ≡ list_all (λ d. nat_lt line d.line) (map note_of directives.now) }
{
    for directive in directives {
        if directive.line <= line {
            return false;
        }
    }
    true
}

fn at_statement(
    found: Option<Refusal>,
    alloc: Global,
    context: &Context,
    entry: &Entry,
    rest: &[Entry],
    saved: &[Name],
) -> Result<Option<Refusal>, NoMemory>
    requires { block_depth (blocks_of context.now.blocks.items) < 2 ^ 64 }
    ensures { IfOk result (λ next. found_of next ≡ earliest (found_of found)
        (Spec.at_statement saved.now (context_of context.now) (entry_of entry.now) (map entry_of rest.now))) }
{
    let variables = open_variables(alloc, &context.blocks)?;
    let found = at_places(at_directives(found, context, entry), context, entry);
    let found = at_loops(found, context, &variables, entry);
    let passes = is_past_limit(context, &variables, entry, rest, saved);
    Ok(standing(found, passes, RefusalKind::Limit, entry.statement.line))
}

/// The first of what was found and the refusals of a statement by its form and its place.
#[tactic(auto, using(ped_tree::proofs::GrammarLaws::First::earliest_append))]
fn at_places(found: Option<Refusal>, context: &Context, entry: &Entry) -> Option<Refusal>
    ensures { let c = context_of context.now in let e = entry_of entry.now in
        found_of result ≡ earliest (found_of found)
        (refused_if (Spec.breaks_syntax c e.statement.label e.reading) Syntax e.statement.line
        ++ refused_if (Spec.is_left_out e.reading) NotInProfile e.statement.line
        ++ refused_if (where_it_says (Spec.leaves_open c.blocks) e.reading) OpenBlock e.statement.line
        ++ refused_if (Spec.ends_badly c.blocks e.statement.label e.reading) BadTerminal e.statement.line) }
{
    let line = entry.statement.line;
    let found = standing(
        found,
        breaks_syntax(context, entry.statement.label, &entry.reading),
        RefusalKind::Syntax,
        line,
    );
    let found = standing(
        found,
        is_left_out(&entry.reading),
        RefusalKind::NotInProfile,
        line,
    );
    let found = standing(
        found,
        leaves_open(&context.blocks, &entry.reading),
        RefusalKind::OpenBlock,
        line,
    );
    standing(
        found,
        ends_badly(&context.blocks, entry.statement.label, &entry.reading),
        RefusalKind::BadTerminal,
        line,
    )
}

/// The first of what was found and the refusals of a statement by the loops around it, whose variables these
/// are.
#[tactic(auto, using(ped_tree::proofs::GrammarLaws::First::earliest_append))]
fn at_loops(
    found: Option<Refusal>,
    context: &Context,
    variables: &[Name],
    entry: &Entry,
) -> Option<Refusal>
    requires variables { variables.now ≡ open_variables (blocks_of context.now.blocks.items) }
    requires fits { block_depth (blocks_of context.now.blocks.items) < 2 ^ 64 }
    ensures { let c = context_of context.now in let e = entry_of entry.now in
        found_of result ≡ earliest (found_of found)
        (refused_if (Spec.assigns_index c e.reading) IndexAssigned e.statement.line
        ++ Spec.at_private c e.reading
        ++ refused_if (where_it_says Spec.stops e.reading && nat_lt 0 (Spec.loop_depth c.blocks)) StopPlace e.statement.line) }
{
    let line = entry.statement.line;
    let found = standing(
        found,
        assigns_index(context, variables, &entry.reading),
        RefusalKind::IndexAssigned,
        line,
    );
    let found = at_private(found, context, &entry.reading);
    standing(
        found,
        stops(&entry.reading) && loop_depth(&context.blocks) > 0,
        RefusalKind::StopPlace,
        line,
    )
}

/// Whether a statement passes a limit of the profile.
fn is_past_limit(
    context: &Context,
    variables: &[Name],
    entry: &Entry,
    rest: &[Entry],
    saved: &[Name],
) -> bool
    requires variables { variables.now ≡ open_variables (blocks_of context.now.blocks.items) }
    requires fits { block_depth (blocks_of context.now.blocks.items) < 2 ^ 64 }
    ensures { result ≡ where_it_says (Spec.passes_limit saved.now (context_of context.now) (map entry_of rest.now)) (reading_of entry.now.reading) }
{
    match &entry.reading {
        StatementReading::Says(item) => passes_limit(context, variables, rest, saved, item),
        StatementReading::OutsideProfile | StatementReading::NoForm => false,
    }
}

/// The first of what was found and the refusals after the last statement.
#[tactic(auto, using(ped_tree::proofs::GrammarLaws::First::earliest_append))]
fn at_end(
    found: Option<Refusal>,
    context: &Context,
    directives: &[NoteLine],
    lines: u64,
) -> Option<Refusal>
    ensures { (all : Statements) → all.lines ≡ lines → all.directives ≡ map note_of directives.now →
        found_of result ≡ earliest (found_of found) (Spec.at_end (context_of context.now) all) }
{
    let is_open = !is_behind_end(context);
    let found = standing(found, is_open, RefusalKind::OpenBlock, lines);
    at_last_directives(found, directives)
}
