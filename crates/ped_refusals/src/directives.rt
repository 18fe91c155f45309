//! Directives: `$PED REJECT` and a name, directly before a DO.

ghost use Rattle.std.specs.Prelude.{◌≡◌, ◌&&◌, ◌||◌, ℕ, Some, None, map, drop, length, nat_le, nat_lt, true, if◌then◌else◌};
ghost use Rattle.std.specs.List.{flat_map};
ghost use Rattle.ped_tree.specs.Grammar.Statement.{Note};
ghost use Rattle.ped_tree.specs.Grammar.Contexts as Contexts;
ghost use Rattle.ped_tree.specs.Grammar.Occurrences as Occurrences;
ghost use Rattle.ped_tree.specs.Grammar.Words as Words;
ghost use Rattle.ped_tree.specs.Grammar.Refusal.{earliest, refused_if, Syntax};
ghost use Rattle.ped_tree.specs.Grammar.ProgramRefusals as Spec;
ghost use Rattle.ped_tree.specs.Grammar.ProgramRefusals.{where_it_says};
ghost use Rattle.ped_tree.specs.Grammar.StatementViews.{note_of, statement_of};
ghost use Rattle.ped_tree.specs.Grammar.ItemViews.{entry_of, reading_of};
ghost use Rattle.ped_tree.specs.Grammar.RefusalViews.{found_of};
ghost use Rattle.ped_refusals.specs.OpenContexts.{context_of};

use crate::contexts::{Context, is_do};
use crate::occurrences::rejected_name;
use crate::structure::is_behind_end;
use ped_tree::grammar::{
    Entry, NoteLine, Refusal, RefusalKind, Statement, StatementReading, standing,
};

/// The first of what was found and the refusals at the directives of a statement, each at its own line.
#[tactic(auto, using(ped_tree::proofs::GrammarLaws::First::earliest_append))]
pub fn at_directives(found: Option<Refusal>, context: &Context, entry: &Entry) -> Option<Refusal>
    ensures { found_of result ≡ earliest (found_of found) (Spec.at_directives (context_of context.now) (entry_of entry.now)) }
{
    let mut found = found;
    let last_comment = last_comment_before(&entry.statement);
    for directive in entry.statement.directives.as_slice() {
        let is_bad = is_bad_directive(context, entry, last_comment, directive);
        found = standing(found, is_bad, RefusalKind::Syntax, directive.line);
    }
    found
}

/// The first of what was found and the directives after the last statement.
#[tactic(auto, using(ped_tree::proofs::GrammarLaws::First::earliest_append))]
pub fn at_last_directives(found: Option<Refusal>, directives: &[NoteLine]) -> Option<Refusal>
    ensures { found_of result ≡ earliest (found_of found) (flat_map (λ d. refused_if true Syntax d.line) (map note_of directives.now)) }
{
    let mut found = found;
    for directive in directives {
        found = standing(found, true, RefusalKind::Syntax, directive.line);
    }
    found
}

/// The last line before a statement that has one of its comments, 0 where there is none.
fn last_comment_before(statement: &Statement) -> u64
    ensures { (d : Note) → Spec.is_parted d (statement_of statement.now) ≡ nat_lt d.line result }
{
    let mut last = 0;
    for comment in statement.comments.as_slice() {
        last = later(last, comment.line, statement.line);
    }
    last
}

/// The later of two lines, where the second one is before the end.
fn later(last: u64, line: u64, end: u64) -> u64
    ensures { (d : ℕ) → nat_lt d result ≡ (nat_lt d last || (nat_lt d line && nat_lt line end)) }
{
    if line < end { last.max(line) } else { last }
}

/// Whether a directive isn't REJECT and a name, or isn't directly before a DO, with directives
/// alone between.
fn is_bad_directive(
    context: &Context,
    entry: &Entry,
    last_comment: u64,
    directive: &NoteLine,
) -> bool
    requires { (d : Note) → Spec.is_parted d (statement_of entry.now.statement) ≡ nat_lt d.line last_comment }
    ensures { result ≡ Spec.is_bad_directive (context_of context.now) (entry_of entry.now) (note_of directive.now) }
{
    is_behind_end(context)
        || !is_rejection(directive.text.as_slice())
        || !begins_do(&entry.reading)
        || entry.statement.line < directive.line
        || directive.line < last_comment
}

fn begins_do(reading: &StatementReading) -> bool
    ensures { result ≡ where_it_says Contexts.is_do (reading_of reading.now) }
{
    match reading {
        StatementReading::Says(item) => is_do(item),
        StatementReading::OutsideProfile | StatementReading::NoForm => false,
    }
}

fn is_rejection(text: &[u8]) -> bool
    ensures { result ≡ Occurrences.is_rejection text.now }
{
    rejected_name(text).is_some()
}
