//! Refusals of lines: which ones a line has, and which of those found is the first.

ghost use Rattle.std.specs.Prelude.{◌≡◌, ℕ, List};
ghost use Rattle.ped_tree.specs.Grammar.Characters as Characters;
ghost use Rattle.ped_tree.specs.Grammar.Columns as Columns;
ghost use Rattle.ped_tree.specs.Grammar.LineRefusals as Spec;
ghost use Rattle.ped_tree.specs.Grammar.Refusal.{earliest};
ghost use Rattle.ped_tree.specs.Grammar.RefusalViews.{found_of};
ghost use Rattle.ped_lines.specs.Cutting.{role_of};

use crate::columns::{has_bad_label, has_label_field, has_tab};
use ped_tree::grammar::{Refusal, RefusalKind, standing};

/// The role that a line that is no comment has in statements.
#[derive(Clone, Copy)]
pub enum Role {
    /// It begins a statement.
    Initial,
    /// It continues a statement that this many lines may still continue.
    Continuation(u64),
    /// It continues none, since none has begun.
    Orphan,
}

/// The first of what was found and the refusals at a line, where `bad` says whether it has a character
/// at a place where it may not occur.
#[tactic(auto, unfolding(ped_tree::specs::Grammar::LineRefusals::at_line), using(ped_tree::proofs::GrammarLaws::First::earliest_append))]
pub fn at_line(
    found: Option<Refusal>,
    number: u64,
    role: Role,
    line: &[u8],
    bad: bool,
) -> Option<Refusal>
    ensures { (before : List ℕ) → Characters.has_bad before (Columns.statement_columns line.now) ≡ bad →
        found_of result ≡ earliest (found_of found) (Spec.at_line number (role_of role) before line.now) }
{
    let found = standing(found, has_tab(line), RefusalKind::Tab, number);
    let found = standing(
        found,
        label_is_bad(role, line),
        RefusalKind::BadLabel,
        number,
    );
    let found = standing(
        found,
        is_too_many(role),
        RefusalKind::TooManyContinuations,
        number,
    );
    let found = standing(
        found,
        is_orphan(role),
        RefusalKind::ContinuationFirst,
        number,
    );
    standing(found, bad, RefusalKind::BadCharacter, number)
}

fn label_is_bad(role: Role, line: &[u8]) -> bool
    ensures { result ≡ Spec.label_is_bad (role_of role) line.now }
{
    match role {
        Role::Initial => has_bad_label(line),
        Role::Continuation(_) | Role::Orphan => has_label_field(line),
    }
}

fn is_too_many(role: Role) -> bool
    ensures { result ≡ Spec.is_too_many (role_of role) }
{
    match role {
        Role::Continuation(left) => left == 0,
        Role::Initial | Role::Orphan => false,
    }
}

fn is_orphan(role: Role) -> bool
    ensures { result ≡ Spec.is_orphan (role_of role) }
{
    match role {
        Role::Orphan => true,
        Role::Initial | Role::Continuation(_) => false,
    }
}
