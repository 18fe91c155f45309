//! Comments and directives: the text of a line that isn't part of a statement.

ghost use Rattle.std.specs.Prelude.{◌≡◌, ◌++◌, ◌==◌, ◌||◌, map, filter, not, IfOk, OnOk};
ghost use Rattle.std.specs.Char.{to_ascii_uppercase};
ghost use Rattle.ped_tree.specs.Grammar.Columns as Columns;
ghost use Rattle.ped_tree.specs.Grammar.Grouping as Spec;
ghost use Rattle.ped_tree.specs.Grammar.StatementViews.{note_of};

use crate::columns::{behind, front, is_directive};
use ped_base::{Bytes, Listed, NoMemory};
use ped_tree::grammar::NoteLine;
use std::alloc::Global;

/// Adds the note on a line to the comments or to the directives.
#[tactic(auto, unfolding(ped_tree::specs::Grammar::Grouping::comment_at, ped_tree::specs::Grammar::Grouping::directive_at))]
pub fn push_note(
    alloc: Global,
    comments: &mut Vec<NoteLine>,
    directives: &mut Vec<NoteLine>,
    number: u64,
    line: &[u8],
) -> Result<(), NoMemory>
    ensures comments { OnOk result (map note_of comments.new.items ≡ map note_of comments.old.items ++ Spec.comment_at number line.now) }
    ensures directives { OnOk result (map note_of directives.new.items ≡ map note_of directives.old.items ++ Spec.directive_at number line.now) }
{
    if is_directive(line) {
        let text = directive_text(alloc, line)?;
        directives.push(NoteLine { line: number, text })?;
    } else {
        let text = Listed::from_vec(Vec::from_slice(alloc, comment_text(line))?);
        comments.push(NoteLine { line: number, text })?;
    }
    Ok(())
}

#[tactic(auto, unfolding(ped_tree::specs::Grammar::Grouping::directive_text))]
fn directive_text(alloc: Global, line: &[u8]) -> Result<Bytes, NoMemory>
    ensures { IfOk result (λ text. text ≡ Spec.directive_text line.now) }
{
    let text = behind(comment_text(line), 4);
    Ok(Listed::from_vec(capitals(alloc, text)?))
}

fn capitals(alloc: Global, text: &[u8]) -> Result<Vec<u8>, NoMemory>
    ensures { IfOk result (λ v. v.items ≡ map to_ascii_uppercase (filter (λ c. not (Columns.is_blank c)) text.now)) }
{
    let mut kept = Vec::new(alloc);
    for c in text {
        if *c != b' ' {
            kept.push(c.to_ascii_uppercase())?;
        }
    }
    Ok(kept)
}

#[tactic(auto, unfolding(ped_tree::specs::Grammar::Grouping::comment_text))]
fn comment_text(line: &[u8]) -> &[u8]
    ensures { result.now ≡ Spec.comment_text line.now }
{
    trimmed(front(behind(line, 1), 71))
}

/// Without the blanks and carriage returns at the end.
fn trimmed(text: &[u8]) -> &[u8]
    ensures { result.now ≡ Spec.trimmed text.now }
{
    let mut end = text.len();
    while end > 0 {
        let last = text[end - 1];
        if !is_blank_or_return(last) {
            return front(text, end);
        }
        end -= 1;
    }
    front(text, end)
}

fn is_blank_or_return(c: u8) -> bool
    ensures { result ≡ (c == 32 || c == 13) }
{
    c == b' ' || c == b'\r'
}
