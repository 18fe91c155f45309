//! Directives before a DO, each for a name: the user has rejected the dependences on it.

ghost use Rattle.std.specs.Prelude.{◌≡◌, map, drop, IfOk, MatchOption, false, true};
ghost use Rattle.ped_tree.specs.Grammar.Occurrences as Spec;
ghost use Rattle.ped_tree.specs.Grammar.StatementViews.{note_of};

use ped_base::{Listed, Name, Names, NoMemory};
use ped_tree::grammar::NoteLine;
use std::alloc::Global;

/// The names that directives reject, in their order; one with another text names nothing.
pub fn rejected_names(alloc: Global, directives: &[NoteLine]) -> Result<Names, NoMemory>
    ensures { IfOk result (λ names. names ≡ Spec.rejected_names (map note_of directives.now)) }
{
    let mut names = Listed::new(alloc);
    for directive in directives {
        if let Some(name) = rejected_name(directive.text.as_slice()) {
            names.push(name)?;
        }
    }
    Ok(names)
}

/// The name that a directive with this text rejects, where it is REJECT and a name.
fn rejected_name(text: &[u8]) -> Option<Name>
    ensures { MatchOption result (Spec.is_rejection text.now ≡ false) (λ name. (Spec.is_rejection text.now ≡ true) × (name ≡ drop 6 text.now)) }
{
    let name = text.strip_prefix(b"REJECT")?;
    Name::from_bytes(name)
}
