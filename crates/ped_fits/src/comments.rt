//! Texts of comments and of character constants that lines can hold (ANSI X3.9-1978, sections 3.2.1, 4.8).

ghost use Rattle.std.specs.Prelude.{◌≡◌, ◌∷◌, ◌==◌, slice_index_or};
ghost use Rattle.std.specs.List.{list_all, list_any};
ghost use Rattle.ped_base.specs.Lists.{is_same_text};
ghost use Rattle.ped_tree.specs.Grammar.Columns as Columns;
ghost use Rattle.ped_tree.specs.Grammar.Characters as Characters;
ghost use Rattle.ped_tree.specs.Grammar.Grouping.{trimmed};
ghost use Rattle.ped_tree.specs.Grammar.Fits as Spec;

/// Whether some line has the comment in columns 2 to 72: no end of a line in it, no blank or carriage return
/// at its end, and no directive.
pub fn comment_fits(text: &[u8]) -> bool
    ensures { result ≡ Spec.comment_fits text.now }
{
    text.len() <= 71 && !has_line_end(text) && is_trimmed(text) && !is_directive(text)
}

/// Whether each character may occur in a character constant.
pub fn is_printable(text: &[u8]) -> bool
    ensures { result ≡ list_all Characters.is_printable text.now }
{
    text.iter().all(|c| *c >= 32 && *c <= 126)
}

fn has_line_end(text: &[u8]) -> bool
    ensures { result ≡ list_any (λ c. c == 10) text.now }
{
    text.iter().any(|c| *c == 10)
}

/// Whether neither a blank nor a carriage return ends the text.
fn is_trimmed(text: &[u8]) -> bool
    ensures { result ≡ is_same_text (trimmed text.now) text.now }
{
    match text.last() {
        Some(c) => *c != b' ' && *c != b'\r',
        None => true,
    }
}

/// Whether a comment with this text is a directive: it begins with $PED, in any case.
#[tactic(auto, unfolding(ped_tree::specs::Grammar::Columns::is_directive))]
fn is_directive(text: &[u8]) -> bool
    ensures { result ≡ Columns.is_directive (67 ∷ text.now) }
{
    column(text, 0) == b'$'
        && column(text, 1).to_ascii_uppercase() == b'P'
        && column(text, 2).to_ascii_uppercase() == b'E'
        && column(text, 3).to_ascii_uppercase() == b'D'
}

/// The byte at a place, a blank where there is none.
fn column(text: &[u8], place: usize) -> u8
    ensures { result ≡ slice_index_or text.now place 32 }
{
    match text.get(place) {
        Some(c) => *c,
        None => b' ',
    }
}
