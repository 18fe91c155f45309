//! The lines of a text. A line feed ends a line, and one carriage return directly before it is no part
//! of the line; the last line may lack its line feed.

ghost use Rattle.std.specs.Prelude.{◌≡◌, ◌<◌, ◌==◌, [], ◌∷◌, length, MatchOption, IfSome, position};
ghost use Rattle.std.specs.Str.Lines.{lines, strip_carriage_return};

/// The first line and what follows its end; none where the text is empty.
pub fn first_line(text: &[u8]) -> Option<(&[u8], &[u8])>
    ensures line { MatchOption result (lines text.now ≡ []) (λ x. lines text.now ≡ x.0.now ∷ lines x.1.now) }
    ensures shorter { IfSome result (λ x. length x.1.now < length text.now) }
{
    if text.is_empty() {
        return None;
    }
    match line_feed(text) {
        Some(end) => Some((without_carriage_return(&text[..end]), &text[end + 1..])),
        None => Some(text.split_at(text.len())),
    }
}

fn line_feed(text: &[u8]) -> Option<usize>
    ensures { result ≡ position (λ c. c == 10) text.now }
{
    text.iter().position(|c| *c == b'\n')
}

fn without_carriage_return(line: &[u8]) -> &[u8]
    ensures { result.now ≡ strip_carriage_return line.now }
{
    line.strip_suffix(b"\r").unwrap_or(line)
}
