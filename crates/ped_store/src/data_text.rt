//! The characters of the data: lines, blanks, words, and what is between words. Nothing is copied.

ghost use Rattle.std.specs.Prelude.{◌≡◌, ◌≤◌, ◌<◌, ◌==◌, not, [], ◌∷◌, take, drop, length, MatchOption, IfSome, position};
ghost use Rattle.std.specs.Str.Lines.{lines, strip_carriage_return};
ghost use Rattle.ped_store.specs.DataLines.{behind_blanks, word_of, behind_word, behind_comma};
ghost use Rattle.ped_store.specs.DataLines as Spec;

/// The first line of a text.
#[derive(Clone, Copy)]
pub struct FirstLine {
    /// How many characters it has.
    pub len: usize,
    /// Where the next line begins.
    pub next: usize,
}

/// The first line of a text; none where the text is empty.
pub fn first_line(text: &[u8]) -> Option<FirstLine>
    ensures line { MatchOption result (lines text.now ≡ []) (λ f. lines text.now ≡ take f.len text.now ∷ lines (drop f.next text.now)) }
    ensures within { IfSome result (λ f. (f.len ≤ f.next) × (0 < f.next) × (f.next ≤ length text.now)) }
{
    if text.is_empty() {
        return None;
    }
    match line_feed(text) {
        Some(end) => Some(FirstLine {
            len: len_without_carriage_return(&text[..end]),
            next: end + 1,
        }),
        None => Some(FirstLine {
            len: text.len(),
            next: text.len(),
        }),
    }
}

fn line_feed(text: &[u8]) -> Option<usize>
    ensures { result ≡ position (λ c. c == 10) text.now }
{
    text.iter().position(|c| *c == b'\n')
}

fn len_without_carriage_return(line: &[u8]) -> usize
    ensures rest { take result line.now ≡ strip_carriage_return line.now }
    ensures within { result ≤ length line.now }
{
    match line.last() {
        Some(b'\r') => line.len() - 1,
        _ => line.len(),
    }
}

/// How many blanks are at the front.
pub fn blank_count(text: &[u8]) -> usize
    ensures behind { drop result text.now ≡ behind_blanks text.now }
    ensures within { result ≤ length text.now }
{
    first_of_value(text).unwrap_or(text.len())
}

fn first_of_value(text: &[u8]) -> Option<usize>
    ensures { result ≡ position (λ c. not (Spec.is_data_blank c)) text.now }
{
    text.iter().position(|c| !is_data_blank(*c))
}

/// How many characters are in front of the next blank or comma.
pub fn word_len(text: &[u8]) -> usize
    ensures word { take result text.now ≡ word_of text.now }
    ensures behind { drop result text.now ≡ behind_word text.now }
    ensures within { result ≤ length text.now }
{
    first_behind_word(text).unwrap_or(text.len())
}

fn first_behind_word(text: &[u8]) -> Option<usize>
    ensures { result ≡ position Spec.ends_value text.now }
{
    text.iter().position(|c| ends_value(*c))
}

/// How many blanks are at the front, with the comma after them where one comes.
pub fn separator_len(text: &[u8]) -> usize
    ensures behind { drop result text.now ≡ behind_comma (behind_blanks text.now) }
    ensures within { result ≤ length text.now }
{
    let blanks = blank_count(text);
    match text.get(blanks) {
        Some(b',') => blanks + 1,
        _ => blanks,
    }
}

fn is_data_blank(c: u8) -> bool
    ensures { result ≡ Spec.is_data_blank c }
{
    c == b' ' || c == b'\t'
}

fn ends_value(c: u8) -> bool
    ensures { result ≡ Spec.ends_value c }
{
    is_data_blank(c) || c == b','
}
