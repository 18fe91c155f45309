//! The lines of a text. A line feed ends a line, and one carriage return directly before it is no part
//! of the line; the last line may lack its line feed.

ghost use Rattle.std.specs.Prelude.{◌≡◌, ◌<◌, ◌+◌, ◌==◌, [], ◌∷◌, length, MatchOption, IfSome, position};
ghost use Rattle.std.specs.Str.Lines.{lines, strip_carriage_return};

use std::marker::Model;

/// The remaining lines of a text. Contracts see them, and how many were before them.
#[derive(Drop)]
pub struct TextLines<'a> {
    rest: &'a [u8],
    read: u64,
}

impl<'a> Model for TextLines<'a> {
    ghost use Rattle.ped_script.specs.Lines.{Left};

    ghost Value = { Left };

    ghost use Rattle.std.specs.Prelude.{◌+◌, ◌^◌, ◌<◌, length};
    ghost use Rattle.std.specs.Str.Lines.{lines};

    ghost view = { λ s. record { read = s.read; lines = lines s.rest.now } };

    ghost invariant = { λ s. s.read + length s.rest.now < 2 ^ 64 };
}

impl<'a> TextLines<'a> {
    /// All lines of a text.
    pub fn new(script: &'a [u8]) -> Self
        ensures read { result.read ≡ 0 }
        ensures lines { result.lines ≡ lines script.now }
    {
        TextLines {
            rest: script,
            read: 0,
        }
    }

    /// How many lines have been taken.
    pub fn read(&self) -> u64
        ensures { result ≡ self.now.read }
    {
        self.read
    }

    /// Takes the next line; none where no line is left, and then nothing changes.
    pub fn next(&mut self) -> Option<&'a [u8]>
        ensures line { MatchOption result ((self.old.lines ≡ []) × (self.new ≡ self.old))
            (λ line. (self.old.lines ≡ line.now ∷ self.new.lines) × (self.new.read ≡ self.old.read + 1)) }
    {
        match first_line(self.rest) {
            Some((line, rest)) => {
                self.rest = rest;
                self.read += 1;
                Some(line)
            }
            None => None,
        }
    }
}

/// The first line and what follows its end; none where the text is empty.
fn first_line(text: &[u8]) -> Option<(&[u8], &[u8])>
    ensures line { MatchOption result (lines text.now ≡ []) (λ x. lines text.now ≡ x.0.now ∷ lines x.1.now) }
    ensures shorter { IfSome result (λ x. length x.1.now < length text.now) }
{
    if text.is_empty() {
        return None;
    }
    match line_feed(text) {
        Some(end) => Some((without_carriage_return(&text[..end]), &text[end + 1..])),
        None => Some(text.split_at(text.len())),
    }
}

fn line_feed(text: &[u8]) -> Option<usize>
    ensures { result ≡ position (λ c. c == 10) text.now }
{
    text.iter().position(|c| *c == b'\n')
}

fn without_carriage_return(line: &[u8]) -> &[u8]
    ensures { result.now ≡ strip_carriage_return line.now }
{
    line.strip_suffix(b"\r").unwrap_or(line)
}
