//! The words of a line, and the numbers and names that they write.

ghost use Rattle.std.specs.Prelude.{◌≡◌, ◌<◌, ◌≤◌, ◌^◌, ◌==◌, [], ◌∷◌, length, neg_ℤ, not, pos, position, Some, None, MatchOption, IfSome, map};
ghost use Rattle.std.specs.Char.{to_ascii_uppercase};
ghost use Rattle.std.specs.List.{list_all};
ghost use Rattle.ped_base.specs.Letters.{is_digit};
ghost use Rattle.ped_base.specs.Lists.{has_some, is_same_text};
ghost use Rattle.ped_script.specs.Words as Spec;
ghost use Rattle.ped_script.specs.EvidenceLines.{cut_at};

use ped_base::Name;

/// The most digits that the number of a statement or a line has, and the number in a factor or a size.
const NUMBER_DIGITS: usize = 9;

/// The most digits that a choice has.
const CHOICE_DIGITS: usize = 18;

/// The most characters that a name has.
const NAME_CHARACTERS: usize = 31;

/// The first word of a line, and what follows it; none where the line is blank.
pub fn first_word(line: &[u8]) -> Option<(&[u8], &[u8])>
    ensures word { MatchOption result (Spec.words_of line.now ≡ [])
        (λ x. Spec.words_of line.now ≡ x.0.now ∷ Spec.words_of x.1.now) }
    ensures shorter { IfSome result (λ x. length x.1.now < length line.now) }
{
    let Some(start) = first_character(line) else {
        return None;
    };
    let (_, text) = line.split_at(start);
    match first_blank(text) {
        Some(end) => Some(text.split_at(end)),
        None => Some(text.split_at(text.len())),
    }
}

/// Whether a line has a word.
pub fn has_word(line: &[u8]) -> bool
    ensures { result ≡ has_some (Spec.words_of line.now) }
{
    first_word(line).is_some()
}

/// The place of the first character that is no blank.
fn first_character(line: &[u8]) -> Option<usize>
    ensures { result ≡ position (λ c. not (Spec.is_blank c)) line.now }
{
    line.iter().position(|c| !is_blank(*c))
}

/// The place of the first blank.
fn first_blank(text: &[u8]) -> Option<usize>
    ensures { result ≡ position Spec.is_blank text.now }
{
    text.iter().position(|c| is_blank(*c))
}

fn is_blank(c: u8) -> bool
    ensures { result ≡ Spec.is_blank c }
{
    c == b' ' || c == b'\t'
}

/// Whether a word is the one that is expected.
pub fn is_word(word: &[u8], expected: &[u8]) -> bool
    ensures { result ≡ is_same_text word.now expected.now }
{
    word == expected
}

/// The number of a statement or of a line, or a size: at most nine digits.
pub fn number(word: &[u8]) -> Option<u32>
    ensures { result ≡ Spec.number_of 9 word.now }
{
    Some(number_within(word, NUMBER_DIGITS)? as u32)
}

/// The factor of a skew: at most nine digits, with or without a minus sign before them.
pub fn factor(word: &[u8]) -> Option<i64>
    ensures { result ≡ Spec.factor_of word.now }
{
    match word {
        [b'-', digits @ ..] => Some(negative(number(digits)?)),
        _ => Some(i64::from(number(word)?)),
    }
}

/// The factor of a row, or the value of a split: at most nine digits, with or without a minus sign before them.
pub fn small_factor(word: &[u8]) -> Option<i32>
    ensures { result ≡ Spec.factor_of word.now }
{
    match word {
        [b'-', digits @ ..] => Some(small_negative(small_number(digits)?)),
        _ => Some(small_number(word)? as i32),
    }
}

/// A number of at most nine digits.
fn small_number(word: &[u8]) -> Option<u32>
    ensures value { result ≡ Spec.number_of 9 word.now }
    ensures small { IfSome result (λ n. n < 10 ^ 9) }
{
    Some(number_within(word, NUMBER_DIGITS)? as u32)
}

fn small_negative(n: u32) -> i32
    requires { n < 10 ^ 9 }
    ensures { result ≡ neg_ℤ (pos n) }
{
    -(n as i32)
}

/// What a word has before and behind the first of these characters; none where it has none.
pub fn cut_at(c: u8, word: &[u8]) -> Option<(&[u8], &[u8])>
    ensures { MatchOption result (cut_at c word.now ≡ None) (λ x. cut_at c word.now ≡ Some (x.0.now, x.1.now)) }
{
    match first_of(c, word) {
        Some(place) => Some((&word[..place], &word[place + 1..])),
        None => None,
    }
}

/// The place of the first of these characters.
fn first_of(c: u8, word: &[u8]) -> Option<usize>
    ensures { result ≡ position (λ d. d == c) word.now }
{
    word.iter().position(|d| *d == c)
}

fn negative(n: u32) -> i64
    ensures { result ≡ neg_ℤ (pos n) }
{
    -i64::from(n)
}

/// A choice of a run: at most eighteen digits.
pub fn choice(word: &[u8]) -> Option<u64>
    ensures { result ≡ Spec.number_of 18 word.now }
{
    number_within(word, CHOICE_DIGITS)
}

/// The name that a word writes, in capitals: at most 31 letters and digits, a letter first.
pub fn name(word: &[u8]) -> Option<Name>
    ensures { result ≡ Spec.name_of word.now }
{
    if word.len() > NAME_CHARACTERS {
        return None;
    }
    let mut text = [0; NAME_CHARACTERS];
    let capitals = &mut text[..word.len()];
    capitals.copy_from_slice(word);
    make_capital(capitals);
    Name::from_bytes(capitals)
}

fn make_capital(text: &mut [u8])
    ensures { text.new ≡ map to_ascii_uppercase text.old }
{
    for c in text.iter_mut() {
        *c = c.to_ascii_uppercase();
    }
}

/// The number that a word of at most this many digits writes.
fn number_within(word: &[u8], most: usize) -> Option<u64>
    requires { most ≤ 18 }
    ensures value { result ≡ Spec.number_of most word.now }
    ensures small { IfSome result (λ n. n < 10 ^ most) }
{
    if !is_number(word) || word.len() > most {
        return None;
    }
    match str::from_utf8(word) {
        Ok(digits) => digits.parse().ok(),
        Err(_) => None,
    }
}

/// Whether a word is digits, of which the first is 0 only where it is alone.
fn is_number(word: &[u8]) -> bool
    ensures { result ≡ Spec.is_number word.now }
{
    match word {
        [] | [b'0', _, ..] => false,
        _ => all_digits(word),
    }
}

fn all_digits(word: &[u8]) -> bool
    ensures { result ≡ list_all is_digit word.now }
{
    word.iter().all(|c| c.is_ascii_digit())
}
