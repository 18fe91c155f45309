//! The front of a text without blanks, and the rest of it: characters, digits, words, and the names of variables and of
//! intrinsic functions (ANSI X3.9-1978, sections 2.2, 4.3 and 15.10).

ghost use Rattle.std.specs.Prelude.{◌≡◌, ◌<◌, ◌≤◌, ◌+◌, IfSome, IsTrue, Some, None, length, if◌then◌else◌};
ghost use Rattle.std.specs.List.{list_all};
ghost use Rattle.std.specs.Str.Parse.{digits_value};
ghost use Rattle.ped_base.specs.Letters as Letters;
ghost use Rattle.ped_base.specs.Lists.{is_same_text};
ghost use Rattle.ped_tree.specs.Grammar.Words as Words;
ghost use Rattle.ped_expressions.specs.Scanning as Spec;
ghost use Rattle.ped_expressions.specs.ExpressionReading.{saturated};
ghost use Rattle.ped_expressions.specs.Views.{lent};

use ped_base::Name;
use ped_tree::Intrinsic;

/// What follows `prefix`.
pub fn after<'a>(text: &'a [u8], prefix: &[u8]) -> Option<&'a [u8]>
    ensures is { lent result ≡ Spec.after prefix.now text.now }
    ensures shorter { IfSome result (λ rest. length prefix.now + length rest.now ≡ length text.now) }
{
    text.strip_prefix(prefix)
}

/// Whether the text begins with a letter.
pub fn begins_with_letter(text: &[u8]) -> bool
    ensures { result ≡ Letters.begins_with_letter text.now }
{
    match text {
        [first, ..] => first.is_ascii_uppercase(),
        [] => false,
    }
}

/// Whether the text begins with a digit.
pub fn begins_with_digit(text: &[u8]) -> bool
    ensures { result ≡ Spec.first_is Letters.is_digit text.now }
{
    match text {
        [first, ..] => first.is_ascii_digit(),
        [] => false,
    }
}

#[tactic(auto, using(crate::proofs::Basics::front_all))]
/// The digits at the front, and what follows them.
pub fn split_digits(text: &[u8]) -> (&[u8], &[u8])
    ensures front { result.0.now ≡ Spec.front Letters.is_digit text.now }
    ensures behind { result.1.now ≡ Spec.behind Letters.is_digit text.now }
{
    for i in 0..text.len() {
        if !text[i].is_ascii_digit() {
            return text.split_at(i);
        }
    }
    text.split_at(text.len())
}

#[tactic(auto, using(crate::proofs::Basics::front_all))]
/// The letters and digits at the front, and what follows them.
pub fn split_word(text: &[u8]) -> (&[u8], &[u8])
    ensures front { result.0.now ≡ Spec.front Letters.is_alphanumeric text.now }
    ensures behind { result.1.now ≡ Spec.behind Letters.is_alphanumeric text.now }
    ensures whole { length result.0.now + length result.1.now ≡ length text.now }
{
    for i in 0..text.len() {
        if !(text[i].is_ascii_uppercase() || text[i].is_ascii_digit()) {
            return text.split_at(i);
        }
    }
    text.split_at(text.len())
}

#[tactic(auto, using(crate::proofs::Values::saturated_more))]
/// The number that the digits write, or the greatest integer of 32 bits where it is greater.
pub fn literal_value(digits: &[u8]) -> u32
    requires { IsTrue (list_all Letters.is_digit digits.now) }
    ensures { result ≡ saturated (digits_value 10 digits.now) }
{
    let mut value: u32 = 0;
    for digit in digits {
        value = value
            .saturating_mul(10)
            .saturating_add((*digit - b'0') as u32);
    }
    value
}

/// The name that the word is, where it is one.
pub fn name_of(word: &[u8]) -> Option<Name>
    ensures is { result ≡ (if Words.is_name word.now then Some word.now else None) }
    ensures some { IfSome result (λ x. 0 < length word.now) }
{
    Name::from_bytes(word)
}

#[tactic(auto, unfolding(ped_tree::specs::Grammar::Words::intrinsic_of))]
/// The intrinsic function of a name. IABS is read as ABS, MAX0 as MAX and MIN0 as MIN.
pub fn intrinsic_of(word: &[u8]) -> Option<Intrinsic>
    ensures { result ≡ Words.intrinsic_of word.now }
{
    if is_word(word, b"MOD") {
        return Some(Intrinsic::Mod);
    }
    if is_word(word, b"ABS") || is_word(word, b"IABS") {
        return Some(Intrinsic::Abs);
    }
    if is_word(word, b"MAX") || is_word(word, b"MAX0") {
        return Some(Intrinsic::Max);
    }
    if is_word(word, b"MIN") || is_word(word, b"MIN0") {
        return Some(Intrinsic::Min);
    }
    None
}

fn is_word(word: &[u8], expected: &[u8]) -> bool
    ensures { result ≡ is_same_text word.now expected.now }
{
    word == expected
}
