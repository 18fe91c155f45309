//! The numbers that words of the data denote.

ghost use Rattle.std.specs.Prelude.{◌≡◌, min, pos, ◌-◌, IsTrue, drop};
ghost use Rattle.std.specs.List.{list_all};
ghost use Rattle.std.specs.Str.Parse.{digits_value, without_leading_sign, signed_digits_value, starts_with_minus};
ghost use Rattle.ped_base.specs.Letters.{is_digit};
ghost use Rattle.ped_store.specs.DataLines as Spec;
ghost use Rattle.ped_store.specs.Stores as Stores;

use crate::faults::RunFault;

/// The number that a word is.
///
/// # Errors
///
/// 5 where the word isn't one sign or none and digits, and 4 where the number isn't from -2^31 to 2^31-1.
pub fn number_of(word: &[u8]) -> Result<i64, RunFault>
    ensures { result ≡ Spec.number_of word.now }
{
    if is_value(word) {
        storable(signed_number(word))
    } else {
        Err(RunFault::BAD_DATA)
    }
}

fn is_value(word: &[u8]) -> bool
    ensures { result ≡ Spec.is_value word.now }
{
    let digits = without_sign(word);
    !digits.is_empty() && are_digits(digits)
}

fn are_digits(text: &[u8]) -> bool
    ensures { result ≡ list_all is_digit text.now }
{
    text.iter().all(|c| c.is_ascii_digit())
}

fn without_sign(word: &[u8]) -> &[u8]
    ensures { result.now ≡ without_leading_sign word.now }
{
    match word {
        [b'-' | b'+', digits @ ..] => digits,
        _ => word,
    }
}

/// The number that a sign and digits write; one of too many digits is as far out of range.
fn signed_number(word: &[u8]) -> i64
    requires { IsTrue (Spec.is_value word.now) }
    ensures { Stores.storable result ≡ Stores.storable (signed_digits_value 10 word.now) }
{
    let magnitude = i64::from(saturated_value(without_sign(word)));
    if word.first() == Some(&b'-') {
        -magnitude
    } else {
        magnitude
    }
}

#[tactic(auto, using(crate::proofs::DataNumbers::saturated_more))]
/// The number that the digits write, or 2^32-1 where it is greater.
fn saturated_value(digits: &[u8]) -> u32
    requires { IsTrue (list_all is_digit digits.now) }
    ensures { result ≡ min (digits_value 10 digits.now) 4294967295 }
{
    let mut value: u32 = 0;
    for digit in digits {
        value = value
            .saturating_mul(10)
            .saturating_add((*digit - b'0') as u32);
    }
    value
}

fn storable(value: i64) -> Result<i64, RunFault>
    ensures { result ≡ Stores.storable value }
{
    if -(1 << 31) <= value && value <= (1 << 31) - 1 {
        Ok(value)
    } else {
        Err(RunFault::OUT_OF_RANGE)
    }
}
