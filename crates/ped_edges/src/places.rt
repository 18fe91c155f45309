//! References as a row names them, by their statement and their number there. Most have few digits, which are added at
//! once.

ghost use Rattle.std.specs.Prelude.{◌≡◌, ◌≤◌, ◌<◌, ◌+◌, ◌++◌, [], ◌∷◌, OnOk};
ghost use Rattle.ped_edges.specs.Rows as shown;

use crate::digits::push_digits;
use ped_base::{Bytes, NoMemory};

/// Adds a reference by its statement and its number there, and a blank. If memory runs out, the text ends somewhere in it.
pub(crate) fn push_place(out: &mut Bytes, place: (u32, u32)) -> Result<(), NoMemory>
    ensures { OnOk result (out.new ≡ out.old ++ (shown.place_text place ++ 32 ∷ [])) }
{
    let (statement, number) = place;
    if number >= 10 || statement >= 1000 {
        return push_long(out, place);
    }
    if statement < 10 {
        return push_one_digit(out, statement, number);
    }
    if statement < 100 {
        return push_two_digits(out, statement, number);
    }
    push_three_digits(out, statement, number)
}

/// Adds a reference of any statement.
fn push_long(out: &mut Bytes, place: (u32, u32)) -> Result<(), NoMemory>
    ensures { OnOk result (out.new ≡ out.old ++ (shown.place_text place ++ 32 ∷ [])) }
{
    push_digits(out, u64::from(place.0))?;
    out.push(b'.')?;
    push_digits(out, u64::from(place.1))?;
    out.push(b' ')
}

/// Adds a reference of a statement with one digit.
fn push_one_digit(out: &mut Bytes, statement: u32, number: u32) -> Result<(), NoMemory>
    requires few { statement < 10 }
    requires number { number < 10 }
    ensures { OnOk result (out.new ≡ out.old ++ (shown.place_text (statement, number) ++ 32 ∷ [])) }
{
    out.extend_from_slice(&[digit(statement), b'.', digit(number), b' '])
}

/// Adds a reference of a statement with two digits.
fn push_two_digits(out: &mut Bytes, statement: u32, number: u32) -> Result<(), NoMemory>
    requires least { 10 ≤ statement }
    requires most { statement < 100 }
    requires number { number < 10 }
    ensures { OnOk result (out.new ≡ out.old ++ (shown.place_text (statement, number) ++ 32 ∷ [])) }
{
    out.extend_from_slice(&[
        digit(statement / 10),
        digit(statement % 10),
        b'.',
        digit(number),
        b' ',
    ])
}

/// Adds a reference of a statement with three digits.
fn push_three_digits(out: &mut Bytes, statement: u32, number: u32) -> Result<(), NoMemory>
    requires least { 100 ≤ statement }
    requires most { statement < 1000 }
    requires number { number < 10 }
    ensures { OnOk result (out.new ≡ out.old ++ (shown.place_text (statement, number) ++ 32 ∷ [])) }
{
    let tens = statement / 10;
    out.extend_from_slice(&[
        digit(tens / 10),
        digit(tens % 10),
        digit(statement % 10),
        b'.',
        digit(number),
        b' ',
    ])
}

/// The character of a digit.
fn digit(digit: u32) -> u8
    requires { digit < 10 }
    ensures { result ≡ 48 + digit }
{
    b'0' + digit as u8
}
