//! Numbers in decimal, digit by digit, since most numbers of a row have few digits.

ghost use Rattle.std.specs.Prelude.{◌≡◌, ◌+◌, ◌<◌, ◌++◌, ◌∷◌, [], OnOk};
ghost use Rattle.std.specs.Fmt.{decimal};

use ped_base::{Bytes, NoMemory};

/// Adds the digits of a number. If memory runs out, the text ends somewhere in the number.
pub(crate) fn push_digits(out: &mut Bytes, number: u64) -> Result<(), NoMemory>
    ensures { OnOk result (out.new ≡ out.old ++ decimal number) }
{
    if number < 10 {
        return push_digit(out, number);
    }
    push_digits(out, number / 10)?;
    push_digit(out, number % 10)
}

/// Adds a digit.
fn push_digit(out: &mut Bytes, digit: u64) -> Result<(), NoMemory>
    requires { digit < 10 }
    ensures { OnOk result (out.new ≡ out.old ++ (48 + digit) ∷ []) }
{
    out.push(b'0' + digit as u8)
}
