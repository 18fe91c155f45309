//! The texts of places of references and of patterns. When memory runs out, a text ends somewhere in them.

ghost use Rattle.std.specs.Prelude.{◌≡◌, ◌++◌, codes, OnOk};
ghost use Rattle.std.specs.List.{flat_map, join_by};
ghost use Rattle.ped_certificates.specs.PairTexts as Spec;

use crate::claims::{Position, Sign};
use ped_base::{Bytes, NoMemory, push_number};

/// Adds the place of a reference.
pub fn push_place(text: &mut Bytes, place: &Position) -> Result<(), NoMemory>
    ensures { OnOk result (text.new ≡ text.old ++ Spec.place_text place.now) }
{
    push_number(text, u64::from(place.statement))?;
    text.push(b'.')?;
    push_number(text, u64::from(place.number))
}

/// Adds a pattern.
pub fn push_pattern(text: &mut Bytes, pattern: &[Sign]) -> Result<(), NoMemory>
    ensures { OnOk result (text.new ≡ text.old ++ Spec.pattern_text pattern.now) }
{
    text.push(b'(')?;
    push_signs(text, pattern)?;
    text.push(b')')
}

/// Adds signs, with a comma between two.
fn push_signs(text: &mut Bytes, pattern: &[Sign]) -> Result<(), NoMemory>
    ensures { OnOk result (text.new ≡ text.old ++ join_by Spec.sign_text (codes ",") pattern.now) }
{
    let Some((first, rest)) = pattern.split_first() else {
        return Ok(());
    };
    push_sign(text, *first)?;
    push_more_signs(text, rest)
}

/// Adds signs, each after a comma.
fn push_more_signs(text: &mut Bytes, signs: &[Sign]) -> Result<(), NoMemory>
    ensures { OnOk result (text.new ≡ text.old ++ flat_map (λ sign. codes "," ++ Spec.sign_text sign) signs.now) }
{
    for sign in signs {
        text.push(b',')?;
        push_sign(text, *sign)?;
    }
    Ok(())
}

/// Adds a sign.
fn push_sign(text: &mut Bytes, sign: Sign) -> Result<(), NoMemory>
    ensures { OnOk result (text.new ≡ text.old ++ Spec.sign_text sign) }
{
    match sign {
        Sign::Before => text.push(b'<'),
        Sign::Same => text.push(b'='),
        Sign::After => text.push(b'>'),
        Sign::Any => text.push(b'*'),
    }
}
