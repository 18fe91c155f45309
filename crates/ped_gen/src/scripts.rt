//! The scripts: two commands for each nest.

ghost use Rattle.std.specs.Prelude.{◌≡◌, ◌≤◌, ◌++◌, ◌+◌, ◌*◌, ◌∷◌, [], codes, IfOk, OnOk};
ghost use Rattle.std.specs.Fmt.{decimal};
ghost use Rattle.ped_gen.specs.Generated as Spec;

use ped_base::{Bytes, NoMemory, push_number};
use std::alloc::Global;

/// The script for the program with this many nests after the first.
pub fn script(alloc: Global, nests: u32) -> Result<Bytes, NoMemory>
    requires { (1 ≤ nests) × (nests ≤ 300) }
    ensures { IfOk result (λ text. text ≡ Spec.script nests) }
{
    let mut text = Bytes::new(alloc);
    for nest in 1..nests + 1 {
        push_commands(&mut text, nest)?;
    }
    Ok(text)
}

/// Adds the commands for the nest of this number.
fn push_commands(text: &mut Bytes, nest: u32) -> Result<(), NoMemory>
    requires { nest ≤ 300 }
    ensures { OnOk result (text.new ≡ text.old ++ Spec.text_of (Spec.commands nest)) }
{
    push_command(text, b"interchange ", 3 * nest + 1)?;
    push_command(text, b"parallel ", 3 * nest + 2)?;
    Ok(())
}

/// Adds a command on a statement.
fn push_command(text: &mut Bytes, word: &[u8], statement: u32) -> Result<(), NoMemory>
    ensures { OnOk result (text.new ≡ text.old ++ (word.now ++ decimal statement ++ 10 ∷ [])) }
{
    text.extend_from_slice(word)?;
    push_number(text, u64::from(statement))?;
    text.push(b'\n')
}
