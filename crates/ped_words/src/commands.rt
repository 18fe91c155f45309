//! The commands of the modes, as given to clap. None has a flag for help or for a version.

ghost use Rattle.std.specs.Prelude.{◌≡◌, codes, IfOk};
ghost use Rattle.clap.specs.Words.{app_of};
ghost use Rattle.ped_words.specs.Modes.{show_app, session_app, generate_app};
ghost use Rattle.ped_words.specs.Parses.{IsMode, IsNeeded, HasValue, HasSize};

use clap::{Arg, ArgAction, Command, value_parser};
use std::alloc::{AllocError, Global};

/// `show PROGRAM`
pub fn show_command<'a>(alloc: Global) -> Result<Command<'a>, AllocError>
    ensures app { IfOk result (λ c. app_of c ≡ show_app) }
    ensures program { IfOk result (HasValue (codes "program")) }
{
    let program = needed(alloc, "program");
    mode(alloc, "show").arg(program)
}

/// `session PROGRAM SCRIPT [--data FILE]`
pub fn session_command<'a>(alloc: Global) -> Result<Command<'a>, AllocError>
    ensures app { IfOk result (λ c. app_of c ≡ session_app) }
    ensures program { IfOk result (HasValue (codes "program")) }
    ensures script { IfOk result (HasValue (codes "script")) }
{
    let program = needed(alloc, "program");
    let script = needed(alloc, "script");
    let data = Arg::new(alloc, "data").long("data");
    mode(alloc, "session").arg(program)?.arg(script)?.arg(data)
}

/// `generate N`
pub fn generate_command<'a>(alloc: Global) -> Result<Command<'a>, AllocError>
    ensures app { IfOk result (λ c. app_of c ≡ generate_app) }
    ensures number { IfOk result (HasSize (codes "number")) }
{
    let number = needed(alloc, "number").value_parser(value_parser!(u32).range(1..=300));
    mode(alloc, "generate").arg(number)
}

/// A command of this name, without arguments.
fn mode<'a>(alloc: Global, name: &'a str) -> Command<'a>
    ensures { IsMode name.now result }
{
    Command::new(alloc, name).disable_help_flag(true)
}

/// An argument that must be there.
fn needed<'a>(alloc: Global, name: &'a str) -> Arg<'a>
    ensures { IsNeeded name.now result }
{
    Arg::new(alloc, name).required(true).action(ArgAction::Set)
}
