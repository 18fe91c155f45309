//! Whether a new program is valid.

ghost use Rattle.std.specs.Prelude.{◌≡◌, [], IfOk, MatchOption};
ghost use Rattle.ped_tree.specs.Views.{program_tree};
ghost use Rattle.ped_weaves.specs.ped_graph.specs.ped_symbols.specs.Kinds.{table_of};
ghost use Rattle.ped_weaves.specs.ped_graph.specs.ped_symbols.specs.NameRefusals.{IsValid};
ghost use Rattle.ped_steps.specs.Changes.{IsChange};

use crate::changes::Change;
use ped_base::NoMemory;
use ped_fits::fits;
use ped_tree::Program;
use ped_weaves::{Keep, NameRefusal, Symbols, symbols_of};
use std::alloc::Global;

/// What the names of a program stand for that was read from no text: none exactly where it isn't valid, since it breaks a
/// rule of names or passes a limit.
pub fn valid_symbols(alloc: Global, program: &Program) -> Result<Option<Symbols>, NoMemory>
    requires { program.now.lines.items ≡ [] }
    ensures { IfOk result (λ found. MatchOption found (IsValid (program_tree program.now) → ⊥) (λ symbols. IsValid (program_tree program.now) × (symbols ≡ table_of (program_tree program.now)))) }
{
    if !fits(program) {
        return Ok(None);
    }
    match symbols_of(alloc, program) {
        Ok(symbols) => {
            return Ok(Some(symbols));
        }
        Err(NameRefusal::At(_)) => {
            return Ok(None);
        }
        Err(NameRefusal::NoMemory) => {
            return Err(NoMemory);
        }
    }
}

/// The change to a new program, which was read from no text, that keeps these statements: none exactly where the new program
/// isn't valid.
pub fn change_to(alloc: Global, tree: Program, keep: Keep) -> Result<Option<Change>, NoMemory>
    requires { tree.lines.items ≡ [] }
    ensures { IfOk result (λ found. MatchOption found (IsValid (program_tree tree) → ⊥) (IsChange (program_tree tree) keep)) }
{
    match valid_symbols(alloc, &tree)? {
        Some(symbols) => {
            return Ok(Some(Change {
                tree,
                symbols,
                keep,
            }));
        }
        None => {
            return Ok(None);
        }
    }
}
