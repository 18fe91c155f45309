//! Texts opened as valid programs.

ghost use Rattle.std.specs.Prelude.{◌≡◌, IfOk, IfErr};
ghost use Rattle.ped_tree.specs.Views.{program_tree};
ghost use Rattle.ped_tree.specs.Grammar.Reading.{HasFirstLines};
ghost use Rattle.ped_parse.specs.ped_printed.specs.Programs.PrintedPrograms.{PrintsItself};
ghost use Rattle.ped_symbols.specs.Kinds.{table_of};
ghost use Rattle.ped_valid.specs.Validity.{ReadsValid};
ghost use Rattle.ped_valid.specs.Refusals.{IsRefusalOf};

use crate::refusals::OpenRefusal;
use ped_parse::read;
use ped_symbols::{Symbols, symbols_of};
use ped_tree::Program;
use std::alloc::Global;

/// A valid program, and what its names stand for.
#[derive(Drop)]
pub struct Opened {
    /// The program, with the first lines of its declarations, its numbered statements and its PRIVATE
    /// statements in the text that it was read from.
    pub program: Program,
    /// What its names stand for.
    pub symbols: Symbols,
}

/// The valid program that the text reads as, with what its names stand for; or the text's first refusal. A
/// program that is opened is what its printed text says: that text reads as this program, and as no other.
///
/// # Errors
///
/// `At` exactly where the text is refused, with its first refusal: those of lines decide before those of
/// statements, and these before those of names; among each the least line and then the least number.
/// `NoMemory` where memory runs out.
pub fn open_program(alloc: Global, text: &[u8]) -> Result<Opened, OpenRefusal>
    ensures tree { IfOk result (λ o. ReadsValid text.now (program_tree o.program)) }
    ensures lines { IfOk result (λ o. HasFirstLines text.now o.program.lines.items) }
    ensures printed { IfOk result (λ o. PrintsItself (program_tree o.program)) }
    ensures table { IfOk result (λ o. o.symbols ≡ table_of (program_tree o.program)) }
    ensures refused { IfErr result (λ e. IsRefusalOf text.now e) }
{
    let program = read(alloc, text)?;
    let symbols = symbols_of(alloc, &program)?;
    Ok(Opened { program, symbols })
}
