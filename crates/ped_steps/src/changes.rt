//! What an accepted step returns.

ghost use Rattle.std.specs.Prelude.{◌≡◌, ◌^◌, ◌<◌, IfOk};
ghost use Rattle.ped_tree.specs.Views.{program_tree};
ghost use Rattle.ped_tree.specs.Numbering.{statements_count};
ghost use Rattle.ped_steps.specs.Replacing as Spec;

use crate::causes::Refused;
use ped_base::{Listed, NoMemory};
use ped_tree::{Program, count_statements};
use ped_weaves::{Keep, Symbols};
use std::alloc::Global;

/// What an accepted step makes of a program.
#[derive(Drop)]
pub struct Change {
    /// The new program, which is valid. It was read from no text, so it has no lines.
    pub tree: Program,
    /// What the names of the new program stand for.
    pub symbols: Symbols,
    /// The statements that the step keeps: the number of each before the step, and its number after it.
    pub keep: Keep,
}

/// What a step answers: the change that it makes of a program, or what refuses it. The only error is running out of memory.
pub type StepAnswer = Result<Result<Change, Refused>, NoMemory>;

/// Each statement of a program with the same number after the step.
pub fn all_kept(alloc: Global, program: &Program) -> Result<Keep, NoMemory>
    requires { statements_count (program_tree program.now).body < 2 ^ 32 }
    ensures { IfOk result (λ keep. keep ≡ Spec.all_kept (program_tree program.now)) }
{
    let mut keep = Listed::new(alloc);
    for n in 0..count_statements(&program.body) {
        keep.push((n + 1, n + 1))?;
    }
    Ok(keep)
}
