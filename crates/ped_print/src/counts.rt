//! How many numbered statements begin on the first printed lines of a program, and how many on the last.

ghost use Rattle.std.specs.Prelude.{◌≡◌, ◌+◌, ◌<◌, ◌^◌, map, take, drop, IfOk};
ghost use Rattle.ped_tree.specs.Numbering.{statements_count};
ghost use Rattle.ped_tree.specs.Printing as Spec;
ghost use Rattle.ped_tree.specs.Printing.{begun_in};
ghost use Rattle.ped_tree.specs.Views.{program_tree};
ghost use Rattle.ped_print.specs.PrintedLines.{line_of};

use crate::lines::Line;
use crate::programs::program_lines;
use ped_base::NoMemory;
use ped_tree::Program;
use std::alloc::Global;

/// How many numbered statements begin on either side of some printed lines. A DO begins at its DO line, and a
/// statement at its initial line.
#[derive(Clone, Copy, PartialEq, Eq)]
pub struct BegunStatements {
    /// How many begin before these lines.
    pub front: u32,
    /// How many begin after them.
    pub back: u32,
}

/// How many numbered statements begin on the first `kept` printed lines of a program, and how many after these and
/// the `gone` lines that come next.
pub fn begun(
    alloc: Global,
    program: &Program,
    kept: u64,
    gone: u64,
) -> Result<BegunStatements, NoMemory>
    requires { statements_count (program_tree program.now).body < 2 ^ 32 }
    ensures front { IfOk result (λ b. b.front ≡ begun_in (take kept (Spec.program_lines (program_tree program.now)))) }
    ensures back { IfOk result (λ b. b.back ≡ begun_in (drop (kept + gone) (Spec.program_lines (program_tree program.now)))) }
{
    let lines = program_lines(alloc, program)?;
    let count = lines.len() as u64;
    let first = kept.min(count) as usize;
    let last = kept.saturating_add(gone).min(count) as usize;
    Ok(BegunStatements {
        front: count_begun(&lines[..first]),
        back: count_begun(&lines[last..]),
    })
}

/// How many numbered statements begin on these lines.
fn count_begun(lines: &[Line]) -> u32
    requires { begun_in (map line_of lines.now) < 2 ^ 32 }
    ensures { result ≡ begun_in (map line_of lines.now) }
{
    let mut total = 0;
    for line in lines {
        if line.statement.is_some() {
            total += 1;
        }
    }
    total
}
