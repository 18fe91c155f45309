//! The statements that an edit keeps: those on the lines before the ones that it touches, and those on the lines
//! after them.

ghost use Rattle.std.specs.Prelude.{◌≡◌, ◌+◌, ◌-◌, ◌<◌, ◌≤◌, ◌^◌, ◌++◌, map, IfOk, OnOk};
ghost use Rattle.std.specs.List.{range_with_len};
ghost use Rattle.ped_tree.specs.Numbering.{statements_count};
ghost use Rattle.ped_tree.specs.Views.{program_tree};
ghost use Rattle.ped_versions.specs.Splices as Splices;

use ped_base::NoMemory;
use ped_print::begun;
use ped_tree::Program;
use ped_update::Keep;
use std::alloc::Global;

/// The statements that an edit of the first program keeps in the second, where `kept` lines of the first are kept at
/// the front and `gone` lines go.
pub(crate) fn edit_keep(
    alloc: Global,
    old: &Program,
    new: &Program,
    kept: u64,
    gone: u64,
) -> Result<Keep, NoMemory>
    requires old { statements_count (program_tree old.now).body < 2 ^ 32 }
    requires new { statements_count (program_tree new.now).body < 2 ^ 32 }
    ensures { IfOk result (λ keep. keep ≡ Splices.edit_keep (program_tree old.now) (program_tree new.now) kept gone) }
{
    let begun = begun(alloc, old, kept, gone)?;
    let behind = new.count();
    let front = begun.front.min(behind);
    let back = begun.back.min(behind - front);
    kept_ends(alloc, old.count(), behind, front, back)
}

/// Of two programs with `before` and `behind` statements, `front` ones at the front and `back` ones at the back.
fn kept_ends(
    alloc: Global,
    before: u32,
    behind: u32,
    front: u32,
    back: u32,
) -> Result<Keep, NoMemory>
    requires before { back ≤ before }
    requires behind { front + back ≤ behind }
    ensures { IfOk result (λ keep. keep ≡ Splices.kept_ends before behind front back) }
{
    let mut keep = Keep::new(alloc);
    push_kept(&mut keep, 0, 0, front)?;
    push_kept(&mut keep, before - back, behind - back, back)?;
    Ok(keep)
}

/// Adds `count` statements, which follow `before` others before the edit and `behind` others after it.
fn push_kept(keep: &mut Keep, before: u32, behind: u32, count: u32) -> Result<(), NoMemory>
    requires before { before + count < 2 ^ 32 }
    requires behind { behind + count < 2 ^ 32 }
    ensures { OnOk result (keep.new ≡ keep.old ++ map (λ j. (before + j, behind + j)) (range_with_len 1 count)) }
{
    for number in 0..count {
        let next = number + 1;
        keep.push((before + next, behind + next))?;
    }
    Ok(())
}
