//! What a program leaves: the lines that it has printed, and its live-out variables.

ghost use Rattle.std.specs.Prelude.{◌≡◌, map, IfOk, OnOk, ◌++◌};
ghost use Rattle.std.specs.List.{flat_map};
ghost use Rattle.ped_tree.specs.NamesIn as Names;
ghost use Rattle.ped_tree.specs.Views.{decl_tree, program_tree};
ghost use Rattle.ped_store.specs.Keeping.{memory_of};
ghost use Rattle.ped_eval.specs.Loops as Loops;
ghost use Rattle.ped_eval.specs.Live.{row_in, rows_in};
ghost use Rattle.ped_eval.specs.Outcomes as Outcomes;
ghost use Rattle.ped_eval.specs.OutcomeViews.{row_view};

use crate::inner_names::add_all;
use crate::outcomes::LiveRow;
use crate::sorting::sorted_once;
use ped_base::{Bytes, Listed, Name, Names, NoMemory};
use ped_store::Store;
use ped_tree::{Decl, Program};
use std::alloc::Global;

/// The live-out variables with what they hold.
pub(crate) fn live_rows(
    alloc: Global,
    program: &Program,
    store: &Store,
) -> Result<Listed<LiveRow>, NoMemory>
    ensures { IfOk result (λ rows. map row_view rows ≡ rows_in (memory_of store.now) (Outcomes.live_names (program_tree program.now))) }
{
    let names = live_names(alloc, &program.decls)?;
    let mut rows = Listed::new(alloc);
    for name in names.as_slice() {
        let row = live_row(alloc, store, name)?;
        rows.push(row)?;
    }
    Ok(rows)
}

/// A variable with what it holds.
fn live_row(alloc: Global, store: &Store, name: &Name) -> Result<LiveRow, NoMemory>
    ensures { IfOk result (λ row. row_view row ≡ row_in (memory_of store.now) name.now) }
{
    let values = store.values(alloc, name)?;
    Ok(LiveRow {
        name: *name,
        values,
    })
}

/// The names in SAVE, each once, in byte order.
fn live_names(alloc: Global, decls: &[Decl]) -> Result<Names, NoMemory>
    ensures { IfOk result (λ names. names ≡ Loops.sorted_once (flat_map Names.saved_in (map decl_tree decls.now))) }
{
    let mut names = Names::new(alloc);
    for decl in decls {
        if let Decl::Save(saved) = decl {
            add_all(&mut names, saved.as_slice())?;
        }
    }
    sorted_once(alloc, names.as_slice())
}

/// A copy of lines.
pub(crate) fn copy_lines(alloc: Global, lines: &[Bytes]) -> Result<Listed<Bytes>, NoMemory>
    ensures { IfOk result (λ copy. copy ≡ lines.now) }
{
    let mut copy = Listed::new(alloc);
    for line in lines {
        copy.push(copy_line(alloc, line)?)?;
    }
    Ok(copy)
}

/// A copy of a line.
fn copy_line(alloc: Global, line: &Bytes) -> Result<Bytes, NoMemory>
    ensures { IfOk result (λ copy. copy ≡ line.now) }
{
    Ok(Bytes::from_vec(Vec::from_slice(alloc, line.as_slice())?))
}
