//! The pane of calls: the marked blocks of a program, and its dependences with each block as one statement.

ghost use Rattle.std.specs.Prelude.{◌≡◌, ◌++◌, [], ◌∷◌, codes, map, IfOk, OnOk};
ghost use Rattle.std.specs.List.{flat_map};
ghost use Rattle.std.specs.Fmt.{decimal};
ghost use Rattle.ped_tree.specs.Views.{program_tree};
ghost use Rattle.ped_rules.specs.ped_steps.specs.Scenes.{IsSceneOf};
ghost use Rattle.ped_inline.specs.CallsPane as Spec;
ghost use Rattle.ped_inline.specs.CallsPane.{IsCallsPane};
ghost use Rattle.ped_inline.specs.CodeFolding.{called_seen, row_seen};

use crate::block_places::block_places;
use crate::called::{Called, calls};
use crate::rows::{FoldedRow, bytes_of, folded_rows};
use ped_base::{Bytes, NoMemory, push_number};
use ped_edges::{push_kind, push_level};
use ped_rules::Scene;
use std::alloc::Global;
use std::collections::BTreeSet;
use std::sync::ledger::Ledger;

/// The pane of calls (ParaScope): a line for each marked block, with the CALL that it was made from, and then one for
/// each dependence of which a reference is in a block. There a block stands for all that is in it, and what is between
/// two references inside one execution of a block isn't shown.
pub fn calls_pane<L: Ledger>(alloc: Global, scene: &Scene<L>) -> Result<Bytes, NoMemory>
    requires { IsSceneOf (program_tree scene.now.tree.now) scene.now }
    ensures { IfOk result (IsCallsPane (program_tree scene.now.tree.now)) }
{
    let edges = scene.graph.edges(alloc)?;
    let places = block_places(alloc, &scene.tree.body)?;
    let rows = folded_rows(alloc, &places, &edges)?;
    let calls = calls(alloc, &scene.tree.body)?;
    pane_of(alloc, &calls, &rows)
}

/// The pane of these CALLs and rows.
fn pane_of(
    alloc: Global,
    calls: &[Called<'_>],
    rows: &BTreeSet<FoldedRow>,
) -> Result<Bytes, NoMemory>
    ensures { IfOk result (λ pane. pane ≡ Spec.calls_pane (map called_seen calls.now) (map row_seen rows.now.keys)) }
{
    let mut pane = Bytes::new(alloc);
    push_counts(&mut pane, calls.len() as u64, rows.len() as u64)?;
    push_calls(&mut pane, calls)?;
    push_rows(&mut pane, rows)?;
    Ok(pane)
}

/// Adds the line that says how many CALLs and how many rows there are.
fn push_counts(out: &mut Bytes, calls: u64, rows: u64) -> Result<(), NoMemory>
    ensures { OnOk result (out.new ≡ out.old ++ (codes "calls " ++ decimal calls ++ codes " edges " ++ decimal rows ++ 10 ∷ [])) }
{
    out.extend_from_slice(b"calls ")?;
    push_number(out, calls)?;
    out.extend_from_slice(b" edges ")?;
    push_number(out, rows)?;
    out.push(b'\n')
}

/// Adds the lines of CALLs.
fn push_calls(out: &mut Bytes, calls: &[Called<'_>]) -> Result<(), NoMemory>
    ensures { OnOk result (out.new ≡ out.old ++ flat_map (λ c. Spec.called_row c ++ 10 ∷ []) (map called_seen calls.now)) }
{
    for call in calls {
        push_call(out, call)?;
    }
    Ok(())
}

/// Adds the line of a CALL: the number of its block, and the CALL.
fn push_call(out: &mut Bytes, call: &Called<'_>) -> Result<(), NoMemory>
    ensures { OnOk result (out.new ≡ out.old ++ (Spec.called_row (called_seen call.now) ++ 10 ∷ [])) }
{
    push_number(out, u64::from(call.number))?;
    out.push(b' ')?;
    out.extend_from_slice(call.text)?;
    out.push(b'\n')
}

/// Adds the lines of folded dependences.
fn push_rows(out: &mut Bytes, rows: &BTreeSet<FoldedRow>) -> Result<(), NoMemory>
    ensures { OnOk result (out.new ≡ out.old ++ flat_map (λ r. Spec.folded_row r ++ 10 ∷ []) (map row_seen rows.now.keys)) }
{
    for row in rows.iter() {
        push_line(out, row)?;
    }
    Ok(())
}

/// Adds the line of a folded dependence.
fn push_line(out: &mut Bytes, row: &FoldedRow) -> Result<(), NoMemory>
    ensures { OnOk result (out.new ≡ out.old ++ (Spec.folded_row (row_seen row.now) ++ 10 ∷ [])) }
{
    push_row(out, row)?;
    out.push(b'\n')
}

/// Adds the row of a folded dependence.
fn push_row(out: &mut Bytes, row: &FoldedRow) -> Result<(), NoMemory>
    ensures { OnOk result (out.new ≡ out.old ++ Spec.folded_row (row_seen row.now)) }
{
    push_number(out, u64::from(row.source))?;
    out.push(b' ')?;
    push_number(out, u64::from(row.sink))?;
    out.push(b' ')?;
    out.extend_from_slice(bytes_of(&row.name))?;
    out.push(b' ')?;
    push_kind(out, row.kind)?;
    out.push(b' ')?;
    push_level(out, row.level)
}
