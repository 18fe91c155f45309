//! What is printed for a report of races.

ghost use Rattle.std.specs.Prelude.{◌≡◌, ◌++◌, take, IfOk, OnOk};
ghost use Rattle.std.specs.List.{flat_map};
ghost use Rattle.ped_store.specs.CellViews.{cell_view};
ghost use Rattle.ped_order.specs.ReportViews.{report_view};
ghost use Rattle.ped_session.specs.RaceRows as Spec;

use crate::outcome_texts::push_fault;
use ped_base::{Bytes, NoMemory, push_number, push_signed};
use ped_order::RaceReport;
use ped_store::Cell;
use std::alloc::Global;

/// The row of a report: the first race, the fault that comes before any, or that there is neither.
pub(crate) fn race_row(alloc: Global, report: &RaceReport) -> Result<Bytes, NoMemory>
    ensures { IfOk result (λ bytes. bytes ≡ Spec.race_row (report_view report.now)) }
{
    let mut out = Bytes::new(alloc);
    match report {
        RaceReport::NoRace => out.extend_from_slice(b"no race\n")?,
        RaceReport::Race {
            cell,
            first,
            second,
        } => push_race(&mut out, cell, *first, *second)?,
        RaceReport::Fault { fault, statement } => push_fault(&mut out, *fault, *statement)?,
    }
    Ok(out)
}

/// Adds a race with the statements of its accesses.
fn push_race(out: &mut Bytes, cell: &Cell, first: u32, second: u32) -> Result<(), NoMemory>
    ensures { OnOk result (out.new ≡ out.old ++ Spec.race_text (cell_view cell.now) first second) }
{
    out.extend_from_slice(b"race ")?;
    push_cell(out, cell)?;
    out.extend_from_slice(b" at ")?;
    push_number(out, u64::from(first))?;
    out.extend_from_slice(b" and ")?;
    push_number(out, u64::from(second))?;
    out.push(b'\n')
}

/// Adds a cell.
fn push_cell(out: &mut Bytes, cell: &Cell) -> Result<(), NoMemory>
    ensures { OnOk result (out.new ≡ out.old ++ Spec.cell_text (cell_view cell.now)) }
{
    match cell {
        Cell::Scalar(name) => return out.extend_from_slice(name.as_bytes()),
        Cell::Element {
            name,
            rank,
            subscripts,
        } => {
            out.extend_from_slice(name.as_bytes())?;
            out.push(b'(')?;
            push_subscripts(out, front(subscripts, *rank))?;
            return out.push(b')');
        }
        Cell::Private(copy) => return out.extend_from_slice(copy.name.as_bytes()),
        Cell::In => return out.extend_from_slice(b"(IN)"),
        Cell::Out => return out.extend_from_slice(b"(OUT)"),
    }
}

/// The first subscripts, as many as there are.
fn front(subscripts: &[i128], rank: u8) -> &[i128]
    ensures { result.now ≡ take rank subscripts.now }
{
    if rank as usize <= subscripts.len() {
        return &subscripts[..rank as usize];
    }
    subscripts
}

/// Adds subscripts with commas between them.
fn push_subscripts(out: &mut Bytes, subscripts: &[i128]) -> Result<(), NoMemory>
    ensures { OnOk result (out.new ≡ out.old ++ Spec.subscripts_text subscripts.now) }
{
    match subscripts.split_first() {
        None => return Ok(()),
        Some((first, others)) => {
            push_signed(out, *first)?;
            return push_others(out, others);
        }
    }
}

/// Adds subscripts, each after a comma.
fn push_others(out: &mut Bytes, subscripts: &[i128]) -> Result<(), NoMemory>
    ensures { OnOk result (out.new ≡ out.old ++ flat_map Spec.next_subscript subscripts.now) }
{
    for subscript in subscripts {
        out.push(b',')?;
        push_signed(out, *subscript)?;
    }
    Ok(())
}
