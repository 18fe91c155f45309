//! Which statements the step keeps.

ghost use Rattle.std.specs.Prelude.{◌≡◌, ◌==◌, ◌+◌, ◌<◌, ◌^◌, ◌++◌, Some, None, map, length, IfOk, OnOk, if◌then◌else◌};
ghost use Rattle.ped_tree.specs.Numbering.{statements_count};
ghost use Rattle.ped_tree.specs.Views.{program_tree};
ghost use Rattle.ped_splits.specs.Distributing as Spec;
ghost use Rattle.ped_splits.specs.Units.{units, homes};
ghost use Rattle.ped_splits.specs.CodeUnits.{IsParted, body_of};

use crate::units::Parted;
use ped_base::{Listed, NoMemory};
use ped_rules::Keep;
use ped_tree::{Program, count_statements};
use std::alloc::Global;

/// Each statement that the step keeps, with its number after it.
pub(crate) fn kept(
    alloc: Global,
    program: &Program,
    parted: &Parted,
    pi_blocks: &[Listed<usize>],
) -> Result<Keep, NoMemory>
    requires parted { IsParted (program_tree program.now) parted.now }
    requires few { statements_count (program_tree program.now).body + 1 < 2 ^ 32 }
    requires short { length (Spec.sources (program_tree program.now) parted.now.number (body_of parted.now) pi_blocks.now) < 2 ^ 32 }
    ensures { IfOk result (λ keep. keep ≡ Spec.kept_from 1 (Spec.sources (program_tree program.now) parted.now.number (body_of parted.now) pi_blocks.now)) }
{
    let sources = sources(alloc, program, parted, pi_blocks)?;
    kept_from(alloc, &sources)
}

/// Statements with the numbers from 1 on, each with what it comes from: those that come from one.
fn kept_from(alloc: Global, sources: &[Option<u32>]) -> Result<Keep, NoMemory>
    requires { length sources.now < 2 ^ 32 }
    ensures { IfOk result (λ keep. keep ≡ Spec.kept_from 1 sources.now) }
{
    let mut keep = Listed::new(alloc);
    let mut number = 0;
    for source in sources {
        number += 1;
        if let Some(former) = source {
            keep.push((*former, number))?;
        }
    }
    Ok(keep)
}

/// For each statement of the new program its number before the step; none for a DO that is new.
fn sources(
    alloc: Global,
    program: &Program,
    parted: &Parted,
    pi_blocks: &[Listed<usize>],
) -> Result<Vec<Option<u32>>, NoMemory>
    requires parted { IsParted (program_tree program.now) parted.now }
    requires few { statements_count (program_tree program.now).body + 1 < 2 ^ 32 }
    ensures { IfOk result (λ all. all.items ≡ Spec.sources (program_tree program.now) parted.now.number (body_of parted.now) pi_blocks.now) }
{
    let mut sources = Vec::new(alloc);
    add_unmoved(&mut sources, 1, parted.number - 1)?;
    add_loops(&mut sources, parted, pi_blocks)?;
    let behind = parted.number + count_statements(&parted.statement.body);
    add_unmoved(
        &mut sources,
        behind + 1,
        count_statements(&program.body) - behind,
    )?;
    Ok(sources)
}

/// Adds statements with the numbers from this one on, as many as given.
fn add_unmoved(sources: &mut Vec<Option<u32>>, first: u32, count: u32) -> Result<(), NoMemory>
    requires { first + count < 2 ^ 32 }
    ensures { OnOk result (sources.new.items ≡ sources.old.items ++ Spec.unmoved first count) }
{
    for place in 0..count {
        sources.push(Some(first + place))?;
    }
    Ok(())
}

/// Adds the statements of a DO for each pi-block, of which the first is the old DO.
fn add_loops(
    sources: &mut Vec<Option<u32>>,
    parted: &Parted,
    pi_blocks: &[Listed<usize>],
) -> Result<(), NoMemory>
    requires parted { parted.now.homes.now ≡ homes 0 (units (body_of parted.now)) }
    requires few { parted.now.number + length parted.now.homes.now < 2 ^ 32 }
    ensures { OnOk result (sources.new.items ≡ sources.old.items ++ Spec.loop_sources parted.now.number (body_of parted.now) pi_blocks.now) }
{
    for (place, block) in pi_blocks.iter().enumerate() {
        let head = source_of_head(parted.number, place);
        add_pi_block(sources, parted, head, block.as_slice())?;
    }
    Ok(())
}

/// What the head of the DO at this place comes from: the first one from the old DO.
fn source_of_head(number: u32, place: usize) -> Option<u32>
    ensures { result ≡ (if place == 0 then Some number else None) }
{
    if place == 0 {
        return Some(number);
    }
    None
}

/// Adds a DO that comes from this one, and the statements of these units.
fn add_pi_block(
    sources: &mut Vec<Option<u32>>,
    parted: &Parted,
    head: Option<u32>,
    block: &[usize],
) -> Result<(), NoMemory>
    requires parted { parted.now.homes.now ≡ homes 0 (units (body_of parted.now)) }
    requires few { parted.now.number + length parted.now.homes.now < 2 ^ 32 }
    ensures { OnOk result (sources.new.items ≡ sources.old.items ++ Spec.pi_block_sources parted.now.number (body_of parted.now) head block.now) }
{
    sources.push(head)?;
    for unit in block {
        add_unit(sources, parted, *unit)?;
    }
    Ok(())
}

/// Adds the statements of this unit.
fn add_unit(sources: &mut Vec<Option<u32>>, parted: &Parted, unit: usize) -> Result<(), NoMemory>
    requires parted { parted.now.homes.now ≡ homes 0 (units (body_of parted.now)) }
    requires few { parted.now.number + length parted.now.homes.now < 2 ^ 32 }
    ensures { OnOk result (sources.new.items ≡ sources.old.items ++ map Some (Spec.numbers_of parted.now.number (body_of parted.now) unit)) }
{
    let mut number = parted.number;
    for home in parted.homes {
        number += 1;
        if *home == unit {
            sources.push(Some(number))?;
        }
    }
    Ok(())
}
