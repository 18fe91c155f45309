//! What is printed for an outcome.

ghost use Rattle.std.specs.Prelude.{◌≡◌, ◌++◌, map, IfOk, OnOk};
ghost use Rattle.std.specs.List.{flat_map};
ghost use Rattle.ped_eval.specs.OutcomeViews.{outcome_view, row_view};
ghost use Rattle.ped_session.specs.OutcomeTexts as Spec;

use ped_base::{Bytes, NoMemory, push_number, push_signed};
use ped_eval::{LiveRow, Outcome};
use ped_store::RunFault;
use std::alloc::Global;

/// The printed lines, `ended` and the live-out variables; or the fault with its statement.
pub(crate) fn outcome_text(alloc: Global, outcome: &Outcome) -> Result<Bytes, NoMemory>
    ensures { IfOk result (λ bytes. bytes ≡ Spec.outcome_text (outcome_view outcome.now)) }
{
    let mut out = Bytes::new(alloc);
    match outcome {
        Outcome::Ended { output, live } => {
            push_output(&mut out, output.as_slice())?;
            out.extend_from_slice(b"ended\n")?;
            push_live(&mut out, live.as_slice())?;
        }
        Outcome::Fault { fault, statement } => push_fault(&mut out, *fault, *statement)?,
    }
    Ok(out)
}

/// Adds the printed lines, each after a bar.
fn push_output(out: &mut Bytes, lines: &[Bytes]) -> Result<(), NoMemory>
    ensures { OnOk result (out.new ≡ out.old ++ flat_map Spec.output_row lines.now) }
{
    for line in lines {
        out.extend_from_slice(b"| ")?;
        out.extend_from_slice(line.as_slice())?;
        out.push(b'\n')?;
    }
    Ok(())
}

/// Adds the rows of the live-out variables.
fn push_live(out: &mut Bytes, rows: &[LiveRow]) -> Result<(), NoMemory>
    ensures { OnOk result (out.new ≡ out.old ++ flat_map Spec.live_row (map row_view rows.now)) }
{
    for row in rows {
        out.extend_from_slice(b"live ")?;
        out.extend_from_slice(row.name.as_bytes())?;
        push_values(out, row.values.as_slice())?;
        out.push(b'\n')?;
    }
    Ok(())
}

/// Adds values, each after a blank.
fn push_values(out: &mut Bytes, values: &[Option<i128>]) -> Result<(), NoMemory>
    ensures { OnOk result (out.new ≡ out.old ++ flat_map Spec.value_text values.now) }
{
    for value in values {
        push_value(out, *value)?;
    }
    Ok(())
}

/// Adds a value after a blank, a question mark where it is undefined.
fn push_value(out: &mut Bytes, value: Option<i128>) -> Result<(), NoMemory>
    ensures { OnOk result (out.new ≡ out.old ++ Spec.value_text value) }
{
    match value {
        None => out.extend_from_slice(b" ?"),
        Some(number) => {
            out.push(b' ')?;
            push_signed(out, number)
        }
    }
}

/// Adds a fault with its statement.
pub(crate) fn push_fault(out: &mut Bytes, fault: RunFault, statement: u32) -> Result<(), NoMemory>
    ensures { OnOk result (out.new ≡ out.old ++ Spec.fault_row fault statement) }
{
    out.extend_from_slice(b"fault ")?;
    push_number(out, u64::from(fault.number()))?;
    out.extend_from_slice(b" at ")?;
    push_number(out, u64::from(statement))?;
    out.push(b'\n')
}
