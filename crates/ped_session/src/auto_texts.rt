//! What is printed for a report of `auto`.

ghost use Rattle.std.specs.Prelude.{◌≡◌, ◌++◌, codes, IfOk, OnOk};
ghost use Rattle.std.specs.Fmt.{decimal};
ghost use Rattle.std.specs.List.{flat_map};
ghost use Rattle.ped_transformations.specs.ped_steps.specs.CodeCauses.{cause_of, IsShort};
ghost use Rattle.ped_transformations.specs.ped_auto.specs.CodeReports.{report_of, AreShort};
ghost use Rattle.ped_transformations.specs.ped_auto.specs.CodeReports.{causes_of};
ghost use Rattle.ped_session.specs.Replies.{answer_row};
ghost use Rattle.ped_session.specs.AutoAnswers as Spec;

use ped_base::{Bytes, NoMemory, push_number};
use ped_script::{Command, command_text};
use ped_transformations::{AutoReport, Refused, cause_words};
use std::alloc::Global;

/// What is printed of a report of `auto` on this line of a script, which has led to this source.
pub(crate) fn auto_text(
    alloc: Global,
    line: u64,
    report: &AutoReport,
    source: &[u8],
) -> Result<Bytes, NoMemory>
    requires { AreShort report.now.left }
    ensures { IfOk result (λ text. text ≡ Spec.auto_text line (report_of report.now) source.now) }
{
    let mut out = Bytes::new(alloc);
    push_count(&mut out, line, report.accepted.len())?;
    push_accepted(alloc, &mut out, report.accepted.as_slice())?;
    push_left(alloc, &mut out, report.left.as_slice())?;
    out.extend_from_slice(source)?;
    Ok(out)
}

/// Adds the row that says how many steps were accepted.
fn push_count(out: &mut Bytes, line: u64, count: usize) -> Result<(), NoMemory>
    ensures { OnOk result (out.new ≡ out.old ++ answer_row line (codes "auto " ++ decimal count)) }
{
    push_number(out, line)?;
    out.extend_from_slice(b": auto ")?;
    push_number(out, count as u64)?;
    out.push(b'\n')
}

/// Adds the accepted steps.
fn push_accepted(alloc: Global, out: &mut Bytes, accepted: &[Command]) -> Result<(), NoMemory>
    ensures { OnOk result (out.new ≡ out.old ++ flat_map Spec.accepted_row accepted.now) }
{
    for command in accepted {
        push_command(alloc, out, command)?;
    }
    Ok(())
}

/// Adds the row of an accepted step.
fn push_command(alloc: Global, out: &mut Bytes, command: &Command) -> Result<(), NoMemory>
    ensures { OnOk result (out.new ≡ out.old ++ Spec.accepted_row command.now) }
{
    let text = command_text(alloc, command)?;
    out.extend_from_slice(b"+ ")?;
    out.extend_from_slice(text.as_slice())?;
    out.push(b'\n')
}

/// Adds the DOs that are left, with their causes.
fn push_left(alloc: Global, out: &mut Bytes, left: &[(u32, Refused)]) -> Result<(), NoMemory>
    requires { AreShort left.now }
    ensures { OnOk result (out.new ≡ out.old ++ flat_map Spec.left_row (causes_of left.now)) }
{
    for found in left {
        push_cause(alloc, out, found.0, &found.1)?;
    }
    Ok(())
}

/// Adds the row of a DO that is left, with its cause.
fn push_cause(alloc: Global, out: &mut Bytes, number: u32, why: &Refused) -> Result<(), NoMemory>
    requires { IsShort why.now }
    ensures { OnOk result (out.new ≡ out.old ++ Spec.left_row (number, cause_of why.now)) }
{
    let words = cause_words(alloc, why)?;
    out.extend_from_slice(b"left ")?;
    push_number(out, u64::from(number))?;
    out.push(b' ')?;
    out.extend_from_slice(words.as_slice())?;
    out.push(b'\n')
}
