//! The line that says why a program's text is refused.

ghost use Rattle.std.specs.Prelude.{◌≡◌, ◌⊎◌, ◌≤◌, Some, None, IfOk};
ghost use Rattle.ped_io.specs.Outside.{Rose};
ghost use Rattle.ped_tree.specs.Grammar.RefusalViews.{finding_of};
ghost use Rattle.ped_call_runs.specs.ped_calls.specs.ped_units.specs.Verdicts.{found_in_text};
ghost use Rattle.ped_call_runs.specs.ped_calls.specs.ped_units.specs.Views.{unit_finding_of};
ghost use Rattle.ped_answer.specs.Answer.{Sends, IsJust};
ghost use Rattle.ped_answer.specs.Refusals as Spec;

use crate::answering::Status;
use crate::finishing::finish;
use ped_base::{Bytes, NoMemory, push_number};
use ped_call_runs::{UnitFinding, UnitRule};
use ped_io::Sink;
use ped_tree::grammar::Refusal;
use std::alloc::Global;

/// Says that the text of a program that was made is refused.
pub fn is_refused_text<K: Sink>(alloc: Global, refusal: Refusal, out: &mut K) -> Status
    ensures answer { Sends (IsJust Status.ProgramRefused (Spec.refused_line (found_in_text (finding_of refusal))))
        (Rose (K.faults out.old) (K.faults out.new)) (K.sent out.old) (K.sent out.new) result }
    ensures ends { (result ≡ Status.ProgramRefused) ⊎ (result ≡ Status.WriteFault) ⊎ (result ≡ Status.NoMemory) }
    ensures write_fault { result ≡ Status.WriteFault → Rose (K.faults out.old) (K.faults out.new) }
    ensures faults { K.faults out.old ≤ K.faults out.new }
    ensures untold { K.taken out.old ≡ None → K.taken out.new ≡ None }
    ensures told_sent { K.taken out.old ≡ Some (K.sent out.old) → K.taken out.new ≡ Some (K.sent out.new) }
{
    let finding = UnitFinding {
        rule: UnitRule::Text(refusal.kind),
        line: refusal.line,
    };
    is_refused(alloc, finding, out)
}

/// Says that a file's text is refused.
pub fn is_refused<K: Sink>(alloc: Global, refusal: UnitFinding, out: &mut K) -> Status
    ensures answer { Sends (IsJust Status.ProgramRefused (Spec.refused_line (unit_finding_of refusal)))
        (Rose (K.faults out.old) (K.faults out.new)) (K.sent out.old) (K.sent out.new) result }
    ensures ends { (result ≡ Status.ProgramRefused) ⊎ (result ≡ Status.WriteFault) ⊎ (result ≡ Status.NoMemory) }
    ensures write_fault { result ≡ Status.WriteFault → Rose (K.faults out.old) (K.faults out.new) }
    ensures faults { K.faults out.old ≤ K.faults out.new }
    ensures untold { K.taken out.old ≡ None → K.taken out.new ≡ None }
    ensures told_sent { K.taken out.old ≡ Some (K.sent out.old) → K.taken out.new ≡ Some (K.sent out.new) }
{
    match refused_line(alloc, refusal) {
        Ok(line) => finish(out, line.as_slice(), Status::ProgramRefused),
        Err(NoMemory) => Status::NoMemory,
    }
}

/// The rule that is broken by its number and its name, and its line.
fn refused_line(alloc: Global, refusal: UnitFinding) -> Result<Bytes, NoMemory>
    ensures { IfOk result (λ line. line ≡ Spec.refused_line (unit_finding_of refusal)) }
{
    let mut line = Bytes::new(alloc);
    line.extend_from_slice(b"ped: refused ")?;
    push_number(&mut line, u64::from(refusal.rule.number()))?;
    line.push(b' ')?;
    line.extend_from_slice(refusal.rule.name())?;
    line.extend_from_slice(b" at ")?;
    push_number(&mut line, refusal.line)?;
    line.push(b'\n')?;
    Ok(line)
}
