//! Lines of evidence that prove nothing in the present program.

ghost use Rattle.std.specs.Prelude.{◌≡◌, ◌++◌, ◌+◌, map, length, IfOk, OnOk};
ghost use Rattle.ped_script.specs.Kinds.{kind_of};
ghost use Rattle.ped_tree.specs.Tree.{ProgramTree};
ghost use Rattle.ped_tree.specs.Views.{program_tree};
ghost use Rattle.ped_transformations.specs.ped_evidence.specs.Lines.{line_holds};
ghost use Rattle.ped_versions.specs.Holding.{IsPresent};
ghost use Rattle.ped_session.specs.Idle as Spec;

use crate::session::Session;
use ped_base::{Bytes, NoMemory, push_signed};
use ped_script::{Command, EvidenceLine};
use ped_transformations::judge;
use ped_versions::Present;
use std::alloc::Global;
use std::sync::ledger::Ledger;

impl<L: Ledger> Session<L> {
    /// The rows that say which lines of a command's evidence prove nothing in the present program, where the command is on
    /// this line of a script and its evidence on those after it. Other commands have none.
    pub fn idle(&self, alloc: Global, line: u64, command: &Command) -> Result<Bytes, NoMemory>
        ensures { IfOk result (λ rows. Spec.AreIdle line (kind_of command.now) self.now rows) }
    {
        let evidence = command.evidence();
        if evidence.is_empty() {
            return Ok(Bytes::new(alloc));
        }
        idle_rows(alloc, &self.versions.present(), line, evidence)
    }
}

/// The rows of the lines that are idle in the present program, where these are the lines of the script after this one.
fn idle_rows<L: Ledger>(
    alloc: Global,
    present: &Present<'_, L>,
    line: u64,
    evidence: &[EvidenceLine],
) -> Result<Bytes, NoMemory>
    requires { IsPresent present.now }
    ensures { IfOk result (λ rows. rows ≡ Spec.idle_rows (program_tree present.now.program.now) (line + 1) evidence.now) }
{
    let held = judge(alloc, present.program, present.symbols, evidence)?;
    rows_of(alloc, line, evidence, &held)
}

/// The rows of idle lines, by which of the lines hold.
fn rows_of(
    alloc: Global,
    line: u64,
    evidence: &[EvidenceLine],
    held: &[bool],
) -> Result<Bytes, NoMemory>
    requires { length held.now ≡ length evidence.now }
    ensures { IfOk result (λ rows. (t : ProgramTree) → held.now ≡ map (line_holds t) evidence.now → rows ≡ Spec.idle_rows t (line + 1) evidence.now) }
{
    let mut rows = Bytes::new(alloc);
    for place in 0..evidence.len() {
        push_line(&mut rows, line, place, &evidence[place], held[place])?;
    }
    Ok(rows)
}

/// Adds the row of a line where it is idle, by whether it holds. Before it stand this many after the line of the command.
fn push_line(
    rows: &mut Bytes,
    line: u64,
    before: usize,
    evidence: &EvidenceLine,
    holds: bool,
) -> Result<(), NoMemory>
    ensures { OnOk result ((t : ProgramTree) → holds ≡ line_holds t evidence.now → rows.new ≡ rows.old ++ Spec.idle_row t (line + 1 + before) evidence.now) }
{
    if is_idle(evidence, holds) {
        return push_idle(rows, line, before);
    }
    Ok(())
}

/// Whether a line is idle, by whether it holds.
fn is_idle(line: &EvidenceLine, holds: bool) -> bool
    ensures { (t : ProgramTree) → holds ≡ line_holds t line.now → result ≡ Spec.is_idle t line.now }
{
    match line {
        EvidenceLine::Empty => false,
        EvidenceLine::Malformed => true,
        EvidenceLine::Claim(_) => !holds,
    }
}

/// Adds the row of an idle line, before which stand this many after the line of the command.
fn push_idle(rows: &mut Bytes, line: u64, before: usize) -> Result<(), NoMemory>
    ensures { OnOk result (rows.new ≡ rows.old ++ Spec.row_of_idle (line + 1 + before)) }
{
    push_signed(rows, i128::from(line) + 1 + before as i128)?;
    rows.extend_from_slice(b": idle\n")
}
