//! The report on a generated program: its script is applied, and the figures are reported.

ghost use Rattle.std.specs.Prelude.{◌≡◌, ◌+◌, ◌≤◌, [], ◌++◌, codes, List, ℕ, IfOk, OnOk};
ghost use Rattle.ped_gen.specs.Generated as made;
ghost use Rattle.ped_tree.specs.Tree.{ProgramTree};
ghost use Rattle.ped_session.specs.ped_rules.specs.ped_eval.specs.OutcomeViews.{outcome_view};
ghost use Rattle.ped_session.specs.ped_valid.specs.Validity.{ReadsValid};
ghost use Rattle.ped_script.specs.Items.{commands_of};
ghost use Rattle.ped_session.specs.States.{State, opened};
ghost use Rattle.ped_answer.specs.Generated as Spec;
ghost use Rattle.ped_answer.specs.Generated.{Applies, IsWordOn};
ghost use Rattle.ped_answer.specs.Tallies.{first_count, Counts, ReportsLast, Reported};

use crate::endings::end_alike;
use crate::tallies::{Tally, apply_items};
use itoa::Buffer;
use ped_base::{Bytes, NoMemory, push_number};
use ped_script::commands;
use ped_session::{Outcome, Session, sources_are_printed};
use ped_verdict::Steps;
use std::alloc::Global;
use std::sync::ledger::Ledger;

/// The eight lines on the program of this size, in a session that was opened on it: its script is applied, and it is run
/// without choices before and after.
pub fn report<L: Ledger>(
    alloc: Global,
    size: u32,
    session: &mut Session<L>,
    steps: &mut Steps<L>,
) -> Result<Bytes, NoMemory>
    requires size { (1 ≤ size) × (size ≤ 300) }
    requires opened { (t : ProgramTree) × ReadsValid (made.program size) t × (session.old ≡ opened t) }
    ensures reports { IfOk result (λ bytes. Reported size session.old steps.old steps.new bytes) }
    ensures least { steps.old ≤ steps.new }
    ensures most { (tally : Spec.Tally) (last : State) → Applies (commands_of (made.script size)) session.old tally last → steps.new ≤ steps.old + tally.tests }
{
    sources_are_printed();
    let first = session.run(alloc, &[], &[])?;
    let tally = apply_script(alloc, size, session, steps)?;
    report_last(alloc, size, session, &first, tally)
}

/// Applies the script of this size.
fn apply_script<L: Ledger>(
    alloc: Global,
    size: u32,
    session: &mut Session<L>,
    steps: &mut Steps<L>,
) -> Result<Tally, NoMemory>
    requires { (1 ≤ size) × (size ≤ 300) }
    ensures applies { IfOk result (λ tally. Counts (Applies (commands_of (made.script size))) session.old session.new (first_count session.old.tested) tally steps.old steps.new) }
    ensures least { steps.old ≤ steps.new }
    ensures most { (tally : Spec.Tally) (last : State) → Applies (commands_of (made.script size)) session.old tally last → steps.new ≤ steps.old + tally.tests }
{
    let script = ped_gen::script(alloc, size)?;
    let items = commands(alloc, script.as_slice())?;
    apply_items(alloc, session, items.as_slice(), steps)
}

/// The eight lines, by the last program of a session, how the first one has run, and what the script came to.
fn report_last<L: Ledger>(
    alloc: Global,
    size: u32,
    session: &Session<L>,
    first: &Outcome,
    tally: Tally,
) -> Result<Bytes, NoMemory>
    ensures { IfOk result (λ bytes. (last : ProgramTree) → ReadsValid session.now.present last → ReportsLast size (outcome_view first.now) tally last bytes) }
{
    let last = session.run(alloc, &[], &[])?;
    let edges = session.edges(alloc)?;
    let mut out = Bytes::new(alloc);
    push_figure(&mut out, b"generated", u64::from(size))?;
    push_figure(&mut out, b"statements", session.statements())?;
    push_figure(&mut out, b"pairs", session.pairs())?;
    push_figure(&mut out, b"accepted", tally.accepted)?;
    push_figure(&mut out, b"refused", tally.refused)?;
    push_tested(&mut out, tally.tested)?;
    push_figure(&mut out, b"edges", edges)?;
    push_runs(&mut out, first, &last)?;
    Ok(out)
}

/// Adds the line of a figure.
fn push_figure(out: &mut Bytes, name: &[u8], figure: u64) -> Result<(), NoMemory>
    ensures { OnOk result (out.new ≡ out.old ++ Spec.figure_line name.now figure) }
{
    out.extend_from_slice(name)?;
    out.push(b' ')?;
    push_number(out, figure)?;
    out.push(b'\n')
}

/// Adds the line that says how many pairs were tested.
fn push_tested(out: &mut Bytes, tested: u128) -> Result<(), NoMemory>
    ensures { OnOk result (out.new ≡ out.old ++ Spec.figure_line (codes "tested") tested) }
{
    let mut buffer = Buffer::new();
    out.extend_from_slice(b"tested ")?;
    out.extend_from_slice(buffer.format(tested).as_bytes())?;
    out.push(b'\n')
}

/// Adds the line of the runs.
fn push_runs(out: &mut Bytes, first: &Outcome, last: &Outcome) -> Result<(), NoMemory>
    ensures { OnOk result ((word : List ℕ) × IsWordOn (outcome_view first.now) (outcome_view last.now) word × (out.new ≡ out.old ++ Spec.runs_line word)) }
{
    if end_alike(first, last) {
        out.extend_from_slice(b"runs equal\n")
    } else {
        out.extend_from_slice(b"runs differ\n")
    }
}
