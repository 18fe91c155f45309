//! The strategy of `auto`.

ghost use Rattle.std.specs.Prelude.{◌≡◌, ◌≤◌, ◌+◌, ◌-◌, ◌∷◌, [], ℕ, List, length, false, IfOk, OnOk, OnErr};
ghost use Rattle.ped_rules.specs.ped_flow.specs.ped_tree.specs.Tree.{ProgramTree};
ghost use Rattle.ped_refs.specs.Occurrences.{name_text};
ghost use Rattle.ped_auto.specs.SerialLoops.{serial_loops};
ghost use Rattle.ped_auto.specs.Editing.{IsOfStrategy, CanTry};
ghost use Rattle.ped_auto.specs.Strategy.{Report, Tries, TriesEach, Privatises, Reduces, Attempts, Visits, VisitsAgain, Round, FurtherRounds, AreLeft, IsAuto};
ghost use Rattle.ped_auto.specs.CutOff.{IsCutOff};
ghost use Rattle.ped_auto.specs.CodeReports.{causes_of, report_of, AreShort};
ghost use Rattle.ped_auto.specs.CodeStages.{Goes, CutsOff, AnyOutcome, Tried, HasStatement, Refusal, IsScalarName, AreScalarNames, TellsCause};

use crate::editor::Editor;
use crate::report::AutoReport;
use ped_base::{Listed, Name, Names, NoMemory};
use ped_refs::RefName;
use ped_rules::Refused;
use ped_script::Command;
use ped_verdict::Steps;
use std::alloc::Global;
use std::sync::ledger::Ledger;

/// The most scalars that one reduction takes.
const MOST_SUMS: usize = 8;

/// Tries a command: nothing where it is accepted, and else the first cause against it.
fn try_command<L: Ledger, E: Editor<L>>(
    alloc: Global,
    editor: &mut E,
    accepted: &mut Listed<Command>,
    steps: &mut Steps<L>,
    command: Command,
) -> Result<Option<Refused>, NoMemory>
    requires can { CanTry E.editing editor.old command }
    requires strategy { IsOfStrategy command }
    ensures tried { IfOk result (λ why. Goes (Tried E.editing command why) editor.old accepted.old steps.old editor.new accepted.new steps.new) }
    ensures cut { OnErr result (CutsOff E.editing (AnyOutcome (Tries E.editing command)) editor.old accepted.old steps.old editor.new steps.new) }
    ensures least { steps.old ≤ steps.new }
{
    match editor.step(alloc, &command, steps)? {
        Some(why) => Ok(Some(why)),
        None => {
            accepted.push(command)?;
            Ok(None)
        }
    }
}

/// Makes this loop parallel by accepted steps, where they do it: as it is, with private scalars, or with sums.
fn attempt<L: Ledger, E: Editor<L>>(
    alloc: Global,
    editor: &mut E,
    accepted: &mut Listed<Command>,
    steps: &mut Steps<L>,
    number: u32,
) -> Result<bool, NoMemory>
    requires { HasStatement E.editing editor.old number }
    ensures done { IfOk result (λ done. Goes (λ p q. Attempts E.editing number p done q) editor.old accepted.old steps.old editor.new accepted.new steps.new) }
    ensures cut { OnErr result (CutsOff E.editing (AnyOutcome (Attempts E.editing number)) editor.old accepted.old steps.old editor.new steps.new) }
    ensures least { steps.old ≤ steps.new }
{
    let command = Command::Parallel(number);
    let refused = try_command(alloc, editor, accepted, steps, command)?;
    if refused.is_none() {
        return Ok(true);
    }
    let made = make_private(alloc, editor, accepted, steps, number)?;
    if made {
        return Ok(true);
    }
    add_up(alloc, editor, accepted, steps, number)
}

/// Makes all that this loop carries private where that is scalars alone, and then the loop parallel. The loop as it is
/// was refused.
fn make_private<L: Ledger, E: Editor<L>>(
    alloc: Global,
    editor: &mut E,
    accepted: &mut Listed<Command>,
    steps: &mut Steps<L>,
    number: u32,
) -> Result<bool, NoMemory>
    requires at { HasStatement E.editing editor.old number }
    requires refused { Refusal E.editing editor.old (Command.Parallel number) }
    ensures done { IfOk result (λ done. Goes (λ p q. Privatises E.editing number p done q) editor.old accepted.old steps.old editor.new accepted.new steps.new) }
    ensures cut { OnErr result (CutsOff E.editing (AnyOutcome (Privatises E.editing number)) editor.old accepted.old steps.old editor.new steps.new) }
    ensures least { steps.old ≤ steps.new }
{
    let found = scalar_names(alloc, editor, number)?;
    let Some(names) = found else {
        return Ok(false);
    };
    let taken = privatise_each(alloc, editor, accepted, steps, number, names.as_slice())?;
    if !taken {
        return Ok(false);
    }
    let command = Command::Parallel(number);
    let refused = try_command(alloc, editor, accepted, steps, command)?;
    Ok(refused.is_none())
}

/// Tries to make each of these scalars private to this loop. Whether one was made so; where none was, nothing has changed.
fn privatise_each<L: Ledger, E: Editor<L>>(
    alloc: Global,
    editor: &mut E,
    accepted: &mut Listed<Command>,
    steps: &mut Steps<L>,
    number: u32,
    names: &[Name],
) -> Result<bool, NoMemory>
    requires { HasStatement E.editing editor.old number }
    ensures each { OnOk result (Goes (TriesEach E.editing number names.now) editor.old accepted.old steps.old editor.new accepted.new steps.new) }
    ensures none { IfOk result (λ taken. taken ≡ false → Goes (λ p q. q ≡ p) editor.old accepted.old steps.old editor.new accepted.new steps.new) }
    ensures cut { OnErr result (CutsOff E.editing (TriesEach E.editing number names.now) editor.old accepted.old steps.old editor.new steps.new) }
    ensures least { steps.old ≤ steps.new }
{
    let mut taken = false;
    for name in names {
        let command = Command::Privatise(number, *name);
        let refused = try_command(alloc, editor, accepted, steps, command)?;
        taken |= refused.is_none();
    }
    Ok(taken)
}

/// Gives this loop sums for all that it carries, where that is one to eight scalars.
fn add_up<L: Ledger, E: Editor<L>>(
    alloc: Global,
    editor: &mut E,
    accepted: &mut Listed<Command>,
    steps: &mut Steps<L>,
    number: u32,
) -> Result<bool, NoMemory>
    requires { HasStatement E.editing editor.old number }
    ensures done { IfOk result (λ done. Goes (λ p q. Reduces E.editing number p done q) editor.old accepted.old steps.old editor.new accepted.new steps.new) }
    ensures cut { OnErr result (CutsOff E.editing (AnyOutcome (Reduces E.editing number)) editor.old accepted.old steps.old editor.new steps.new) }
    ensures least { steps.old ≤ steps.new }
{
    let found = scalar_names(alloc, editor, number)?;
    let Some(names) = found else {
        return Ok(false);
    };
    if names.len() > MOST_SUMS {
        return Ok(false);
    }
    let command = Command::Reduce(number, names);
    let refused = try_command(alloc, editor, accepted, steps, command)?;
    Ok(refused.is_none())
}

/// The names of all that this loop carries, where there is something and all of it is scalars.
fn scalar_names<L: Ledger, E: Editor<L>>(
    alloc: Global,
    editor: &E,
    number: u32,
) -> Result<Option<Names>, NoMemory>
    requires { HasStatement E.editing editor.now number }
    ensures { IfOk result (AreScalarNames E.editing editor.now number) }
{
    let carried = editor.carried(alloc, number)?;
    let mut names = Names::new(alloc);
    for name in &carried {
        let Some(scalar) = scalar_of(editor, name) else {
            return Ok(None);
        };
        names.push(scalar)?;
    }
    if names.is_empty() {
        return Ok(None);
    }
    Ok(Some(names))
}

/// The name of a scalar, where this is one.
fn scalar_of<L: Ledger, E: Editor<L>>(editor: &E, name: &RefName) -> Option<Name>
    ensures { (t : ProgramTree) → E.editing.Reads editor.now t → IsScalarName t (name_text name.now) result }
{
    match name {
        RefName::Named(name) => {
            let _bytes = name.as_bytes();
            if editor.is_scalar(name) {
                return Some(*name);
            }
            None
        }
        RefName::In | RefName::Out => None,
    }
}

/// What the first round does at this loop: it makes it parallel where it can, and else distributes it once and makes what
/// is first of it parallel.
fn visit<L: Ledger, E: Editor<L>>(
    alloc: Global,
    editor: &mut E,
    accepted: &mut Listed<Command>,
    steps: &mut Steps<L>,
    number: u32,
) -> Result<(), NoMemory>
    requires { HasStatement E.editing editor.old number }
    ensures visited { OnOk result (Goes (Visits E.editing number) editor.old accepted.old steps.old editor.new accepted.new steps.new) }
    ensures cut { OnErr result (CutsOff E.editing (Visits E.editing number) editor.old accepted.old steps.old editor.new steps.new) }
    ensures least { steps.old ≤ steps.new }
{
    let made = attempt(alloc, editor, accepted, steps, number)?;
    if made {
        return Ok(());
    }
    let command = Command::Distribute(number);
    let refused = try_command(alloc, editor, accepted, steps, command)?;
    if refused.is_none() {
        let _made = attempt(alloc, editor, accepted, steps, number)?;
    }
    Ok(())
}

/// The first round, over all statements.
fn first_round<L: Ledger, E: Editor<L>>(
    alloc: Global,
    editor: &mut E,
    accepted: &mut Listed<Command>,
    steps: &mut Steps<L>,
) -> Result<(), NoMemory>
    ensures round { OnOk result (Goes (Round E.editing (Visits E.editing)) editor.old accepted.old steps.old editor.new accepted.new steps.new) }
    ensures cut { OnErr result (CutsOff E.editing (Round E.editing (Visits E.editing)) editor.old accepted.old steps.old editor.new steps.new) }
    ensures least { steps.old ≤ steps.new }
{
    let mut number = 1;
    while number <= editor.count() {
        if editor.is_serial_loop(number) {
            visit(alloc, editor, accepted, steps, number)?;
        }
        number += 1;
    }
    Ok(())
}

/// What a further round does at this loop: it makes it parallel as it is, or reports the first cause against that.
fn visit_again<L: Ledger, E: Editor<L>>(
    alloc: Global,
    editor: &mut E,
    accepted: &mut Listed<Command>,
    steps: &mut Steps<L>,
    left: &mut Listed<(u32, Refused)>,
    number: u32,
) -> Result<(), NoMemory>
    requires { HasStatement E.editing editor.old number }
    ensures visited { OnOk result (Goes (VisitsAgain E.editing number) editor.old accepted.old steps.old editor.new accepted.new steps.new) }
    ensures told { OnOk result (TellsCause E.editing number editor.old accepted.old left.old editor.new accepted.new left.new) }
    ensures cut { OnErr result (CutsOff E.editing (VisitsAgain E.editing number) editor.old accepted.old steps.old editor.new steps.new) }
    ensures least { steps.old ≤ steps.new }
{
    let command = Command::Parallel(number);
    let refused = try_command(alloc, editor, accepted, steps, command)?;
    if let Some(why) = refused {
        left.push((number, why))?;
    }
    Ok(())
}

/// A further round, over all statements. The loops that it leaves are reported with their causes where it accepts
/// nothing.
fn further_round<L: Ledger, E: Editor<L>>(
    alloc: Global,
    editor: &mut E,
    accepted: &mut Listed<Command>,
    steps: &mut Steps<L>,
) -> Result<Listed<(u32, Refused)>, NoMemory>
    ensures round { OnOk result (Goes (Round E.editing (VisitsAgain E.editing)) editor.old accepted.old steps.old editor.new accepted.new steps.new) }
    ensures left { IfOk result (λ left. length accepted.new ≡ length accepted.old → AreLeft E.editing editor.new (causes_of left)) }
    ensures short { IfOk result (λ left. length accepted.new ≡ length accepted.old → AreShort left) }
    ensures cut { OnErr result (CutsOff E.editing (Round E.editing (VisitsAgain E.editing)) editor.old accepted.old steps.old editor.new steps.new) }
    ensures least { steps.old ≤ steps.new }
{
    let mut left = Listed::new(alloc);
    let mut number = 1;
    while number <= editor.count() {
        if editor.is_serial_loop(number) {
            visit_again(alloc, editor, accepted, steps, &mut left, number)?;
        }
        number += 1;
    }
    Ok(left)
}

/// Further rounds, until one accepts nothing. The loops that are left then, with their causes.
fn further_rounds<L: Ledger, E: Editor<L>>(
    alloc: Global,
    editor: &mut E,
    accepted: &mut Listed<Command>,
    steps: &mut Steps<L>,
) -> Result<Listed<(u32, Refused)>, NoMemory>
    ensures rounds { OnOk result (Goes (λ p q. (n : ℕ) × FurtherRounds E.editing n p q) editor.old accepted.old steps.old editor.new accepted.new steps.new) }
    ensures left { IfOk result (λ left. AreLeft E.editing editor.new (causes_of left)) }
    ensures short { IfOk result AreShort }
    ensures cut { OnErr result (CutsOff E.editing (λ p q. (n : ℕ) × FurtherRounds E.editing n p q) editor.old accepted.old steps.old editor.new steps.new) }
    ensures least { steps.old ≤ steps.new }
{
    loop {
        let before = accepted.len();
        let left = further_round(alloc, editor, accepted, steps)?;
        if accepted.len() == before {
            return Ok(left);
        }
    }
}

/// Parallelises the present program: makes each DO parallel that it can, by steps that the editor accepts, and reports
/// for each remaining DO the first cause against `parallel` (ParaScope). In a first round over the statements it tries
/// at each DO that isn't a PARALLEL DO: `parallel`; where the DO carries dependences on scalars alone, `privatise` for
/// each of these and `parallel` again; where these are one to eight scalars, `reduce` with them; and `distribute` once,
/// with all of that again. Further rounds try `parallel` at each such DO, until one accepts nothing.
///
/// Each accepted step is a step of its own of the editor, and tests pairs of references as it says. The only error is
/// running out of memory: then the editor has taken some of the steps of the strategy, each of them whole.
pub fn auto<L: Ledger, E: Editor<L>>(
    alloc: Global,
    editor: &mut E,
    steps: &mut Steps<L>,
) -> Result<AutoReport, NoMemory>
    ensures does { IfOk result (λ report. IsAuto E.editing editor.old (report_of report) editor.new (steps.new - steps.old)) }
    ensures short { IfOk result (λ report. AreShort report.left) }
    ensures reached { OnErr result (IsCutOff E.editing editor.old editor.new (steps.new - steps.old)) }
    ensures least { steps.old ≤ steps.new }
    ensures most { (report : Report) (last : E) (tests : ℕ) → IsAuto E.editing editor.old report last tests → steps.new ≤ steps.old + tests }
{
    let mut accepted = Listed::new(alloc);
    first_round(alloc, editor, &mut accepted, steps)?;
    let left = further_rounds(alloc, editor, &mut accepted, steps)?;
    Ok(AutoReport { accepted, left })
}
