//! Commands by their kinds. Here alone a command is taken apart; above it, only its kind is.

ghost use Rattle.std.specs.Prelude.{◌≡◌, [], Ok, true, is_ok, IfOk};
ghost use Rattle.ped_script.specs.declared.kinds.CommandKind.TheVariants as kind;
ghost use Rattle.ped_script.specs.declared.kinds.LineEdit.TheVariants as edit;
ghost use Rattle.ped_script.specs.declared.kinds.ProgramRun.TheVariants as run;
ghost use Rattle.ped_script.specs.declared.kinds.Query.TheVariants as query;
ghost use Rattle.ped_script.specs.declared.kinds.WhichStep.TheVariants as step;
ghost use Rattle.ped_script.specs.Kinds as Spec;
ghost use Rattle.ped_script.specs.Kinds.{evidence_in, kind_of, IsMove};

use crate::items::Command;
use ped_base::{Bytes, Listed, Name, Names, NoMemory};
use ped_certificates::{Evidence, EvidenceLine, Position, Sign, copy_evidence};
use std::alloc::Global;

/// Which step is to be taken at a statement: a transformation, or a rejection of dependences.
#[derive(Drop)]
pub enum WhichStep {
    /// Interchanges the loop and the loop in it.
    Interchange,
    /// Reverses the loop.
    Reverse,
    /// Skews the loop in the loop by a factor.
    Skew(i64),
    /// Cuts the loop into strips of a size.
    Strip(i64),
    /// Peels an iteration off the loop.
    Peel {
        /// Whether the last iteration is peeled, and not the first.
        last: bool,
    },
    /// Distributes the loop over the statements in it.
    Distribute,
    /// Fuses the loop with the next.
    Fuse,
    /// Puts the statements of a block, which a CALL was expanded to, in its place.
    Inline,
    /// Expands a scalar into an array over the iterations of the loop.
    Expand(Name),
    /// Makes a scalar private to the iterations of the loop.
    Privatise(Name),
    /// Gives each iteration of the loop sums of its own for scalars, which are added at its exit.
    Reduce(Names),
    /// Makes the loop parallel.
    Parallel,
    /// Interchanges the loop and the loop in it, with evidence against dependences.
    InterchangeBy(Evidence),
    /// Reverses the loop, with evidence against dependences.
    ReverseBy(Evidence),
    /// Makes the loop parallel, with evidence against dependences.
    ParallelBy(Evidence),
    /// Makes the loop serial.
    Serial,
    /// Rejects the pending dependences of a variable in the loop.
    Reject(Name),
}

/// A command that takes a step.
#[derive(Drop)]
pub struct StepCommand {
    /// The number of the statement at which the step is taken.
    pub statement: u32,
    /// Which step it is.
    pub step: WhichStep,
}

/// What a command asks for that changes nothing.
#[derive(Drop)]
pub enum Query {
    /// The source pane.
    Source,
    /// The dependence pane; where a statement is given, only the rows of that statement.
    Deps(Option<u32>),
    /// The source pane and the dependence pane.
    Show,
    /// The pane of calls.
    Calls,
    /// The source lines alone.
    Print,
    /// For each step that needs only this statement whether it is refused, and why.
    Advise(u32),
    /// How many pairs of references were tested last.
    Tested,
    /// The system of a pair of references, the source first, and a pattern of their directions.
    System(Position, Position, Listed<Sign>),
}

/// How a command edits the lines of the source.
#[derive(Drop)]
pub enum LineEdit {
    /// Puts lines in the place of others.
    Replace {
        /// The number of the first line that goes.
        first: u64,
        /// The number of the last line that goes.
        last: u64,
        /// The lines that come.
        lines: Listed<Bytes>,
    },
    /// Puts lines after another line.
    Insert {
        /// The number of the line before them, 0 for the front.
        after: u64,
        /// The lines that come.
        lines: Listed<Bytes>,
    },
}

/// Which way a command goes along the history.
#[derive(Clone, Copy)]
pub enum HistoryMove {
    /// Back by one change.
    Undo,
    /// Forward by one change.
    Redo,
}

/// How a command runs the program.
#[derive(Drop)]
pub enum ProgramRun {
    /// With these choices.
    Run(Listed<u64>),
    /// In order, looking for a race.
    Races,
}

/// A command by its kind.
#[derive(Drop)]
pub enum CommandKind {
    /// It asks for something that is shown, and changes nothing.
    Ask(Query),
    /// It edits the source.
    Edit(LineEdit),
    /// It takes a step.
    Step(StepCommand),
    /// It makes loops parallel by steps.
    Auto,
    /// It goes along the history.
    Move(HistoryMove),
    /// It runs the program, and changes nothing.
    Run(ProgramRun),
}

impl WhichStep {
    /// Whether the step rejects dependences, and transforms nothing.
    pub fn is_rejection(&self) -> bool
        ensures { result ≡ Spec.is_rejection self.now }
    {
        match self {
            WhichStep::Reject(_) => return true,
            _ => return false,
        }
    }
}

impl Command {
    /// The evidence of the command; most commands take none.
    pub fn evidence(&self) -> &[EvidenceLine]
        ensures { result.now ≡ evidence_in self.now }
    {
        match self {
            Command::InterchangeBy(_, evidence) => return evidence.as_slice(),
            Command::ReverseBy(_, evidence) => return evidence.as_slice(),
            Command::ParallelBy(_, evidence) => return evidence.as_slice(),
            _ => return &[],
        }
    }

    /// The kind of the command, with all that it says. The only error is running out of memory, which never happens at
    /// `undo` and `redo`.
    pub fn kind(&self, alloc: Global) -> Result<CommandKind, NoMemory>
        ensures kind { IfOk result (λ kind. kind ≡ kind_of self.now) }
        ensures sure { IsMove (kind_of self.now) → is_ok result ≡ true }
    {
        match self {
            Command::Source => return Ok(CommandKind::Ask(Query::Source)),
            Command::Deps(of) => return Ok(CommandKind::Ask(Query::Deps(*of))),
            Command::Show => return Ok(CommandKind::Ask(Query::Show)),
            Command::Calls => return Ok(CommandKind::Ask(Query::Calls)),
            Command::Print => return Ok(CommandKind::Ask(Query::Print)),
            Command::Advise(number) => return Ok(CommandKind::Ask(Query::Advise(*number))),
            Command::Tested => return Ok(CommandKind::Ask(Query::Tested)),
            Command::System(source, sink, pattern) => {
                return asks_system(alloc, *source, *sink, pattern);
            }
            Command::Replace { first, last, lines } => return replaces(alloc, *first, *last, lines),
            Command::Insert { after, lines } => return inserts(alloc, *after, lines),
            Command::Delete { first, last } => return deletes(alloc, *first, *last),
            Command::Interchange(number) => return takes(*number, WhichStep::Interchange),
            Command::Reverse(number) => return takes(*number, WhichStep::Reverse),
            Command::Skew(number, factor) => return takes(*number, WhichStep::Skew(*factor)),
            Command::Strip(number, size) => return takes(*number, WhichStep::Strip(*size)),
            Command::Peel { statement, last } => {
                return takes(*statement, WhichStep::Peel { last: *last });
            }
            Command::Distribute(number) => return takes(*number, WhichStep::Distribute),
            Command::Fuse(number) => return takes(*number, WhichStep::Fuse),
            Command::Inline(number) => return takes(*number, WhichStep::Inline),
            Command::Expand(number, name) => return takes(*number, WhichStep::Expand(*name)),
            Command::Privatise(number, name) => return takes(*number, WhichStep::Privatise(*name)),
            Command::Reduce(number, names) => return reduces(alloc, *number, names),
            Command::Parallel(number) => return takes(*number, WhichStep::Parallel),
            Command::InterchangeBy(number, evidence) => {
                return interchanges_by(alloc, *number, evidence);
            }
            Command::ReverseBy(number, evidence) => return reverses_by(alloc, *number, evidence),
            Command::ParallelBy(number, evidence) => return parallels_by(alloc, *number, evidence),
            Command::Serial(number) => return takes(*number, WhichStep::Serial),
            Command::Reject(number, name) => return takes(*number, WhichStep::Reject(*name)),
            Command::Auto => return Ok(CommandKind::Auto),
            Command::Undo => return Ok(CommandKind::Move(HistoryMove::Undo)),
            Command::Redo => return Ok(CommandKind::Move(HistoryMove::Redo)),
            Command::Run(choices) => return runs(alloc, choices),
            Command::Races => return Ok(CommandKind::Run(ProgramRun::Races)),
        }
    }
}

/// Takes this step at this statement.
fn takes(statement: u32, step: WhichStep) -> Result<CommandKind, NoMemory>
    ensures { result ≡ Ok (kind.Step (record { statement = statement; step = step })) }
{
    Ok(CommandKind::Step(StepCommand { statement, step }))
}

/// Gives this loop sums for a copy of these names.
fn reduces(alloc: Global, statement: u32, names: &Names) -> Result<CommandKind, NoMemory>
    ensures { IfOk result (λ k. k ≡ kind.Step (record { statement = statement; step = step.Reduce names.now })) }
{
    let names = Names::from_vec(names.as_slice().to_vec(alloc)?);
    takes(statement, WhichStep::Reduce(names))
}

/// Interchanges this loop and the loop in it, with a copy of this evidence.
fn interchanges_by(
    alloc: Global,
    statement: u32,
    evidence: &Evidence,
) -> Result<CommandKind, NoMemory>
    ensures { IfOk result (λ k. k ≡ kind.Step (record { statement = statement; step = step.InterchangeBy evidence.now })) }
{
    let evidence = copy_evidence(alloc, evidence.as_slice())?;
    takes(statement, WhichStep::InterchangeBy(evidence))
}

/// Reverses this loop, with a copy of this evidence.
fn reverses_by(alloc: Global, statement: u32, evidence: &Evidence) -> Result<CommandKind, NoMemory>
    ensures { IfOk result (λ k. k ≡ kind.Step (record { statement = statement; step = step.ReverseBy evidence.now })) }
{
    let evidence = copy_evidence(alloc, evidence.as_slice())?;
    takes(statement, WhichStep::ReverseBy(evidence))
}

/// Makes this loop parallel, with a copy of this evidence.
fn parallels_by(alloc: Global, statement: u32, evidence: &Evidence) -> Result<CommandKind, NoMemory>
    ensures { IfOk result (λ k. k ≡ kind.Step (record { statement = statement; step = step.ParallelBy evidence.now })) }
{
    let evidence = copy_evidence(alloc, evidence.as_slice())?;
    takes(statement, WhichStep::ParallelBy(evidence))
}

/// Asks for the system of this pair and a copy of this pattern.
fn asks_system(
    alloc: Global,
    source: Position,
    sink: Position,
    pattern: &Listed<Sign>,
) -> Result<CommandKind, NoMemory>
    ensures { IfOk result (λ k. k ≡ kind.Ask (query.System source sink pattern.now)) }
{
    let pattern = Listed::from_vec(pattern.as_slice().to_vec(alloc)?);
    Ok(CommandKind::Ask(Query::System(source, sink, pattern)))
}

/// Puts a copy of these lines in the place of others.
fn replaces(
    alloc: Global,
    first: u64,
    last: u64,
    lines: &Listed<Bytes>,
) -> Result<CommandKind, NoMemory>
    ensures { IfOk result (λ k. k ≡ kind.Edit (edit.Replace first last lines.now)) }
{
    let lines = copy_lines(alloc, lines.as_slice())?;
    Ok(CommandKind::Edit(LineEdit::Replace { first, last, lines }))
}

/// Puts no lines in the place of others.
fn deletes(alloc: Global, first: u64, last: u64) -> Result<CommandKind, NoMemory>
    ensures { result ≡ Ok (kind.Edit (edit.Replace first last [])) }
{
    let lines = Listed::new(alloc);
    Ok(CommandKind::Edit(LineEdit::Replace { first, last, lines }))
}

/// Puts a copy of these lines after another.
fn inserts(alloc: Global, after: u64, lines: &Listed<Bytes>) -> Result<CommandKind, NoMemory>
    ensures { IfOk result (λ k. k ≡ kind.Edit (edit.Insert after lines.now)) }
{
    let lines = copy_lines(alloc, lines.as_slice())?;
    Ok(CommandKind::Edit(LineEdit::Insert { after, lines }))
}

/// Runs the program with a copy of these choices.
fn runs(alloc: Global, choices: &Listed<u64>) -> Result<CommandKind, NoMemory>
    ensures { IfOk result (λ k. k ≡ kind.Run (run.Run choices.now)) }
{
    let choices = Listed::from_vec(choices.as_slice().to_vec(alloc)?);
    Ok(CommandKind::Run(ProgramRun::Run(choices)))
}

/// A copy of lines.
fn copy_lines(alloc: Global, lines: &[Bytes]) -> Result<Listed<Bytes>, NoMemory>
    ensures { IfOk result (λ copy. copy ≡ lines.now) }
{
    let mut copy = Listed::new(alloc);
    for line in lines {
        copy.push(Bytes::from_vec(line.as_slice().to_vec(alloc)?))?;
    }
    Ok(copy)
}
