//! The items of a script, answered one after another.

ghost use Rattle.std.specs.Prelude.{◌≡◌, ◌≢◌, ◌+◌, ◌≤◌, Some, IfOk, OnOk};
ghost use Rattle.ped_versions.specs.States.{State};
ghost use Rattle.ped_session.specs.Scripts as Spec;
ghost use Rattle.ped_session.specs.Scripts.{AnswersItems};
ghost use Rattle.ped_session.specs.RunsAsBefore.{AnswersAsBefore};
ghost use Rattle.ped_session.specs.Replies as Replies;
ghost use Rattle.ped_session.specs.Adding.{added, Adds};
ghost use Rattle.ped_script.specs.declared.items.Command.TheVariants as commands;

use crate::auto_texts::auto_text;
use crate::replies::Reply;
use crate::scripts::{bad_command_row, reply_text};
use crate::session::Session;
use ped_base::{Bytes, NoMemory};
use ped_order::interleavings_agree;
use ped_script::{Command, Item};
use ped_transformations::{auto, every_step_is_lawful, lowering_keeps_the_meaning};
use ped_verdict::Steps;
use std::alloc::Global;
use std::sync::ledger::Ledger;

/// What a script has answered.
#[derive(Drop)]
pub struct Answered {
    /// What is printed.
    pub bytes: Bytes,
    /// Whether a line was refused.
    pub refused: bool,
}

/// Answers the items of a script one after another; programs are run on these data. It answers what they say, and
/// whether one was refused; it tests the pairs that they test, and if memory runs out, at most as many. Each `run`,
/// whatever its choices, shows what the programs show from which the present one has come by transformations alone,
/// where these are tidy and without C$PED REJECT and run without a fault and without a race.
///
/// Where memory runs out, nothing is said about the session but how many pairs were tested.
pub fn answer_items<L: Ledger>(
    alloc: Global,
    session: &mut Session<L>,
    items: &[Item],
    input: &[u8],
    steps: &mut Steps<L>,
) -> Result<Answered, NoMemory>
    ensures answers { IfOk result (λ answered. (said : Spec.Said) × AnswersItems items.now input.now session.old said session.new
        × (answered.bytes ≡ said.bytes) × (answered.refused ≡ said.refused) × (steps.new ≡ steps.old + said.tests)) }
    ensures before { IfOk result (λ answered. (said : Spec.Said) × AnswersAsBefore items.now input.now session.old said session.new × (answered.bytes ≡ said.bytes)) }
    ensures least { steps.old ≤ steps.new }
    ensures most { (said : Spec.Said) (last : State) → AnswersItems items.now input.now session.old said last → steps.new ≤ steps.old + said.tests }
{
    every_step_is_lawful();
    interleavings_agree();
    lowering_keeps_the_meaning();
    let _ = &session.versions;
    let mut answered = Answered {
        bytes: Bytes::new(alloc),
        refused: false,
    };
    for item in items {
        match &item.command {
            Some(command) => answer_command(
                alloc,
                session,
                item.line,
                command,
                input,
                &mut answered,
                steps,
            )?,
            None => answer_bad_command(alloc, item.line, &mut answered)?,
        }
    }
    Ok(answered)
}

/// Answers a line that is no command.
fn answer_bad_command(alloc: Global, line: u64, answered: &mut Answered) -> Result<(), NoMemory>
    ensures { OnOk result (answered.new ≡ added answered.old (Spec.bad_command_said line)) }
{
    let row = bad_command_row(alloc, line)?;
    answered.bytes.extend_from_slice(row.as_slice())?;
    answered.refused = true;
    Ok(())
}

/// Answers the command on this line.
fn answer_command<L: Ledger>(
    alloc: Global,
    session: &mut Session<L>,
    line: u64,
    command: &Command,
    input: &[u8],
    answered: &mut Answered,
    steps: &mut Steps<L>,
) -> Result<(), NoMemory>
    ensures answers { OnOk result (Adds (λ said. Spec.AnswersCommand line (Some command.now) input.now session.old said session.new) answered.old answered.new steps.old steps.new) }
    ensures least { steps.old ≤ steps.new }
    ensures most { (said : Spec.Said) (next : State) → Spec.AnswersCommand line (Some command.now) input.now session.old said next → steps.new ≤ steps.old + said.tests }
{
    match command {
        Command::Auto => return answer_auto(alloc, session, line, answered, steps),
        _ => return answer_reply(alloc, session, line, command, input, answered, steps),
    }
}

/// Answers `auto` on this line: parallelises the present program, and says by which steps, what remains and why.
fn answer_auto<L: Ledger>(
    alloc: Global,
    session: &mut Session<L>,
    line: u64,
    answered: &mut Answered,
    steps: &mut Steps<L>,
) -> Result<(), NoMemory>
    ensures answers { OnOk result (Adds (λ said. Spec.SaysAuto line session.old said session.new) answered.old answered.new steps.old steps.new) }
    ensures least { steps.old ≤ steps.new }
    ensures most { (said : Spec.Said) (next : State) → Spec.SaysAuto line session.old said next → steps.new ≤ steps.old + said.tests }
{
    let report = auto(alloc, session, steps)?;
    let text = auto_text(alloc, line, &report, session.source())?;
    answered.bytes.extend_from_slice(text.as_slice())?;
    Ok(())
}

/// Answers another command on this line by its reply, with the rows of idle lines after it. These are asked for first, so
/// that the session is as it was where there is no memory for them.
fn answer_reply<L: Ledger>(
    alloc: Global,
    session: &mut Session<L>,
    line: u64,
    command: &Command,
    input: &[u8],
    answered: &mut Answered,
    steps: &mut Steps<L>,
) -> Result<(), NoMemory>
    requires { command.now ≢ commands.Auto }
    ensures answers { OnOk result (Adds (λ said. Spec.AnswersReply line command.now input.now session.old said session.new) answered.old answered.new steps.old steps.new) }
    ensures least { steps.old ≤ steps.new }
    ensures most { (said : Spec.Said) (next : State) → Spec.AnswersReply line command.now input.now session.old said next → steps.new ≤ steps.old + said.tests }
{
    let rows = session.idle(alloc, line, command)?;
    let reply = session.apply(alloc, command, input, steps)?;
    let text = reply_text(alloc, line, &reply)?;
    answered.bytes.extend_from_slice(text.as_slice())?;
    answered.bytes.extend_from_slice(rows.as_slice())?;
    answered.refused |= is_refused(&reply);
    Ok(())
}

/// Whether the command is refused.
fn is_refused(reply: &Reply) -> bool
    ensures { result ≡ Replies.is_refused reply.now }
{
    match reply {
        Reply::Refused(_) => return true,
        Reply::Changed => return false,
        Reply::Shown(_) => return false,
    }
}
