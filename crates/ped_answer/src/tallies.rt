//! Tallies of the items of a script in a session: how many changes are accepted, how many lines are refused, and how
//! many pairs of references are tested.

ghost use Rattle.std.specs.Prelude.{◌≡◌, ◌≢◌, ◌+◌, ◌^◌, ◌<◌, ◌≤◌, Some, IfOk, OnOk};
ghost use Rattle.std.specs.List.{AllByRecursion};
ghost use Rattle.ped_script.specs.declared.items.Command.TheVariants as commands;
ghost use Rattle.ped_session.specs.States.{State};
ghost use Rattle.ped_answer.specs.Generated as Spec;
ghost use Rattle.ped_answer.specs.Generated.{AppliesCommand, Applies, tally_of};
ghost use Rattle.ped_answer.specs.Tallies.{IsNoAuto, counted, first_count, Counts};

use ped_base::NoMemory;
use ped_script::{Command, Item};
use ped_session::{Reply, Session};
use ped_verdict::Steps;
use std::alloc::Global;
use std::sync::ledger::Ledger;

/// What a session has come to.
#[derive(Clone, Copy)]
pub struct Tally {
    /// How many changes were accepted.
    pub accepted: u64,
    /// How many lines were refused.
    pub refused: u64,
    /// How many pairs of references were tested, those before the first line included.
    pub tested: u128,
}

/// Applies the items of a script one after another, where programs have no data and no item is `auto`. The pairs that
/// were tested last before are counted, too. If memory runs out, no more pairs were tested than the items test.
pub fn apply_items<L: Ledger>(
    alloc: Global,
    session: &mut Session<L>,
    items: &[Item],
    steps: &mut Steps<L>,
) -> Result<Tally, NoMemory>
    requires { AllByRecursion IsNoAuto items.now }
    ensures applies { IfOk result (λ tally. Counts (Applies items.now) session.old session.new (first_count session.old.tested) tally steps.old steps.new) }
    ensures least { steps.old ≤ steps.new }
    ensures most { (tally : Spec.Tally) (last : State) → Applies items.now session.old tally last → steps.new ≤ steps.old + tally.tests }
{
    let mut tally = Tally {
        accepted: 0,
        refused: 0,
        tested: u128::from(session.tested()),
    };
    for item in items {
        match &item.command {
            Some(command) => apply_command(alloc, session, command, &mut tally, steps)?,
            None => tally.refused += 1,
        }
    }
    Ok(tally)
}

/// Applies a command that isn't `auto`.
fn apply_command<L: Ledger>(
    alloc: Global,
    session: &mut Session<L>,
    command: &Command,
    tally: &mut Tally,
    steps: &mut Steps<L>,
) -> Result<(), NoMemory>
    requires other { command.now ≢ commands.Auto }
    requires accepted { tally.old.accepted + 1 < 2 ^ 64 }
    requires refused { tally.old.refused + 1 < 2 ^ 64 }
    requires tested { tally.old.tested + 2 ^ 64 ≤ 2 ^ 128 }
    ensures applies { OnOk result (Counts (AppliesCommand (Some command.now)) session.old session.new tally.old tally.new steps.old steps.new) }
    ensures accepted { OnOk result (tally.new.accepted ≤ tally.old.accepted + 1) }
    ensures refused { OnOk result (tally.new.refused ≤ tally.old.refused + 1) }
    ensures tested { OnOk result (tally.new.tested < tally.old.tested + 2 ^ 64) }
    ensures least { steps.old ≤ steps.new }
    ensures most { (one : Spec.Tally) (next : State) → AppliesCommand (Some command.now) session.old one next → steps.new ≤ steps.old + one.tests }
{
    let reply = session.apply(alloc, command, &[], steps)?;
    count(tally, &reply, session);
    Ok(())
}

/// Counts a reply that has led to this session.
fn count<L: Ledger>(tally: &mut Tally, reply: &Reply, session: &Session<L>)
    requires accepted { tally.old.accepted + 1 < 2 ^ 64 }
    requires refused { tally.old.refused + 1 < 2 ^ 64 }
    requires tested { tally.old.tested + 2 ^ 64 ≤ 2 ^ 128 }
    ensures counts { tally.new ≡ counted tally.old (tally_of reply.now session.now) }
    ensures accepted { tally.new.accepted ≤ tally.old.accepted + 1 }
    ensures refused { tally.new.refused ≤ tally.old.refused + 1 }
    ensures tested { tally.new.tested < tally.old.tested + 2 ^ 64 }
{
    match reply {
        Reply::Changed => {
            tally.accepted += 1;
            tally.tested += u128::from(session.tested());
        }
        Reply::Shown(_) => {}
        Reply::Refused(_) => tally.refused += 1,
    }
}
