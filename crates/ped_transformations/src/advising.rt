//! Advice on a statement: which steps could be taken there, and what forbids the others.

ghost use Rattle.std.specs.Prelude.{◌≡◌, [], ◌++◌, codes, option_map, IfOk, OnOk};
ghost use Rattle.ped_tree.specs.Views.{program_tree};
ghost use Rattle.ped_auto.specs.ped_rules.specs.ped_steps.specs.Scenes.{IsSceneOf};
ghost use Rattle.ped_auto.specs.ped_rules.specs.ped_steps.specs.CauseWords as shown;
ghost use Rattle.ped_auto.specs.ped_rules.specs.ped_steps.specs.CodeCauses.{cause_of, IsShort};
ghost use Rattle.ped_transformations.specs.Table.{step_of};
ghost use Rattle.ped_transformations.specs.Advice as Spec;
ghost use Rattle.ped_transformations.specs.CodeAdvice as told;
ghost use Rattle.ped_transformations.specs.CodeAdvice.{IsAgainst, IsTellable, Tells};

use crate::table::answer;
use ped_base::{Bytes, NoMemory};
use ped_inline::{Change, Refused, Scene, cause_words};
use ped_script::{StepCommand, WhichStep};
use std::alloc::Global;
use std::sync::ledger::Ledger;

/// The advice on a statement: a line for each step that asks for nothing but the statement, and for both peels. It says that the
/// step could be taken there, or the first cause against it. No step is taken, and nothing is tested.
pub fn advice<L: Ledger>(alloc: Global, scene: &Scene<L>, statement: u32) -> Result<Bytes, NoMemory>
    requires { IsSceneOf (program_tree scene.now.tree.now) scene.now }
    ensures { IfOk result (Spec.IsAdvice (program_tree scene.now.tree.now) statement) }
{
    let mut out = Bytes::new(alloc);
    tell_all(alloc, scene, statement, &mut out)?;
    Ok(out)
}

/// Adds the line of each of these steps, to nothing.
fn tell_all<L: Ledger>(
    alloc: Global,
    scene: &Scene<L>,
    statement: u32,
    out: &mut Bytes,
) -> Result<(), NoMemory>
    requires scene { IsSceneOf (program_tree scene.now.tree.now) scene.now }
    requires empty { out.old ≡ [] }
    ensures { OnOk result (Spec.IsAdvice (program_tree scene.now.tree.now) statement out.new) }
{
    let interchange = WhichStep::Interchange;
    tell(alloc, scene, statement, b"interchange", interchange, out)?;
    let reverse = WhichStep::Reverse;
    tell(alloc, scene, statement, b"reverse", reverse, out)?;
    let distribute = WhichStep::Distribute;
    tell(alloc, scene, statement, b"distribute", distribute, out)?;
    let fuse = WhichStep::Fuse;
    tell(alloc, scene, statement, b"fuse", fuse, out)?;
    let parallel = WhichStep::Parallel;
    tell(alloc, scene, statement, b"parallel", parallel, out)?;
    let serial = WhichStep::Serial;
    tell(alloc, scene, statement, b"serial", serial, out)?;
    let first = WhichStep::Peel { last: false };
    tell(alloc, scene, statement, b"peel first", first, out)?;
    let last = WhichStep::Peel { last: true };
    tell(alloc, scene, statement, b"peel last", last, out)?;
    Ok(())
}

/// Adds the line of a step at this statement, after the words that name it. The step is dropped.
fn tell<L: Ledger>(
    alloc: Global,
    scene: &Scene<L>,
    statement: u32,
    words: &[u8],
    step: WhichStep,
    out: &mut Bytes,
) -> Result<(), NoMemory>
    requires { IsSceneOf (program_tree scene.now.tree.now) scene.now }
    ensures { OnOk result (Tells (program_tree scene.now.tree.now) statement (words.now, step) out.old out.new) }
{
    let command = StepCommand { statement, step };
    let told = push_line(alloc, scene, words, &command, out);
    drop(command);
    told
}

/// Adds the line of the step that a command takes, after the words that name it.
fn push_line<L: Ledger>(
    alloc: Global,
    scene: &Scene<L>,
    words: &[u8],
    command: &StepCommand,
    out: &mut Bytes,
) -> Result<(), NoMemory>
    requires { IsSceneOf (program_tree scene.now.tree.now) scene.now }
    ensures { OnOk result (Tells (program_tree scene.now.tree.now) command.now.statement (words.now, command.now.step) out.old out.new) }
{
    let found = cause_against(alloc, scene, command)?;
    out.extend_from_slice(words)?;
    push_verdict(alloc, &found, out)?;
    out.push(b'\n')
}

/// The first cause against the step that a command takes, or that there is none.
fn cause_against<L: Ledger>(
    alloc: Global,
    scene: &Scene<L>,
    command: &StepCommand,
) -> Result<Option<Refused>, NoMemory>
    requires { IsSceneOf (program_tree scene.now.tree.now) scene.now }
    ensures { IfOk result (IsAgainst (step_of command.now) (program_tree scene.now.tree.now)) }
{
    let found = answer(alloc, scene, command)?;
    Ok(cause_in(found))
}

/// The cause in what a step answers, or that there is none.
fn cause_in(found: Result<Change, Refused>) -> Option<Refused>
    ensures { result ≡ told.cause_in found }
{
    match found {
        Ok(change) => {
            drop(change);
            return None;
        }
        Err(refused) => return Some(refused),
    }
}

/// Adds that nothing forbids a step, or the words of the cause that does.
fn push_verdict(alloc: Global, found: &Option<Refused>, out: &mut Bytes) -> Result<(), NoMemory>
    requires { IsTellable found.now }
    ensures { OnOk result (out.new ≡ out.old ++ Spec.verdict_words (option_map cause_of found.now)) }
{
    match found {
        None => return out.extend_from_slice(b" ok"),
        Some(refused) => return push_cause(alloc, refused, out),
    }
}

/// Adds that a step is refused, and the words of the cause.
fn push_cause(alloc: Global, refused: &Refused, out: &mut Bytes) -> Result<(), NoMemory>
    requires { IsShort refused.now }
    ensures { OnOk result (out.new ≡ out.old ++ codes " refused " ++ shown.cause_words (cause_of refused.now)) }
{
    out.extend_from_slice(b" refused ")?;
    let words = cause_words(alloc, refused)?;
    out.extend_from_slice(words.as_slice())
}
