//! What is printed for the items of a script.

ghost use Rattle.std.specs.Prelude.{◌≡◌, ◌++◌, codes, IfOk, OnOk};
ghost use Rattle.ped_tree.specs.Grammar.RefusalViews.{finding_of};
ghost use Rattle.ped_transformations.specs.ped_steps.specs.CauseWords.{cause_words};
ghost use Rattle.ped_session.specs.Replies as Spec;

use crate::replies::{FirstCause, Refusal, Reply};
use ped_base::{Bytes, NoMemory, push_number};
use ped_tree::grammar::Refusal as TextRefusal;
use std::alloc::Global;

/// What is printed of the reply to the command on this line of a script.
pub fn reply_text(alloc: Global, line: u64, reply: &Reply) -> Result<Bytes, NoMemory>
    ensures { IfOk result (λ bytes. bytes ≡ Spec.reply_text line reply.now) }
{
    let mut out = Bytes::new(alloc);
    match reply {
        Reply::Changed => push_row(&mut out, line, b"ok")?,
        Reply::Shown(bytes) => out.extend_from_slice(bytes.as_slice())?,
        Reply::Refused(why) => push_refused(alloc, &mut out, line, why)?,
    }
    Ok(out)
}

/// What is printed where this line of a script is no command.
pub fn bad_command_row(alloc: Global, line: u64) -> Result<Bytes, NoMemory>
    ensures { IfOk result (λ bytes. bytes ≡ Spec.bad_command_row line) }
{
    let mut out = Bytes::new(alloc);
    push_row(&mut out, line, b"refused BadCommand")?;
    Ok(out)
}

/// Adds a row of words that answers the command on this line.
fn push_row(out: &mut Bytes, line: u64, words: &[u8]) -> Result<(), NoMemory>
    ensures { OnOk result (out.new ≡ out.old ++ Spec.answer_row line words.now) }
{
    push_number(out, line)?;
    out.extend_from_slice(b": ")?;
    out.extend_from_slice(words)?;
    out.push(b'\n')
}

/// Adds the row that says why the command on this line is refused.
fn push_refused(alloc: Global, out: &mut Bytes, line: u64, why: &Refusal) -> Result<(), NoMemory>
    ensures { OnOk result (out.new ≡ out.old ++ Spec.answer_row line (codes "refused " ++ Spec.refusal_words why.now)) }
{
    push_number(out, line)?;
    out.extend_from_slice(b": refused ")?;
    push_words(alloc, out, why)?;
    out.push(b'\n')
}

/// Adds why a command is refused.
fn push_words(alloc: Global, out: &mut Bytes, why: &Refusal) -> Result<(), NoMemory>
    ensures { OnOk result (out.new ≡ out.old ++ Spec.refusal_words why.now) }
{
    match why {
        Refusal::BadEdit(refusal) => return push_bad_edit(out, *refusal),
        Refusal::Step(cause) => return push_cause(alloc, out, cause),
        Refusal::NothingToUndo => return out.extend_from_slice(b"NothingToUndo"),
        Refusal::NothingToRedo => return out.extend_from_slice(b"NothingToRedo"),
        Refusal::NoSuchStatement => return out.extend_from_slice(b"NoSuchStatement"),
        Refusal::NoSuchLine => return out.extend_from_slice(b"NoSuchLine"),
        Refusal::NoSuchPair => return out.extend_from_slice(b"NoSuchPair"),
    }
}

/// Adds why the text of an edit isn't read.
fn push_bad_edit(out: &mut Bytes, refusal: TextRefusal) -> Result<(), NoMemory>
    ensures { OnOk result (out.new ≡ out.old ++ Spec.bad_edit_words (finding_of refusal)) }
{
    out.extend_from_slice(b"BadEdit ")?;
    push_number(out, u64::from(refusal.kind.number()))?;
    out.push(b' ')?;
    out.extend_from_slice(refusal.kind.name())?;
    out.extend_from_slice(b" at ")?;
    push_number(out, refusal.line)
}

/// Adds the first cause against a step.
fn push_cause(alloc: Global, out: &mut Bytes, cause: &FirstCause) -> Result<(), NoMemory>
    ensures { OnOk result (out.new ≡ out.old ++ cause_words cause.now) }
{
    let words = ped_transformations::cause_words(alloc, cause.refused())?;
    out.extend_from_slice(words.as_slice())
}
