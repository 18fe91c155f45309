//! Programs that are shown: both panes, or why the file's text is refused.

ghost use Rattle.std.specs.Prelude.{◌≡◌, ◌⊎◌, ◌≤◌, ℕ, Some, None};
ghost use Rattle.ped_io.specs.Outside.{Contents, AddsOnly, Rose};
ghost use Rattle.ped_tree.specs.Views.{program_tree};
ghost use Rattle.ped_session.specs.ped_symbols.specs.NameRefusals.{IsValid};
ghost use Rattle.ped_session.specs.ped_symbols.specs.Kinds.{table_of};
ghost use Rattle.ped_session.specs.ped_refs.specs.References.{references, pair_count};
ghost use Rattle.ped_words.specs.Requests.{show};
ghost use Rattle.ped_answer.specs.Answer.{inputs_of, IsOneOf, Sends, IsShown, ShowsTree};
ghost use Rattle.ped_answer.specs.TestCounts.{TestsText, Ticks, IsUntested};
ghost use Rattle.ped_answer.specs.Serving.{ServedRequest};

use crate::answering::Status;
use crate::finishing::finish;
use crate::loading::{SOURCE_LIMIT, say_unread};
use crate::panes::panes;
use crate::refusals::is_refused;
use ped_base::NoMemory;
use ped_call_runs::{UnitRefusal, expansion};
use ped_io::{Shelf, Sink, load};
use ped_tree::Program;
use ped_tree::constants::Consts;
use ped_verdict::Steps;
use std::alloc::Global;
use std::sync::ledger::Ledger;

/// Shows the program that the program units in a file expand to.
pub fn show_file<F: Shelf, K: Sink, L: Ledger>(
    alloc: Global,
    program: &str,
    shelf: &mut F,
    out: &mut K,
    steps: &mut Steps<L>,
) -> Status
    ensures served { ServedRequest (show program.now) (record {
      told = F.told shelf.old;
      may = F.may_hold shelf.new;
      counts = F.count shelf.old;
      counts_after = F.count shelf.new;
      taken = K.taken out.old;
      taken_after = K.taken out.new;
      sent = K.sent out.old;
      sent_after = K.sent out.new;
      faults = K.faults out.old;
      faults_after = K.faults out.new;
      steps = steps.old;
      steps_after = steps.new;
      status = result;
    }) }
    ensures same { F.told shelf.new ≡ F.told shelf.old }
    ensures less { (files : Contents) → F.may_hold shelf.new files → F.may_hold shelf.old files }
    ensures names { AddsOnly (IsOneOf (inputs_of (Some (show program.now)))) (F.read_names shelf.old) (F.read_names shelf.new) }
{
    match load(alloc, shelf, program, SOURCE_LIMIT) {
        Ok(text) => show_text(alloc, text.as_slice(), out, steps),
        Err(fault) => say_unread(alloc, program, SOURCE_LIMIT, fault, out),
    }
}

/// Shows the program that the program units of a text expand to.
fn show_text<K: Sink, L: Ledger>(
    alloc: Global,
    text: &[u8],
    out: &mut K,
    steps: &mut Steps<L>,
) -> Status
    ensures answer { Sends (IsShown text.now)
        (Rose (K.faults out.old) (K.faults out.new)) (K.sent out.old) (K.sent out.new) result }
    ensures ends { (result ≡ Status.Done) ⊎ (result ≡ Status.ProgramRefused)
        ⊎ (result ≡ Status.WriteFault) ⊎ (result ≡ Status.NoMemory) }
    ensures write_fault { result ≡ Status.WriteFault → Rose (K.faults out.old) (K.faults out.new) }
    ensures faults { K.faults out.old ≤ K.faults out.new }
    ensures untold { K.taken out.old ≡ None → K.taken out.new ≡ None }
    ensures told_sent { K.taken out.old ≡ Some (K.sent out.old) → K.taken out.new ≡ Some (K.sent out.new) }
    ensures tests { (n : ℕ) → TestsText text.now n → Ticks result steps.old steps.new n }
    ensures untested { IsUntested result → steps.new ≡ steps.old }
    ensures steps { steps.old ≤ steps.new }
{
    match expansion(alloc, text) {
        Ok(opened) => show_program(alloc, &opened.program, opened.symbols.consts(), out, steps),
        Err(UnitRefusal::At(refusal)) => is_refused(alloc, refusal, out),
        Err(UnitRefusal::NoMemory) => Status::NoMemory,
    }
}

/// Shows both panes of a valid program, whose named constants these are.
fn show_program<K: Sink, L: Ledger>(
    alloc: Global,
    program: &Program,
    consts: &Consts,
    out: &mut K,
    steps: &mut Steps<L>,
) -> Status
    requires valid { IsValid (program_tree program.now) }
    requires constants { consts.now ≡ (table_of (program_tree program.now)).constants }
    ensures answer { Sends (ShowsTree (program_tree program.now))
        (Rose (K.faults out.old) (K.faults out.new)) (K.sent out.old) (K.sent out.new) result }
    ensures ends { (result ≡ Status.Done) ⊎ (result ≡ Status.WriteFault) ⊎ (result ≡ Status.NoMemory) }
    ensures write_fault { result ≡ Status.WriteFault → Rose (K.faults out.old) (K.faults out.new) }
    ensures faults { K.faults out.old ≤ K.faults out.new }
    ensures untold { K.taken out.old ≡ None → K.taken out.new ≡ None }
    ensures told_sent { K.taken out.old ≡ Some (K.sent out.old) → K.taken out.new ≡ Some (K.sent out.new) }
    ensures tests { Ticks result steps.old steps.new (pair_count (references (program_tree program.now))) }
    ensures steps { steps.old ≤ steps.new }
{
    match panes(alloc, program, consts, steps) {
        Ok(bytes) => finish(out, bytes.as_slice(), Status::Done),
        Err(NoMemory) => Status::NoMemory,
    }
}
