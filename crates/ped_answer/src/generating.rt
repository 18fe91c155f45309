//! Generated programs: a session is opened on one, its script is applied, and the report is written.

ghost use Rattle.std.specs.Prelude.{◌≡◌, ◌⊎◌, ◌↔◌, ◌≤◌, ℕ, List, Some, None};
ghost use Rattle.ped_io.specs.Outside.{Rose};
ghost use Rattle.ped_gen.specs.Generated as made;
ghost use Rattle.ped_tree.specs.Tree.{ProgramTree};
ghost use Rattle.ped_session.specs.ped_rules.specs.ped_eval.specs.Outcomes.{Ends, Outcome, run_of, IsRaceFree};
ghost use Rattle.ped_session.specs.ped_order.specs.ped_interleavings.specs.Interleavings.{IsInterleaved};
ghost use Rattle.ped_session.specs.ped_valid.specs.Validity.{ReadsValid};
ghost use Rattle.ped_script.specs.Items.{commands_of};
ghost use Rattle.ped_session.specs.ped_transformations.specs.ped_loop_runs.specs.Unrejected.{IsTrusted};
ghost use Rattle.ped_session.specs.LoweredRuns.{HasNoList, IsLoweredRun};
ghost use Rattle.ped_session.specs.States.{State, opened};
ghost use Rattle.ped_answer.specs.Answer.{Sends};
ghost use Rattle.ped_answer.specs.Generated as Spec;
ghost use Rattle.ped_answer.specs.Generated.{Applies, IsGenerated};
ghost use Rattle.ped_answer.specs.Tallies.{AnswersReport};
ghost use Rattle.ped_answer.specs.TestCounts.{TestsGenerated, Ticks, IsUntested};

use crate::answering::Status;
use crate::existence::dependences_exist;
use crate::finishing::finish;
use crate::refusals::is_refused_text;
use crate::reporting::report;
use ped_base::NoMemory;
use ped_call_runs::OpenRefusal;
use ped_io::Sink;
use ped_session::{Session, races_are_covered, without_lists};
use ped_verdict::Steps;
use std::alloc::Global;
use std::sync::ledger::Ledger;

/// Answers on the program of this size.
pub fn answer_size<K: Sink, L: Ledger>(
    alloc: Global,
    size: u32,
    out: &mut K,
    steps: &mut Steps<L>,
) -> Status
    requires { (1 ≤ size) × (size ≤ 300) }
    ensures answer { Sends (IsGenerated size)
        (Rose (K.faults out.old) (K.faults out.new)) (K.sent out.old) (K.sent out.new) result }
    ensures ends { (result ≡ Status.Done) ⊎ (result ≡ Status.ProgramRefused)
        ⊎ (result ≡ Status.WriteFault) ⊎ (result ≡ Status.NoMemory) }
    ensures write_fault { result ≡ Status.WriteFault → Rose (K.faults out.old) (K.faults out.new) }
    ensures faults { K.faults out.old ≤ K.faults out.new }
    ensures untold { K.taken out.old ≡ None → K.taken out.new ≡ None }
    ensures told_sent { K.taken out.old ≡ Some (K.sent out.old) → K.taken out.new ≡ Some (K.sent out.new) }
    ensures tests { (n : ℕ) → TestsGenerated size n → Ticks result steps.old steps.new n }
    ensures untested { IsUntested result → steps.new ≡ steps.old }
    ensures steps { steps.old ≤ steps.new }
{
    match ped_gen::program(alloc, size) {
        Ok(text) => match Session::open(alloc, text.as_slice(), steps) {
            Ok(mut session) => answer_session(alloc, size, &mut session, out, steps),
            Err(OpenRefusal::At(refusal)) => is_refused_text(alloc, refusal, out),
            Err(OpenRefusal::NoMemory) => Status::NoMemory,
        },
        Err(NoMemory) => Status::NoMemory,
    }
}

/// Answers in a session that was opened on the program of this size.
fn answer_session<K: Sink, L: Ledger>(
    alloc: Global,
    size: u32,
    session: &mut Session<L>,
    out: &mut K,
    steps: &mut Steps<L>,
) -> Status
    requires size { (1 ≤ size) × (size ≤ 300) }
    requires opened { (t : ProgramTree) × ReadsValid (made.program size) t × (session.old ≡ opened t) }
    ensures answer { Sends (AnswersReport size)
        (Rose (K.faults out.old) (K.faults out.new)) (K.sent out.old) (K.sent out.new) result }
    ensures ends { (result ≡ Status.Done) ⊎ (result ≡ Status.WriteFault) ⊎ (result ≡ Status.NoMemory) }
    ensures write_fault { result ≡ Status.WriteFault → Rose (K.faults out.old) (K.faults out.new) }
    ensures faults { K.faults out.old ≤ K.faults out.new }
    ensures untold { K.taken out.old ≡ None → K.taken out.new ≡ None }
    ensures told_sent { K.taken out.old ≡ Some (K.sent out.old) → K.taken out.new ≡ Some (K.sent out.new) }
    ensures tests { (tally : Spec.Tally) (last : State) → Applies (commands_of (made.script size)) session.old tally last → Ticks result steps.old steps.new tally.tests }
    ensures steps { steps.old ≤ steps.new }
{
    match report(alloc, size, session, steps) {
        Ok(bytes) => finish(out, bytes.as_slice(), Status::Done),
        Err(NoMemory) => Status::NoMemory,
    }
}

/// A program that is made has no comment, so no DO of it has a list of sums, and it runs as it is.
pub fn made_programs_have_no_list()
    ensures none { (n : ℕ) (t : ProgramTree) → ReadsValid (made.program n) t → HasNoList t }
    ensures runs { (n : ℕ) (t : ProgramTree) (choices data_bytes : List ℕ) (o : Outcome) → ReadsValid (made.program n) t →
        IsLoweredRun choices data_bytes t o ↔ IsInterleaved t data_bytes choices o }
{
    without_lists();
}

/// No PARALLEL DO and no C$PED REJECT line is in a program that is made. So it may be trusted, and each run of it that
/// ends is without a race.
pub fn made_programs_are_trusted()
    ensures trusted { (n : ℕ) (t : ProgramTree) → ReadsValid (made.program n) t → IsTrusted t }
    ensures race_free { (n : ℕ) (t : ProgramTree) (data_bytes : List ℕ) → ReadsValid (made.program n) t →
        Ends (run_of t data_bytes).ending → IsRaceFree t data_bytes }
{
    dependences_exist();
    races_are_covered();
}
