//! The top call: words and files to an answer and a status.

ghost use Rattle.std.specs.Prelude.{◌≡◌, ◌≢◌, ◌⊎◌, ◌++◌, ◌≤◌, ℕ, List, Option, Some, None, map, string_bytes};
ghost use Rattle.ped_io.specs.Outside.{Contents, AddsOnly, IsHeld, Rose};
ghost use Rattle.ped_io.specs.Shelves.{all_names};
ghost use Rattle.ped_words.specs.Requests as plain;
ghost use Rattle.ped_words.specs.Requests.{request_of};
ghost use Rattle.ped_words.specs.Views.{request_view, IsSized};
ghost use Rattle.ped_answer.specs.Answer.{inputs_of, IsOneOf, AgreeOn, HasRead, HoldsTooMany, IsWhole, Answers, MayAnswer, Sends};
ghost use Rattle.ped_answer.specs.Headline.{PanesRequest, HistoryRequest, RunsRequest, UnitsRequest, CausesRequest, EvidenceRequest, AutoRequest, CoveredRequest, IsHeadline};
ghost use Rattle.ped_answer.specs.TestCounts.{Tests, Ticks, IsUntested};
ghost use Rattle.ped_answer.specs.Serving.{ServedRequest};

use crate::existence::some_tests;
use crate::finishing::finish;
use crate::generating::answer_size;
use crate::headline::{
    auto_is_told, evidence_is_so, history_is_kept, panes_are_afresh, panes_cover_runs,
    refusals_have_causes, runs_are_as_before, units_run_as_expanded,
};
use crate::sessions::answer_files;
use crate::showing::show_file;
use ped_io::{Shelf, Sink, SureShelf, SureSink};
use ped_verdict::Steps;
use ped_words::{Request, WordsError, request};
use std::alloc::Global;
use std::sync::ledger::Ledger;

/// How a call of the program ended. Its number is the exit status.
#[derive(Clone, Copy, PartialEq, Eq)]
pub enum Status {
    /// The answer was written whole.
    Done = 0,
    /// The answer to a session was written whole, and a line of its script was refused.
    SomeRefused = 1,
    /// The words are not of the form; the usage line was written.
    BadWords = 2,
    /// A file could not be read; a line that names it was written.
    ReadFault = 3,
    /// The output failed; a front of what was to be written was taken.
    WriteFault = 4,
    /// The program's text was refused; a line with its first refusal was written.
    ProgramRefused = 5,
    /// There was not enough memory; a front of what was to be written was taken.
    NoMemory = 6,
    /// A file is longer than its limit; a line that names it was written.
    TooLong = 7,
}

impl Status {
    ghost use Rattle.ped_answer.specs.Statuses.{number_of};

    /// The exit status.
    pub fn number(self) -> u8
        ensures { result ≡ number_of self }
    {
        self as u8
    }
}

/// Answers the words, which are those after the program's name: reads the files that they name from
/// the shelf in order, and writes the answer to `out`. It is written whole, with its status, unless memory runs
/// out, the shelf fails at a file of the words, or the sink fails. A file of program units is shown and opened as the
/// program that they expand to. `steps` counts the dependence tests: one for each ordered pair of references of a
/// program that is shown or opened, and those that the script takes.
pub fn ped_main<F: Shelf, K: Sink, L: Ledger>(
    alloc: Global,
    words: &[String],
    shelf: &mut F,
    out: &mut K,
    steps: &mut Steps<L>,
) -> Status
    // For all files that the shelf may hold by what the reads gave, the bytes sent and the status are those of the answer,
    // unless the shelf, the sink or the memory kept it from being written whole.
    ensures answer { (files : Contents) → F.may_hold shelf.new files →
        Sends (MayAnswer (request_of (map string_bytes words.now)) files
        (λ name. Rose (F.count shelf.old name) (F.count shelf.new name)))
        (Rose (K.faults out.old) (K.faults out.new)) (K.sent out.old) (K.sent out.new) result }

    // Whichever such files are taken, what the words name is known: where the status is 0, 1 or 5, all files that may be held
    // hold the same under the names of the words.
    ensures known { HasRead result → (files others : Contents) → F.may_hold shelf.new files → F.may_hold shelf.new others →
        AgreeOn (inputs_of (request_of (map string_bytes words.now))) files others }

    // The words decide on theirs, and a fault has its cause.
    ensures words { result ≡ Status.BadWords → request_of (map string_bytes words.now) ≡ None }
    ensures other_words { request_of (map string_bytes words.now) ≡ None →
        (result ≡ Status.BadWords) ⊎ (result ≡ Status.WriteFault) ⊎ (result ≡ Status.NoMemory) }
    ensures read_fault { result ≡ Status.ReadFault →
        (name : List ℕ) × IsOneOf (inputs_of (request_of (map string_bytes words.now))) name
        × Rose (F.count shelf.old name) (F.count shelf.new name) }
    ensures write_fault { result ≡ Status.WriteFault → Rose (K.faults out.old) (K.faults out.new) }
    ensures too_long { result ≡ Status.TooLong → (files : Contents) → F.may_hold shelf.new files →
        HoldsTooMany (inputs_of (request_of (map string_bytes words.now))) files }

    // Where neither has failed, the answer is written whole, unless memory ran out.
    ensures complete { (files : Contents) → F.may_hold shelf.new files →
        ((name : List ℕ) → IsOneOf (inputs_of (request_of (map string_bytes words.now))) name →
        ¬ (Rose (F.count shelf.old name) (F.count shelf.new name))) →
        ¬ (Rose (K.faults out.old) (K.faults out.new)) →
        (result ≡ Status.NoMemory) ⊎ ((bytes : List ℕ)
        × Answers (request_of (map string_bytes words.now)) files result bytes
        × (K.sent out.new ≡ K.sent out.old ++ bytes)) }

    // Where an answer is written whole, all of the following is so of the one list of bytes that was sent.
    ensures headline { (files : Contents) → F.may_hold shelf.new files → IsWhole result →
        (bytes : List ℕ) × (K.sent out.new ≡ K.sent out.old ++ bytes)
        × IsHeadline (request_of (map string_bytes words.now)) files bytes }

    // Where an answer is written whole, all panes in it, those of the file in mode `show` and those of each `source`, `deps`,
    // `deps S`, `show` and `calls` of a script, are those that come of reading the printed text of the present program
    // afresh, and so are the advice of `advise S` and what `system` says. `print` shows that text.
    ensures panes { (files : Contents) → F.may_hold shelf.new files → IsWhole result →
        (bytes : List ℕ) × (K.sent out.new ≡ K.sent out.old ++ bytes)
        × PanesRequest (request_of (map string_bytes words.now)) files bytes }

    // In a session the sources are one after another: `undo` and `redo` go along them, byte for byte, and are accepted
    // exactly where there is one to go to; an accepted change puts its source after the present one, in the place of
    // all that stood there, and so does each step that `auto` says was accepted; and nothing else moves.
    ensures history { (files : Contents) → F.may_hold shelf.new files → IsWhole result →
        (bytes : List ℕ) × (K.sent out.new ≡ K.sent out.old ++ bytes)
        × HistoryRequest (request_of (map string_bytes words.now)) files bytes }

    // Where a session's answer is written whole, each `run` of its script shows what the programs show from which the
    // present one has come by transformations alone, if they are tidy and without C$PED REJECT and run on the data
    // without a fault and without a race, also where sums of lists that are live are done in any order. Tidy: no reference
    // in a PARALLEL DO writes the variable of it or of a DO in it, and each path from that PARALLEL DO's exit to the end
    // overwrites such a variable that is saved. And in each state, each transformation of the history keeps the meaning of
    // such a program, and leaves it tidy and without C$PED REJECT; and on all data and with all choices, also those of no
    // `run`, the present program has the outcome of each such program from which it has come by transformations alone. The
    // report of `generate` says that the program after the script's steps ends as the one that was made, if the run of
    // that one ends.
    ensures runs { (files : Contents) → F.may_hold shelf.new files → IsWhole result →
        (bytes : List ℕ) × (K.sent out.new ≡ K.sent out.old ++ bytes)
        × RunsRequest (request_of (map string_bytes words.now)) files bytes }

    // On all data on which the program units of a file run without a fault, the program that they expand to, which is shown or
    // on which the session opens, has the same outcome. So in a session on whose data they do, each `run` shows it: without
    // choices where the present source is that program's and no list of sums in it is live, and with whatever choices where
    // the present source has come from that one by transformations alone, if it is tidy and without C$PED REJECT and runs
    // without a race. Where the units meet a fault, the program meets the same, unless a CALL reads an undefined variable of
    // its own.
    ensures units { (files : Contents) → F.may_hold shelf.new files → IsWhole result →
        (bytes : List ℕ) × (K.sent out.new ≡ K.sent out.old ++ bytes)
        × UnitsRequest (request_of (map string_bytes words.now)) files bytes }

    // A transformation or `reject` at a statement that the present program has is refused exactly where a rule or a
    // dependence forbids it, and the first of these is reported: the rule with the least number, and else the
    // first row of the pane. Where the program has no such statement, that is reported. With evidence, a dependence forbids
    // the step that is left open: not all of its vectors that count are disproved.
    ensures causes { (files : Contents) → F.may_hold shelf.new files → IsWhole result →
        (bytes : List ℕ) × (K.sent out.new ≡ K.sent out.old ++ bytes)
        × CausesRequest (request_of (map string_bytes words.now)) files bytes }

    // After what is said of a step comes a row for each line of its evidence that proves nothing in the present program.
    // What each other line claims is so on all data: in no run of that program do two accesses by its references conflict in
    // one execution of an outermost DO in directions that its pattern fits.
    ensures evidence { (files : Contents) → F.may_hold shelf.new files → IsWhole result →
        (bytes : List ℕ) × (K.sent out.new ≡ K.sent out.old ++ bytes)
        × EvidenceRequest (request_of (map string_bytes words.now)) files bytes }

    // `auto` lists accepted steps, all of them transformations, which lead one after another from the state before it
    // to the one after it, as they do in a script; each DO of its program that isn't a PARALLEL DO, with the first of
    // all that forbids `parallel` there; and its source, which has come from the former one by transformations alone.
    ensures parallelised { (files : Contents) → F.may_hold shelf.new files → IsWhole result →
        (bytes : List ℕ) × (K.sent out.new ≡ K.sent out.old ++ bytes)
        × AutoRequest (request_of (map string_bytes words.now)) files bytes }

    // Each pane of dependences covers the run in order of its program, on whatever data: two accesses that references make
    // to one cell, one of them a write, in one execution of a DO around both have a row, and for two that race a
    // PARALLEL DO carries one. In the pane of calls such two have a row where one is made in the block of a CALL, but
    // not both in one execution of it. Where two accesses conflict so and have no row, a DO makes one of them itself:
    // it reads its variable in its body, or stores it when it is left. And what a row marked proven says occurs, in each of
    // its directions, once the run has left the outermost DO, except for variables that are copied.
    ensures covered { (files : Contents) → F.may_hold shelf.new files → IsWhole result →
        (bytes : List ℕ) × (K.sent out.new ≡ K.sent out.old ++ bytes)
        × CoveredRequest (request_of (map string_bytes words.now)) files bytes }

    // What stays.
    ensures same { F.told shelf.new ≡ F.told shelf.old }
    ensures counts { (name : List ℕ) → F.count shelf.old name ≤ F.count shelf.new name }
    ensures others { (files : Contents) → F.told shelf.old ≡ Some files → (name : List ℕ) →
        ¬ (IsOneOf (inputs_of (request_of (map string_bytes words.now))) name) → IsHeld files name →
        F.count shelf.new name ≡ F.count shelf.old name }
    ensures faults { K.faults out.old ≤ K.faults out.new }
    ensures untold { K.taken out.old ≡ None → K.taken out.new ≡ None }

    // No name is read but those of the words, as far as the shelf notes names.
    ensures names { AddsOnly (IsOneOf (inputs_of (request_of (map string_bytes words.now)))) (F.read_names shelf.old) (F.read_names shelf.new) }

    // Files that the shelf may hold at the end it might hold before; and a sink that says what it has taken says what was sent.
    ensures less { (files : Contents) → F.may_hold shelf.new files → F.may_hold shelf.old files }
    ensures told_sent { K.taken out.old ≡ Some (K.sent out.old) → K.taken out.new ≡ Some (K.sent out.new) }

    // As many dependence tests are made as the answer takes, where it was written whole; otherwise at most as
    // many. Without a program there are none, whatever the files hold.
    ensures tests { (files : Contents) → F.may_hold shelf.new files →
        (n : ℕ) → Tests (request_of (map string_bytes words.now)) files n → Ticks result steps.old steps.new n }
    ensures counted { (files : Contents) → F.may_hold shelf.new files →
        (n : ℕ) × Tests (request_of (map string_bytes words.now)) files n × Ticks result steps.old steps.new n }
    ensures untested { IsUntested result → steps.new ≡ steps.old }
    ensures steps { steps.old ≤ steps.new }
{
    panes_are_afresh();
    history_is_kept();
    runs_are_as_before();
    units_run_as_expanded();
    refusals_have_causes();
    evidence_is_so();
    auto_is_told::<L>();
    panes_cover_runs();
    some_tests();
    match request(alloc, words) {
        Ok(asked) => serve(alloc, asked, shelf, out, steps),
        Err(WordsError::Bad) => finish(out, USAGE, Status::BadWords),
        Err(WordsError::NoMemory) => Status::NoMemory,
    }
}

/// Words and files have one answer: one status and one text.
pub fn one_answer()
    ensures { (request : Option plain.Request) (files : Contents) (s t : Status) (a b : List ℕ) →
        Answers request files s a → Answers request files t b → (s ≡ t) × (a ≡ b) }
{}

/// Words and files take one number of dependence tests.
pub fn one_count_of_tests()
    ensures { (request : Option plain.Request) (files : Contents) (m n : ℕ) →
        Tests request files m → Tests request files n → m ≡ n }
{}

/// Answers the words over a shelf and a sink that never fail: no read fault and no write fault comes.
pub fn answer_surely<L: Ledger>(
    alloc: Global,
    words: &[String],
    shelf: &mut SureShelf,
    out: &mut SureSink,
    steps: &mut Steps<L>,
) -> Status
    ensures reads { result ≢ Status.ReadFault }
    ensures writes { result ≢ Status.WriteFault }
    ensures answer { (result ≡ Status.NoMemory) ⊎ ((bytes : List ℕ)
        × Answers (request_of (map string_bytes words.now)) (all_names shelf.old) result bytes
        × (out.new ≡ out.old ++ bytes)) }
    ensures tests { (n : ℕ) → Tests (request_of (map string_bytes words.now)) (all_names shelf.old) n → Ticks result steps.old steps.new n }
    ensures untested { IsUntested result → steps.new ≡ steps.old }
    ensures steps { steps.old ≤ steps.new }
{
    ped_main(alloc, words, shelf, out, steps)
}

const USAGE: &[u8] =
    b"usage: ped show PROGRAM | session PROGRAM SCRIPT [--data FILE] | generate N\n";

/// Answers what is asked for.
fn serve<F: Shelf, K: Sink, L: Ledger>(
    alloc: Global,
    asked: Request<'_>,
    shelf: &mut F,
    out: &mut K,
    steps: &mut Steps<L>,
) -> Status
    requires { IsSized asked }
    ensures served { ServedRequest (request_view asked.entry) (record {
      told = F.told shelf.old;
      may = F.may_hold shelf.new;
      counts = F.count shelf.old;
      counts_after = F.count shelf.new;
      taken = K.taken out.old;
      taken_after = K.taken out.new;
      sent = K.sent out.old;
      sent_after = K.sent out.new;
      faults = K.faults out.old;
      faults_after = K.faults out.new;
      steps = steps.old;
      steps_after = steps.new;
      status = result;
    }) }
    ensures same { F.told shelf.new ≡ F.told shelf.old }
    ensures less { (files : Contents) → F.may_hold shelf.new files → F.may_hold shelf.old files }
    ensures names { AddsOnly (IsOneOf (inputs_of (Some (request_view asked.entry)))) (F.read_names shelf.old) (F.read_names shelf.new) }
{
    match asked {
        Request::Show { program } => show_file(alloc, program, shelf, out, steps),
        Request::Session {
            program,
            script,
            data,
        } => answer_files(alloc, program, script, data, shelf, out, steps),
        Request::Generate(size) => answer_size(alloc, size, out, steps),
    }
}
