//! Sessions: the files are read in order. Then the script is answered on the program to which the first file expands.

ghost use Rattle.std.specs.Prelude.{◌≡◌, ◌⊎◌, ◌∷◌, [], ◌+◌, ◌≤◌, ℕ, Some, None, IfOk, option_map};
ghost use Rattle.ped_io.specs.Outside.{Contents, AddsOnly, Rose};
ghost use Rattle.ped_tree.specs.Views.{program_tree};
ghost use Rattle.ped_session.specs.ped_symbols.specs.NameRefusals.{IsValid};
ghost use Rattle.ped_session.specs.ped_symbols.specs.Kinds.{table_of};
ghost use Rattle.ped_session.specs.ped_refs.specs.References.{references, pair_count};
ghost use Rattle.ped_script.specs.Items.{commands_of};
ghost use Rattle.ped_session.specs.States.{State, opened};
ghost use Rattle.ped_session.specs.Scripts.{Said, AnswersItems};
ghost use Rattle.ped_words.specs.Requests.{session};
ghost use Rattle.ped_answer.specs.Answer.{source_input, data_input, data_inputs, inputs_of, IsOneOf, AnswersInput, AnswersData, IsSession, Sends};
ghost use Rattle.ped_answer.specs.TestCounts.{TestsInput, TestsData, TestsSession, Ticks, IsUntested};
ghost use Rattle.ped_answer.specs.Serving.{Served, ServedRequest, AnswersFrom, session_status};

use crate::answering::Status;
use crate::finishing::finish;
use crate::loading::{DATA_LIMIT, SOURCE_LIMIT, say_unread};
use crate::refusals::is_refused;
use ped_base::NoMemory;
use ped_call_runs::{Opened, UnitRefusal, expansion};
use ped_io::{Shelf, Sink, load};
use ped_script::commands;
use ped_session::{Answered, Session, answer_items};
use ped_verdict::Steps;
use std::alloc::Global;
use std::sync::ledger::Ledger;

/// Answers a script on a program, each in a file; programs are run on the data, which are in a file or empty.
pub fn answer_files<F: Shelf, K: Sink, L: Ledger>(
    alloc: Global,
    program: &str,
    script: &str,
    data_file: Option<&str>,
    shelf: &mut F,
    out: &mut K,
    steps: &mut Steps<L>,
) -> Status
    ensures served { ServedRequest (session program.now script.now (option_map (λ file. file.now) data_file.entry)) (record {
      told = F.told shelf.old;
      may = F.may_hold shelf.new;
      counts = F.count shelf.old;
      counts_after = F.count shelf.new;
      taken = K.taken out.old;
      taken_after = K.taken out.new;
      sent = K.sent out.old;
      sent_after = K.sent out.new;
      faults = K.faults out.old;
      faults_after = K.faults out.new;
      steps = steps.old;
      steps_after = steps.new;
      status = result;
    }) }
    ensures same { F.told shelf.new ≡ F.told shelf.old }
    ensures less { (files : Contents) → F.may_hold shelf.new files → F.may_hold shelf.old files }
    ensures names { AddsOnly (IsOneOf (inputs_of (Some (session program.now script.now (option_map (λ file. file.now) data_file.entry))))) (F.read_names shelf.old) (F.read_names shelf.new) }
{
    match load(alloc, shelf, program, SOURCE_LIMIT) {
        Ok(text) => answer_script_file(
            alloc,
            text.as_slice(),
            script,
            data_file,
            shelf,
            out,
            steps,
        ),
        Err(fault) => say_unread(alloc, program, SOURCE_LIMIT, fault, out),
    }
}

/// Answers the script in a file on the program that a text expands to.
fn answer_script_file<F: Shelf, K: Sink, L: Ledger>(
    alloc: Global,
    text: &[u8],
    script: &str,
    data_file: Option<&str>,
    shelf: &mut F,
    out: &mut K,
    steps: &mut Steps<L>,
) -> Status
    ensures served { Served (source_input script.now ∷ data_inputs (option_map (λ file. file.now) data_file.entry))
        (λ files. AnswersInput (source_input script.now) files (λ commands. AnswersData (option_map (λ file. file.now) data_file.entry) files (IsSession text.now commands)))
        (λ files. TestsInput (source_input script.now) files (λ commands. TestsData (option_map (λ file. file.now) data_file.entry) files (TestsSession text.now commands)))
        (record {
          told = F.told shelf.old;
          may = F.may_hold shelf.new;
          counts = F.count shelf.old;
          counts_after = F.count shelf.new;
          taken = K.taken out.old;
          taken_after = K.taken out.new;
          sent = K.sent out.old;
          sent_after = K.sent out.new;
          faults = K.faults out.old;
          faults_after = K.faults out.new;
          steps = steps.old;
          steps_after = steps.new;
          status = result;
        }) }
    ensures same { F.told shelf.new ≡ F.told shelf.old }
    ensures less { (files : Contents) → F.may_hold shelf.new files → F.may_hold shelf.old files }
    ensures names { AddsOnly (IsOneOf (source_input script.now ∷ data_inputs (option_map (λ file. file.now) data_file.entry))) (F.read_names shelf.old) (F.read_names shelf.new) }
{
    match load(alloc, shelf, script, SOURCE_LIMIT) {
        Ok(script) => answer_data(alloc, text, script.as_slice(), data_file, shelf, out, steps),
        Err(fault) => say_unread(alloc, script, SOURCE_LIMIT, fault, out),
    }
}

/// Answers a script on the program that a text expands to, where programs are run on the data in a file, or on empty data.
fn answer_data<F: Shelf, K: Sink, L: Ledger>(
    alloc: Global,
    text: &[u8],
    script: &[u8],
    data_file: Option<&str>,
    shelf: &mut F,
    out: &mut K,
    steps: &mut Steps<L>,
) -> Status
    ensures served { Served (data_inputs (option_map (λ file. file.now) data_file.entry))
        (λ files. AnswersData (option_map (λ file. file.now) data_file.entry) files (IsSession text.now script.now))
        (λ files. TestsData (option_map (λ file. file.now) data_file.entry) files (TestsSession text.now script.now))
        (record {
          told = F.told shelf.old;
          may = F.may_hold shelf.new;
          counts = F.count shelf.old;
          counts_after = F.count shelf.new;
          taken = K.taken out.old;
          taken_after = K.taken out.new;
          sent = K.sent out.old;
          sent_after = K.sent out.new;
          faults = K.faults out.old;
          faults_after = K.faults out.new;
          steps = steps.old;
          steps_after = steps.new;
          status = result;
        }) }
    ensures same { F.told shelf.new ≡ F.told shelf.old }
    ensures less { (files : Contents) → F.may_hold shelf.new files → F.may_hold shelf.old files }
    ensures names { AddsOnly (IsOneOf (data_inputs (option_map (λ file. file.now) data_file.entry))) (F.read_names shelf.old) (F.read_names shelf.new) }
{
    match data_file {
        Some(name) => answer_data_file(alloc, text, script, name, shelf, out, steps),
        None => answer_texts(alloc, text, script, &[], out, steps),
    }
}

/// Answers a script on the program that a text expands to, where programs are run on the data in a file.
fn answer_data_file<F: Shelf, K: Sink, L: Ledger>(
    alloc: Global,
    text: &[u8],
    script: &[u8],
    name: &str,
    shelf: &mut F,
    out: &mut K,
    steps: &mut Steps<L>,
) -> Status
    ensures served { Served (data_input name.now ∷ [])
        (λ files. AnswersInput (data_input name.now) files (IsSession text.now script.now))
        (λ files. TestsInput (data_input name.now) files (TestsSession text.now script.now))
        (record {
          told = F.told shelf.old;
          may = F.may_hold shelf.new;
          counts = F.count shelf.old;
          counts_after = F.count shelf.new;
          taken = K.taken out.old;
          taken_after = K.taken out.new;
          sent = K.sent out.old;
          sent_after = K.sent out.new;
          faults = K.faults out.old;
          faults_after = K.faults out.new;
          steps = steps.old;
          steps_after = steps.new;
          status = result;
        }) }
    ensures same { F.told shelf.new ≡ F.told shelf.old }
    ensures less { (files : Contents) → F.may_hold shelf.new files → F.may_hold shelf.old files }
    ensures names { AddsOnly (IsOneOf (data_input name.now ∷ [])) (F.read_names shelf.old) (F.read_names shelf.new) }
{
    match load(alloc, shelf, name, DATA_LIMIT) {
        Ok(input) => answer_texts(alloc, text, script, input.as_slice(), out, steps),
        Err(fault) => say_unread(alloc, name, DATA_LIMIT, fault, out),
    }
}

/// Answers a script on the program that a text expands to, where programs are run on these data.
fn answer_texts<K: Sink, L: Ledger>(
    alloc: Global,
    text: &[u8],
    script: &[u8],
    input: &[u8],
    out: &mut K,
    steps: &mut Steps<L>,
) -> Status
    ensures answer { Sends (IsSession text.now script.now input.now)
        (Rose (K.faults out.old) (K.faults out.new)) (K.sent out.old) (K.sent out.new) result }
    ensures ends { (result ≡ Status.Done) ⊎ (result ≡ Status.SomeRefused) ⊎ (result ≡ Status.ProgramRefused)
        ⊎ (result ≡ Status.WriteFault) ⊎ (result ≡ Status.NoMemory) }
    ensures write_fault { result ≡ Status.WriteFault → Rose (K.faults out.old) (K.faults out.new) }
    ensures faults { K.faults out.old ≤ K.faults out.new }
    ensures untold { K.taken out.old ≡ None → K.taken out.new ≡ None }
    ensures told_sent { K.taken out.old ≡ Some (K.sent out.old) → K.taken out.new ≡ Some (K.sent out.new) }
    ensures tests { (n : ℕ) → TestsSession text.now script.now input.now n → Ticks result steps.old steps.new n }
    ensures untested { IsUntested result → steps.new ≡ steps.old }
    ensures steps { steps.old ≤ steps.new }
{
    match expansion(alloc, text) {
        Ok(program) => answer_program(alloc, program, script, input, out, steps),
        Err(UnitRefusal::At(refusal)) => is_refused(alloc, refusal, out),
        Err(UnitRefusal::NoMemory) => Status::NoMemory,
    }
}

/// Answers a script in a session that is opened on a valid program, where programs are run on these data.
fn answer_program<K: Sink, L: Ledger>(
    alloc: Global,
    program: Opened,
    script: &[u8],
    input: &[u8],
    out: &mut K,
    steps: &mut Steps<L>,
) -> Status
    requires valid { IsValid (program_tree program.program) }
    requires symbols { program.symbols ≡ table_of (program_tree program.program) }
    ensures answer { Sends (AnswersFrom (opened (program_tree program.program)) script.now input.now)
        (Rose (K.faults out.old) (K.faults out.new)) (K.sent out.old) (K.sent out.new) result }
    ensures ends { (result ≡ Status.Done) ⊎ (result ≡ Status.SomeRefused) ⊎ (result ≡ Status.WriteFault) ⊎ (result ≡ Status.NoMemory) }
    ensures write_fault { result ≡ Status.WriteFault → Rose (K.faults out.old) (K.faults out.new) }
    ensures faults { K.faults out.old ≤ K.faults out.new }
    ensures untold { K.taken out.old ≡ None → K.taken out.new ≡ None }
    ensures told_sent { K.taken out.old ≡ Some (K.sent out.old) → K.taken out.new ≡ Some (K.sent out.new) }
    ensures tests { (said : Said) (last : State) → AnswersItems (commands_of script.now) input.now (opened (program_tree program.program)) said last
        → Ticks result steps.old steps.new (pair_count (references (program_tree program.program)) + said.tests) }
    ensures steps { steps.old ≤ steps.new }
{
    match Session::begin(alloc, program, steps) {
        Ok(mut session) => answer_script(alloc, &mut session, script, input, out, steps),
        Err(NoMemory) => Status::NoMemory,
    }
}

/// Answers a script in a session, where programs are run on these data.
fn answer_script<K: Sink, L: Ledger>(
    alloc: Global,
    session: &mut Session<L>,
    script: &[u8],
    input: &[u8],
    out: &mut K,
    steps: &mut Steps<L>,
) -> Status
    ensures answer { Sends (AnswersFrom session.old script.now input.now)
        (Rose (K.faults out.old) (K.faults out.new)) (K.sent out.old) (K.sent out.new) result }
    ensures ends { (result ≡ Status.Done) ⊎ (result ≡ Status.SomeRefused) ⊎ (result ≡ Status.WriteFault) ⊎ (result ≡ Status.NoMemory) }
    ensures write_fault { result ≡ Status.WriteFault → Rose (K.faults out.old) (K.faults out.new) }
    ensures faults { K.faults out.old ≤ K.faults out.new }
    ensures untold { K.taken out.old ≡ None → K.taken out.new ≡ None }
    ensures told_sent { K.taken out.old ≡ Some (K.sent out.old) → K.taken out.new ≡ Some (K.sent out.new) }
    ensures tests { (said : Said) (last : State) → AnswersItems (commands_of script.now) input.now session.old said last → Ticks result steps.old steps.new said.tests }
    ensures steps { steps.old ≤ steps.new }
{
    match script_answer(alloc, session, script, input, steps) {
        Ok(answered) => finish(out, answered.bytes.as_slice(), status_of(answered.refused)),
        Err(NoMemory) => Status::NoMemory,
    }
}

/// What a script answers in a session.
fn script_answer<L: Ledger>(
    alloc: Global,
    session: &mut Session<L>,
    script: &[u8],
    input: &[u8],
    steps: &mut Steps<L>,
) -> Result<Answered, NoMemory>
    ensures answers { IfOk result (λ answered. (said : Said) × AnswersItems (commands_of script.now) input.now session.old said session.new
        × (answered.bytes ≡ said.bytes) × (answered.refused ≡ said.refused) × (steps.new ≡ steps.old + said.tests)) }
    ensures least { steps.old ≤ steps.new }
    ensures most { (said : Said) (last : State) → AnswersItems (commands_of script.now) input.now session.old said last → steps.new ≤ steps.old + said.tests }
{
    let items = commands(alloc, script)?;
    answer_items(alloc, session, items.as_slice(), input, steps)
}

/// How a session ends whose answer is written whole, by whether a line of its script was refused.
fn status_of(refused: bool) -> Status
    ensures { result ≡ session_status refused }
{
    if refused {
        Status::SomeRefused
    } else {
        Status::Done
    }
}
