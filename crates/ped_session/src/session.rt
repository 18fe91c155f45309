//! Sessions, and the commands that they answer.

ghost use Rattle.std.specs.Prelude.{◌≡◌, ◌≢◌, ◌+◌, ◌≤◌, List, length, IfOk, IfErr, OnOk, OnErr, is_ok, true, None};
ghost use Rattle.ped_tree.specs.Tree.{ProgramTree};
ghost use Rattle.ped_tree.specs.Numbering.{statements_count};
ghost use Rattle.ped_refs.specs.References.{references, pair_count};
ghost use Rattle.ped_tree.specs.Views.{program_tree};
ghost use Rattle.ped_transformations.specs.ped_symbols.specs.NameRefusals.{IsValid};
ghost use Rattle.ped_transformations.specs.ped_symbols.specs.Kinds.{table_of};
ghost use Rattle.ped_tree.specs.Grammar.Refusal.{Finding};
ghost use Rattle.ped_versions.specs.ped_valid.specs.Validity.{ReadsValid, RefusesText};
ghost use Rattle.ped_versions.specs.ped_valid.specs.Refusals.{IsRefusalOf};
ghost use Rattle.ped_edges.specs.Edges as plain;
ghost use Rattle.ped_transformations.specs.ped_graph.specs.Dependences.{AreEdges};
ghost use Rattle.ped_eval.specs.OutcomeViews.{outcome_view};
ghost use Rattle.ped_session.specs.declared.replies.Reply.{Reply};
ghost use Rattle.ped_session.specs.LoweredRuns.{IsLoweredRun};
ghost use Rattle.ped_session.specs.Meanings.{IsAsBefore, IsTrulyAsBefore};
ghost use Rattle.ped_versions.specs.States.{State, opened};
ghost use Rattle.ped_session.specs.Steps.{IsStep, IsStepOf};
ghost use Rattle.ped_session.specs.Scripts.{tests_of};
ghost use Rattle.ped_script.specs.declared.items.Command.TheVariants as commands;
ghost use Rattle.ped_script.specs.declared.kinds.CommandKind.TheVariants as kinds;
ghost use Rattle.ped_script.specs.Kinds.{kind_of, IsMove};

use crate::replies::Reply;
use crate::running::run_present;
use ped_base::NoMemory;
use ped_eval::Outcome;
use ped_order::interleavings_agree;
use ped_script::{Command, CommandKind, HistoryMove, LineEdit, ProgramRun};
use ped_transformations::lowering_keeps_the_meaning;
use ped_verdict::Steps;
use ped_versions::{OpenRefusal, Opened, Versions};
use std::alloc::Global;
use std::marker::Model;
use std::sync::ledger::Ledger;

/// A session on a program. Contracts see its state: the past sources, the present one and the future ones.
#[derive(Drop)]
pub struct Session<L: Ledger> {
    pub(crate) versions: Versions<L>,
}

impl<L: Ledger> Model for Session<L> {
    ghost use Rattle.ped_versions.specs.States.{State};
    ghost use Rattle.ped_session.specs.Meanings.{IsMeaningKept};

    ghost Value = { State };

    ghost view = { λ s. s.versions };

    ghost invariant = { λ s. IsMeaningKept s.versions };
}

impl<L: Ledger> Session<L> {
    /// A session on the program of a text. Its present source is the program's printed text, and each pair of
    /// references is tested once. If memory runs out, no more pairs were tested.
    ///
    /// # Errors
    ///
    /// `At` exactly where the text is refused, with its first refusal; then nothing is tested. `NoMemory` where memory
    /// runs out.
    pub fn open(alloc: Global, text: &[u8], steps: &mut Steps<L>) -> Result<Session<L>, OpenRefusal>
        ensures opened { IfOk result (λ s. (t : ProgramTree) × ReadsValid text.now t × (s ≡ opened t)) }
        ensures refused { IfErr result (IsRefusalOf text.now) }
        ensures ticks { OnOk result ((t : ProgramTree) → ReadsValid text.now t → steps.new ≡ steps.old + pair_count (references t)) }
        ensures untested { IfErr result (λ e. e ≢ OpenRefusal.NoMemory → steps.new ≡ steps.old) }
        ensures none { (f : Finding) → RefusesText text.now f → steps.new ≡ steps.old }
        ensures least { steps.old ≤ steps.new }
        ensures most { (t : ProgramTree) → ReadsValid text.now t → steps.new ≤ steps.old + pair_count (references t) }
    {
        let versions = Versions::open(alloc, text, steps)?;
        Ok(Session { versions })
    }

    /// A session on a valid program that is opened already. Its present source is the program's printed text, and each
    /// pair of references is tested once. If memory runs out, no more pairs were tested.
    pub fn begin(alloc: Global, new: Opened, steps: &mut Steps<L>) -> Result<Session<L>, NoMemory>
        requires valid { IsValid (program_tree new.program) }
        requires symbols { new.symbols ≡ table_of (program_tree new.program) }
        ensures opened { IfOk result (λ s. s ≡ opened (program_tree new.program)) }
        ensures ticks { OnOk result (steps.new ≡ steps.old + pair_count (references (program_tree new.program))) }
        ensures least { steps.old ≤ steps.new }
        ensures most { steps.new ≤ steps.old + pair_count (references (program_tree new.program)) }
    {
        let versions = Versions::begin(alloc, new, steps)?;
        Ok(Session { versions })
    }

    /// The present source.
    pub fn source(&self) -> &[u8]
        ensures { result.now ≡ self.now.present }
    {
        self.versions.source()
    }

    /// How many numbered statements the present program has.
    pub fn statements(&self) -> u64
        ensures { (t : ProgramTree) → ReadsValid self.now.present t → result ≡ statements_count t.body }
    {
        self.versions.statements()
    }

    /// How many ordered pairs of references the present program has.
    pub fn pairs(&self) -> u64
        ensures { (t : ProgramTree) → ReadsValid self.now.present t → result ≡ pair_count (references t) }
    {
        self.versions.pairs()
    }

    /// How many dependences the present program has.
    pub fn edges(&self, alloc: Global) -> Result<u64, NoMemory>
        ensures { IfOk result (λ n. (t : ProgramTree) → ReadsValid self.now.present t → (edges : List plain.Edge) → AreEdges t edges → n ≡ length edges) }
    {
        self.versions.edges(alloc)
    }

    /// How many pairs of references the last accepted change, undo or redo has tested, or the opening.
    pub fn tested(&self) -> u64
        ensures { result ≡ self.now.tested }
    {
        self.versions.tested()
    }

    /// Runs the present program on the lines of its data: what it is lowered to, so that sums of a list that is live
    /// may be done in any order; a fault is reported with the statement of the present program. The choices pick which
    /// iteration of an open PARALLEL DO does the next step, and after their end 0 does. Whatever they are, the outcome
    /// is also that of the run in order of each program from which the present one has come by transformations alone,
    /// where that one is tidy and without C$PED REJECT and runs in order without a fault and without a race. Where no list
    /// is live, it may have such lines, if on the data these are true of each program on the way, and all are tidy.
    pub fn run(&self, alloc: Global, input: &[u8], choices: &[u64]) -> Result<Outcome, NoMemory>
        ensures outcome { IfOk result (λ o. (t : ProgramTree) → ReadsValid self.now.present t → IsLoweredRun choices.now input.now t (outcome_view o)) }
        ensures before { IfOk result (λ o. IsAsBefore self.now input.now (outcome_view o)) }
        ensures truly_before { IfOk result (λ o. IsTrulyAsBefore self.now input.now (outcome_view o)) }
    {
        interleavings_agree();
        lowering_keeps_the_meaning();
        run_present(alloc, &self.versions.present(), input, choices)
    }

    /// Answers a command; programs are run on these data. A refused command leaves the session as it was, and so does
    /// running out of memory, which never happens at `undo` and `redo`. An accepted edit or step tests pairs of the new
    /// program, and no other command tests any. The reply and the state after it are those of the command, by the
    /// only definition of each command. If memory runs out, no more pairs were tested than the command tests.
    ///
    /// `auto` is several steps, and none itself: it is for `ped_auto::auto`, over this session as its editor.
    pub fn apply(
        &mut self,
        alloc: Global,
        command: &Command,
        input: &[u8],
        steps: &mut Steps<L>,
    ) -> Result<Reply, NoMemory>
        requires { command.now ≢ commands.Auto }
        ensures answers { IfOk result (λ reply. IsStep command.now input.now self.old reply self.new) }
        ensures kept { OnErr result (self.new ≡ self.old) }
        ensures ticks { IfOk result (λ reply. steps.new ≡ steps.old + tests_of reply self.new) }
        ensures least { steps.old ≤ steps.new }
        ensures most { (reply : Reply) (next : State) → IsStep command.now input.now self.old reply next → steps.new ≤ steps.old + tests_of reply next }
        ensures sure { IsMove (kind_of command.now) → is_ok result ≡ true }
    {
        let kind = command.kind(alloc)?;
        let reply = self.apply_kind(alloc, &kind, input, steps);
        drop(kind);
        reply
    }

    /// Answers a command of this kind.
    fn apply_kind(
        &mut self,
        alloc: Global,
        kind: &CommandKind,
        input: &[u8],
        steps: &mut Steps<L>,
    ) -> Result<Reply, NoMemory>
        requires { kind.now ≢ kinds.Auto }
        ensures answers { IfOk result (λ reply. IsStepOf kind.now input.now self.old reply self.new) }
        ensures kept { OnErr result (self.new ≡ self.old) }
        ensures ticks { IfOk result (λ reply. steps.new ≡ steps.old + tests_of reply self.new) }
        ensures least { steps.old ≤ steps.new }
        ensures most { (reply : Reply) (next : State) → IsStepOf kind.now input.now self.old reply next → steps.new ≤ steps.old + tests_of reply next }
        ensures sure { IsMove kind.now → is_ok result ≡ true }
    {
        match kind {
            CommandKind::Ask(query) => return self.show(alloc, query),
            CommandKind::Edit(LineEdit::Replace { first, last, lines }) => {
                return self.replace(alloc, *first, *last, lines.as_slice(), steps);
            }
            CommandKind::Edit(LineEdit::Insert { after, lines }) => {
                return self.insert(alloc, *after, lines.as_slice(), steps);
            }
            CommandKind::Step(command) => return self.transform(alloc, command, steps),
            CommandKind::Auto => unreachable!(),
            CommandKind::Move(HistoryMove::Undo) => return Ok(self.undo()),
            CommandKind::Move(HistoryMove::Redo) => return Ok(self.redo()),
            CommandKind::Run(ProgramRun::Run(choices)) => {
                return self.show_run(alloc, choices.as_slice(), input);
            }
            CommandKind::Run(ProgramRun::Races) => return self.show_races(alloc, input),
        }
    }
}
