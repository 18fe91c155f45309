//! What holds of every session. Each function here does nothing; its contract is the law.

ghost use Rattle.std.specs.Prelude.{◌≡◌, ◌↔◌, ℕ, List, [], length};
ghost use Rattle.ped_tree.specs.Tree.{ProgramTree};
ghost use Rattle.ped_transformations.specs.ped_symbols.specs.NameRefusals.{IsValid};
ghost use Rattle.ped_versions.specs.ped_valid.specs.Validity.{ReadsValid};
ghost use Rattle.ped_eval.specs.Outcomes.{Outcome, outcome, IsRaceFree};
ghost use Rattle.ped_order.specs.ped_interleavings.specs.Interleavings.{IsInterleaved};
ghost use Rattle.ped_transformations.specs.ped_loop_runs.specs.Unrejected.{IsTrusted};
ghost use Rattle.ped_transformations.specs.ped_loop_runs.specs.Meaning.{KeepsOn};
ghost use Rattle.ped_transformations.specs.ped_reduce.specs.Lowering.{Lowered};
ghost use Rattle.ped_transformations.specs.ped_reduce.specs.Reducing.{IsLowered};
ghost use Rattle.ped_transformations.specs.ped_rules.specs.Lawful.{IsFaithful};
ghost use Rattle.ped_script.specs.declared.items.Command.{Command};
ghost use Rattle.ped_script.specs.declared.items.Command.TheVariants.{Undo, Redo, Run};
ghost use Rattle.ped_script.specs.declared.items.Item.{Item};
ghost use Rattle.ped_session.specs.declared.replies.Refusal as code_refusal;
ghost use Rattle.ped_session.specs.declared.replies.Reply as code_reply;
ghost use Rattle.ped_session.specs.declared.replies.Reply.TheVariants.{Changed, Refused};
ghost use Rattle.ped_versions.specs.States.{State, opened};
ghost use Rattle.ped_session.specs.OutcomeTexts.{outcome_text};
ghost use Rattle.ped_session.specs.LoweredRuns.{HasNoList, HasNoLiveList, IsLoweredRun, IsLoweredInOrder};
ghost use Rattle.ped_session.specs.Steps.{Shows, IsStep};
ghost use Rattle.ped_session.specs.Scripts.{Said, AnswersItems};
ghost use Rattle.ped_session.specs.Meanings.{IsMeaningKept, ComesFrom, ComesTrulyFrom};
ghost use Rattle.ped_session.specs.RunsAsBefore.{AnswersAsBefore};
ghost use Rattle.ped_session.specs.Histories.{ArePrinted, HaveSameSources, Times};
ghost use Rattle.ped_transformations.specs.ped_auto.specs.Strategy.{Report, IsAuto};
ghost use Rattle.ped_session.specs.AutoEditing.{session_editing};
ghost use Rattle.ped_script.specs.Items.{commands_of};
ghost use Rattle.ped_script.specs.Kinds.{kind_of, IsMove};
ghost use Rattle.ped_session.specs.AutoAnswers.{AcceptsAll};
ghost use Rattle.ped_session.specs.AutoScripts.{script_of, items_on, all_accepted};

use crate::session::Session;
use ped_order::{interleavings_agree, without_choices};
use ped_script::rows_are_commands;
use ped_transformations::{
    accepted_are_commands, every_step_is_lawful, lowering_keeps_the_meaning, one_lowering,
};
use std::sync::ledger::Ledger;

/// A command has one reply at most in a state, and leads to one state.
pub fn one_step()
    ensures { (c : Command) (data_bytes : List ℕ) (s m n : State) (p q : code_reply.Reply) →
        IsStep c data_bytes s p m → IsStep c data_bytes s q n → (p ≡ q) × (m ≡ n) }
{}

/// The items of a script have one answer at most in a state, and lead to one state.
pub fn one_answer()
    ensures { (items : List Item) (data_bytes : List ℕ) (s m n : State) (a b : Said) →
        AnswersItems items data_bytes s a m → AnswersItems items data_bytes s b n → (a ≡ b) × (m ≡ n) }
{}

/// A refused command leaves the session as it was.
pub fn refused_changes_nothing()
    ensures { (c : Command) (data_bytes : List ℕ) (s next : State) (why : code_refusal.Refusal) →
        IsStep c data_bytes s (Refused why) next → next ≡ s }
{}

/// Whatever a script does, all sources are printed texts of valid programs. So there is one program of each, and the
/// panes of the present one are those of its text read afresh.
pub fn sources_are_printed()
    ensures { (t : ProgramTree) → IsValid t → (items : List Item) (data_bytes : List ℕ) (said : Said) (last : State) →
        AnswersItems items data_bytes (opened t) said last → ArePrinted last }
{}

/// `undo` after an accepted change is accepted, and gives the former source, byte for byte, and the former past.
pub fn undo_restores()
    ensures { (c : Command) (data_bytes : List ℕ) (s next : State) → ¬ (IsMove (kind_of c)) → IsStep c data_bytes s Changed next →
        (back : State) × IsStep Undo data_bytes next Changed back × (back.present ≡ s.present) × (back.past ≡ s.past) }
{}

/// After several `undo` as many `redo` are accepted and give all sources again, and the other way around.
pub fn moves_restore_each_other()
    ensures redone { (n : ℕ) (data_bytes : List ℕ) (s back : State) → Times n Undo data_bytes s back →
        (again : State) × Times n Redo data_bytes back again × HaveSameSources again s }
    ensures undone { (n : ℕ) (data_bytes : List ℕ) (s forth : State) → Times n Redo data_bytes s forth →
        (again : State) × Times n Undo data_bytes forth again × HaveSameSources again s }
{}

/// A session is opened without a history, and each command keeps that each transformation in it keeps the meaning. A
/// transformation keeps the meaning of a tidy program without C$PED REJECT, and leaves it so.
pub fn transformations_keep_the_meaning()
    ensures opened { (t : ProgramTree) → IsMeaningKept (opened t) }
    ensures step { (c : Command) (data_bytes : List ℕ) (s next : State) (reply : code_reply.Reply) →
        IsMeaningKept s → IsStep c data_bytes s reply next → IsMeaningKept next }
{
    every_step_is_lawful();
}

/// Where a program is tidy and without C$PED REJECT, so is each to which it has come by transformations alone, and that
/// one keeps its meaning.
pub fn sources_keep_the_meaning()
    ensures { (s : State) (earlier : List ℕ) (t u : ProgramTree) → IsMeaningKept s → ComesFrom s.present s.past earlier →
        ReadsValid earlier t → ReadsValid s.present u → IsTrusted t → IsFaithful t u }
{}

/// The same on data on which C$PED REJECT lines are true: where a program has come from another by transformations alone,
/// through tidy programs, of each of which that is so, it has its outcome there and no race, if the other one runs there
/// without a fault and without a race.
pub fn sources_keep_it_on_data()
    ensures { (s : State) (data_bytes earlier : List ℕ) (t u : ProgramTree) → IsMeaningKept s → ComesTrulyFrom data_bytes s.present s.past earlier →
        ReadsValid earlier t → ReadsValid s.present u → IsRaceFree t data_bytes → KeepsOn t u data_bytes }
{}

/// Whatever a script does, each `run`, whatever its choices, shows what the programs show from which the present one has
/// come by transformations alone, where these are tidy and without C$PED REJECT and run without a fault and without a race.
/// Where no list of sums is live, they may have C$PED REJECT lines, if on the data these are true of each program on the way,
/// and all these programs are tidy.
pub fn runs_are_as_before()
    ensures { (t : ProgramTree) (items : List Item) (data_bytes : List ℕ) (said : Said) (last : State) →
        AnswersItems items data_bytes (opened t) said last → AnswersAsBefore items data_bytes (opened t) said last }
{
    every_step_is_lawful();
    interleavings_agree();
    lowering_keeps_the_meaning();
}

/// Whatever choices are given to the present program, its outcome is that of the run in order of each program from which it
/// has come by transformations alone, where that one is tidy and without C$PED REJECT and runs in order without a fault
/// and without a race. Sums of lists that are live may be done in any order, too. Where no list is live, these programs may
/// have C$PED REJECT lines, if on the data these are true of each program on the way, and all these programs are tidy.
pub fn interleavings_keep_the_meaning()
    ensures trusted { (s : State) (earlier : List ℕ) (t u : ProgramTree) (data_bytes choices : List ℕ) (o : Outcome) →
        IsMeaningKept s → ComesFrom s.present s.past earlier → ReadsValid earlier t → ReadsValid s.present u → IsTrusted t →
        IsRaceFree t data_bytes → IsLoweredRun choices data_bytes u o → o ≡ outcome t data_bytes }
    ensures true_on { (s : State) (earlier : List ℕ) (t u : ProgramTree) (data_bytes choices : List ℕ) (o : Outcome) →
        IsMeaningKept s → ComesTrulyFrom data_bytes s.present s.past earlier → ReadsValid earlier t → ReadsValid s.present u → HasNoLiveList u →
        IsRaceFree t data_bytes → IsLoweredRun choices data_bytes u o → o ≡ outcome t data_bytes }
{
    interleavings_agree();
    lowering_keeps_the_meaning();
}

/// Where no DO of a program has a list of sums, or none that is live, its outcomes are those of the program as it is, whatever
/// the choices are.
pub fn without_lists()
    ensures none { (choices data_bytes : List ℕ) (t : ProgramTree) (o : Outcome) → HasNoList t →
        IsLoweredRun choices data_bytes t o ↔ IsInterleaved t data_bytes choices o }
    ensures none_live { (choices data_bytes : List ℕ) (t : ProgramTree) (q : Lowered) (o : Outcome) → IsLowered t q → q.live ≡ [] →
        IsLoweredRun choices data_bytes t o ↔ IsInterleaved t data_bytes choices o }
{
    one_lowering();
}

/// The steps that `auto` takes are accepted one after another, and lead from the state before it to the one after it:
/// so its script, replayed, gives the source that it shows.
pub fn auto_replays()
    ensures { (s last : State) (report : Report) (tests : ℕ) → IsAuto session_editing s report last tests → AcceptsAll report.accepted s last }
{}

/// The steps that `auto` takes, each on a line of its own as it is printed after a plus sign, are a script that is read
/// as these commands. From the state before `auto` it leads to the one after it, whatever the data are: each line is
/// answered by an accepted change, and as many pairs are tested.
pub fn auto_is_a_script<L: Ledger>()
    ensures read { (s last : State) (report : Report) (tests : ℕ) → IsAuto session_editing s report last tests →
        commands_of (script_of report.accepted) ≡ items_on 1 report.accepted }
    ensures answers { (s last : State) (report : Report) (tests : ℕ) (data_bytes : List ℕ) → IsAuto session_editing s report last tests →
        AnswersItems (commands_of (script_of report.accepted)) data_bytes s (all_accepted (items_on 1 report.accepted) tests) last }
{
    accepted_are_commands::<L, Session<L>>();
    rows_are_commands();
}

/// Each step that `auto` takes is a change of its own in the history: after it as many `undo` are accepted as there
/// were steps, and give the source before `auto`, byte for byte, and its past.
pub fn auto_is_undone()
    ensures { (s last : State) (report : Report) (tests : ℕ) (data_bytes : List ℕ) → IsAuto session_editing s report last tests →
        (back : State) × Times (length report.accepted) Undo data_bytes last back × (back.present ≡ s.present) × (back.past ≡ s.past) }
{}

/// `auto` keeps that each transformation in the history keeps the meaning, and its source has come from the former one by
/// transformations alone: so all that holds of such sources holds of these two.
pub fn auto_keeps_the_meaning()
    ensures kept { (s last : State) (report : Report) (tests : ℕ) → IsMeaningKept s → IsAuto session_editing s report last tests → IsMeaningKept last }
    ensures comes { (s last : State) (report : Report) (tests : ℕ) → IsAuto session_editing s report last tests → ComesFrom last.present last.past s.present }
{
    every_step_is_lawful();
}

/// `run` without choices shows the outcome of the run in order of what the present program is lowered to, whatever that races
/// or faults at; and where no DO has a list of sums, that of the run in order of the present program.
pub fn runs_in_order()
    ensures lowered { (data_bytes : List ℕ) (s next : State) (reply : code_reply.Reply) → IsStep (Run []) data_bytes s reply next →
        Shows (λ t bytes. (o : Outcome) × IsLoweredInOrder data_bytes t o × (bytes ≡ outcome_text o)) s reply next }
    ensures plain { (data_bytes : List ℕ) (s next : State) (reply : code_reply.Reply) → IsStep (Run []) data_bytes s reply next →
        ((t : ProgramTree) → ReadsValid s.present t → HasNoList t) → Shows (λ t bytes. bytes ≡ outcome_text (outcome t data_bytes)) s reply next }
{
    without_choices();
}
