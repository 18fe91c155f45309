//! Replies to commands, and answers to scripts. Each function here does nothing; its contract is the law.

ghost use Rattle.std.specs.Prelude.{◌≢◌, ℕ, List, Option};
ghost use Rattle.ped_io.specs.Outside.{Contents};
ghost use Rattle.ped_tree.specs.Tree.{ProgramTree};
ghost use Rattle.ped_session.specs.ped_symbols.specs.NameRefusals.{IsValid};
ghost use Rattle.ped_session.specs.ped_transformations.specs.ped_reduce.specs.Lowering.{Lowered};
ghost use Rattle.ped_session.specs.ped_transformations.specs.ped_reduce.specs.Reducing.{IsLowered};
ghost use Rattle.ped_script.specs.declared.items.Command.{Command};
ghost use Rattle.ped_script.specs.declared.items.Command.TheVariants as commands;
ghost use Rattle.ped_script.specs.declared.items.Item.{Item};
ghost use Rattle.ped_session.specs.declared.replies.Reply.{Reply};
ghost use Rattle.ped_session.specs.States.{State, opened};
ghost use Rattle.ped_session.specs.Steps.{IsStep};
ghost use Rattle.ped_session.specs.Histories.{ArePrinted};
ghost use Rattle.ped_session.specs.Scripts.{Said, AnswersItems};
ghost use Rattle.ped_answer.specs.declared.answering.Status.{Status};
ghost use Rattle.ped_words.specs.Requests.{Request};
ghost use Rattle.ped_answer.specs.Answer.{Answers};
ghost use Rattle.ped_answer.specs.TestCounts.{Tests};

use ped_session::an_interleaving;

/// Each program is lowered, whatever lists of sums it has: of each list it is settled whether it is live. That no program is
/// lowered in a second way says `one_lowering` of ped_reduce.
pub fn lowerings_exist()
    ensures { (t : ProgramTree) → (q : Lowered) × IsLowered t q }
{}

/// Each command but `auto`, which is several steps, has a reply in each state whose sources are printed texts of valid programs, and leads to a state. That it
/// has no second reply says `one_step` of ped_session, and that no script leads to other sources `sources_are_printed`.
pub fn replies_exist()
    ensures { (c : Command) → c ≢ commands.Auto → (data_bytes : List ℕ) (s : State) → ArePrinted s →
        (reply : Reply) × (next : State) × IsStep c data_bytes s reply next }
{
    an_interleaving();
}

/// The items of a script have an answer in each such state, too.
pub fn answers_exist()
    ensures { (items : List Item) (data_bytes : List ℕ) (s : State) → ArePrinted s →
        (said : Said) × (last : State) × AnswersItems items data_bytes s said last }
{
    an_interleaving();
}

/// Each script has an answer on each valid program, whatever the data are. That it has no second one says `one_answer`
/// of ped_session.
pub fn script_answers_exist()
    ensures { (t : ProgramTree) → IsValid t → (items : List Item) (data_bytes : List ℕ) →
        (said : Said) × (last : State) × AnswersItems items data_bytes (opened t) said last }
{
    an_interleaving();
}

/// Words and files have an answer, whatever is asked for and whatever the files hold: a status and a text. That they have no
/// second one says `one_answer` of ped_answer.
pub fn some_answer()
    ensures { (request : Option Request) (files : Contents) → (status : Status) × (bytes : List ℕ) × Answers request files status bytes }
{
    an_interleaving();
}

/// The answer to words and files takes a fixed number of dependence tests, whatever is asked for and whatever the files
/// hold. That it takes no other number says `one_count_of_tests`.
pub fn some_tests()
    ensures { (request : Option Request) (files : Contents) → (n : ℕ) × Tests request files n }
{
    an_interleaving();
}
