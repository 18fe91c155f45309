//! Variables of DO loops that are read outside the DO.

ghost use Rattle.std.specs.Prelude.{ℕ, MatchOption};
ghost use Rattle.ped_tree.specs.Tree.{ProgramTree};
ghost use Rattle.ped_tree.specs.Views.{program_tree};
ghost use Rattle.ped_loop_runs.specs.ped_flow.specs.Answers.{IsEscape};
ghost use Rattle.ped_loop_runs.specs.ped_steps.specs.Scenes.{IsSceneOf};
ghost use Rattle.ped_rules.specs.Rules.{WhereEscape};

use ped_loop_runs::{Reader, Scene};
use std::sync::ledger::Ledger;

/// The statement that the rule IndexEscapes names against the DO with this number: the first that reads the variable of it
/// or of a DO in it outside that DO, or the DO itself where the program's end alone may show one (Allen and Kennedy,
/// section 4.4).
pub fn escapes<L: Ledger>(scene: &Scene<L>, number: u32) -> Option<u32>
    requires { IsSceneOf (program_tree scene.now.tree.now) scene.now }
    ensures { MatchOption result ((n : ℕ) → WhereEscape (program_tree scene.now.tree.now) number n → ⊥) (WhereEscape (program_tree scene.now.tree.now) number) }
{
    named(scene.flow.escapes(number), number)
}

/// The statement that the rule names where this is what the flow answers of the DO with this number.
#[tactic(auto, using(crate::proofs::EscapeRule::by_statement, crate::proofs::EscapeRule::by_saved, crate::proofs::EscapeRule::by_nothing))]
fn named(reader: Option<Reader>, number: u32) -> Option<u32>
    ensures { (t : ProgramTree) → IsEscape t number reader → MatchOption result ((n : ℕ) → WhereEscape t number n → ⊥) (WhereEscape t number) }
{
    match reader {
        Some(Reader::Statement(statement)) => {
            return Some(statement);
        }
        Some(Reader::Saved) => {
            return Some(number);
        }
        None => {
            return None;
        }
    }
}
