//! Runs of programs in order: values of expressions, truth of conditions, and what a program does, as a list of acts
//! with an ending. The definitions are in `specs/`, and `proofs/Examples.antt` works some of them out on small
//! programs.
#![tactic(auto)]

mod accesses;
mod evaluation;
mod exit_notes;
mod exits;
mod inner_names;
mod live;
mod named;
mod narrow;
mod notes;
mod operations;
mod outcomes;
mod plans;
mod printing;
mod reading;
mod runs;
mod scopes;
mod shapes;
mod sorting;
mod statements;
mod states;
mod surroundings;
mod telling;
mod turns;
mod watches;

ghost use Rattle.std.specs.Prelude.{◌≡◌, List, ℕ};
ghost use Rattle.ped_tree.specs.Tree.{ProgramTree};
ghost use Rattle.ped_eval.specs.Outcomes as Spec;
ghost use Rattle.ped_eval.specs.Outcomes.{outcome, outcome_of, run_of};

pub use accesses::{Access, Turn};
pub use evaluation::{target_cell, truth_of, value_of};
pub use exits::{leave_loop, write_exit};
pub use notes::Notes;
pub use outcomes::{LiveRow, Outcome};
pub use ped_symbols::Symbols;
pub use plans::{Plan, plan_of};
pub use printing::{PrintError, line_of};
pub use reading::take_items;
pub use runs::{ended, run_in_order, run_watched, start};
pub use scopes::{Frame, Scope};
pub use statements::assign;
pub use states::{Flow, RunError, State};
pub use surroundings::Surroundings;
pub use turns::{close_copies, enter_loop, open_turn};
pub use watches::{NoWatch, Watch};

/// A program has one outcome on its data, and its list of acts and their ending determine it.
pub fn one_outcome()
    ensures { (t : ProgramTree) (data_bytes : List ℕ) (o p : Spec.Outcome) → o ≡ outcome t data_bytes → p ≡ outcome_of t (run_of t data_bytes).ending → o ≡ p }
{}
