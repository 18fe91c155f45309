//! The only table of the editor's steps: what each is at a statement, what it answers, and that each is lawful. Advice
//! uses this table, too. A new step is a row of `step_at` and one of `answer`.
#![tactic(auto)]

mod advising;
mod laws;
mod table;

pub use advising::advice;
pub use laws::every_step_is_lawful;
pub use ped_auto::{AutoReport, Editor, accepted_are_commands, auto};
pub use ped_inline::{
    Change, Refused, Scene, StepAnswer, calls_are_covered, calls_pane, cause_words, loop_at,
    loops_round,
};
pub use ped_loops::{disproved_never_meets, judge, system_text};
pub use ped_reduce::{Lowered, has_list, lower, lowering_keeps_the_meaning, one_lowering};
pub use table::answer;
