//! What the families of steps share: what a step returns and what is true of every step, the rules that refuse steps,
//! the dependences that forbid a step, and which statements it keeps. No family uses another, so what two of them need
//! is here. The definitions are in `specs/`.
#![tactic(auto)]

mod bounds;
mod carried;
mod causes;
mod escaping;
mod fresh;
mod increments;
mod indices;
mod intervals;
mod keeping;
mod laws;
mod literals;
mod only_loops;
mod privacy;
mod settling;
mod spans;

pub use bounds::{are_plain, is_plain};
pub use carried::{carried_edges, first_carried, first_crossing, is_after, level_at};
pub use causes::against;
pub use escaping::escapes;
pub use fresh::{NewName, fresh_name, occurs};
pub use increments::{has_step_one, unit_step};
pub use indices::{is_index_in, is_index_of, is_some_parallel};
pub use intervals::leaves;
pub use keeping::{all_but, moved_by};
pub use laws::parallel_is_lawful;
pub use literals::literal;
pub use only_loops::{are_comments, is_comment, only_loop};
pub use ped_loop_runs::{
    Change, Flow, Keep, PairKey, Prepared, Reader, Refused, Rule, Scene, StepAnswer, Symbols,
    accesses_are_made, accesses_in_sequence, all_kept, body_with, cause_words, change_to,
    conflicts_are_covered, flow_of, indices_unwritten, loop_at, loops_round, none_rejected,
    one_for_one, prepare, private_names_cleared, program_with, stays_trusted, valid_symbols,
};
pub use privacy::{is_private_in, is_private_round};
pub use settling::behind_comments;
pub use spans::{Course, Span, course_of, is_far};
