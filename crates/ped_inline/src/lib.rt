//! Blocks that CALLs were expanded to. `inline` replaces such a block by its statements. The pane of calls shows the
//! dependences of the program with each block as one statement. The definitions are in `specs/`.
#![tactic(auto)]

mod block_places;
mod blocks;
mod called;
mod inlining;
mod laws;
mod pane;
mod pane_laws;
mod rows;

pub use inlining::inline;
pub use laws::inline_is_lawful;
pub use pane::calls_pane;
pub use pane_laws::{calls_are_covered, one_calls_pane};
pub use ped_rules::{Change, Refused, Scene, StepAnswer, cause_words, loop_at, loops_round};
