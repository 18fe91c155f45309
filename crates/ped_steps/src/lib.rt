//! Steps: what a transformation of a program is given, what it returns, by which rules it is refused, and how a new
//! program is made from an old one. The definitions are in `specs/`.
#![tactic(auto)]

mod causes;
mod changes;
mod laws;
mod replacing;
mod rounds;
mod rules;
pub mod runs;
mod scenes;
mod validity;

pub use causes::{Refused, cause_words};
pub use changes::{Change, StepAnswer, all_kept};
pub use laws::one_replacement;
pub use ped_weaves::{
    Flow, Keep, PairKey, Prepared, Reader, Symbols, accesses_are_made, accesses_in_sequence,
    conflicts_are_covered, flow_of, loop_at, prepare,
};
pub use replacing::{body_with, program_with};
pub use rounds::loops_round;
pub use rules::Rule;
pub use scenes::Scene;
pub use validity::{change_to, valid_symbols};
