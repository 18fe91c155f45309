//! Laws of runs of programs in which statements have been replaced. Each function here does nothing; its contract is
//! the law, and docs/MEANING.md says what the laws are for.
//!
//! Three groups. Cut and paste: a program in which statements were replaced does what the old one did, with new acts in
//! place of each execution of the old ones (`PastingLaws`). Tidy programs, and programs without C$PED REJECT: what a
//! step on DO loops keeps in addition to the meaning (`TidyLaws`). One loop: which dependences it carries, what a plain
//! bound reads, and when one DO may replace another (`LoopLaws`).
#![tactic(auto)]

mod bounds;
mod carried;
mod copies;
mod executions;
mod loops;
mod meaning;
mod numbers;
mod one_out;
mod other_copies;
mod places;
mod rejections;
mod statements;
mod stores;
mod tidiness;

pub use bounds::plain_reads_unwritten;
pub use carried::{
    indices_unwritten, meetings_are_carried, trips_are_carried, trips_dont_conflict,
};
pub use copies::copies_inside;
pub use executions::{executed_once, executions_pasted, parts_stand};
pub use loops::one_for_one;
pub use meaning::{exchanged_keeps, suiting_sets};
pub use numbers::numbers_kept;
pub use one_out::plain_one_out;
pub use other_copies::{exchanged_near_keeps, executions_pasted_near, parts_stand_near};
pub use ped_bodies::{
    Change, Flow, Keep, PairKey, Prepared, Reader, Refused, Rule, Scene, StepAnswer, Symbols,
    accesses_are_made, accesses_in_sequence, all_kept, body_with, cause_words, change_to,
    conflicts_are_covered, flow_of, loop_at, loops_round, prepare, program_with, valid_symbols,
};
pub use places::{executed_during, places_tell, ranges_entered};
pub use rejections::{none_rejected, stays_unrejected};
pub use statements::statement_gives_way;
pub use stores::stores_hold_storable;
pub use tidiness::{private_names_cleared, shown_behind_gap, stays_tidy, stays_trusted};
