//! A session: a program that is edited step by step. It holds the versions of the program, and keeps that each
//! transformation between them keeps the meaning. The definitions are in `specs/`. Contracts see a session as texts:
//! past sources, the present one, future ones, and between neighbours the kind of the change. What a command does is
//! one sentence for each command (`IsStep`).
#![tactic(auto)]

mod answers;
mod auto_texts;
mod automatic;
mod carrying;
mod changing;
mod editing;
mod idle;
mod laws;
mod listing;
mod moving;
mod outcome_texts;
mod paralleling;
mod race_rows;
mod replies;
mod running;
mod scripts;
mod session;
mod showing;
mod transforming;

pub use answers::{Answered, answer_items};
pub use laws::{
    auto_is_a_script, auto_is_undone, auto_keeps_the_meaning, auto_replays,
    interleavings_keep_the_meaning, moves_restore_each_other, one_answer, one_step,
    refused_changes_nothing, runs_are_as_before, runs_in_order, sources_are_printed,
    sources_keep_it_on_data, sources_keep_the_meaning, transformations_keep_the_meaning,
    undo_restores, without_lists,
};
pub use ped_eval::{LiveRow, Outcome};
pub use ped_order::{
    Graph, an_interleaving, conflicts_are_covered, races_are_covered, without_choices,
};
pub use ped_transformations::{calls_are_covered, disproved_never_meets};
pub use ped_versions::ChangeKind;
pub use replies::{FirstCause, Refusal, Reply};
pub use scripts::{bad_command_row, reply_text};
pub use session::Session;
