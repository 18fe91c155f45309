//! The answer to words and files: `ped_main` reads from a shelf the files that the words name, and writes to a sink
//! what they ask for. Its contract states what is proved about the whole program. The shelf and the sink may be
//! anything that meets their traits. The program `ped` passes the machine's; `ped_faults` passes some in memory whose
//! calls fail.
#![tactic(auto)]

mod answering;
mod endings;
mod existence;
mod finishing;
mod generating;
mod headline;
mod loading;
mod panes;
mod refusals;
mod reporting;
mod sessions;
mod showing;
mod tallies;

pub use answering::{Status, answer_surely, one_answer, one_count_of_tests, ped_main};
pub use existence::{
    answers_exist, calls_pane_exists, dependence_pane_exists, dependence_pane_of_exists,
    dependences_exist, exclusions_are_decided, lowerings_exist, replies_exist,
    script_answers_exist, some_answer, some_tests, vectors_exist,
};
pub use generating::{made_programs_are_trusted, made_programs_have_no_list};
pub use headline::{
    auto_is_told, evidence_is_so, history_is_kept, panes_are_afresh, panes_cover_runs,
    refusals_have_causes, runs_are_as_before, units_run_as_expanded,
};
