//! Answers exist. Each question in the definitions of the dependence tests is decided in every case. So each view has
//! its direction vectors, each program its dependence pane, each command of a session its reply, and each script its
//! answer; words and files have theirs. No function here does anything; its contract is the law. Laws of the crates
//! below, and `one_answer`, state that there is at most one answer.

mod exclusions;
mod panes;
mod replies;

pub use exclusions::{exclusions_are_decided, vectors_exist};
pub use panes::{
    calls_pane_exists, dependence_pane_exists, dependence_pane_of_exists, dependences_exist,
};
pub use replies::{
    answers_exist, lowerings_exist, replies_exist, script_answers_exist, some_answer, some_tests,
};
