//! Programs and scripts of any size from 1 to 300, for trying out tools on equal work. `specs/` defines them.
#![tactic(auto)]

mod programs;
mod scripts;

pub use programs::program;
pub use scripts::script;
