//! Runs of program units, compared with runs of the program that the units expand to. Each function here does nothing;
//! its contract is the law.
#![tactic(auto)]

mod laws;

pub use laws::{expansions_fault_alike, expansions_pass_limits_alone, expansions_run_alike};
pub use ped_calls::{OpenRefusal, Opened, UnitFinding, UnitRefusal, UnitRule, expansion};
