//! Files of program units expanded to one program, in which each CALL is a marked block (ANSI X3.9-1978, sections 15.6 to 15.9).
#![tactic(auto)]

mod binding;
mod blocks;
mod calls;
mod expanding;
mod first_calls;
mod giving;
mod laws;
mod occurring;
mod opening;
mod printing;
mod replacing;
mod settling;

pub use laws::{one_expansion_or_one_refusal, plain_files};
pub use opening::{expand_units, expansion};
pub use ped_links::{OpenRefusal, Opened, UnitFinding, UnitRefusal, UnitRule};
