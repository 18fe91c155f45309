//! Files of program units, a main program followed by subroutines: read or refused, each unit with what its names mean
//! (ANSI X3.9-1978, sections 2.4 and 15.6). The definitions in `specs/` say all that a file of units is: what it reads
//! as, what is refused for its CALLs, and what it expands to.
#![tactic(auto)]

mod forms;
mod items;
mod naming;
mod reading;
mod refusals;
mod seen;
mod segments;
mod standing;
mod unit_refusals;
mod units;

pub use naming::{tables, with_condition};
pub use ped_valid::{Kind, NameRefusal, OpenRefusal, Opened, Symbols, open_program, symbols_of};
pub use reading::read_units;
pub use refusals::{UnitFinding, UnitRefusal, UnitRule};
pub use units::ProgramUnit;
