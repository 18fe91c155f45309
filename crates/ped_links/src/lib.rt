//! CALLs between the units of a file: each has a unit to call, isn't recursive, has arguments that fit, and is in no
//! PARALLEL DO. Otherwise the first violation is reported (ANSI X3.9-1978, sections 15.6 to 15.9).
#![tactic(auto)]

mod arguments;
mod arrows;
mod assigning;
mod first_links;
mod formals;
mod linking;
mod numbering;
mod placing;
mod ranking;
mod reaching;
mod recursion;
mod scenes;

pub use linking::look_at_calls;
pub use numbering::{number_of, unit_numbers};
pub use ped_units::{
    Kind, NameRefusal, OpenRefusal, Opened, ProgramUnit, Symbols, UnitFinding, UnitRefusal,
    UnitRule, open_program, read_units, symbols_of, tables, with_condition,
};
pub use placing::{Around, Found, PlacedCall, placed_calls};
