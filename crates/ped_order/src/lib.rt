//! The order of iterations of PARALLEL DO loops doesn't show where a program runs without a fault and without a race.
//! This is a law; docs/MEANING.md describes its proof. And the races of a program on its data: the first access of its
//! run in order that races with an earlier one, or that there is none. A watch gets the accesses of the run one by one.
//! Of each cell it remembers as much as later accesses need: once for the iterations that all its accesses are in, and
//! for each execution of a PARALLEL DO further in. The definitions of reports are in `specs/`.
#![tactic(auto)]

mod agreeing;
mod entering;
mod keys;
mod laws;
mod paths;
mod reports;
mod searching;
mod sightings;
mod tables;
mod touched;
mod watches;

pub use agreeing::{interleavings_agree, without_choices};
pub use laws::{no_race_where_race_free, one_report};
pub use ped_interleavings::an_interleaving;
pub use ped_laws::conflicts::{conflicts_are_covered, races_are_covered};
pub use ped_laws::{Graph, Keep, flow_of};
pub use reports::RaceReport;
pub use searching::races;
