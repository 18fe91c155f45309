//! Scalar flow over all paths of a program. The definitions are in `specs/`. A question is a walk for one scalar. Where a
//! loop has many others in it, `flow_of` records first, in rows of bits, what the paths of each statement do to the first
//! 4,096 scalars. A walk skips the statements that do nothing to its scalar according to the rows.
#![tactic(auto)]

mod asked;
mod before;
mod behind;
mod collecting;
mod crowds;
mod decls;
mod entries;
mod escapes;
mod flows;
mod laws;
mod marking;
mod outside;
mod parts;
mod places;
mod row_events;
mod row_loops;
mod row_steps;
mod row_summaries;
mod row_walks;
mod scalars;
mod skips;
mod summaries;
mod walks;

pub use flows::{Flow, Reader, flow_of, loop_at};
pub use laws::paths_are_summed;
