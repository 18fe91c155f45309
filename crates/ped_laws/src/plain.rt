//! Plain bounds of DO loops: they may be evaluated anywhere in the outermost DO. Each function here does nothing; its
//! contract is the law. A step that enters a loop more often than before, or earlier, rests on these laws. The first
//! laws require that the bound fits, that each named constant has a value, that no loop contains a STOP, that statement
//! numbers are distinct, and that scalars hold 32 bits at the start. `bounds_in_valid_programs` derives all of these
//! for the runs of valid programs.

mod bounds;
mod programs;
mod sizes;

pub use bounds::{
    bounds_in_executions, entries_begin_executions, iterations_are_inside, plain_bounds,
    values_stand,
};
pub use programs::bounds_in_valid_programs;
pub use sizes::scalars_are_small;
