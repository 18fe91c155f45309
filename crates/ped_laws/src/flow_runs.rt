//! Laws that relate paths of a program to the acts of its runs. Each function here does nothing; its contract is the
//! law. A step that moves, drops or adds writes of a scalar asks paths whether it may; these laws state what it
//! learns. Most require that the scalar is no named constant and that no loop contains a STOP. The laws of exits,
//! entries and whole programs also require that statement numbers are distinct. The first four require that the run or
//! the iteration ends without a fault.

mod covering;
mod exits;
mod iterations;
mod stops;
mod values;

pub use covering::paths_cover_runs;
pub use exits::{dead_exits, exits_are_followed};
pub use iterations::{contained_unread, unexposed_unneeded};
pub use stops::no_stop_in_loops;
pub use values::{assigned_before, assigned_through, unassigned_unwritten};
