//! How large a program of the profile is: its statements, its references and the DO loops around each of them.

mod laws;

pub use laws::small_where_it_fits;
