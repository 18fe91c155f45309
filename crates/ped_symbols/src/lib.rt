//! What the names of a program mean, or the first rule that its names break: kinds by declarations and
//! by first letters, bounds of arrays, values of constants (ANSI X3.9-1978, sections 4.1.2, 5, 8), and the
//! limits on elements and on pairs of references.
#![tactic(auto)]

mod arrays;
mod declarations;
mod declared;
mod pairs;
mod repeating;
pub mod right_uses;
mod sites;
mod statements;
mod storage;
mod symbols;
mod tables;
mod uses;
mod values;

pub use symbols::{Kind, NameRefusal, Symbols, symbols_of};
pub use uses::{Role, Use};
