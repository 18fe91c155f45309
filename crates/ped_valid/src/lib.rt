//! Valid programs: what a text reads as if its names are right, too, with what they mean; or else the first rule that
//! the text breaks. Whether a tree is valid depends only on the tree. The lines at which its statements begin decide
//! which of its refusals is the first, and never whether there is one.
#![tactic(auto)]

mod laws;
mod opening;
mod refusals;

pub use laws::{one_valid_tree_or_one_refusal, printed_program_is_valid};
pub use opening::{Opened, open_program};
pub use ped_symbols::{Kind, NameRefusal, Symbols, symbols_of};
pub use refusals::OpenRefusal;
