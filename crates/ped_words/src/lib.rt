//! The words of a call: the mode, which is read by hand, and then what the mode's command takes.
#![tactic(auto)]

mod commands;
mod errors;
mod reading;
mod requests;

pub use errors::WordsError;
pub use reading::request;
pub use requests::Request;
