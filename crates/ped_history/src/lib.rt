//! The past and the future of a session: changes that can be undone, and undone changes that can be
//! redone. Contracts see both as lists.
#![tactic(auto)]

mod entries;
mod laws;

pub use entries::{History, NothingToRedo, NothingToUndo};
pub use laws::{back_after_push, forward_after_back};
