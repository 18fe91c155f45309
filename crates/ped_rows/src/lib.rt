//! Laws of the rows of the dependence pane. What a row marked proven says occurs in each run that leaves the outermost
//! loop around both references. A run has no more steps than the text says. Rows ignore the bounds of arrays. Each
//! function here does nothing; its contract is the law, and docs/ARCHITECTURE.md describes the proofs.
#![tactic(auto)]

mod bounded;
mod occurring;
mod shapes;

pub use bounded::runs_are_bounded;
pub use occurring::proven_dependences_occur;
pub use shapes::dependences_by_shapes;
