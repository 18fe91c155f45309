//! Interleavings: the rest of a run whose PARALLEL DO loops continue in any order, its next step by a choice, and the
//! outcomes that choices lead to. The definitions are in `specs/`, and `proofs/Examples.antt` works some of them out
//! on small programs. No function here does anything; its contract is the law.
#![tactic(auto)]

mod ends;

pub use ends::{an_interleaving, lighter, one_interleaving};
