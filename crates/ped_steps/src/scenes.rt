//! What a step is given.

use ped_tree::Program;
use ped_weaves::{Flow, Graph, Symbols};
use std::sync::ledger::Ledger;

/// A valid program with what its names stand for, its dependences and the flow of its scalars. Steps read it, and
/// leave it as it is.
#[derive(Clone, Copy)]
pub struct Scene<'a, L: Ledger> {
    /// The program.
    pub tree: &'a Program,
    /// What its names stand for.
    pub symbols: &'a Symbols,
    /// Its dependences.
    pub graph: &'a Graph<L>,
    /// The flow of its scalars.
    pub flow: &'a Flow<'a>,
}
