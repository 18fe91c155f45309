//! What evaluations depend on.

use crate::scopes::Scope;
use ped_store::Store;
use ped_tree::constants::Consts;

/// What the value of an expression depends on at a place of a run.
#[derive(Clone, Copy)]
pub struct Surroundings<'a> {
    /// What the cells of the program hold.
    pub store: &'a Store,
    /// The iterations of DO loops around the place.
    pub scope: &'a Scope,
    /// The named constants of the program with their values.
    pub consts: &'a Consts,
}
