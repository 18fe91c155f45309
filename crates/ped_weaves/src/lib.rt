//! Laws of lists of acts, for steps that rewrite loops: parts exchanged where stores may differ on some cells, lists
//! woven anew from blocks and controls, and where accesses come from. The functions do nothing; their contracts
//! are the laws. docs/MEANING.md says what the laws are for.
#![tactic(auto)]

mod apart;
mod puttings;
mod sources;
mod weaves;

pub use apart::{agreed_sets, parts_apart, standing_pieces};
pub use ped_laws::conflicts::{accesses_are_made, accesses_in_sequence, conflicts_are_covered};
pub use ped_laws::{
    Flow, Graph, Keep, NameRefusal, PairKey, Prepared, Reader, Symbols, flow_of, loop_at, prepare,
    symbols_of,
};
pub use puttings::{act_for_act, kept_part};
pub use sources::comes_free;
pub use weaves::{counted_acts, trips_reordered, weaving, woven_rows};
