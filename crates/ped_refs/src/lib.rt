//! References: occurrences that read or write a variable, and the pairs of references that may depend on each
//! other. The definitions are in `specs/`.
#![tactic(auto)]

mod accesses;
mod constants;
mod counting;
mod groups;
mod laws;
mod listing;
mod loops;
mod occurring;
mod pairing;
mod references;
pub mod sizes;
mod surroundings;

pub use counting::{MOST_PAIRS, first_beyond_limit, pairs, within_limit};
pub use laws::{pairs_ascend, references_ascend};
pub use listing::refs;
pub use loops::{Loop, is_index};
pub use occurring::{Occurrence, occurrences};
pub use pairing::{Pair, listed_pairs};
pub use references::{Ref, RefName, Refs};
