//! Laws of lists of acts: when such a list may be changed so that it still fits a store and leaves what it left. They
//! mention only cells and contents, no program. Each function here does nothing; its contract is the law.
//! docs/MEANING.md says what the laws are for.

mod agreeing;
mod exchanges;
mod idle_acts;
mod names;
mod orders;
mod races;
mod walks;

pub use agreeing::{agreement, other_places};
pub use exchanges::{equal_piece, exchange, in_two_steps, one_after_another, pieces, wanted_parts};
pub use idle_acts::{changes, plain_changes, same_outside, touches_exchanged, without_writes};
pub use names::{renaming, renaming_everywhere, renaming_one};
pub use orders::{
    blocks_exchanged, blocks_reordered, blocks_reversed, grids, orders_kept, reordering,
    rows_to_columns, sorted_by_key, to_the_front,
};
pub use races::{
    acts_that_conflict, apart_either_way, blocks_that_conflict, conflicting_accesses,
    no_race_by_pairs, origins, race_free_acts,
};
pub use walks::{renaming_by_source, side_by_side};
