//! Steps that keep the number of loops. `parallel` and `serial` change whether the iterations of a DO may be done in
//! any order. `reverse` does them from the last to the first. `interchange` swaps a DO and the only DO in its body.
//! `parallel`, `reverse` and `interchange` may come with evidence, which puts dependences aside that it disproves.
//! `reject` records what the user states about a dependence. The definitions are in `specs/`.
#![tactic(auto)]

mod ending;
mod flags;
mod interchanging;
mod laws;
mod openness;
mod paralleling;
mod rejecting;
mod reversing;
mod serialising;
mod shapes;

pub use interchanging::{interchange, interchange_by};
pub use laws::{
    interchange_is_lawful, rejection_is_lawful, reversal_is_lawful, serial_is_lawful,
    steps_by_evidence_are_lawful, without_evidence,
};
pub use paralleling::{make_parallel, make_parallel_by};
pub use ped_evidence::{disproved_never_meets, judge, system_text};
pub use ped_rules::parallel_is_lawful;
pub use rejecting::reject;
pub use reversing::{reverse, reverse_by};
pub use serialising::make_serial;
