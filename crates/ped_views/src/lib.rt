//! What dependence tests look at: ranges of loops, subscripts as affine forms, and the views of pairs of
//! references, without names. Contracts see them as plain data. `specs/` defines when a position of a view
//! excludes a direction vector, and which vectors and distances a view has.
#![tactic(auto)]

mod directions;
mod divisors;
mod floors;
mod intervals;
mod laws;
mod quotients;
mod ranges;
mod strong_rows;
mod subscripts;
mod wide;

pub use directions::Direction;
pub use divisors::gcd;
pub use floors::floor_div;
pub use intervals::Interval;
pub use laws::same_view_is_equality;
pub use quotients::{divides, exact_quotient};
pub use ranges::LoopRange;
pub use strong_rows::StrongRow;
pub use subscripts::{AffRow, Coefficients, PairView, Position, coefficients};
pub use wide::{difference, product};
