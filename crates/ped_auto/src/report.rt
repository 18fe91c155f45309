//! What `auto` reports.

use ped_base::Listed;
use ped_rules::Refused;
use ped_script::Command;

/// What `auto` has done, and what remains.
#[derive(Drop)]
pub struct AutoReport {
    /// The accepted commands in their order, as a script that does the same.
    pub accepted: Listed<Command>,
    /// The number of each DO that isn't a PARALLEL DO in the end, in text order, with the first cause against `parallel`.
    pub left: Listed<(u32, Refused)>,
}
