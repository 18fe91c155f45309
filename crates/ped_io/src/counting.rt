//! Numbers of calls and counts of faults.

ghost use Rattle.std.specs.Prelude.{◌≡◌, ◌≤◌, ◌↔◌, Contains, IsTrue};
ghost use Rattle.ped_io.specs.Counts.{one_more};
ghost use Rattle.ped_io.specs.Outside.{Rose};

use ped_base::Listed;

/// Numbers of calls, of which the first has number 1.
pub type Calls = Listed<u64>;

/// One more, as long as 64 bits hold it.
pub(crate) fn one_more(count: u64) -> u64
    ensures value { result ≡ one_more count }
    ensures rose { Rose count result }
    ensures counts { count ≤ result }
{
    count.saturating_add(1)
}

/// Whether a call's number is in the list.
pub(crate) fn is_among(calls: &Calls, number: u64) -> bool
    ensures { IsTrue result ↔ Contains calls.now number }
{
    calls.as_slice().contains(&number)
}
