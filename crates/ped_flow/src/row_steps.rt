//! Rows made from other rows.

ghost use Rattle.std.specs.Prelude.{◌≡◌, ◌<◌, ℕ, true, length, IfOk};
ghost use Rattle.ped_bits.specs.Places.{without};
ghost use Rattle.ped_flow.specs.RowPlaces.{bit};

use ped_base::NoMemory;
use ped_bits::Row;
use std::alloc::Global;

/// A copy of a row.
pub(crate) fn copied(alloc: Global, row: &Row) -> Result<Row, NoMemory>
    ensures { IfOk result (λ r. r ≡ row.now) }
{
    let mut copy = Row::new(alloc, row.width())?;
    row.or_into(&mut copy);
    Ok(copy)
}

/// The places of a row that aren't in another.
pub(crate) fn less(alloc: Global, row: &Row, other: &Row) -> Result<Row, NoMemory>
    requires { length row.now ≡ length other.now }
    ensures { IfOk result (λ r. r ≡ without row.now other.now) }
{
    let mut rest = copied(alloc, row)?;
    other.and_not_into(&mut rest);
    Ok(rest)
}

/// The places that are in both rows.
pub(crate) fn common(alloc: Global, row: &Row, other: &Row) -> Result<Row, NoMemory>
    requires { length row.now ≡ length other.now }
    ensures { IfOk result (λ r. r ≡ without row.now (without row.now other.now)) }
{
    let gone = less(alloc, row, other)?;
    less(alloc, row, &gone)
}

/// A row with all places below a width.
pub(crate) fn all_places(alloc: Global, width: usize) -> Result<Row, NoMemory>
    ensures width { IfOk result (λ r. length r ≡ width) }
    ensures all { IfOk result (λ r. (i : ℕ) → i < width → bit r i ≡ true) }
{
    let mut row = Row::new(alloc, width)?;
    for place in 0..width {
        row.set(place);
    }
    Ok(row)
}
