//! The statements of a file, unit by unit (ANSI X3.9-1978, sections 2.4 and 3.5).

ghost use Rattle.std.specs.Prelude.{◌≡◌, ◌||◌, [], IfOk, map};
ghost use Rattle.ped_tree.specs.Grammar.Occurrences as Occurrences;
ghost use Rattle.ped_tree.specs.Grammar.ItemViews.{reading_of};
ghost use Rattle.ped_units.specs.Reading as Spec;
ghost use Rattle.ped_units.specs.Reading.{segments_of};
ghost use Rattle.ped_units.specs.Views.{unit_item_of, unit_entry_of, head_of, segment_of};

use crate::items::{UnitEntry, UnitItem};
use ped_base::NoMemory;
use ped_tree::grammar::{Item, StatementReading};
use std::alloc::Global;
use std::mem::replace;

/// The statements of one program unit.
#[derive(Drop)]
pub struct Segment {
    /// Its SUBROUTINE statement; none of the main program.
    pub head: Option<UnitEntry>,
    /// All other statements, END among them.
    pub entries: Vec<UnitEntry>,
}

/// The units of a file: the main program, and a subroutine from each SUBROUTINE statement on that follows the END
/// of the unit before.
pub fn segments(alloc: Global, entries: Vec<UnitEntry>) -> Result<Vec<Segment>, NoMemory>
    ensures { IfOk result (λ segments. map segment_of segments.items ≡ segments_of (map unit_entry_of entries.items)) }
{
    let mut done = Vec::new(alloc);
    let mut current = Segment::headed(alloc, None);
    let mut ended = false;
    for entry in entries {
        if ended && begins(&entry.item) {
            done.push(replace(&mut current, Segment::headed(alloc, Some(entry))))?;
            ended = false;
        } else {
            ended = either(ended, ends(&entry.item));
            current.entries.push(entry)?;
        }
    }
    done.push(current)?;
    Ok(done)
}

impl Segment {
    /// A unit with this SUBROUTINE statement, before its other statements.
    fn headed(alloc: Global, head: Option<UnitEntry>) -> Segment
        ensures { segment_of result ≡ record { head = head_of head; entries = [] } }
    {
        Segment {
            head,
            entries: Vec::new(alloc),
        }
    }
}

/// Whether one of two holds; both are known.
fn either(first: bool, second: bool) -> bool
    ensures { result ≡ (first || second) }
{
    first || second
}

/// Whether the statement is END.
pub fn ends(item: &UnitItem) -> bool
    ensures { result ≡ Spec.ends (unit_item_of item.now) }
{
    match item {
        UnitItem::Plain(reading) => is_end(reading),
        UnitItem::Call(_)
        | UnitItem::LogicalIfCall(_, _)
        | UnitItem::Subroutine(_, _)
        | UnitItem::Return => false,
    }
}

fn is_end(reading: &StatementReading) -> bool
    ensures { result ≡ Occurrences.is_end_entry (reading_of reading.now) }
{
    match reading {
        StatementReading::Says(Item::End) => true,
        _ => false,
    }
}

/// Whether the statement is SUBROUTINE.
fn begins(item: &UnitItem) -> bool
    ensures { result ≡ Spec.begins (unit_item_of item.now) }
{
    match item {
        UnitItem::Subroutine(_, _) => true,
        UnitItem::Plain(_) | UnitItem::Call(_) | UnitItem::LogicalIfCall(_, _) | UnitItem::Return =>
            false,
    }
}
