//! The statements of a unit as statements of the profile: something plain replaces each CALL.

ghost use Rattle.std.specs.Prelude.{◌≡◌, ◌++◌, ◌∷◌, [], List, Bool, Option, Some, IfOk, OnOk, map, drop};
ghost use Rattle.ped_tree.specs.Grammar.ItemViews.{reading_of, entry_of};
ghost use Rattle.ped_units.specs.Forms.{Called as PlainCalled, UnitItem as PlainItem};
ghost use Rattle.ped_units.specs.Units.{call_statement as call_statement_tree};
ghost use Rattle.ped_units.specs.Reading as Spec;
ghost use Rattle.ped_units.specs.Reading.{UnitEntry as PlainEntry};
ghost use Rattle.ped_units.specs.Refusals.{call_in};
ghost use Rattle.ped_units.specs.Seeing.{AreSeen, call_view, ends_next, kept_as, seen_as};
ghost use Rattle.ped_units.specs.Views.{called_of, unit_item_of, unit_entry_of};

use crate::items::{Called, UnitEntry, UnitItem};
use crate::segments::ends;
use crate::standing::{call_statement, stand_in};
use ped_base::NoMemory;
use ped_tree::grammar::{Entry, Item, StatementReading};
use std::alloc::Global;

/// The statements of a unit with something plain for each CALL, and the CALLs.
#[derive(Drop)]
pub struct Seen {
    /// The statements.
    pub entries: Vec<Entry>,
    /// For each of them the CALL that something plain stands for, where there is one.
    pub calls: Vec<Option<Called>>,
}

/// The statements of a unit, which is a subroutine or not, as they are looked at for refusals.
pub fn seen_statements(
    alloc: Global,
    entries: Vec<UnitEntry>,
    in_subroutine: bool,
) -> Result<Seen, NoMemory>
    ensures { IfOk result (AreSeen in_subroutine (map unit_entry_of entries.items)) }
{
    let before_end = before_ends(alloc, &entries)?;
    let mut seen = Seen {
        entries: Vec::new(alloc),
        calls: Vec::new(alloc),
    };
    let mut place = 0;
    for entry in entries {
        seen.add(alloc, entry, in_subroutine, before_end[place])?;
        place += 1;
    }
    Ok(seen)
}

/// For each statement whether END is next.
fn before_ends(alloc: Global, entries: &[UnitEntry]) -> Result<Vec<bool>, NoMemory>
    ensures { IfOk result (λ ends. ends.items ≡ ends_next (map unit_entry_of entries.now)) }
{
    let mut before_end = Vec::new(alloc);
    let mut left = entries;
    while let Some((_, rest)) = left.split_first() {
        before_end.push(is_end_next(rest))?;
        left = rest;
    }
    Ok(before_end)
}

/// Whether the first of these statements is END.
fn is_end_next(entries: &[UnitEntry]) -> bool
    ensures { result ≡ Spec.is_end_next (map unit_entry_of entries.now) }
{
    match entries.split_first() {
        Some((next, _)) => ends(&next.item),
        None => false,
    }
}

impl Seen {
    /// Adds a statement.
    fn add(
        &mut self,
        alloc: Global,
        entry: UnitEntry,
        in_subroutine: bool,
        before_end: bool,
    ) -> Result<(), NoMemory>
        ensures entries { OnOk result (map entry_of self.new.entries.items ≡ map entry_of self.old.entries.items ++ seen_as in_subroutine before_end (unit_entry_of entry) ∷ []) }
        ensures calls { OnOk result (map call_view self.new.calls.items ≡ map call_view self.old.calls.items ++ call_in (unit_item_of entry.item) ∷ []) }
    {
        let UnitEntry { statement, item } = entry;
        let (reading, call) = match as_reading(alloc, item, in_subroutine, before_end) {
            Ok(found) => found,
            Err(error) => {
                drop(statement);
                return Err(error);
            }
        };
        self.entries.push(Entry { statement, reading })?;
        self.calls.push(call)?;
        Ok(())
    }
}

/// What a statement is as one of the profile, and the CALL that something plain in it stands for.
fn as_reading(
    alloc: Global,
    item: UnitItem,
    in_subroutine: bool,
    before_end: bool,
) -> Result<(StatementReading, Option<Called>), NoMemory>
    ensures reading { IfOk result (λ r. reading_of r.0 ≡ Spec.as_reading Spec.stand_in in_subroutine before_end (unit_item_of item)) }
    ensures call { IfOk result (λ r. call_view r.1 ≡ call_in (unit_item_of item)) }
{
    match item {
        UnitItem::Plain(reading) => Ok((reading, None)),
        UnitItem::Call(called) => {
            let statement = stand_in(alloc, &called)?;
            Ok((
                StatementReading::Says(Item::Simple(statement)),
                Some(called),
            ))
        }
        UnitItem::LogicalIfCall(condition, called) => match stand_in(alloc, &called) {
            Ok(statement) => {
                let item = Item::LogicalIf(condition, Some(statement));
                Ok((StatementReading::Says(item), Some(called)))
            }
            Err(error) => {
                drop(condition);
                drop(called);
                Err(error)
            }
        },
        UnitItem::Subroutine(_, _) => Ok((StatementReading::NoForm, None)),
        UnitItem::Return => Ok((return_reading(in_subroutine, before_end), None)),
    }
}

/// A RETURN as a statement of the profile.
fn return_reading(in_subroutine: bool, before_end: bool) -> StatementReading
    ensures { reading_of result ≡ Spec.return_reading in_subroutine before_end }
{
    if in_subroutine && before_end {
        StatementReading::Says(Item::Continue)
    } else {
        StatementReading::OutsideProfile
    }
}

impl Seen {
    /// The statements with the CALLs as trees have them.
    pub fn kept(self, alloc: Global) -> Result<Vec<Entry>, NoMemory>
        ensures { IfOk result (λ kept. (in_subroutine : Bool) (es : List PlainEntry) → AreSeen in_subroutine es self → map entry_of kept.items ≡ Spec.as_entries call_statement_tree in_subroutine es) }
    {
        let Seen { entries, calls } = self;
        let mut kept = Vec::new(alloc);
        for entry in entries {
            let place = kept.len();
            kept.push(with_call_at(alloc, entry, &calls, place)?)?;
        }
        Ok(kept)
    }
}

/// A statement with its CALL, where there is one for it at this place.
fn with_call_at(
    alloc: Global,
    entry: Entry,
    calls: &[Option<Called>],
    place: usize,
) -> Result<Entry, NoMemory>
    ensures { IfOk result (λ e. (in_subroutine before_end : Bool) (x : PlainEntry) (more : List (Option PlainCalled)) → map call_view (drop place calls.now) ≡ call_in x.item ∷ more → entry_of entry ≡ seen_as in_subroutine before_end x
        → entry_of e ≡ kept_as in_subroutine before_end x) }
{
    match calls.get(place) {
        Some(call) => with_call(alloc, entry, call),
        None => Ok(entry),
    }
}

/// A statement with its CALL, where it has one.
fn with_call(alloc: Global, entry: Entry, call: &Option<Called>) -> Result<Entry, NoMemory>
    ensures statement { IfOk result (λ e. (entry_of e).statement ≡ (entry_of entry).statement) }
    ensures reading { IfOk result (λ e. (in_subroutine before_end : Bool) (i : PlainItem) → call_view call.now ≡ call_in i → (entry_of entry).reading ≡ Spec.as_reading Spec.stand_in in_subroutine before_end i
        → (entry_of e).reading ≡ Spec.as_reading call_statement_tree in_subroutine before_end i) }
{
    let Some(called) = call else {
        return Ok(entry);
    };
    let Entry { statement, reading } = entry;
    match calling(alloc, reading, called) {
        Ok(reading) => Ok(Entry { statement, reading }),
        Err(error) => {
            drop(statement);
            Err(error)
        }
    }
}

/// What says that the CALL is carried out, where this says it with something plain in its place.
fn calling(
    alloc: Global,
    reading: StatementReading,
    called: &Called,
) -> Result<StatementReading, NoMemory>
    ensures { IfOk result (λ r. (in_subroutine before_end : Bool) (i : PlainItem) → Some (called_of called.now) ≡ call_in i → reading_of reading ≡ Spec.as_reading Spec.stand_in in_subroutine before_end i
        → reading_of r ≡ Spec.as_reading call_statement_tree in_subroutine before_end i) }
{
    match reading {
        StatementReading::Says(Item::LogicalIf(condition, other)) => {
            drop(other);
            match call_statement(alloc, called) {
                Ok(call) => Ok(StatementReading::Says(Item::LogicalIf(condition, Some(call)))),
                Err(error) => {
                    drop(condition);
                    Err(error)
                }
            }
        }
        other => {
            drop(other);
            let call = call_statement(alloc, called)?;
            Ok(StatementReading::Says(Item::Simple(call)))
        }
    }
}
