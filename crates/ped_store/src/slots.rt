//! Where the cells of scalars and of arrays are: each name has a slot, and the elements of an array are contiguous, in
//! storage order.

ghost use Rattle.std.specs.Prelude.{◌≡◌, ℕ, ◌+◌, ◌<◌, ◌^◌, min, List, [], ◌∷◌, length, IfOk, OnOk, IfSome, Some, None, MatchOption, if◌then◌else◌};
ghost use Rattle.std.specs.Option.{option_or};
ghost use Rattle.ped_base.specs.Lists.{is_same_text};
ghost use Rattle.ped_store.specs.Cells.{Scalar, Element};
ghost use Rattle.ped_store.specs.Storage as Storage;
ghost use Rattle.ped_store.specs.Slots.{count, offset_within, scalar_in, element_in, slot_count, slot_of, slot_bounds, first_bounds, IsLaid};
ghost use Rattle.ped_store.specs.Slots as Slots;

use crate::same_names::is_same_name;
use crate::shapes::Shape;
use indexmap::IndexMap;
use ped_base::{Bounds, Name, NoMemory};
use std::alloc::Global;

/// The cells of a scalar or of an array.
#[derive(Clone, Copy)]
pub struct Slot {
    /// The bounds of its dimensions.
    pub bounds: Bounds,
    /// Where its first cell is.
    pub start: usize,
}

impl Slot {
    /// Where a scalar is; none where this is an array.
    pub fn scalar(&self) -> Option<usize>
        ensures { result ≡ scalar_in self.now }
    {
        if self.bounds.rank == 0 {
            Some(self.start)
        } else {
            None
        }
    }

    /// Where the element with these subscripts is; none where they don't lie within the bounds.
    pub fn element(&self, subscripts: &[i128]) -> Option<usize>
        requires { self.now.start + slot_count self.now < 2 ^ 63 }
        ensures { result ≡ element_in subscripts.now self.now }
    {
        let place = place_in(&self.bounds, subscripts)?;
        Some(self.start + place)
    }

    /// Where its cells end.
    pub fn end(&self) -> usize
        requires { self.now.start + slot_count self.now < 2 ^ 63 }
        ensures end { result ≡ self.now.start + slot_count self.now }
        ensures same_rank { length self.now.bounds.lower ≡ length self.now.bounds.upper }
    {
        self.start + cell_count(&self.bounds)
    }
}

/// The place of an element among those of its array, from 0; none without a subscript, and where the subscripts don't lie
/// within the bounds.
fn place_in(bounds: &Bounds, subscripts: &[i128]) -> Option<usize>
    requires { count bounds.now.lower bounds.now.upper < 2 ^ 63 }
    ensures { result ≡ Slots.place_in bounds.now subscripts.now }
{
    if subscripts.is_empty() {
        return None;
    }
    let rank = bounds.rank as usize;
    place_within(&bounds.lower[..rank], &bounds.upper[..rank], subscripts)
}

/// The slots of names.
pub type SlotTable = IndexMap<Name, Slot>;

/// The slots of scalars and arrays, one after the other.
#[derive(Drop)]
pub struct Layout {
    /// The slot of each name.
    pub slots: SlotTable,
    /// How many cells there are.
    pub cells: usize,
}

/// Gives each scalar and each array a slot. Where a name occurs twice, its first shape counts. More cells than the
/// machine can number count as out of memory.
pub fn lay_out(alloc: Global, shapes: &[Shape]) -> Result<Layout, NoMemory>
    ensures laid { IfOk result (λ l. IsLaid 0 l.slots.entries l.cells) }
    ensures first { IfOk result (λ l. (x : List ℕ) → slot_bounds l.slots.entries x ≡ first_bounds shapes.now x) }
{
    let mut layout = Layout {
        slots: IndexMap::new(alloc),
        cells: 0,
    };
    for shape in shapes {
        layout.add(shape)?;
    }
    Ok(layout)
}

impl Layout {
    /// Adds a slot after the others, where the name has none.
    fn add(&mut self, shape: &Shape) -> Result<(), NoMemory>
        requires { IsLaid 0 self.old.slots.entries self.old.cells }
        ensures laid { OnOk result (IsLaid 0 self.new.slots.entries self.new.cells) }
        ensures first { OnOk result ((x : List ℕ) → slot_bounds self.new.slots.entries x ≡ option_or (slot_bounds self.old.slots.entries x) (if is_same_text x shape.now.name then Some shape.now.bounds else None)) }
    {
        if self.slots.contains_key(&shape.name) {
            return Ok(());
        }
        let slot = Slot {
            bounds: shape.bounds,
            start: self.cells,
        };
        let cells = self.cells.saturating_add(cell_count(&shape.bounds));
        if cells == usize::MAX {
            return Err(NoMemory);
        }
        self.slots.insert(shape.name, slot)?;
        self.cells = cells;
        Ok(())
    }
}

/// How many cells a scalar or an array has, or the greatest number of the machine where they are more.
fn cell_count(bounds: &Bounds) -> usize
    ensures count { result ≡ min (count bounds.now.lower bounds.now.upper) usize.MAX }
    ensures same_rank { length bounds.now.lower ≡ length bounds.now.upper }
{
    let rank = bounds.rank as usize;
    saturated_count(&bounds.lower[..rank], &bounds.upper[..rank])
}

#[tactic(auto, using(crate::proofs::Layouts::product_most))]
fn saturated_count(lower: &[i64], upper: &[i64]) -> usize
    ensures { result ≡ min (count lower.now upper.now) usize.MAX }
{
    let Some((first_lower, lowers)) = lower.split_first() else {
        return 1;
    };
    let Some((first_upper, uppers)) = upper.split_first() else {
        return 1;
    };
    saturated_extent(first_lower, first_upper).saturating_mul(saturated_count(lowers, uppers))
}

/// How many values a subscript may have, or the greatest number of the machine where they are more.
fn saturated_extent(lower: &i64, upper: &i64) -> usize
    ensures { result ≡ min (Storage.extent lower.now upper.now) usize.MAX }
{
    if *upper < *lower {
        return 0;
    }
    ((i128::from(*upper) - i128::from(*lower)) as usize).saturating_add(1)
}

/// Where the slots of names probably are: for each number that a name may have, the place of the last name that has it.
/// No answer rests on it, since the name at the place is compared; without it each look-up would hash.
#[derive(Drop)]
pub struct NearPlaces {
    places: Vec<usize>,
}

/// Where the slots of the names of these shapes probably are, each after those of the shapes before it.
pub fn near_places(alloc: Global, shapes: &[Shape]) -> Result<NearPlaces, NoMemory> {
    let mut places = Vec::from_elem(alloc, 0, 256)?;
    for place in 0..shapes.len() {
        if let Some(near) = places.get_mut(near_number(&shapes[place].name)) {
            *near = place;
        }
    }
    Ok(NearPlaces { places })
}

/// A number below 256 that few names share.
fn near_number(name: &Name) -> usize
    ensures { result < 256 }
{
    match name.as_bytes() {
        [first, .., last] => (usize::from(*first) * 5 + usize::from(*last)) % 256,
        [only] => usize::from(*only) % 256,
        [] => 0,
    }
}

/// The slot of a name.
#[inline(always)]
pub fn find_slot<'a>(slots: &'a SlotTable, near: &NearPlaces, name: &Name) -> Option<&'a Slot>
    ensures { MatchOption result (None ≡ slot_of slots.now.entries name.now) (λ slot. Some slot.now ≡ slot_of slots.now.entries name.now) }
{
    match near_slot(slots, near, name) {
        Some(slot) => return Some(slot),
        None => return hashed_slot(slots, name),
    }
}

/// The slot of a name, found by its hash.
#[inline(never)]
fn hashed_slot<'a>(slots: &'a SlotTable, name: &Name) -> Option<&'a Slot>
    ensures { MatchOption result (None ≡ slot_of slots.now.entries name.now) (λ slot. Some slot.now ≡ slot_of slots.now.entries name.now) }
{
    slots.get(name)
}

/// The slot of a name, where it is at its probable place.
#[inline(always)]
fn near_slot<'a>(slots: &'a SlotTable, near: &NearPlaces, name: &Name) -> Option<&'a Slot>
    ensures { IfSome result (λ slot. Some slot.now ≡ slot_of slots.now.entries name.now) }
{
    let place = near.places.get(near_number(name))?;
    let (key, slot) = slots.get_index(*place)?;
    if is_same_name(name, key) {
        return Some(slot);
    }
    None
}

/// Where a scalar is; none where the name isn't one.
pub fn scalar_index(slots: &SlotTable, near: &NearPlaces, name: &Name) -> Option<usize>
    ensures { result ≡ Slots.index_of slots.now.entries (Scalar name.now) }
{
    find_slot(slots, near, name)?.scalar()
}

/// Where an element is; none where the name is no array, or the subscripts don't lie within its bounds.
pub fn element_index(
    slots: &SlotTable,
    near: &NearPlaces,
    name: &Name,
    subscripts: &[i128],
) -> Option<usize>
    requires { (end : ℕ) × IsLaid 0 slots.now.entries end × (end < 2 ^ 63) }
    ensures { result ≡ Slots.index_of slots.now.entries (Element name.now subscripts.now) }
{
    find_slot(slots, near, name)?.element(subscripts)
}

/// The place of an element among those of its array, from 0; none where the subscripts don't lie within the bounds.
fn place_within(lower: &[i64], upper: &[i64], subscripts: &[i128]) -> Option<usize>
    requires { count lower.now upper.now < 2 ^ 63 }
    ensures { result ≡ Slots.place_within lower.now upper.now subscripts.now }
{
    if subscripts.len() == 1 {
        return place_by_one(lower, upper, &subscripts[0]);
    }
    let Some((first_lower, lowers)) = lower.split_first() else {
        return place_of_scalar(upper, subscripts);
    };
    let (first_upper, uppers) = upper.split_first()?;
    let (subscript, others) = subscripts.split_first()?;
    let offset = offset(first_lower, first_upper, subscript)?;
    let rest = place_within(lowers, uppers, others)?;
    Some(rest * extent(first_lower, first_upper) + offset)
}

/// The place of an element with one subscript, as `place_within` gives it.
#[inline(always)]
fn place_by_one(lower: &[i64], upper: &[i64], subscript: &i128) -> Option<usize>
    ensures { result ≡ Slots.place_within lower.now upper.now (subscript.now ∷ []) }
{
    let Some((first_lower, lowers)) = lower.split_first() else {
        return None;
    };
    let Some((first_upper, uppers)) = upper.split_first() else {
        return None;
    };
    if !lowers.is_empty() {
        return None;
    }
    if !uppers.is_empty() {
        return None;
    }
    offset(first_lower, first_upper, subscript)
}

/// The place where no bounds are left.
fn place_of_scalar(upper: &[i64], subscripts: &[i128]) -> Option<usize>
    ensures { result ≡ Slots.place_within [] upper.now subscripts.now }
{
    if upper.is_empty() && subscripts.is_empty() {
        Some(0)
    } else {
        None
    }
}

/// How far a subscript lies above its lower bound; none where it doesn't lie within its bounds.
fn offset(lower: &i64, upper: &i64, subscript: &i128) -> Option<usize>
    ensures { result ≡ offset_within lower.now upper.now subscript.now }
{
    if i128::from(*lower) <= *subscript && *subscript <= i128::from(*upper) {
        Some((*subscript - i128::from(*lower)) as usize)
    } else {
        None
    }
}

/// How many values a subscript may have.
fn extent(lower: &i64, upper: &i64) -> usize
    requires { Storage.extent lower.now upper.now < 2 ^ 63 }
    ensures { result ≡ Storage.extent lower.now upper.now }
{
    if *upper < *lower {
        return 0;
    }
    (i128::from(*upper) - i128::from(*lower) + 1) as usize
}
