//! The store of a running program.

ghost use Rattle.std.specs.Prelude.{◌≡◌, ◌+◌, ◌<◌, ◌≤◌, take, drop, replicate, length, is_some, true, false, IfOk, OnOk, OnErr, IfErr, Ok, Err, Some, None, IsTrue};
ghost use Rattle.std.specs.Str.Lines.{lines};
ghost use Rattle.std.specs.Option.{option_flatten};
ghost use Rattle.std.specs.Map.{lookup};
ghost use Rattle.ped_store.specs.Cells.{Scalar, Element, Out};
ghost use Rattle.ped_store.specs.Stores.{Undefined, Number, Lines, number_read};
ghost use Rattle.ped_store.specs.Slots.{held_at, content_of, slot_count};
ghost use Rattle.ped_store.specs.CellViews.{cell_view, IsCell, IsOfScalar, IsPrivate};
ghost use Rattle.ped_store.specs.DataLines.{Data, begun, next_value_of};
ghost use Rattle.ped_store.specs.Variables.{values_of};
ghost use Rattle.ped_store.specs.Memories.{memory_at_start, got, stored, with_content, with_copy, without_copy, with_data, with_printed};
ghost use Rattle.ped_store.specs.Stores as Stores;
ghost use Rattle.ped_store.specs.Keeping.{memory_of, same_copied, with_held, IsCopyPut};

use crate::cells::Cell;
use crate::copies::PrivateCopy;
use crate::data_lines::DataLines;
use crate::faults::RunFault;
use crate::shapes::Shape;
use crate::slots::{
    Layout, NearPlaces, Slot, SlotTable, element_index, find_slot, lay_out, near_places,
    scalar_index,
};
use indexmap::IndexMap;
use ped_base::{Bytes, Listed, Name, NoMemory};
use std::alloc::Global;
use std::marker::Model;

/// What the cells of a program hold, the data lines that are left, and the lines that are printed. Contracts see a
/// function from cells to what they hold.
#[derive(Drop)]
pub struct Store {
    slots: SlotTable,
    near: NearPlaces,
    held: Vec<Option<i128>>,
    copies: IndexMap<PrivateCopy, Option<i128>>,
    input: DataLines,
    output: Listed<Bytes>,
}

impl Model for Store {
    ghost use Rattle.std.specs.Prelude.{length};
    ghost use Rattle.ped_store.specs.Slots.{IsLaid};
    ghost use Rattle.ped_store.specs.Keeping.{Kept};

    ghost Value = { Kept };

    ghost view = { λ s. record { slots = s.slots.entries; held = s.held.items; copies = s.copies.entries; input = s.input; output = s.output } };

    ghost invariant = { λ s. IsLaid 0 s.slots.entries (length s.held.items) };
}

impl Store {
    /// A store before the first statement of a program with these scalars and arrays, on the lines of this input. Where a
    /// name occurs twice, its first shape counts.
    pub fn new(alloc: Global, shapes: &[Shape], input: &[u8]) -> Result<Store, NoMemory>
        ensures { IfOk result (λ s. memory_of s ≡ memory_at_start shapes.now (lines input.now)) }
    {
        let near = near_places(alloc, shapes)?;
        let Layout { slots, cells } = lay_out(alloc, shapes)?;
        Ok(Store {
            slots,
            near,
            held: undefined_cells(alloc, cells)?,
            copies: IndexMap::new(alloc),
            input: DataLines::new(alloc, input)?,
            output: Listed::new(alloc),
        })
    }

    /// Makes a private copy that is undefined; a copy that exists already becomes undefined. If memory runs out, the
    /// store is as it was.
    pub fn open_copy(&mut self, alloc: Global, cell: &Cell) -> Result<(), NoMemory>
        requires cell { IsCell cell.now }
        requires copy { IsPrivate cell.now }
        ensures ok { OnOk result (memory_of self.new ≡ with_copy (cell_view cell.now) (memory_of self.old)) }
        ensures err { OnErr result (self.new ≡ self.old) }
    {
        match cell {
            Cell::Private(copy) => return self.add_copy(copy),
            Cell::Scalar(_) => return Ok(()),
            Cell::Element {
                name: _,
                rank: _,
                subscripts: _,
            } => return Ok(()),
            Cell::In => return Ok(()),
            Cell::Out => return Ok(()),
        }
    }

    /// Drops a private copy, where there is one.
    pub fn close_copy(&mut self, cell: &Cell)
        requires cell { IsCell cell.now }
        requires copy { IsPrivate cell.now }
        ensures { memory_of self.new ≡ without_copy (cell_view cell.now) (memory_of self.old) }
    {
        match cell {
            Cell::Private(copy) => {
                self.drop_copy(copy);
                return;
            }
            Cell::Scalar(_) => return,
            Cell::Element {
                name: _,
                rank: _,
                subscripts: _,
            } => return,
            Cell::In => return,
            Cell::Out => return,
        }
    }

    /// Begins the next data line; what was left of the line before is dropped.
    ///
    /// # Errors
    ///
    /// 5 where there is no line left. The store is as it was then.
    pub fn next_line(&mut self) -> Result<(), RunFault>
        ensures ok { OnOk result ((d : Data) × (begun (memory_of self.old).input.lines ≡ Ok d) × (memory_of self.new ≡ with_data d (memory_of self.old))) }
        ensures err { IfErr result (λ n. (begun (memory_of self.old).input.lines ≡ Err n) × (self.new ≡ self.old)) }
    {
        self.input.next_line()
    }

    /// Takes the next value of the data, from the line that has been begun or from those after it.
    ///
    /// # Errors
    ///
    /// 5 where no value is left or what is there is none, and 4 where it isn't from -2^31 to 2^31-1. The store is as it
    /// was then.
    pub fn next_value(&mut self) -> Result<i64, RunFault>
        ensures ok { IfOk result (λ n. (behind : Data) × (next_value_of (memory_of self.old).input ≡ Ok (record { value = n; behind = behind })) × (memory_of self.new ≡ with_data behind (memory_of self.old))) }
        ensures err { IfErr result (λ n. (next_value_of (memory_of self.old).input ≡ Err n) × (self.new ≡ self.old)) }
    {
        self.input.next_value()
    }

    /// The values of a scalar or an array, those of an array in storage order; none stands for one that is undefined.
    pub fn values(&self, alloc: Global, name: &Name) -> Result<Listed<Option<i128>>, NoMemory>
        ensures { IfOk result (λ values. values ≡ values_of ((memory_of self.now).bounds name.now) name.now (memory_of self.now).cells) }
    {
        match find_slot(&self.slots, &self.near, name) {
            Some(slot) => return copied_values(alloc, held_in(&self.held, slot)),
            None => return copied_values(alloc, &[None]),
        }
    }

    /// The lines that are printed.
    pub fn output(&self) -> &Listed<Bytes>
        ensures { Lines result.now ≡ (memory_of self.now).cells Out }
    {
        &self.output
    }

    /// The number that a cell holds.
    ///
    /// # Errors
    ///
    /// 2 where a subscript of an element lies outside its bounds, and else 1 where the cell is undefined.
    pub fn get(&self, cell: &Cell) -> Result<i128, RunFault>
        requires { IsCell cell.now }
        ensures { result ≡ got (memory_of self.now) (cell_view cell.now) }
    {
        match cell {
            Cell::Scalar(name) => return self.get_scalar(name),
            Cell::Element {
                name,
                rank,
                subscripts,
            } => return self.get_element(name, &subscripts[..*rank as usize]),
            Cell::Private(copy) => return self.get_copy(copy),
            Cell::In => return Err(RunFault::UNDEFINED_READ),
            Cell::Out => return Err(RunFault::UNDEFINED_READ),
        }
    }

    /// Adds a line to the output. If memory runs out, the store is as it was.
    pub fn put_line(&mut self, alloc: Global, line: &[u8]) -> Result<(), NoMemory>
        ensures ok { OnOk result (memory_of self.new ≡ with_printed line.now (memory_of self.old)) }
        ensures err { OnErr result (self.new ≡ self.old) }
    {
        let line = Bytes::from_vec(Vec::from_slice(alloc, line)?);
        self.output.push(line)?;
        Ok(())
    }

    /// Stores a number in a cell.
    ///
    /// # Errors
    ///
    /// 2 where a subscript of an element lies outside its bounds, and else 4 where the number isn't from -2^31 to 2^31-1.
    /// The store is as it was then.
    pub fn set(&mut self, cell: &Cell, value: i128) -> Result<(), RunFault>
        requires cell { IsCell cell.now }
        requires stands { IsTrue ((memory_of self.old).stands (cell_view cell.now)) }
        ensures ok { OnOk result (stored (cell_view cell.now) value (memory_of self.old) ≡ Ok (memory_of self.new)) }
        ensures err { IfErr result (λ n. (stored (cell_view cell.now) value (memory_of self.old) ≡ Err n) × (self.new ≡ self.old)) }
    {
        match cell {
            Cell::Scalar(name) => return self.set_scalar(name, &value),
            Cell::Element {
                name,
                rank,
                subscripts,
            } => return self.set_element(name, &subscripts[..*rank as usize], &value),
            Cell::Private(copy) => return self.set_copy(copy, &value),
            Cell::In => return Err(RunFault::OUT_OF_RANGE),
            Cell::Out => return Err(RunFault::OUT_OF_RANGE),
        }
    }

    /// Makes a scalar or a private copy undefined.
    pub fn undefine(&mut self, cell: &Cell)
        requires cell { IsCell cell.now }
        requires scalar { IsOfScalar cell.now }
        requires stands { IsTrue ((memory_of self.old).stands (cell_view cell.now)) }
        ensures { memory_of self.new ≡ with_content (cell_view cell.now) Undefined (memory_of self.old) }
    {
        self.replace(cell, None)
    }

    /// Stores the value of the variable of a DO loop, which has no range, in a scalar or a private copy.
    pub fn set_index(&mut self, cell: &Cell, value: i128)
        requires cell { IsCell cell.now }
        requires scalar { IsOfScalar cell.now }
        requires stands { IsTrue ((memory_of self.old).stands (cell_view cell.now)) }
        ensures { memory_of self.new ≡ with_content (cell_view cell.now) (Number value) (memory_of self.old) }
    {
        self.replace(cell, Some(value))
    }

    fn replace(&mut self, cell: &Cell, content: Option<i128>)
        requires cell { IsCell cell.now }
        requires scalar { IsOfScalar cell.now }
        requires stands { IsTrue ((memory_of self.old).stands (cell_view cell.now)) }
        ensures { memory_of self.new ≡ with_content (cell_view cell.now) (content_of content) (memory_of self.old) }
    {
        match cell {
            Cell::Scalar(name) => {
                self.put_scalar(name, content);
                return;
            }
            Cell::Private(copy) => {
                self.put_copy(copy, content);
                return;
            }
            Cell::Element {
                name: _,
                rank: _,
                subscripts: _,
            } => return,
            Cell::In => return,
            Cell::Out => return,
        }
    }

    /// Stores a number in a scalar, as `set` does.
    ///
    /// # Errors
    ///
    /// 4 where the number isn't from -2^31 to 2^31-1. The store is as it was then.
    pub fn set_scalar(&mut self, name: &Name, value: &i128) -> Result<(), RunFault>
        requires { IsTrue ((memory_of self.old).stands (Scalar name.now)) }
        ensures ok { OnOk result (stored (Scalar name.now) value.now (memory_of self.old) ≡ Ok (memory_of self.new)) }
        ensures err { IfErr result (λ n. (stored (Scalar name.now) value.now (memory_of self.old) ≡ Err n) × (self.new ≡ self.old)) }
    {
        match scalar_index(&self.slots, &self.near, name) {
            Some(index) => {
                if is_storable(value) {
                    self.put_number(index, value);
                    return Ok(());
                }
                return Err(RunFault::OUT_OF_RANGE);
            }
            None => return Err(RunFault::UNDEFINED_READ),
        }
    }

    /// Stores a number in an element, as `set` does.
    ///
    /// # Errors
    ///
    /// 2 where a subscript lies outside its bounds, and else 4 where the number isn't from -2^31 to 2^31-1. The store is as
    /// it was then.
    pub fn set_element(
        &mut self,
        name: &Name,
        subscripts: &[i128],
        value: &i128,
    ) -> Result<(), RunFault>
        requires { 0 < length subscripts.now }
        ensures ok { OnOk result (stored (Element name.now subscripts.now) value.now (memory_of self.old) ≡ Ok (memory_of self.new)) }
        ensures err { IfErr result (λ n. (stored (Element name.now subscripts.now) value.now (memory_of self.old) ≡ Err n) × (self.new ≡ self.old)) }
    {
        match element_index(&self.slots, &self.near, name, subscripts) {
            Some(index) => {
                if is_storable(value) {
                    self.put_number(index, value);
                    return Ok(());
                }
                return Err(RunFault::OUT_OF_RANGE);
            }
            None => return Err(RunFault::OUTSIDE_BOUNDS),
        }
    }

    fn set_copy(&mut self, copy: &PrivateCopy, value: &i128) -> Result<(), RunFault>
        requires { IsTrue (is_some (lookup (same_copied copy.now) self.old.copies)) }
        ensures ok { OnOk result ((Stores.is_storable value.now ≡ true) × IsCopyPut copy.now (Some (Some value.now)) self.old self.new) }
        ensures err { IfErr result (λ n. (Stores.is_storable value.now ≡ false) × (n ≡ 4) × (self.new ≡ self.old)) }
    {
        if is_storable(value) {
            self.put_copy(copy, Some(*value));
            return Ok(());
        }
        return Err(RunFault::OUT_OF_RANGE);
    }

    fn put_copy(&mut self, copy: &PrivateCopy, content: Option<i128>)
        requires { IsTrue (is_some (lookup (same_copied copy.now) self.old.copies)) }
        ensures { IsCopyPut copy.now (Some content) self.old self.new }
    {
        match self.copies.insert(*copy, content) {
            Ok(_) => return,
            Err(_) => return,
        }
    }

    fn add_copy(&mut self, copy: &PrivateCopy) -> Result<(), NoMemory>
        ensures ok { OnOk result (IsCopyPut copy.now (Some None) self.old self.new) }
        ensures err { OnErr result (self.new ≡ self.old) }
    {
        self.copies.insert(*copy, None)?;
        Ok(())
    }

    fn drop_copy(&mut self, copy: &PrivateCopy)
        ensures { IsCopyPut copy.now None self.old self.new }
    {
        self.copies.swap_remove(copy);
    }

    fn put_scalar(&mut self, name: &Name, content: Option<i128>)
        requires { IsTrue ((memory_of self.old).stands (Scalar name.now)) }
        ensures { memory_of self.new ≡ with_content (Scalar name.now) (content_of content) (memory_of self.old) }
    {
        match scalar_index(&self.slots, &self.near, name) {
            Some(index) => {
                self.put(index, content);
                return;
            }
            None => return,
        }
    }

    fn put_number(&mut self, index: usize, value: &i128)
        requires { index < length self.old.held }
        ensures { self.new ≡ with_held index (Some value.now) self.old }
    {
        self.held[index] = Some(*value);
    }

    fn put(&mut self, index: usize, content: Option<i128>)
        requires { index < length self.old.held }
        ensures { self.new ≡ with_held index content self.old }
    {
        self.held[index] = content;
    }

    /// The number that a scalar holds, as `get` reports it.
    ///
    /// # Errors
    ///
    /// 1 where it is undefined.
    pub fn get_scalar(&self, name: &Name) -> Result<i128, RunFault>
        ensures { result ≡ got (memory_of self.now) (Scalar name.now) }
    {
        match scalar_index(&self.slots, &self.near, name) {
            Some(index) => return number_at(&self.held, index),
            None => return Err(RunFault::UNDEFINED_READ),
        }
    }

    /// The number that an element holds, as `get` reports it.
    ///
    /// # Errors
    ///
    /// 2 where a subscript lies outside its bounds, and else 1 where the element is undefined.
    pub fn get_element(&self, name: &Name, subscripts: &[i128]) -> Result<i128, RunFault>
        requires { 0 < length subscripts.now }
        ensures { result ≡ got (memory_of self.now) (Element name.now subscripts.now) }
    {
        match element_index(&self.slots, &self.near, name, subscripts) {
            Some(index) => return number_at(&self.held, index),
            None => return Err(RunFault::OUTSIDE_BOUNDS),
        }
    }

    fn get_copy(&self, copy: &PrivateCopy) -> Result<i128, RunFault>
        ensures { result ≡ number_read (content_of (option_flatten (lookup (same_copied copy.now) self.now.copies))) }
    {
        self.copies
            .get(copy)
            .copied()
            .flatten()
            .ok_or(RunFault::UNDEFINED_READ)
    }
}

fn undefined_cells(alloc: Global, cells: usize) -> Result<Vec<Option<i128>>, NoMemory>
    ensures { IfOk result (λ held. held.items ≡ replicate cells None) }
{
    Ok(Vec::from_elem(alloc, None, cells)?)
}

/// What the cells of a slot hold.
fn held_in<'a>(held: &'a [Option<i128>], slot: &Slot) -> &'a [Option<i128>]
    requires { slot.now.start + slot_count slot.now ≤ length held.now }
    ensures held { result.now ≡ take (slot_count slot.now) (drop slot.now.start held.now) }
    ensures same_rank { length slot.now.bounds.lower ≡ length slot.now.bounds.upper }
{
    &held[slot.start..slot.end()]
}

fn copied_values(alloc: Global, values: &[Option<i128>]) -> Result<Listed<Option<i128>>, NoMemory>
    ensures { IfOk result (λ copy. copy ≡ values.now) }
{
    Ok(Listed::from_vec(Vec::from_slice(alloc, values)?))
}

/// The number that is held at a place.
fn number_at(held: &[Option<i128>], index: usize) -> Result<i128, RunFault>
    ensures { result ≡ number_read (held_at held.now (Some index)) }
{
    held.get(index)
        .copied()
        .flatten()
        .ok_or(RunFault::UNDEFINED_READ)
}

/// Whether a scalar or an element can hold the number.
fn is_storable(value: &i128) -> bool
    ensures { result ≡ Stores.is_storable value.now }
{
    -(1 << 31) <= *value && *value <= (1 << 31) - 1
}
