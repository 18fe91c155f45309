//! The keys of accesses: a cell, and one execution of a DO.

ghost use Rattle.std.specs.Prelude.{◌≡◌, ◌&&◌, fold, map, take, length, min, IfOk};
ghost use Rattle.std.specs.Cmp.Lexicographic.{pointwise};
ghost use Rattle.ped_base.specs.Lists.{is_same_text};
ghost use Rattle.ped_store.specs.Cells.{Private, same_cell, same_iteration};
ghost use Rattle.ped_store.specs.CellViews.{cell_view};
ghost use Rattle.ped_store.specs.Iterations.{iterations_writes};
ghost use Rattle.ped_laws.specs.ped_eval.specs.AccessViews.{turn_view};
ghost use Rattle.ped_order.specs.Keys.{cell_writes, iteration_of, key_of};

use ped_base::{Name, NoMemory};
use ped_eval::Turn;
use ped_store::{Cell, Iteration, PrivateCopy, mixed};
use std::alloc::Global;
use std::hash::{Hash, Hasher};
use std::marker::Model;

/// A cell at one execution of a DO. A DO runs once at most in each iteration of the DO loops around it, so those
/// iterations identify the execution.
#[derive(Drop)]
pub(crate) struct Key {
    cell: Cell,
    statement: u32,
    around: Vec<Iteration>,
}

impl Model for Key {
    ghost use Rattle.ped_store.specs.CellViews.{cell_view};
    ghost use Rattle.ped_order.specs.Keys as Spec;

    ghost Value = { Spec.Key };

    ghost view = { λ k. record { cell = cell_view k.cell; statement = k.statement; around = k.around.items } };
}

impl Key {
    /// A cell at the execution of the DO of this turn, in the turns around it.
    pub(crate) fn new(
        alloc: Global,
        cell: &Cell,
        around: &[Turn],
        turn: &Turn,
    ) -> Result<Key, NoMemory>
        ensures { IfOk result (λ k. k ≡ key_of (cell_view cell.now) (map turn_view around.now) (turn_view turn.now)) }
    {
        Ok(Key {
            cell: *cell,
            statement: turn.statement,
            around: iterations(alloc, around)?,
        })
    }
}

/// The iterations of turns.
fn iterations(alloc: Global, turns: &[Turn]) -> Result<Vec<Iteration>, NoMemory>
    ensures { IfOk result (λ is. is.items ≡ map iteration_of (map turn_view turns.now)) }
{
    let mut iterations = Vec::with_capacity(alloc, turns.len())?;
    for turn in turns {
        iterations.push(Iteration {
            statement: turn.statement,
            number: turn.number,
        })?;
    }
    Ok(iterations)
}

/// A cell that has been touched.
#[derive(Drop)]
pub(crate) struct TouchedCell {
    cell: Cell,
}

impl Model for TouchedCell {
    ghost use Rattle.ped_store.specs.CellViews.{cell_view};
    ghost use Rattle.ped_store.specs.Cells.{Cell};

    ghost Value = { Cell };

    ghost view = { λ c. cell_view c.cell };
}

impl TouchedCell {
    /// This cell.
    pub(crate) fn new(cell: &Cell) -> TouchedCell
        ensures { result ≡ cell_view cell.now }
    {
        TouchedCell { cell: *cell }
    }
}

impl PartialEq for TouchedCell {
    ghost use Rattle.ped_store.specs.Cells.{same_cell};
    ghost use Rattle.ped_order.specs.KeyLaws.{cell_partial_equivalence};

    ghost eq = { same_cell };

    ghost laws = { cell_partial_equivalence };

    fn eq(&self, other: &TouchedCell) -> bool {
        are_same_cell(&self.cell, &other.cell)
    }
}

impl Eq for TouchedCell {
    ghost use Rattle.ped_order.specs.KeyLaws.{cell_equivalence};

    ghost laws = { cell_equivalence };
}

impl Hash for TouchedCell {
    ghost use Rattle.ped_order.specs.Keys.{cell_writes};
    ghost use Rattle.ped_order.specs.KeyLaws.{cells_hash_alike};

    ghost hash_input = { cell_writes };

    ghost respects_eq = { cells_hash_alike };

    fn hash<H: Hasher>(&self, state: &mut H) {
        hash_cell(&self.cell, state);
    }
}

impl PartialEq for Key {
    ghost use Rattle.ped_order.specs.Keys.{same_key};
    ghost use Rattle.ped_order.specs.KeyLaws.{key_partial_equivalence};

    ghost eq = { same_key };

    ghost laws = { key_partial_equivalence };

    fn eq(&self, other: &Key) -> bool {
        self.statement == other.statement
            && are_same_cell(&self.cell, &other.cell)
            && are_same_iterations(&self.around, &other.around)
    }
}

impl Eq for Key {
    ghost use Rattle.ped_order.specs.KeyLaws.{key_equivalence};

    ghost laws = { key_equivalence };
}

impl Hash for Key {
    ghost use Rattle.ped_order.specs.Keys.{key_writes};
    ghost use Rattle.ped_order.specs.KeyLaws.{keys_hash_alike};

    ghost hash_input = { key_writes };

    ghost respects_eq = { keys_hash_alike };

    fn hash<H: Hasher>(&self, state: &mut H) {
        hash_cell(&self.cell, state);
        self.statement.hash(state);
        hash_iterations(&self.around, state);
    }
}

/// Whether these are one cell.
fn are_same_cell(a: &Cell, b: &Cell) -> bool
    ensures { result ≡ same_cell (cell_view a.now) (cell_view b.now) }
{
    match a {
        Cell::Scalar(name) => match b {
            Cell::Scalar(other) => return are_same_name(name, other),
            _ => return false,
        },
        Cell::Element {
            name,
            rank,
            subscripts,
        } => match b {
            Cell::Element {
                name: other,
                rank: other_rank,
                subscripts: others,
            } => {
                return are_same_name(name, other)
                    && front(subscripts, *rank) == front(others, *other_rank);
            }
            _ => return false,
        },
        Cell::Private(copy) => match b {
            Cell::Private(other) => return are_same_copy(copy, other),
            _ => return false,
        },
        Cell::In => match b {
            Cell::In => return true,
            _ => return false,
        },
        Cell::Out => match b {
            Cell::Out => return true,
            _ => return false,
        },
    }
}

/// Whether these are one private copy.
fn are_same_copy(a: &PrivateCopy, b: &PrivateCopy) -> bool
    ensures { result ≡ same_cell (Private a.now.name a.now.iterations) (Private b.now.name b.now.iterations) }
{
    are_same_name(&a.name, &b.name) && a.iterations == b.iterations
}

/// Whether these are one name.
fn are_same_name(a: &Name, b: &Name) -> bool
    ensures { result ≡ is_same_text a.now b.now }
{
    a.as_bytes() == b.as_bytes()
}

/// The first items of a list, as many as it has.
fn front<T>(items: &[T], count: u8) -> &[T]
    ensures items { result.now ≡ take count items.now }
    ensures count { length result.now ≡ min count (length items.now) }
{
    if count as usize <= items.len() {
        return &items[..count as usize];
    }
    items
}

/// Whether these are the same iterations of the same DO loops.
fn are_same_iterations(a: &[Iteration], b: &[Iteration]) -> bool
    ensures { result ≡ pointwise same_iteration a.now b.now }
{
    *a == *b
}

/// Feeds iterations to a hasher.
fn hash_iterations<H: Hasher>(iterations: &[Iteration], state: &mut H)
    ensures { state.new ≡ fold H.write state.old (iterations_writes iterations.now) }
{
    state.write_u64(mixed(iterations));
}

/// Feeds a cell to a hasher.
fn hash_cell<H: Hasher>(cell: &Cell, state: &mut H)
    ensures { state.new ≡ fold H.write state.old (cell_writes (cell_view cell.now)) }
{
    match cell {
        Cell::Scalar(name) => name.as_bytes().hash(state),
        Cell::Element {
            name,
            rank,
            subscripts,
        } => {
            name.as_bytes().hash(state);
            front(subscripts, *rank).hash(state);
        }
        Cell::Private(copy) => {
            copy.name.as_bytes().hash(state);
            copy.iterations.hash(state);
        }
        Cell::In => 0u8.hash(state),
        Cell::Out => 1u8.hash(state),
    }
}
