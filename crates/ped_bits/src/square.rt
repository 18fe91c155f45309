//! A square matrix: a relation on places below its width.

ghost use Rattle.std.specs.Prelude.{◌≡◌, ℕ, ◌<◌, true, false, [], ◌⊎◌, length, replicate, slice_set, slice_index_or, IsTrue, IfOk, ◌↔◌};
ghost use Rattle.ped_bits.specs.Places.{union};
ghost use Rattle.ped_bits.specs.Reaching.{row_of, Arrow, Reaches, IsSquare};

use crate::rows::Row;
use ped_base::NoMemory;
use std::alloc::Global;
use std::marker::Model;

/// A relation on the places below a width, as one row of places for each. Contracts see the rows.
#[derive(Drop)]
pub struct Matrix {
    rows: Vec<Row>,
}

impl Model for Matrix {
    ghost use Rattle.std.specs.Prelude.{List, Bool};

    ghost Value = { List (List Bool) };

    ghost use Rattle.ped_bits.specs.Reaching.{IsSquare};

    ghost view = { λ m. m.rows.items };

    ghost invariant = { λ m. IsSquare m.rows.items };
}

impl Matrix {
    /// The relation without arrows on the places below a width.
    pub fn new(alloc: Global, width: usize) -> Result<Matrix, NoMemory>
        ensures { IfOk result (λ matrix. matrix ≡ replicate width (replicate width false)) }
    {
        let mut rows = Vec::new(alloc);
        for _place in 0..width {
            rows.push(Row::new(alloc, width)?)?;
        }
        Ok(Matrix { rows })
    }

    /// How many places there are. Each row has as many.
    pub fn width(&self) -> usize
        ensures width { result ≡ length self.now }
        ensures square { IsSquare self.now }
    {
        self.rows.len()
    }

    /// Puts an arrow from `row` to `column`.
    pub fn set(&mut self, row: usize, column: usize)
        requires row { row < length self.old }
        requires column { column < length self.old }
        ensures { self.new ≡ slice_set self.old row (slice_set (row_of self.old row) column true) }
    {
        self.rows[row].set(column);
    }

    /// Whether there is an arrow from `row` to `column`.
    pub fn get(&self, row: usize, column: usize) -> bool
        requires row { row < length self.now }
        requires column { column < length self.now }
        ensures { IsTrue result ↔ Arrow self.now row column }
    {
        self.rows[row].get(column)
    }

    /// Makes the relation its reachability: an arrow for each path of one arrow or more (Warshall, 1962).
    pub fn close(&mut self)
        ensures width { length self.new ≡ length self.old }
        ensures square { IsSquare self.new }
        ensures reaches { (i j : ℕ) → Arrow self.new i j ↔ Reaches self.old i j }
    {
        for middle in 0..self.rows.len() {
            go_over(&mut self.rows, middle);
        }
    }
}

/// Adds an arrow for each two that lead over the middle.
fn go_over(rows: &mut [Row], middle: usize)
    requires middle { middle < length rows.old }
    requires square { IsSquare rows.old }
    ensures square { IsSquare rows.new }
    ensures arrows { (i j : ℕ) → Arrow rows.new i j ↔ (Arrow rows.old i j ⊎ (Arrow rows.old i middle × Arrow rows.old middle j)) }
{
    for row in 0..rows.len() {
        if rows[row].get(middle) {
            add_row(rows, middle, row);
        }
    }
}

/// Adds the places of one row to another.
fn add_row(rows: &mut [Row], from: usize, into: usize)
    requires from { from < length rows.old }
    requires into { into < length rows.old }
    requires equal { length (row_of rows.old from) ≡ length (row_of rows.old into) }
    ensures { rows.new ≡ slice_set rows.old into (union (row_of rows.old into) (row_of rows.old from)) }
{
    if from < into {
        let (front, back) = rows.split_at_mut(into);
        front[from].or_into(&mut back[0]);
    } else if into < from {
        let (front, back) = rows.split_at_mut(from);
        back[0].or_into(&mut front[into]);
    }
}
