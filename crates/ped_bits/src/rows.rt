//! A row: a set of places below its width.

ghost use Rattle.std.specs.Prelude.{◌≡◌, ℕ, ◌<◌, true, false, length, replicate, slice_set, slice_index_or, IsTrue, IfOk, ◌↔◌};
ghost use Rattle.ped_bits.specs.Places.{Has, union, without};

use crate::words::{clear_words, or_words, words_meet, words_within};
use ped_base::NoMemory;
use std::alloc::Global;
use std::marker::Model;

/// A set of places below a width. Contracts see one truth value for each place.
#[derive(Drop)]
pub struct Row {
    width: usize,
    words: Vec<u64>,
}

impl Model for Row {
    ghost use Rattle.std.specs.Prelude.{List, Bool};

    ghost Value = { List Bool };

    ghost use Rattle.ped_bits.specs.Words.{places_of, IsKept};

    ghost view = { λ r. places_of r.width r.words.items };

    ghost invariant = { λ r. IsKept r.width r.words.items };
}

impl Row {
    /// The empty set below a width.
    pub fn new(alloc: Global, width: usize) -> Result<Row, NoMemory>
        ensures { IfOk result (λ row. row ≡ replicate width false) }
    {
        let words = vec![in alloc; 0u64; width / 64 + 1]?;
        Ok(Row { width, words })
    }

    /// How many places there are, in the set or not.
    pub fn width(&self) -> usize
        ensures { result ≡ length self.now }
    {
        self.width
    }

    /// Puts a place into the set.
    pub fn set(&mut self, place: usize)
        requires { place < length self.old }
        ensures { self.new ≡ slice_set self.old place true }
    {
        self.words[place / 64] |= 1 << (place % 64);
    }

    /// Whether a place is in the set.
    pub fn get(&self, place: usize) -> bool
        requires { place < length self.now }
        ensures { IsTrue result ↔ Has self.now place }
    {
        (self.words[place / 64] >> (place % 64)) & 1 == 1
    }

    /// Adds the places of this set to `target`.
    pub fn or_into(&self, target: &mut Row)
        requires { length self.now ≡ length target.old }
        ensures { target.new ≡ union target.old self.now }
    {
        or_words(&self.words, &mut target.words);
    }

    /// Takes the places of this set out of `target`.
    pub fn and_not_into(&self, target: &mut Row)
        requires { length self.now ≡ length target.old }
        ensures { target.new ≡ without target.old self.now }
    {
        clear_words(&self.words, &mut target.words);
    }

    /// Whether the sets have a common place.
    pub fn meets(&self, other: &Row) -> bool
        requires { length self.now ≡ length other.now }
        ensures { IsTrue result ↔ ((place : ℕ) × Has self.now place × Has other.now place) }
    {
        words_meet(&self.words, &other.words)
    }

    /// Whether each place of this set is in `other`.
    pub fn is_subset(&self, other: &Row) -> bool
        requires { length self.now ≡ length other.now }
        ensures { IsTrue result ↔ ((place : ℕ) → Has self.now place → Has other.now place) }
    {
        words_within(&self.words, &other.words)
    }
}
