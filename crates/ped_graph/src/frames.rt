//! What a graph knows of a program without a test: its pairs of references, and how many statements each statement
//! contains.

ghost use Rattle.std.specs.Prelude.{◌≡◌, ◌↔◌, ◌<◌, ◌≤◌, ℕ, Some, map, length, slice_get, IsTrue, MatchOption};
ghost use Rattle.ped_refs.specs.TextPlaces.{Key, IsBefore, IsKeyBefore};
ghost use Rattle.ped_graph.specs.CodeFacts.{framed_of};
ghost use Rattle.ped_graph.specs.Keys.{key_of, key_shown, AreInOrder, IsOnlyAt};

use crate::facts::Facts;
use std::marker::Model;

/// Where the references of a pair are.
#[derive(Clone, Copy)]
pub struct PairKey {
    /// The source, by its statement and its number there.
    pub source: (u32, u32),
    /// The sink, by its statement and its number there.
    pub sink: (u32, u32),
}

/// What is known of a program without a test: its pairs of references in the order of the pane, each without its
/// view and verdict, and how many statements are in each statement.
#[derive(Drop)]
pub struct Frame {
    pub(crate) pairs: Vec<Facts>,
    pub(crate) extents: Vec<u32>,
}

impl Model for Frame {
    ghost use Rattle.std.specs.Prelude.{map};
    ghost use Rattle.ped_graph.specs.Held.{HeldFrame};
    ghost use Rattle.ped_graph.specs.CodeFacts.{framed_of};
    ghost use Rattle.ped_graph.specs.Keys.{AreInOrder};

    ghost Value = { HeldFrame };

    ghost view = { λ f. record { pairs = map framed_of f.pairs.items; extents = f.extents.items } };

    ghost invariant = { λ f. AreInOrder (map framed_of f.pairs.items) };
}

impl Frame {
    /// How many pairs there are.
    pub fn pair_count(&self) -> u64
        ensures { result ≡ length self.now.pairs }
    {
        self.pairs.len() as u64
    }

    /// Where the references of a pair are; pairs count from 0.
    pub fn key(&self, n: u64) -> PairKey
        requires { n < length self.now.pairs }
        ensures { slice_get (map key_of self.now.pairs) n ≡ Some (key_shown result) }
    {
        key_of(&self.pairs[n as usize])
    }

    /// What is known of the pairs.
    pub(crate) fn pairs(&self) -> &[Facts]
        ensures { map framed_of result.now ≡ self.now.pairs }
    {
        &self.pairs
    }

    /// How many statements are in each statement.
    pub(crate) fn extents(&self) -> &[u32]
        ensures { result.now ≡ self.now.extents }
    {
        &self.extents
    }

    /// The pair whose references are there, none where there is no such pair.
    fn place_of(&self, key: &PairKey) -> Option<u64>
        ensures { MatchOption result ((n : ℕ) → slice_get (map key_of self.now.pairs) n ≡ Some (key_shown key.now) → ⊥)
            (λ n. IsOnlyAt (map key_of self.now.pairs) (key_shown key.now) n) }
    {
        let place = count_before(&self.pairs, key);
        if place == self.pairs.len() {
            return None;
        }
        if is_at(&self.pairs[place], key) {
            return Some(place as u64);
        }
        None
    }

    /// The same, which is quick where the pair is the one that is expected there.
    pub fn place_near(&self, key: &PairKey, expected: u64) -> Option<u64>
        ensures { MatchOption result ((n : ℕ) → slice_get (map key_of self.now.pairs) n ≡ Some (key_shown key.now) → ⊥)
            (λ n. IsOnlyAt (map key_of self.now.pairs) (key_shown key.now) n) }
    {
        let place = expected as usize;
        if place >= self.pairs.len() {
            return self.place_of(key);
        }
        if is_at(&self.pairs[place], key) {
            return Some(expected);
        }
        self.place_of(key)
    }
}

/// How many pairs come before a key.
fn count_before(pairs: &[Facts], key: &PairKey) -> usize
    requires { AreInOrder (map framed_of pairs.now) }
    ensures within { result ≤ length pairs.now }
    ensures before { (n : ℕ) (k : Key) → slice_get (map (λ f. key_of (framed_of f)) pairs.now) n ≡ Some k → n < result → IsKeyBefore k (key_shown key.now) }
    ensures behind { (n : ℕ) (k : Key) → slice_get (map (λ f. key_of (framed_of f)) pairs.now) n ≡ Some k → result ≤ n → IsKeyBefore k (key_shown key.now) → ⊥ }
{
    let mut low = 0;
    let mut high = pairs.len();
    while low < high {
        let middle = low + (high - low) / 2;
        if is_before(&pairs[middle], key) {
            low = middle + 1;
        } else {
            high = middle;
        }
    }
    low
}

/// Whether a pair comes before a key.
fn is_before(facts: &Facts, key: &PairKey) -> bool
    ensures { IsTrue result ↔ IsKeyBefore (key_of (framed_of facts.now)) (key_shown key.now) }
{
    comes_before(facts.source, key.source)
        || (is_same(facts.source, key.source) && comes_before(facts.sink, key.sink))
}

/// Whether a pair has a key.
fn is_at(facts: &Facts, key: &PairKey) -> bool
    ensures { IsTrue result ↔ (key_of (framed_of facts.now) ≡ key_shown key.now) }
{
    is_same(facts.source, key.source) && is_same(facts.sink, key.sink)
}

fn comes_before(first: (u32, u32), second: (u32, u32)) -> bool
    ensures { IsTrue result ↔ IsBefore first second }
{
    first.0 < second.0 || (first.0 == second.0 && first.1 < second.1)
}

fn is_same(first: (u32, u32), second: (u32, u32)) -> bool
    ensures { IsTrue result ↔ (first ≡ second) }
{
    first.0 == second.0 && first.1 == second.1
}

fn key_of(facts: &Facts) -> PairKey
    ensures { key_shown result ≡ key_of (framed_of facts.now) }
{
    PairKey {
        source: facts.source,
        sink: facts.sink,
    }
}
