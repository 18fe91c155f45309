//! The vectors of a pair by the loop that carries them. Vectors come in this order, so those of a level stand side by side.

ghost use Rattle.std.specs.Prelude.{◌≡◌, ◌+◌, ◌≤◌, ◌++◌, ℕ, [], false, length, map};
ghost use Rattle.std.specs.List.{prefix_len};
ghost use Rattle.arrayvec.specs.ArrayVec.{array_vec_len};
ghost use Rattle.ped_graph.specs.Dependences as Spec;
ghost use Rattle.ped_graph.specs.Dependences.{carried};
ghost use Rattle.ped_graph.specs.Held as Held;
ghost use Rattle.ped_graph.specs.HeldPairs.{held_carried};
ghost use Rattle.ped_graph.specs.Levels.{ComeByLevel, AreByLevel, AreLeft, carriage_at, carriage_behind, edge_by, leads_on};

use crate::edges::is_of;
use arrayvec::ArrayVec;
use ped_verdict::Vector;
use ped_views::Direction;

/// The vectors of a level that has any.
#[derive(Clone, Copy)]
pub struct LevelVectors<'a> {
    /// The level, 1 for the outermost loop, and none for what is independent of loops.
    pub level: Option<u8>,
    /// Its vectors.
    pub vectors: &'a [Vector],
}

impl Default for LevelVectors<'_> {
    fn default() -> Self {
        LevelVectors {
            level: None,
            vectors: &[],
        }
    }
}

/// The levels of a pair that have vectors: at most six loops, and what is independent of them.
pub type Levels<'a> = ArrayVec<LevelVectors<'a>, 7>;

/// Whether a level has vectors, of a pair whose source comes first in text order or not. The first vector tells it:
/// none has where that leads from the sink to the source.
pub fn has_levels(is_forward: bool, vectors: &[Vector]) -> bool
    ensures { result ≡ false → (loops : ℕ) → AreByLevel loops vectors.now
        → (p : Held.Pair) → p.is_forward ≡ is_forward → Held.held_divided p vectors.now ≡ [] }
{
    match vectors.split_first() {
        Some((first, _)) => leads_on(is_forward, first.directions()),
        None => false,
    }
}

/// Whether a vector leads from the source to the sink: its first direction other than `=` is `<`, or it has none and
/// the source comes first in text order.
fn leads_on(is_forward: bool, directions: &[Direction]) -> bool
    ensures { result ≡ leads_on is_forward (Spec.carriage_from 1 directions.now) }
{
    for direction in directions {
        match direction {
            Direction::Before => return true,
            Direction::After => return false,
            Direction::Same => {}
        }
    }
    is_forward
}

/// The levels that have vectors, of a pair with this many common loops, whose source comes first in text order or not.
pub fn levels_of<'a>(is_forward: bool, loops: u8, vectors: &'a [Vector]) -> Levels<'a>
    requires few { loops ≤ 6 }
    requires ordered { AreByLevel loops vectors.now }
    ensures { (p : Held.Pair) → p.is_forward ≡ is_forward → length p.view.loops ≡ loops
        → map (edge_by p) result.items ≡ Held.held_divided p vectors.now }
{
    let (outer, rest) = carried_levels(loops, vectors);
    let mut levels = outer;
    if !is_forward {
        return levels;
    }
    let (these, _) = split_level(None, rest);
    push_level(&mut levels, None, these);
    levels
}

/// The levels of this many loops that have vectors, and the vectors behind them.
fn carried_levels<'a>(loops: u8, vectors: &'a [Vector]) -> (Levels<'a>, &'a [Vector])
    requires few { loops ≤ 6 }
    requires ordered { ComeByLevel (carried 1) vectors.now }
    ensures levels { (p : Held.Pair) → map (edge_by p) result.0.items ≡ held_carried p vectors.now loops }
    ensures room { array_vec_len result.0 ≤ loops }
    ensures rest { AreLeft (carried (loops + 1)) vectors.now result.1.now }
{
    let mut levels = ArrayVec::new();
    let mut rest = vectors;
    for place in 0..loops {
        let level = Some(place + 1);
        let (these, others) = split_level(level, rest);
        push_level(&mut levels, level, these);
        rest = others;
    }
    (levels, rest)
}

/// Adds a level, if it has vectors.
fn push_level<'a>(levels: &mut Levels<'a>, level: Option<u8>, vectors: &'a [Vector])
    requires { array_vec_len levels.old ≤ 6 }
    ensures levels { (p : Held.Pair) → map (edge_by p) levels.new.items ≡ map (edge_by p) levels.old.items ++ Held.held_edge p level vectors.now }
    ensures room { array_vec_len levels.new ≤ array_vec_len levels.old + 1 }
{
    if vectors.is_empty() {
        return;
    }
    levels.push(LevelVectors { level, vectors });
}

/// The vectors of a level, which come first, and the others.
fn split_level<'a>(level: Option<u8>, vectors: &'a [Vector]) -> (&'a [Vector], &'a [Vector])
    requires { ComeByLevel (carriage_at level) vectors.now }
    ensures these { result.0.now ≡ Spec.vectors_of level vectors.now }
    ensures others { AreLeft (carriage_behind level) vectors.now result.1.now }
{
    let count = count_first(level, vectors);
    (&vectors[..count], &vectors[count..])
}

/// How many vectors of a level come first.
fn count_first(level: Option<u8>, vectors: &[Vector]) -> usize
    ensures count { result ≡ prefix_len (λ v. Spec.is_of level (Spec.carriage_from 1 v)) vectors.now }
    ensures within { result ≤ length vectors.now }
{
    for (place, vector) in vectors.iter().enumerate() {
        if !is_of(level, vector.directions()) {
            return place;
        }
    }
    vectors.len()
}
