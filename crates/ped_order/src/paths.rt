//! Paths: iterations that all accesses of a cell so far are in.

ghost use Rattle.std.specs.Prelude.{◌≡◌, ◌≤◌, ◌<◌, ◌==◌, ◌&&◌, ◌++◌, ◌∷◌, [], not, map, take, length, IfOk};
ghost use Rattle.ped_laws.specs.ped_eval.specs.AccessViews.{turn_view};
ghost use Rattle.ped_order.specs.Keys as Keys;
ghost use Rattle.ped_order.specs.Keys.{iteration_of};
ghost use Rattle.ped_order.specs.Paths.{level_view};
ghost use Rattle.ped_order.specs.Paths as Spec;

use ped_base::NoMemory;
use ped_eval::Turn;
use std::alloc::Global;
use std::marker::Model;

/// An iteration of a DO, without the value of the DO's variable.
#[derive(Clone, Copy)]
pub(crate) struct Level {
    /// The statement number of the DO.
    statement: u32,
    /// Whether it is a PARALLEL DO.
    parallel: bool,
    /// The number of the iteration.
    number: u64,
}

/// What is in the places that hold no iteration.
const NO_LEVEL: Level = Level {
    statement: 0,
    parallel: false,
    number: 0,
};

/// At most six iterations, that of the outermost DO first. Contracts see their list.
#[derive(Clone, Copy)]
pub(crate) struct Path {
    depth: u8,
    levels: [Level; 6],
}

impl Model for Path {
    ghost use Rattle.std.specs.Prelude.{List, take};
    ghost use Rattle.ped_order.specs.declared.paths.Level.{Level};

    ghost Value = { List Level };

    ghost use Rattle.ped_order.specs.PathPlaces.{IsPath, inside, inside_back};

    ghost view = { λ a. take a.depth a.levels };

    ghost invariant = { IsPath };

    ghost inverse = { inside };

    ghost inverse_ok = { inside_back };
}

impl Path {
    /// No iteration.
    fn new() -> Path
        ensures { result ≡ [] }
    {
        Path {
            depth: 0,
            levels: [NO_LEVEL; 6],
        }
    }

    /// Adds an iteration after the others.
    fn push(&mut self, level: Level)
        requires { length self.old < 6 }
        ensures { self.new ≡ self.old ++ level ∷ [] }
    {
        self.levels[self.depth as usize] = level;
        self.depth += 1;
    }

    /// The outermost of these iterations, as many as there is room for.
    pub(crate) fn of(turns: &[Turn]) -> Path
        ensures { result ≡ map Spec.level_of (take 6 turns.now) }
    {
        let mut path = Path::new();
        for turn in outer(turns) {
            path.push(level_of(turn));
        }
        path
    }

    /// The iterations.
    fn as_slice(&self) -> &[Level]
        ensures levels { result.now ≡ self.now }
        ensures few { length result.now ≤ 6 }
    {
        &self.levels[..self.depth as usize]
    }

    /// How many there are.
    pub(crate) fn len(&self) -> usize
        ensures { result ≡ length self.now }
    {
        self.as_slice().len()
    }

    /// The outermost of them, this many.
    pub(crate) fn front(&self, count: usize) -> Path
        requires { count ≤ length self.now }
        ensures { result ≡ take count self.now }
    {
        let levels = &self.as_slice()[..count];
        let mut path = Path::new();
        for level in levels {
            path.push(*level);
        }
        path
    }

    /// How many of the outermost are the same as of these.
    pub(crate) fn common_count(&self, turns: &[Turn]) -> usize
        ensures count { result ≡ Spec.common_count (map level_view self.now) (map turn_view turns.now) }
        ensures within { result ≤ length self.now }
    {
        common_count(self.as_slice(), turns)
    }

    /// Whether it is in another iteration of the execution of the PARALLEL DO that this turn, in the turns around it, is
    /// of.
    pub(crate) fn is_elsewhere(&self, around: &[Turn], turn: &Turn) -> bool
        ensures { result ≡ Keys.is_elsewhere (map iteration_of (map turn_view around.now)) turn.now.statement turn.now.number (map level_view self.now) }
    {
        is_elsewhere(self.as_slice(), around, turn)
    }

    /// The iterations as those of an access. What the variables of the DOs hold isn't known.
    pub(crate) fn turns(&self, alloc: Global) -> Result<Vec<Turn>, NoMemory>
        ensures { IfOk result (λ turns. map turn_view turns.items ≡ map level_view self.now) }
    {
        let levels = self.as_slice();
        let mut turns = Vec::with_capacity(alloc, levels.len())?;
        for level in levels {
            turns.push(Turn {
                statement: level.statement,
                parallel: level.parallel,
                number: level.number,
                value: 0,
            })?;
        }
        Ok(turns)
    }
}

/// The outermost of these iterations, at most six.
fn outer(turns: &[Turn]) -> &[Turn]
    ensures { result.now ≡ take 6 turns.now }
{
    match turns.get(..6) {
        Some(outer) => outer,
        None => turns,
    }
}

/// An iteration, without the value of the DO's variable.
fn level_of(turn: &Turn) -> Level
    ensures { result ≡ Spec.level_of turn.now }
{
    Level {
        statement: turn.statement,
        parallel: turn.parallel,
        number: turn.number,
    }
}

/// How many of the outermost iterations are the same.
fn common_count(levels: &[Level], turns: &[Turn]) -> usize
    ensures count { result ≡ Spec.common_count (map level_view levels.now) (map turn_view turns.now) }
    ensures within { result ≤ length levels.now }
{
    match levels.split_first() {
        Some((level, inner)) => match turns.split_first() {
            Some((turn, further)) => {
                if is_same(level, turn) {
                    return 1 + common_count(inner, further);
                }
                return 0;
            }
            None => return 0,
        },
        None => return 0,
    }
}

/// Whether these are one iteration.
fn is_same(level: &Level, turn: &Turn) -> bool
    ensures { result ≡ Spec.same_turn (level_view level.now) (turn_view turn.now) }
{
    level.statement == turn.statement
        && level.number == turn.number
        && (if level.parallel {
            turn.parallel
        } else {
            !turn.parallel
        })
}

/// Whether this is another iteration of the PARALLEL DO that the turn is of.
fn is_other(level: &Level, turn: &Turn) -> bool
    ensures { result ≡ ((level.now.statement == turn.now.statement) && (not (level.now.number == turn.now.number) && level.now.parallel)) }
{
    level.statement == turn.statement && level.number != turn.number && level.parallel
}

/// Whether the first are in another iteration of the execution of the PARALLEL DO that this turn is of.
fn is_elsewhere(levels: &[Level], around: &[Turn], turn: &Turn) -> bool
    ensures { result ≡ Keys.is_elsewhere (map iteration_of (map turn_view around.now)) turn.now.statement turn.now.number (map level_view levels.now) }
{
    match levels.split_first() {
        Some((level, inner)) => match around.split_first() {
            Some((outer, rest)) => {
                return level.statement == outer.statement
                    && level.number == outer.number
                    && is_elsewhere(inner, rest, turn);
            }
            None => return is_other(level, turn),
        },
        None => return false,
    }
}
