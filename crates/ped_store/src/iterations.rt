//! Iterations of DO loops, in a fixed amount of space.

ghost use Rattle.std.specs.Prelude.{◌≡◌, ◌<◌, ◌++◌, ◌∷◌, [], length};
ghost use Rattle.ped_store.specs.Iterations as Spec;

use std::hash::{Hash, Hasher};
use std::marker::Model;

/// An iteration of a DO (ANSI X3.9-1978, section 11.10).
#[derive(Clone, Copy, PartialEq, Eq, Hash)]
pub struct Iteration {
    /// The statement number of the DO.
    pub statement: u32,
    /// The number of the iteration, from 1.
    pub number: u64,
}

/// What is in the places that hold no iteration.
const NO_ITERATION: Iteration = Iteration {
    statement: 0,
    number: 0,
};

/// The iterations of at most six DO loops in one another, that of the outermost first. Contracts see their list. They
/// are copied without memory.
#[derive(Clone, Copy)]
pub struct Iterations {
    depth: u8,
    items: [Iteration; 6],
}

impl Model for Iterations {
    ghost use Rattle.std.specs.Prelude.{List, take};
    ghost use Rattle.ped_store.specs.Cells.{Iteration};

    ghost Value = { List Iteration };

    ghost use Rattle.ped_store.specs.Iterations.{IsIterations, inside, inside_back};

    ghost view = { λ a. take a.depth a.items };

    ghost invariant = { IsIterations };

    ghost inverse = { inside };

    ghost inverse_ok = { inside_back };
}

impl Iterations {
    /// None.
    pub fn new() -> Iterations
        ensures { result ≡ [] }
    {
        Iterations {
            depth: 0,
            items: [NO_ITERATION; 6],
        }
    }

    /// Adds an iteration after the others.
    pub fn push(&mut self, iteration: Iteration)
        requires { length self.old < 6 }
        ensures { self.new ≡ self.old ++ iteration ∷ [] }
    {
        self.items[self.depth as usize] = iteration;
        self.depth += 1;
    }

    /// The list of them.
    pub fn as_slice(&self) -> &[Iteration]
        ensures { result.now ≡ self.now }
    {
        &self.items[..self.depth as usize]
    }
}

impl PartialEq for Iterations {
    ghost use Rattle.std.specs.Cmp.Lexicographic.{pointwise};
    ghost use Rattle.ped_store.specs.Cells.{same_iteration};
    ghost use Rattle.ped_store.specs.IterationLaws.{iterations_partial_equivalence};

    ghost eq = { pointwise same_iteration };

    ghost laws = { iterations_partial_equivalence };

    fn eq(&self, other: &Iterations) -> bool {
        *self.as_slice() == *other.as_slice()
    }
}

impl Eq for Iterations {
    ghost use Rattle.ped_store.specs.IterationLaws.{iterations_equivalence};

    ghost laws = { iterations_equivalence };
}

impl Hash for Iterations {
    ghost use Rattle.ped_store.specs.Iterations.{iterations_writes};
    ghost use Rattle.ped_store.specs.IterationLaws.{iterations_hash_alike};

    ghost hash_input = { iterations_writes };

    ghost respects_eq = { iterations_hash_alike };

    fn hash<H: Hasher>(&self, state: &mut H) {
        state.write_u64(mixed(self.as_slice()));
    }
}

/// One number for iterations, to which each adds. A write to a hasher for each of them would take most of the time that a
/// table of private copies takes.
pub fn mixed(iterations: &[Iteration]) -> u64
    ensures { result ≡ Spec.mixed iterations.now }
{
    match iterations.split_first() {
        Some((first, rest)) => mixed(rest)
            .wrapping_mul(6364136223846793005)
            .wrapping_add(first.number),
        None => 0,
    }
}
