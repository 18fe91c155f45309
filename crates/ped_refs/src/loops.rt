//! The DO loops around a statement.

ghost use Rattle.std.specs.Prelude.{◌≡◌};
ghost use Rattle.ped_base.specs.Lists as Lists;
ghost use Rattle.ped_tree.specs.Nests.{indices_of};
ghost use Rattle.ped_refs.specs.Loops.{nest_of};

use ped_base::Name;
use ped_tree::Do;

/// A DO loop around a statement: its statement number and the DO itself (ANSI X3.9-1978, section 11.10).
#[derive(Clone, Copy)]
pub struct Loop<'a> {
    /// The statement number of the DO.
    pub number: u32,
    /// The DO.
    pub statement: &'a Do,
}

impl Loop<'_> {
    ghost use Rattle.ped_refs.specs.Loops.{loop_of};

    /// Whether this is the name of its variable.
    #[tactic(auto, using(ped_base::proofs::NameEquality::name_same))]
    pub fn has_variable(&self, name: &Name) -> bool
        ensures { result ≡ Lists.is_same_text name.now (loop_of self.now).head.variable }
    {
        *name == self.statement.variable
    }
}

/// Whether the name is the variable of one of these loops.
pub fn is_index(name: &Name, loops: &[Loop]) -> bool
    ensures { result ≡ Lists.is_among name.now (indices_of (nest_of loops.now)) }
{
    for l in loops {
        if l.has_variable(name) {
            return true;
        }
    }
    false
}
