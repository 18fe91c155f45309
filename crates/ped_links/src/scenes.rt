//! The units of a file and what is known of them.

ghost use Rattle.std.specs.Prelude.{◌≡◌, length};

use crate::numbering::{below, number_of};
use crate::placing::Found;
use indexmap::IndexMap;
use ped_base::Name;
use ped_units::{ProgramUnit, Symbols};

/// The units of a file with what their names stand for, the numbers of the subroutines, and the CALLs of each unit.
#[derive(Clone, Copy)]
pub struct Scene<'u> {
    /// The units, the main program first.
    pub units: &'u [ProgramUnit],
    /// What the names of each unit stand for.
    pub tables: &'u [Symbols],
    /// The number of the first subroutine of each name.
    pub numbers: &'u IndexMap<Name, usize>,
    /// What a walk over the statements of each unit finds.
    pub walks: &'u [Found],
    ghost tables_wide: { length tables.now ≡ length units.now },
    ghost walks_wide: { length walks.now ≡ length units.now },
}

impl<'u> Scene<'u> {
    ghost use Rattle.std.specs.Prelude.{◌<◌, IfSome};
    ghost use Rattle.ped_units.specs.Units.{ProgramUnits, all_units};
    ghost use Rattle.ped_links.specs.Numbers.{number_of_unit};
    ghost use Rattle.ped_links.specs.Scenes.{IsScene};

    /// The number of the unit that a CALL of this name calls.
    pub fn callee(&self, name: &Name) -> Option<usize>
        ensures below { IfSome result (λ k. k < length self.now.units.now) }
        ensures number { (us : ProgramUnits) → IsScene us self.now → result ≡ number_of_unit (all_units us) name.now }
    {
        below(number_of(self.numbers, name), self.units.len())
    }
}
