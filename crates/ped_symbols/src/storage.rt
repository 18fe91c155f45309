//! How many elements arrays have, and whether they have more than they may. A count above the greatest `u64`
//! is kept as the greatest `u64`.

ghost use Rattle.std.specs.Prelude.{◌≡◌, [], ◌+◌, ◌||◌, nat_lt, map};
ghost use Rattle.std.specs.List.{flat_map};
ghost use Rattle.ped_tree.specs.Views.{declarator_tree, decl_tree};
ghost use Rattle.ped_symbols.specs.Arrays.{Arrays, arrays_of, arrays_in};
ghost use Rattle.ped_symbols.specs.Passes.{Counts, capped};
ghost use Rattle.ped_symbols.specs.StorageLimits as Spec;

use crate::arrays::declared_bounds;
use ped_base::Bounds;
use ped_tree::constants::Consts;
use ped_tree::{Decl, Declarator};

/// The most elements of one array.
const MOST_ELEMENTS: u64 = 1_048_576;

/// The most elements of all arrays of a program together.
const MOST_ELEMENTS_TOGETHER: u64 = 8_388_608;

/// The elements of arrays.
#[derive(Clone, Copy)]
pub struct Elements {
    /// How many they have together.
    pub together: u64,
    /// One of them has more than one may have.
    pub has_large: bool,
}

impl Elements {
    /// Of no arrays.
    pub fn none() -> Elements
        ensures { Counts result [] }
    {
        Elements {
            together: 0,
            has_large: false,
        }
    }

    /// Whether an array has more than one may have, or all have more than all may have.
    pub fn are_many(self) -> bool
        ensures { (arrays : Arrays) → Counts self arrays → result ≡ Spec.have_many_elements arrays }
    {
        self.has_large || self.together > MOST_ELEMENTS_TOGETHER
    }

    /// With those of the arrays of a declaration, by the constants that hold before it.
    pub fn with_declared(self, consts: &Consts, decl: &Decl) -> Elements
        ensures together { result.together ≡ capped (self.together + Spec.elements_of (arrays_in consts.now (decl_tree decl.now))) }
        ensures large { result.has_large ≡ (self.has_large || Spec.has_large (arrays_in consts.now (decl_tree decl.now))) }
    {
        match decl {
            Decl::Integer(declarators) => self.with_all(consts, declarators),
            Decl::Dimension(declarators) => self.with_all(consts, declarators),
            Decl::Program(_)
            | Decl::Implicit
            | Decl::Parameter(_)
            | Decl::Save(_)
            | Decl::Comment(_) => self,
        }
    }

    fn with_all(self, consts: &Consts, declarators: &[Declarator]) -> Elements
        ensures together { result.together ≡ capped (self.together + Spec.elements_of (flat_map (arrays_of consts.now) (map declarator_tree declarators.now))) }
        ensures large { result.has_large ≡ (self.has_large || Spec.has_large (flat_map (arrays_of consts.now) (map declarator_tree declarators.now))) }
    {
        let mut elements = self;
        for declarator in declarators {
            elements = elements.with_one(consts, declarator);
        }
        elements
    }

    fn with_one(self, consts: &Consts, declarator: &Declarator) -> Elements
        ensures together { result.together ≡ capped (self.together + Spec.elements_of (arrays_of consts.now (declarator_tree declarator.now))) }
        ensures large { result.has_large ≡ (self.has_large || Spec.has_large (arrays_of consts.now (declarator_tree declarator.now))) }
    {
        match declared_bounds(consts, declarator) {
            Some(bounds) => self.with_array(elements_within(&bounds)),
            None => self,
        }
    }

    /// With an array of this many elements.
    fn with_array(self, count: u64) -> Elements
        ensures together { result.together ≡ capped (self.together + count) }
        ensures large { result.has_large ≡ (self.has_large || nat_lt Spec.most_elements count) }
    {
        Elements {
            together: self.together.saturating_add(count),
            has_large: self.has_large || count > MOST_ELEMENTS,
        }
    }
}

/// How many elements an array with these bounds has.
fn elements_within(bounds: &Bounds) -> u64
    ensures { result ≡ capped (Spec.elements bounds.now) }
{
    let mut product: u64 = 1;
    for i in 0..usize::from(bounds.rank) {
        product = product.saturating_mul(size(bounds.lower[i], bounds.upper[i]));
    }
    product
}

/// The size of a dimension: 0 where its lower bound is above its upper bound.
fn size(lower: i64, upper: i64) -> u64
    ensures { result ≡ capped (Spec.size lower upper) }
{
    if upper < lower {
        0
    } else {
        upper.abs_diff(lower).saturating_add(1)
    }
}
