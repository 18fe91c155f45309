//! The bounds of arrays.

ghost use Rattle.std.specs.Prelude.{◌≡◌, [], ◌∷◌, ◌++◌, ◌<◌, ◌&&◌, length, nat_le, map, List, ℕ, IfOk, OnOk, None, if◌then◌else◌};
ghost use Rattle.std.specs.List.{flat_map};
ghost use Rattle.ped_tree.specs.Views.{bound_tree, declarator_tree, decl_tree};
ghost use Rattle.ped_base.specs.Lists.{has_some};
ghost use Rattle.ped_tree.specs.Grammar.LimitNumbers.{most_dimensions};
ghost use Rattle.ped_symbols.specs.Arrays as Spec;
ghost use Rattle.ped_symbols.specs.Passes.{KnowsArrays};

use crate::tables::NameTable;
use crate::values::fixed_value;
use ped_base::{Bounds, NoMemory};
use ped_limits::MOST_DIMENSIONS;
use ped_tree::constants::Consts;
use ped_tree::{Bound, Decl, Declarator};

/// Adds the arrays of a declaration with their bounds, by the constants that hold before it. Of a name that
/// has bounds already the first count.
pub fn keep_arrays(
    arrays: &mut NameTable<Bounds>,
    consts: &Consts,
    decl: &Decl,
) -> Result<(), NoMemory>
    ensures { OnOk result ((before : Spec.Arrays) → KnowsArrays arrays.old before → KnowsArrays arrays.new (before ++ Spec.arrays_in consts.now (decl_tree decl.now))) }
{
    match decl {
        Decl::Integer(declarators) => keep_declarators(arrays, consts, declarators),
        Decl::Dimension(declarators) => keep_declarators(arrays, consts, declarators),
        Decl::Program(_) | Decl::Implicit | Decl::Parameter(_) | Decl::Save(_) | Decl::Comment(_) =>
            Ok(()),
    }
}

fn keep_declarators(
    arrays: &mut NameTable<Bounds>,
    consts: &Consts,
    declarators: &[Declarator],
) -> Result<(), NoMemory>
    ensures { OnOk result ((before : Spec.Arrays) → KnowsArrays arrays.old before → KnowsArrays arrays.new (before ++ flat_map (Spec.arrays_of consts.now) (map declarator_tree declarators.now))) }
{
    for declarator in declarators {
        keep_declarator(arrays, consts, declarator)?;
    }
    Ok(())
}

fn keep_declarator(
    arrays: &mut NameTable<Bounds>,
    consts: &Consts,
    declarator: &Declarator,
) -> Result<(), NoMemory>
    ensures { OnOk result ((before : Spec.Arrays) → KnowsArrays arrays.old before → KnowsArrays arrays.new (before ++ Spec.arrays_of consts.now (declarator_tree declarator.now))) }
{
    match declared_bounds(consts, declarator) {
        Some(bounds) => arrays.keep(&declarator.name, bounds),
        None => Ok(()),
    }
}

/// The bounds that a declarator gives its name: none where it declares no array, or where a bound has no
/// value.
pub fn declared_bounds(consts: &Consts, declarator: &Declarator) -> Option<Bounds>
    ensures { Spec.with_bounds declarator.now.name result ≡ Spec.arrays_of consts.now (declarator_tree declarator.now) }
{
    if is_array(&declarator.bounds) {
        bounds_of(consts, &declarator.bounds)
    } else {
        None
    }
}

/// Whether an array may have these dimensions: one or more, and not more than seven.
fn is_array(bounds: &[Bound]) -> bool
    ensures { result ≡ (has_some (map bound_tree bounds.now) && nat_le (length (map bound_tree bounds.now)) most_dimensions) }
{
    !bounds.is_empty() && bounds.len() <= MOST_DIMENSIONS
}

/// The bounds of at most seven dimensions: none where one has no value.
fn bounds_of(consts: &Consts, bounds: &[Bound]) -> Option<Bounds>
    requires { length bounds.now < 8 }
    ensures { result ≡ Spec.bounds_values consts.now (map bound_tree bounds.now) }
{
    let mut found = no_dimensions();
    for bound in bounds {
        let lower = fixed_value(consts, &bound.lower)?;
        let upper = fixed_value(consts, &bound.upper)?;
        found = with_dimension(found, lower, upper);
    }
    Some(found)
}

fn no_dimensions() -> Bounds
    ensures lower { result.lower ≡ [] }
    ensures upper { result.upper ≡ [] }
{
    Bounds {
        rank: 0,
        lower: [0; 7],
        upper: [0; 7],
    }
}

/// The bounds with one more dimension at the end.
fn with_dimension(bounds: Bounds, lower: i64, upper: i64) -> Bounds
    requires { length bounds.lower < 7 }
    ensures lower { result.lower ≡ bounds.lower ++ lower ∷ [] }
    ensures upper { result.upper ≡ bounds.upper ++ upper ∷ [] }
{
    let mut wider = bounds;
    wider.lower[usize::from(bounds.rank)] = lower;
    wider.upper[usize::from(bounds.rank)] = upper;
    wider.rank += 1;
    wider
}
