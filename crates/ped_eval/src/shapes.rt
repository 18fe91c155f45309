//! The scalars and arrays of a program, for its store.

ghost use Rattle.std.specs.Prelude.{◌≡◌, IfOk, Some};
ghost use Rattle.ped_symbols.specs.Entries.{entry_of};
ghost use Rattle.ped_store.specs.Variables.{no_dimensions};
ghost use Rattle.ped_eval.specs.Live.{shape_by, shapes_among, shapes_by};

use ped_base::{Bounds, Name, NoMemory};
use ped_store::Shape;
use ped_symbols::{Kind, Symbols};
use std::alloc::Global;

/// The scalars and arrays among the names of a program.
#[tactic(auto, using(crate::proofs::ShapesByNames::shapes_by_names))]
pub(crate) fn shapes_of(alloc: Global, symbols: &Symbols) -> Result<Vec<Shape>, NoMemory>
    ensures { IfOk result (λ shapes. shapes.items ≡ shapes_by symbols.now.kinds) }
{
    let names = symbols.names(alloc)?;
    shapes_among(alloc, symbols, names.as_slice())
}

/// The scalars and arrays among names.
fn shapes_among(alloc: Global, symbols: &Symbols, names: &[Name]) -> Result<Vec<Shape>, NoMemory>
    ensures { IfOk result (λ shapes. shapes.items ≡ shapes_among symbols.now.kinds names.now) }
{
    let mut shapes = Vec::new(alloc);
    for name in names {
        if let Some(shape) = shape_of(symbols, name) {
            shapes.push(shape)?;
        }
    }
    Ok(shapes)
}

/// The shape of a scalar or an array; none for any other name.
fn shape_of(symbols: &Symbols, name: &Name) -> Option<Shape>
    ensures { result ≡ shape_by name.now (entry_of symbols.now.kinds name.now) }
{
    let kind = symbols.kind(name)?;
    shape_of_kind(name, &kind)
}

/// The shape of a name with this kind; none for a constant.
fn shape_of_kind(name: &Name, kind: &Kind) -> Option<Shape>
    ensures { result ≡ shape_by name.now (Some kind.now) }
{
    match kind {
        Kind::Scalar => return Some(shape(name, &no_bounds())),
        Kind::Array(bounds) => return Some(shape(name, bounds)),
        Kind::Constant(_) => return None,
    }
}

/// A name with bounds.
fn shape(name: &Name, bounds: &Bounds) -> Shape
    ensures name { result.name ≡ name.now }
    ensures bounds { result.bounds ≡ bounds.now }
{
    Shape {
        name: *name,
        bounds: *bounds,
    }
}

/// No dimensions.
fn no_bounds() -> Bounds
    ensures { result ≡ no_dimensions }
{
    Bounds {
        rank: 0,
        lower: [0; 7],
        upper: [0; 7],
    }
}
