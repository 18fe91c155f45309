//! The scalar of a question, with what is known of the statements of its program.

ghost use Rattle.std.specs.Prelude.{◌≡◌, map};
ghost use Rattle.ped_base.specs.Lists.{is_among};
ghost use Rattle.ped_tree.specs.Accesses.{constant_names};
ghost use Rattle.ped_tree.specs.Views.{decl_tree};
ghost use Rattle.ped_flow.specs.RowPlaces.{place_of};
ghost use Rattle.ped_flow.specs.RowMarks.{names_in};

use crate::decls::is_constant;
use crate::entries::Entry;
use crate::places::Places;
use ped_base::Name;

/// A scalar that is asked about.
#[derive(Drop)]
pub(crate) struct Scalar<'a> {
    pub(crate) name: &'a Name,
    /// Whether it is a named constant, and so no scalar.
    pub(crate) constant: bool,
    /// The scalars of its program that have a place in rows, with the declarations.
    pub(crate) places: &'a Places<'a>,
    /// Its place, where it has one.
    pub(crate) place: Option<usize>,
    /// What is known of the statements of its program, by their numbers.
    pub(crate) table: &'a [Option<Entry>],
    ghost constant_or_not: { constant ≡ is_among name.now (constant_names (map decl_tree places.now.decls.now)) },
    ghost placed: { place ≡ place_of (names_in places.now) name.now },
}

/// A scalar, asked about with these places and this table.
pub(crate) fn scalar_by<'a>(
    places: &'a Places<'a>,
    table: &'a [Option<Entry>],
    name: &'a Name,
) -> Scalar<'a>
    ensures name { result.name.now ≡ name.now }
    ensures places { result.places.now ≡ places.now }
    ensures table { result.table.now ≡ table.now }
{
    Scalar {
        name,
        constant: is_constant(name, places.decls),
        places,
        place: places.names.place(name),
        table,
    }
}
