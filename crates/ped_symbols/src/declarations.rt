//! The pass over declarations: the first refusal of names in them, the named constants and the arrays.

ghost use Rattle.std.specs.Prelude.{◌≡◌, [], ◌∷◌, ◌++◌, List, map, IfOk};
ghost use Rattle.std.specs.List.{flat_map};
ghost use Rattle.ped_base.specs.Lists.{has_some};
ghost use Rattle.ped_tree.specs.Views.{decl_tree};
ghost use Rattle.ped_refs.specs.References.{Reference};
ghost use Rattle.ped_symbols.specs.Declarations as Plain;
ghost use Rattle.ped_symbols.specs.NameRefusals.{Before, at_first, behind_sites};
ghost use Rattle.ped_symbols.specs.Sites.{Site, decl_sites};
ghost use Rattle.ped_symbols.specs.Passes.{Knows, Holds, first_with};

use crate::arrays::keep_arrays;
use crate::declared::Declared;
use crate::repeating::Seen;
use crate::sites::{Faults, Found};
use crate::storage::Elements;
use crate::tables::NameTable;
use crate::uses::push_decl;
use crate::values::{decl_fails, decl_is_empty};
use ped_base::{Bounds, NoMemory};
use ped_tree::Decl;
use ped_tree::constants::Consts;
use std::alloc::Global;

/// What declarations have said so far.
#[derive(Drop)]
pub struct Held {
    /// The names that they have declared, by what they have declared them as.
    pub seen: Seen,
    /// The named constants that hold.
    pub consts: Consts,
    /// The arrays with their bounds.
    pub arrays: NameTable<Bounds>,
    /// Their elements.
    pub elements: Elements,
}

impl Held {
    /// Before the first declaration.
    pub fn nothing(alloc: Global) -> Held
        ensures { Holds result at_first }
    {
        Held {
            seen: Seen::nothing(alloc),
            consts: Consts::new(alloc),
            arrays: NameTable::new(alloc),
            elements: Elements::none(),
        }
    }

    /// The named constants alone.
    pub fn into_consts(self) -> Consts
        ensures { result ≡ self.consts }
    {
        self.consts
    }
}

/// Goes over declarations: what they say is held, and the first refusal in them is found.
pub fn declarations<'l>(
    alloc: Global,
    declared: &Declared,
    held: &mut Held,
    found: Found<'l>,
    decls: &[Decl],
) -> Result<Found<'l>, NoMemory>
    ensures first { IfOk result (λ next. (d : Plain.Declared) → Knows declared.now d → (refs : List Reference) → (b : Before) → Holds held.old b →
        Holds held.new (behind_sites b (flat_map decl_sites (map decl_tree decls.now)))
        × ((more : List Site) → first_with d refs (behind_sites b (flat_map decl_sites (map decl_tree decls.now))) next more
        ≡ first_with d refs b found.entry (flat_map decl_sites (map decl_tree decls.now) ++ more))) }
    ensures until { IfOk result (λ next. next.until_many_pairs ≡ found.entry.until_many_pairs) }
{
    let mut next = found;
    for decl in decls {
        next = declaration(alloc, declared, held, next, decl)?;
    }
    Ok(next)
}

/// Goes over a declaration; a comment is passed over.
fn declaration<'l>(
    alloc: Global,
    declared: &Declared,
    held: &mut Held,
    found: Found<'l>,
    decl: &Decl,
) -> Result<Found<'l>, NoMemory>
    ensures first { IfOk result (λ next. (d : Plain.Declared) → Knows declared.now d → (refs : List Reference) → (b : Before) → Holds held.old b →
        Holds held.new (behind_sites b (decl_sites (decl_tree decl.now)))
        × ((more : List Site) → first_with d refs (behind_sites b (decl_sites (decl_tree decl.now))) next more
        ≡ first_with d refs b found.entry (decl_sites (decl_tree decl.now) ++ more))) }
    ensures until { IfOk result (λ next. next.until_many_pairs ≡ found.entry.until_many_pairs) }
{
    if !has_site(decl) {
        return Ok(found);
    }
    let mut uses = Vec::new(alloc);
    push_decl(&mut uses, decl)?;
    let repeats = held.seen.see_all(&uses)?;
    let is_empty = decl_is_empty(&held.consts, decl);
    held.elements = held.elements.with_declared(&held.consts, decl);
    keep_arrays(&mut held.arrays, &held.consts, decl)?;
    let fails = decl_fails(&mut held.consts, decl)?;
    let faults = Faults {
        repeats,
        fails,
        is_empty,
        passes_limit: held.elements.are_many(),
    };
    Ok(found.behind(declared, &uses, faults))
}

/// Whether it is a declaration and no comment.
fn has_site(decl: &Decl) -> bool
    ensures { result ≡ has_some (decl_sites (decl_tree decl.now)) }
{
    !matches!(decl, Decl::Comment(_))
}
