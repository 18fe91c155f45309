//! The first refusal of names at sites, and the kinds of the names there.

ghost use Rattle.std.specs.Prelude.{◌≡◌, [], ◌∷◌, ◌++◌, ◌+◌, ◌||◌, ℕ, List, map, drop, IfOk};
ghost use Rattle.std.specs.List.{list_any};
ghost use Rattle.ped_tree.specs.Grammar.Refusal.{earliest};
ghost use Rattle.ped_tree.specs.Grammar.RefusalViews.{found_of};
ghost use Rattle.ped_symbols.specs.Declarations as Plain;
ghost use Rattle.ped_symbols.specs.NameRefusals as Spec;
ghost use Rattle.ped_symbols.specs.Passes.{Knows, is_reached, refused_at};

use crate::declared::Declared;
use crate::pairs::one_less;
use crate::uses::{Role, Use};
use ped_limits::intrinsic_of;
use ped_tree::grammar::{Refusal, RefusalKind, standing};

/// What is wrong at a site apart from single uses of names.
#[derive(Clone, Copy, PartialEq, Eq)]
pub struct Faults {
    /// It repeats what may be said once.
    pub repeats: bool,
    /// It lacks a value that has to be constant.
    pub fails: bool,
    /// It declares an array with a lower bound above its upper bound.
    pub is_empty: bool,
    /// There are too many elements of arrays, or too many pairs of references.
    pub passes_limit: bool,
}

/// The first refusal so far, and what is known of the sites that are still to come.
#[derive(Clone, Copy)]
pub struct Found<'l> {
    /// The first refusal.
    pub first: Option<Refusal>,
    /// The lines of the sites to come.
    pub lines: &'l [u64],
    /// How many numbered statements come before the first at which there are too many pairs of references, 0
    /// at it and after it; none where there never are.
    pub until_many_pairs: Option<u32>,
}

impl<'l> Found<'l> {
    /// After a site with these uses of names, where it has these faults.
    pub fn behind(self, declared: &Declared, uses: &[Use], faults: Faults) -> Found<'l>
        ensures first { (d : Plain.Declared) → Knows declared.now d →
            found_of result.first ≡ earliest (found_of self.entry.first) (refused_at d (Spec.next_line self.entry.lines.now) uses.now faults) }
        ensures lines { result.lines.now ≡ drop 1 self.entry.lines.now }
        ensures until { result.until_many_pairs ≡ self.entry.until_many_pairs }
    {
        let (line, lines) = next_line(self.lines);
        Found {
            first: refused(self.first, declared, line, uses, faults),
            lines,
            until_many_pairs: self.until_many_pairs,
        }
    }

    /// With the next numbered statement counted.
    pub fn counted(self) -> Found<'l>
        ensures first { result.first ≡ self.entry.first }
        ensures lines { result.lines.now ≡ self.entry.lines.now }
        ensures until { (others : ℕ) → is_reached result.until_many_pairs others ≡ is_reached self.entry.until_many_pairs (others + 1) }
    {
        Found {
            first: self.first,
            lines: self.lines,
            until_many_pairs: one_less(self.until_many_pairs),
        }
    }
}

/// The next line, 0 where there is none, and those after it.
fn next_line(lines: &[u64]) -> (u64, &[u64])
    ensures line { result.0 ≡ Spec.next_line lines.now }
    ensures lines { result.1.now ≡ drop 1 lines.now }
{
    match lines.split_first() {
        Some((line, rest)) => (*line, rest),
        None => (0, lines),
    }
}

/// The first of what was found and what is refused at a site.
#[tactic(auto, using(ped_tree::proofs::GrammarLaws::First::earliest_append))]
fn refused(
    found: Option<Refusal>,
    declared: &Declared,
    line: u64,
    uses: &[Use],
    faults: Faults,
) -> Option<Refusal>
    ensures { (d : Plain.Declared) → Knows declared.now d →
        found_of result ≡ earliest (found_of found) (refused_at d line uses.now faults) }
{
    let found = standing(
        found,
        some_real(declared, uses),
        RefusalKind::RealName,
        line,
    );
    let twice = some_misused(declared, uses) || faults.repeats;
    let found = standing(found, twice, RefusalKind::DeclaredTwice, line);
    let found = standing(found, faults.fails, RefusalKind::NotConstant, line);
    let differs = some_other_rank(declared, uses);
    let found = standing(found, differs, RefusalKind::RankDiffers, line);
    let found = standing(found, faults.is_empty, RefusalKind::BoundsEmpty, line);
    standing(found, faults.passes_limit, RefusalKind::StorageLimit, line)
}

/// Whether a name is of type REAL.
fn some_real(declared: &Declared, uses: &[Use]) -> bool
    ensures { (d : Plain.Declared) → Knows declared.now d → result ≡ list_any (Spec.uses_real d) uses.now }
{
    for u in uses {
        if uses_real(declared, u) {
            return true;
        }
    }
    false
}

fn uses_real(declared: &Declared, u: &Use) -> bool
    ensures { (d : Plain.Declared) → Knows declared.now d → result ≡ Spec.uses_real d u.now }
{
    declared.is_real(&u.name)
}

/// Whether a constant, the program's name or an intrinsic function's is used as what it isn't.
fn some_misused(declared: &Declared, uses: &[Use]) -> bool
    ensures { (d : Plain.Declared) → Knows declared.now d → result ≡ (list_any (Spec.uses_constant d) uses.now
        || list_any (Spec.uses_program d) uses.now || list_any Spec.dimensions_intrinsic uses.now) }
{
    some_constant(declared, uses) || some_program(declared, uses) || some_intrinsic(uses)
}

/// Whether a constant is used as a variable.
fn some_constant(declared: &Declared, uses: &[Use]) -> bool
    ensures { (d : Plain.Declared) → Knows declared.now d → result ≡ list_any (Spec.uses_constant d) uses.now }
{
    for u in uses {
        if uses_constant(declared, u) {
            return true;
        }
    }
    false
}

fn uses_constant(declared: &Declared, u: &Use) -> bool
    ensures { (d : Plain.Declared) → Knows declared.now d → result ≡ Spec.uses_constant d u.now }
{
    is_of_variable(u.role) && declared.is_constant(&u.name)
}

fn is_of_variable(role: Role) -> bool
    ensures { result ≡ Spec.is_of_variable role }
{
    match role {
        Role::Typed | Role::Named => false,
        Role::Dimensioned(_)
        | Role::Saved
        | Role::Rejected
        | Role::Private
        | Role::Index
        | Role::Assigned(_) => true,
        Role::Operand(subscripts) => subscripts > 0,
    }
}

/// Whether the program's name is used, and is no constant.
fn some_program(declared: &Declared, uses: &[Use]) -> bool
    ensures { (d : Plain.Declared) → Knows declared.now d → result ≡ list_any (Spec.uses_program d) uses.now }
{
    for u in uses {
        if uses_program(declared, u) {
            return true;
        }
    }
    false
}

fn uses_program(declared: &Declared, u: &Use) -> bool
    ensures { (d : Plain.Declared) → Knows declared.now d → result ≡ Spec.uses_program d u.now }
{
    declared.is_program(&u.name) && !declared.is_constant(&u.name)
}

/// Whether an array has the name of an intrinsic function.
fn some_intrinsic(uses: &[Use]) -> bool
    ensures { result ≡ list_any Spec.dimensions_intrinsic uses.now }
{
    for u in uses {
        if dimensions_intrinsic(u) {
            return true;
        }
    }
    false
}

fn dimensions_intrinsic(u: &Use) -> bool
    ensures { result ≡ Spec.dimensions_intrinsic u.now }
{
    u.role.is_dimensioning() && intrinsic_of(u.name.as_bytes()).is_some()
}

/// Whether a name has another number of subscripts than of dimensions.
fn some_other_rank(declared: &Declared, uses: &[Use]) -> bool
    ensures { (d : Plain.Declared) → Knows declared.now d → result ≡ list_any (Spec.uses_other_rank d) uses.now }
{
    for u in uses {
        if uses_other_rank(declared, u) {
            return true;
        }
    }
    false
}

fn uses_other_rank(declared: &Declared, u: &Use) -> bool
    ensures { (d : Plain.Declared) → Knows declared.now d → result ≡ Spec.uses_other_rank d u.now }
{
    match subscripts_of(u.role) {
        Some(subscripts) => declared.rank(&u.name) != subscripts,
        None => false,
    }
}

/// How many subscripts a name has in a role, where the role determines it.
fn subscripts_of(role: Role) -> Option<usize>
    ensures { result ≡ Spec.subscripts_of role }
{
    match role {
        Role::Private | Role::Index => Some(0),
        Role::Assigned(subscripts) | Role::Operand(subscripts) => Some(subscripts),
        Role::Typed | Role::Dimensioned(_) | Role::Named | Role::Saved | Role::Rejected => None,
    }
}
