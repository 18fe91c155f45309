//! Reads of variables of a loop, or of inner loops, by which it isn't contained.

ghost use Rattle.std.specs.Prelude.{◌≡◌, ◌+◌, ◌<◌, ◌^◌, ◌∷◌};
ghost use Rattle.ped_tree.specs.Views.{stmt_tree, stmt_trees, program_tree};
ghost use Rattle.ped_tree.specs.Numbering.{statements_count};
ghost use Rattle.ped_tree.specs.Views.{head_of};
ghost use Rattle.ped_tree.specs.NamesIn.{loop_variables, all_loop_variables};
ghost use Rattle.ped_flow.specs.Escapes as Spec;
ghost use Rattle.ped_flow.specs.Entries.{KnowsAll};

use crate::flows::{Flow, Reader, both, is_saved_in, reader_of, scalar_of, walk_behind};
use crate::outside::{outside_all, unless};
use crate::scalars::is_same;
use crate::summaries::least;
use ped_base::Name;
use ped_tree::{Do, Stmt};

/// The first read by which a loop isn't contained, and whether the program's end may show a variable.
#[derive(Clone, Copy)]
pub(crate) struct Escape {
    pub(crate) first: Option<u32>,
    pub(crate) shown: bool,
}

/// A loop of a program, with its number and the flow of scalars in the program.
#[derive(Clone, Copy)]
pub(crate) struct Numbered<'a> {
    pub(crate) flow: &'a Flow<'a>,
    pub(crate) number: u32,
    pub(crate) body: &'a Do,
}

impl Escape {
    /// Nothing.
    fn nothing() -> Escape
        ensures { result ≡ Spec.no_escape }
    {
        Escape {
            first: None,
            shown: false,
        }
    }

    /// What either has.
    fn or(self, other: Escape) -> Escape
        ensures { result ≡ Spec.either_escape self other }
    {
        Escape {
            first: least(self.first, other.first),
            shown: self.shown || other.shown,
        }
    }

    /// By what it isn't contained: the first statement that reads, or else the program's end, where it may show a variable.
    fn reader(self) -> Option<Reader>
        ensures { result ≡ Spec.escaping self }
    {
        reader_of(self.first, self.shown)
    }
}

/// How a loop isn't contained by one of these variables.
fn escape_of(l: &Numbered, name: &Name) -> Escape
    requires fits { l.now.number + 1 + statements_count (stmt_trees l.now.body.now.body.items) < 2 ^ 32 }
    requires few { statements_count (program_tree l.now.flow.now.program.now).body + 1 < 2 ^ 32 }
    requires known { KnowsAll l.now.flow.now.places l.now.flow.now.table.items (stmt_trees l.now.body.now.body.items) (l.now.number + 1) }
    ensures { result ≡ Spec.escape_of (program_tree l.now.flow.now.program.now) l.now.number (head_of l.now.body.now) (stmt_trees l.now.body.now.body.items) name.now }
{
    let scalar = scalar_of(l.flow, name);
    let mut place = l.number + 1;
    let inside = outside_all(&scalar, &l.body.body, &mut place);
    let loose = unless(is_same(name, &l.body.variable), inside);
    let behind = walk_behind(l.flow, l.number, name);
    let saved = is_saved_in(l.flow.program, name);
    Escape {
        first: least(loose, behind.first),
        shown: both(behind.leaves(), saved),
    }
}

/// How a loop isn't contained by the variables of loops among statements and in them.
#[cycle(escapes)]
fn escapes_in(l: &Numbered, statements: &[Stmt]) -> Escape
    requires fits { l.now.number + 1 + statements_count (stmt_trees l.now.body.now.body.items) < 2 ^ 32 }
    requires few { statements_count (program_tree l.now.flow.now.program.now).body + 1 < 2 ^ 32 }
    requires known { KnowsAll l.now.flow.now.places l.now.flow.now.table.items (stmt_trees l.now.body.now.body.items) (l.now.number + 1) }
    ensures { result ≡ Spec.escapes_of (program_tree l.now.flow.now.program.now) l.now.number (head_of l.now.body.now) (stmt_trees l.now.body.now.body.items) (all_loop_variables (stmt_trees statements.now)) }
{
    let mut escape = Escape::nothing();
    for s in statements {
        escape = escape.or(escapes_of(l, s));
    }
    escape
}

/// How a loop isn't contained by the variables of loops of a statement and in it.
#[cycle(escapes)]
fn escapes_of(l: &Numbered, s: &Stmt) -> Escape
    requires fits { l.now.number + 1 + statements_count (stmt_trees l.now.body.now.body.items) < 2 ^ 32 }
    requires few { statements_count (program_tree l.now.flow.now.program.now).body + 1 < 2 ^ 32 }
    requires known { KnowsAll l.now.flow.now.places l.now.flow.now.table.items (stmt_trees l.now.body.now.body.items) (l.now.number + 1) }
    ensures { result ≡ Spec.escapes_of (program_tree l.now.flow.now.program.now) l.now.number (head_of l.now.body.now) (stmt_trees l.now.body.now.body.items) (loop_variables (stmt_tree s.now)) }
{
    match s {
        Stmt::If {
            condition: _,
            then_part,
            else_part,
        } => {
            return escapes_in(l, then_part).or(escapes_in(l, else_part));
        }
        Stmt::Do(d) => {
            return escape_of(l, &d.variable).or(escapes_in(l, &d.body));
        }
        Stmt::Assign { left: _, right: _ } => {
            return Escape::nothing();
        }
        Stmt::Print(_) => {
            return Escape::nothing();
        }
        Stmt::Read(_) => {
            return Escape::nothing();
        }
        Stmt::Stop => {
            return Escape::nothing();
        }
        Stmt::Comment(_) => {
            return Escape::nothing();
        }
    }
}

/// Who reads a variable by which a loop isn't contained, where it isn't.
pub(crate) fn escaping(l: &Numbered) -> Option<Reader>
    requires fits { l.now.number + 1 + statements_count (stmt_trees l.now.body.now.body.items) < 2 ^ 32 }
    requires few { statements_count (program_tree l.now.flow.now.program.now).body + 1 < 2 ^ 32 }
    requires known { KnowsAll l.now.flow.now.places l.now.flow.now.table.items (stmt_trees l.now.body.now.body.items) (l.now.number + 1) }
    ensures { result ≡ Spec.escaping (Spec.escapes_of (program_tree l.now.flow.now.program.now) l.now.number (head_of l.now.body.now) (stmt_trees l.now.body.now.body.items) (l.now.body.now.variable ∷ all_loop_variables (stmt_trees l.now.body.now.body.items))) }
{
    let own = escape_of(l, &l.body.variable);
    own.or(escapes_in(l, &l.body.body)).reader()
}
