//! Questions about scalars and loops of one program. Each is answered by a walk over its statements, which allocates no
//! memory. It skips statements in which nothing happens to the scalar, by a table of rows of bits for all scalars.

ghost use Rattle.std.specs.Prelude.{◌≡◌, ◌+◌, ◌<◌, ◌^◌, ◌↔◌, ◌&&◌, true, length, IsTrue, IfOk, MatchOption};
ghost use Rattle.std.specs.List.{flat_map};
ghost use Rattle.ped_base.specs.Lists as Lists;
ghost use Rattle.ped_tree.specs.Tree;
ghost use Rattle.ped_tree.specs.Tree.{Head, StmtTrees};
ghost use Rattle.ped_tree.specs.Views.{stmt_tree, stmt_trees, program_tree};
ghost use Rattle.ped_tree.specs.Numbering.{statements_count};
ghost use Rattle.ped_tree.specs.Accesses.{constant_names};
ghost use Rattle.ped_tree.specs.Views.{head_of};
ghost use Rattle.ped_flow.specs.Paths.{all_paths, iteration};
ghost use Rattle.ped_flow.specs.Questions.{IsLoop, IsFirst, IsExposed, IsAssignedOn, IsAssignedThrough, IsAssignedBefore};
ghost use Rattle.ped_tree.specs.NamesIn.{saved_in};
ghost use Rattle.ped_flow.specs.Answers.{IsReader, IsEscape};
ghost use Rattle.ped_flow.specs.Summaries as Spec;
ghost use Rattle.ped_flow.specs.Kept.{name_of, constants_of, reader_by};
ghost use Rattle.ped_flow.specs.RowMarks.{constants_in};
ghost use Rattle.ped_flow.specs.Entries.{AreEntered, KnowsAll, AreKnown};

use crate::asked::{Scalar, scalar_by};
use crate::before::before_all;
use crate::behind::behind_all;
use crate::collecting::place_statements;
use crate::crowds::is_crowded;
use crate::decls::is_saved;
use crate::entries::Entry;
use crate::escapes::{Numbered, escaping};
use crate::places::Places;
use crate::row_walks::all_parts;
use crate::scalars::start;
use crate::summaries::Summary;
use crate::walks::statements;
use ped_base::{Name, NoMemory};
use ped_tree::{Do, Program, Stmt, count_statements};
use std::alloc::Global;

/// Who may read what a scalar holds.
#[derive(Clone, Copy, PartialEq, Eq)]
pub enum Reader {
    /// The first statement in text order that may read it, by its number.
    Statement(u32),
    /// No statement, but the program's end, since the scalar is in SAVE.
    Saved,
}

/// The flow of scalars in a program. A question about a number that is no loop's is answered as if no path came there.
#[derive(Drop)]
pub struct Flow<'a> {
    /// The program that is asked about.
    pub program: &'a Program,
    /// Its scalars that have a place in rows.
    pub(crate) places: Places<'a>,
    /// What is known of its statements, by their numbers.
    pub(crate) table: Vec<Option<Entry>>,
    ghost constants: { constants_in places ≡ constant_names (program_tree program.now).decls },
    ghost known: { AreEntered places table.items (program_tree program.now).body },
}

/// The flow of scalars in a program.
pub fn flow_of<'a>(alloc: Global, program: &'a Program) -> Result<Flow<'a>, NoMemory>
    requires { statements_count (program_tree program.now).body + 1 < 2 ^ 32 }
    ensures { IfOk result (λ flow. program_tree flow.program.now ≡ program_tree program.now) }
{
    let places = places_of(alloc, program)?;
    let table = table_of(alloc, &places, &program.body)?;
    Ok(Flow {
        program,
        places,
        table,
    })
}

/// The scalars of a program, where rows for them pay.
fn places_of<'a>(alloc: Global, program: &'a Program) -> Result<Places<'a>, NoMemory>
    ensures { IfOk result (λ places. constants_in places ≡ constant_names (program_tree program.now).decls) }
{
    let mut places = Places::new(alloc, &program.decls);
    if is_crowded(&program.body) {
        place_statements(&mut places, &program.body)?;
    }
    Ok(places)
}

/// What is known of the statements of a program, of which the first has number 1: nothing where rows don't pay.
fn table_of(alloc: Global, places: &Places, body: &[Stmt]) -> Result<Vec<Option<Entry>>, NoMemory>
    requires { statements_count (stmt_trees body.now) + 1 < 2 ^ 32 }
    ensures { IfOk result (λ table. KnowsAll places.now table.items (stmt_trees body.now) 1) }
{
    if !is_crowded(body) {
        return Ok(Vec::new(alloc));
    }
    let mut table = empty_table(alloc, count_statements(body) + 1)?;
    let mut number = 1;
    all_parts(alloc, places, &mut table, body, &mut number)?;
    Ok(table)
}

/// A table of this many statements of which nothing is known.
fn empty_table(alloc: Global, count: u32) -> Result<Vec<Option<Entry>>, NoMemory>
    ensures { IfOk result (λ table. length table.items ≡ count) }
{
    let mut table = Vec::new(alloc);
    for _number in 0..count {
        table.push(None)?;
    }
    Ok(table)
}

/// A scalar of a program.
pub(crate) fn scalar_of<'a>(flow: &'a Flow<'a>, name: &'a Name) -> Scalar<'a>
    ensures name { name_of result ≡ name.now }
    ensures constants { constants_of result ≡ constant_names (program_tree flow.now.program.now).decls }
    ensures places { result.places.now ≡ flow.now.places }
    ensures table { result.table.now ≡ flow.now.table.items }
{
    scalar_by(&flow.places, &flow.table, name)
}

impl<'a> Flow<'a> {
    /// The first statement in text order with an exposed read of the scalar in the loop with this number: on some path
    /// through one iteration it reads the scalar before that is overwritten.
    pub fn exposed(&self, loop_number: u32, name: &Name) -> Option<u32>
        requires { statements_count (program_tree self.now.program.now).body + 1 < 2 ^ 32 }
        ensures { IsFirst (IsExposed (program_tree self.now.program.now) loop_number name.now) result }
    {
        let scalar = scalar_of(self, name);
        match loop_at(self.program, loop_number) {
            Some(d) => {
                return exposed_in(&scalar, d, loop_number);
            }
            None => {
                return None;
            }
        }
    }

    /// Who may read what the scalar holds at the exit of the loop with this number: the first statement in text order that
    /// reads it on some path from there before it is overwritten; where there is none, the program's end, if the scalar is in
    /// SAVE and some path from there to the end doesn't overwrite it.
    pub fn live_after(&self, loop_number: u32, name: &Name) -> Option<Reader>
        requires { statements_count (program_tree self.now.program.now).body + 1 < 2 ^ 32 }
        ensures { IsReader (program_tree self.now.program.now) loop_number name.now result }
    {
        let summary = walk_behind(self, loop_number, name);
        let saved = is_saved_in(self.program, name);
        reader_of(summary.first, both(summary.leaves(), saved))
    }

    /// Whether the scalar has a value on each path to the outermost loop that is the loop with this number or is around
    /// it.
    pub fn assigned_before(&self, loop_number: u32, name: &Name) -> bool
        requires { statements_count (program_tree self.now.program.now).body + 1 < 2 ^ 32 }
        ensures { IsTrue result ↔ IsAssignedBefore (program_tree self.now.program.now) loop_number name.now }
    {
        walk_before(self, loop_number, name).always_assigns()
    }

    /// Whether the scalar is assigned at the end of each path through the body of the loop with this number.
    pub fn assigned_through(&self, loop_number: u32, name: &Name) -> bool
        requires { statements_count (program_tree self.now.program.now).body + 1 < 2 ^ 32 }
        ensures { IsTrue result ↔ IsAssignedThrough (program_tree self.now.program.now) loop_number name.now }
    {
        let scalar = scalar_of(self, name);
        match loop_at(self.program, loop_number) {
            Some(d) => {
                return assigned_in(&scalar, d, loop_number);
            }
            None => {
                return true;
            }
        }
    }

    /// By whom the loop with this number isn't contained: the first statement in text order that reads a variable of
    /// the loop, or of a loop in it, outside the bodies of the loops of that variable there, or after the loop before
    /// it is overwritten; where there is none, the program's end, if such a variable is in SAVE and some path from the
    /// loop's exit to the end doesn't overwrite it. The statement can be the loop itself: its own header may read what
    /// its exit leaves, in a loop around it.
    pub fn escapes(&self, loop_number: u32) -> Option<Reader>
        requires { statements_count (program_tree self.now.program.now).body + 1 < 2 ^ 32 }
        ensures { IsEscape (program_tree self.now.program.now) loop_number result }
    {
        match loop_at(self.program, loop_number) {
            Some(d) => {
                return escaping(&Numbered {
                    flow: self,
                    number: loop_number,
                    body: d,
                });
            }
            None => {
                return None;
            }
        }
    }
}

/// What the paths from the exit of a loop to the end do to a scalar.
pub(crate) fn walk_behind(flow: &Flow, l: u32, name: &Name) -> Summary
    requires { statements_count (program_tree flow.now.program.now).body + 1 < 2 ^ 32 }
    ensures { result ≡ Spec.summary_behind_all (constant_names (program_tree flow.now.program.now).decls) name.now l (program_tree flow.now.program.now).body 1 }
{
    let scalar = scalar_of(flow, name);
    let mut place = 1;
    behind_all(&scalar, l, &flow.program.body, &mut place)
}

/// What the paths to the outermost loop do to a scalar.
fn walk_before(flow: &Flow, l: u32, name: &Name) -> Summary
    requires { statements_count (program_tree flow.now.program.now).body + 1 < 2 ^ 32 }
    ensures { result ≡ Spec.summary_before_all (constant_names (program_tree flow.now.program.now).decls) name.now l (program_tree flow.now.program.now).body 1 }
{
    let scalar = scalar_of(flow, name);
    let mut place = 1;
    before_all(&scalar, l, &flow.program.body, &mut place)
}

/// Whether the program saves the name.
pub(crate) fn is_saved_in(program: &Program, name: &Name) -> bool
    ensures { result ≡ Lists.is_among name.now (flat_map saved_in (program_tree program.now).decls) }
{
    is_saved(name, &program.decls)
}

/// Whether both hold.
pub(crate) fn both(a: bool, b: bool) -> bool
    ensures { result ≡ (a && b) }
{
    a && b
}

/// A statement that reads, or else the program's end, where the test holds.
pub(crate) fn reader_of(first: Option<u32>, shown: bool) -> Option<Reader>
    ensures { result ≡ reader_by first shown }
{
    match first {
        Some(statement) => {
            return Some(Reader::Statement(statement));
        }
        None => {
            if shown {
                return Some(Reader::Saved);
            }
            return None;
        }
    }
}

/// The DO with this number, where there is one.
pub fn loop_at<'a>(program: &'a Program, number: u32) -> Option<&'a Do>
    ensures { MatchOption result ((h : Head) (body : StmtTrees) → IsLoop (program_tree program.now) number h body → ⊥) (λ d. IsLoop (program_tree program.now) number (head_of d.now) (stmt_trees d.now.body.items)) }
{
    match program.at(number) {
        Some(statement) => {
            return as_loop(statement);
        }
        None => {
            return None;
        }
    }
}

/// A statement as a loop, where it is one.
fn as_loop<'a>(statement: &'a Stmt) -> Option<&'a Do>
    ensures { MatchOption result ((h : Head) (body : StmtTrees) → stmt_tree statement.now ≡ Tree.Do h body → ⊥) (λ d. stmt_tree statement.now ≡ Tree.Do (head_of d.now) (stmt_trees d.now.body.items)) }
{
    match statement {
        Stmt::Do(d) => {
            return Some(d);
        }
        Stmt::Assign { left: _, right: _ } => {
            return None;
        }
        Stmt::If {
            condition: _,
            then_part: _,
            else_part: _,
        } => {
            return None;
        }
        Stmt::Print(_) => {
            return None;
        }
        Stmt::Read(_) => {
            return None;
        }
        Stmt::Stop => {
            return None;
        }
        Stmt::Comment(_) => {
            return None;
        }
    }
}

/// The first statement in a loop with an exposed read of the scalar.
fn exposed_in(scalar: &Scalar, d: &Do, number: u32) -> Option<u32>
    requires few { number + 1 + statements_count (stmt_trees d.now.body.items) < 2 ^ 32 }
    requires known { AreKnown scalar.now (stmt_trees d.now.body.items) (number + 1) }
    ensures { IsFirst (Spec.IsReadOn (iteration number (head_of d.now) (stmt_trees d.now.body.items) (all_paths (constants_of scalar.now) (stmt_trees d.now.body.items) (number + 1))) (name_of scalar.now)) result }
{
    let mut place = number + 1;
    let body = statements(scalar, &d.body, &mut place);
    let summary = start(scalar, d, number).then(body);
    summary.first
}

/// Whether the scalar is assigned at the end of each path through the body of a loop.
fn assigned_in(scalar: &Scalar, d: &Do, number: u32) -> bool
    requires few { number + 1 + statements_count (stmt_trees d.now.body.items) < 2 ^ 32 }
    requires known { AreKnown scalar.now (stmt_trees d.now.body.items) (number + 1) }
    ensures { IsTrue result ↔ IsAssignedOn (all_paths (constants_of scalar.now) (stmt_trees d.now.body.items) (number + 1)).onward (name_of scalar.now) }
{
    let mut place = number + 1;
    let summary = statements(scalar, &d.body, &mut place);
    summary.always_assigns()
}
