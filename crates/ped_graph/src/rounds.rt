//! The outermost DO around a reference, and what it assigns.

ghost use Rattle.std.specs.Prelude.{◌≡◌, [], IfOk, OnOk, IsTrue};
ghost use Rattle.ped_tree.specs.Names.Collecting.{with_names};
ghost use Rattle.ped_refs.specs.References.{outermost};
ghost use Rattle.ped_refs.specs.Occurrences.{reference_of};
ghost use Rattle.ped_graph.specs.Dependences as Spec;
ghost use Rattle.ped_graph.specs.KnownProgram.{trees_of, found_with};

use crate::numbered::statement_at;
use ped_affine::assigned;
use ped_base::NoMemory;
use ped_refs::Occurrence;
use ped_tree::Stmt;
use ped_tree::names::NameSet;
use std::alloc::Global;

/// The statement number of the outermost DO around a reference, 0 where there is none.
pub fn outermost(occurrence: &Occurrence) -> u32
    ensures { result ≡ outermost (reference_of occurrence.now) }
{
    match occurrence.nest.first() {
        Some(l) => l.number,
        None => 0,
    }
}

/// What the DO with this number assigns, where these are the numbered statements; nothing where no DO has the number.
pub fn assigned_by(alloc: Global, statements: &[&Stmt], number: u32) -> Result<NameSet, NoMemory>
    ensures { IfOk result (λ names. names ≡ with_names [] (Spec.assigned_by (found_with number (trees_of statements.now)))) }
{
    match statement_at(statements, number) {
        Some(Stmt::Do(d)) => assigned(alloc, d),
        _ => Ok(NameSet::new(alloc)),
    }
}

/// Whether the outermost DO around both references is the same.
pub fn have_same_outermost(source: &Occurrence, sink: &Occurrence) -> bool
    ensures { IsTrue result → outermost (reference_of source.now) ≡ outermost (reference_of sink.now) }
{
    outermost(source) == outermost(sink)
}
