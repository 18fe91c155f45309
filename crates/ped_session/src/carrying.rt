//! The names in the dependences that a DO carries.

ghost use Rattle.std.specs.Prelude.{◌≡◌, ◌++◌, [], map, filter, not, IfOk, OnOk};
ghost use Rattle.std.specs.List.{list_any};
ghost use Rattle.ped_base.specs.Lists.{is_same_text};
ghost use Rattle.ped_tree.specs.Views.{program_tree};
ghost use Rattle.ped_tree.specs.Names.Collecting as Collecting;
ghost use Rattle.ped_transformations.specs.ped_graph.specs.Held.{held_of};
ghost use Rattle.ped_edges.specs.CodeEdges.{edge_of};
ghost use Rattle.ped_refs.specs.Occurrences.{name_text};
ghost use Rattle.ped_transformations.specs.ped_symbols.specs.NameRefusals.{IsValid};
ghost use Rattle.ped_transformations.specs.ped_rules.specs.Carried as Carried;
ghost use Rattle.ped_transformations.specs.ped_rules.specs.CodeCarried.{AreThose};
ghost use Rattle.ped_transformations.specs.ped_auto.specs.CarriedNames as Spec;
ghost use Rattle.ped_transformations.specs.ped_auto.specs.CarriedNames.{AreCarried};

use ped_base::NoMemory;
use ped_edges::{Edge, keep_unrejected};
use ped_order::Graph;
use ped_refs::RefName;
use ped_transformations::loops_round;
use ped_tree::Program;
use std::alloc::Global;
use std::sync::ledger::Ledger;

/// The names of the dependences of a program, whose graph this is, that the DO with this number carries and the user hasn't
/// rejected: each once, in the order of the pane, the data lines and the output last.
pub(crate) fn carried_names<L: Ledger>(
    alloc: Global,
    program: &Program,
    graph: &Graph<L>,
    number: u32,
) -> Result<Vec<RefName>, NoMemory>
    requires valid { IsValid (program_tree program.now) }
    requires graph { graph.now ≡ held_of (program_tree program.now) }
    ensures { IfOk result (λ names. AreCarried (program_tree program.now) number (map name_text names.items)) }
{
    let edges = carried_edges(alloc, program, graph, number)?;
    let names = names_once(alloc, &edges)?;
    files_last(alloc, &names)
}

/// The dependences that the DO with this number carries and the user hasn't rejected.
fn carried_edges<L: Ledger>(
    alloc: Global,
    program: &Program,
    graph: &Graph<L>,
    number: u32,
) -> Result<Vec<Edge>, NoMemory>
    requires valid { IsValid (program_tree program.now) }
    requires graph { graph.now ≡ held_of (program_tree program.now) }
    ensures { IfOk result (λ edges. AreThose (program_tree program.now) (Carried.carried (program_tree program.now) number) edges.items) }
{
    let level = level_at(alloc, program, number)?;
    let mut edges = graph.edges_at(alloc, number, level)?;
    keep_unrejected(&mut edges);
    Ok(edges)
}

/// The level of the DO with this number, 1 for the outermost (Allen and Kennedy, section 2.2.2).
fn level_at(alloc: Global, program: &Program, number: u32) -> Result<u8, NoMemory>
    requires { IsValid (program_tree program.now) }
    ensures { IfOk result (λ level. level ≡ Carried.level_at (program_tree program.now) number) }
{
    let round = loops_round(alloc, program, number)?;
    Ok(round.len() as u8 + 1)
}

/// The names of dependences, each once.
fn names_once(alloc: Global, edges: &[Edge]) -> Result<Vec<RefName>, NoMemory>
    ensures { IfOk result (λ names. map name_text names.items ≡ Collecting.with_names [] (map (λ e. (edge_of e).name) edges.now)) }
{
    let mut names = Vec::new(alloc);
    for edge in edges {
        add_name(&mut names, &edge.name)?;
    }
    Ok(names)
}

/// Adds a name, where it isn't there.
fn add_name(names: &mut Vec<RefName>, name: &RefName) -> Result<(), NoMemory>
    ensures { OnOk result (map name_text names.new.items ≡ Collecting.with_name (map name_text names.old.items) (name_text name.now)) }
{
    if is_there(names, name) {
        return Ok(());
    }
    names.push(*name)?;
    Ok(())
}

/// Whether this is one of the names.
fn is_there(names: &[RefName], name: &RefName) -> bool
    ensures { result ≡ list_any (λ other. is_same_text (name_text name.now) (name_text other)) names.now }
{
    for other in names {
        if is_same(name, other) {
            return true;
        }
    }
    false
}

/// Whether both are the same.
fn is_same(name: &RefName, other: &RefName) -> bool
    ensures { result ≡ is_same_text (name_text name.now) (name_text other.now) }
{
    text_of(name) == text_of(other)
}

/// The text of a name, as the pane shows it.
fn text_of<'a>(name: &'a RefName) -> &'a [u8]
    ensures { result.now ≡ name_text name.now }
{
    match name {
        RefName::Named(name) => name.as_bytes(),
        RefName::In => b"(IN)",
        RefName::Out => b"(OUT)",
    }
}

/// Whether this is the data lines or the output.
fn is_file(name: &RefName) -> bool
    ensures { result ≡ Spec.is_file (name_text name.now) }
{
    is_text(name, b"(IN)") || is_text(name, b"(OUT)")
}

/// Whether this has the text that is expected.
fn is_text(name: &RefName, expected: &[u8]) -> bool
    ensures { result ≡ is_same_text (name_text name.now) expected.now }
{
    text_of(name) == expected
}

/// The names with the data lines and the output after the others.
#[tactic(auto, using(crate::proofs::CarriedTexts::last_by_text))]
fn files_last(alloc: Global, names: &[RefName]) -> Result<Vec<RefName>, NoMemory>
    ensures { IfOk result (λ all. map name_text all.items ≡ Spec.files_last (map name_text names.now)) }
{
    let mut all = Vec::new(alloc);
    push_variables(&mut all, names)?;
    push_files(&mut all, names)?;
    Ok(all)
}

/// Adds those that are neither the data lines nor the output.
fn push_variables(all: &mut Vec<RefName>, names: &[RefName]) -> Result<(), NoMemory>
    ensures { OnOk result (all.new.items ≡ all.old.items ++ filter (λ name. not (Spec.is_file (name_text name))) names.now) }
{
    for name in names {
        if !is_file(name) {
            all.push(*name)?;
        }
    }
    Ok(())
}

/// Adds the data lines and the output, where they are there.
fn push_files(all: &mut Vec<RefName>, names: &[RefName]) -> Result<(), NoMemory>
    ensures { OnOk result (all.new.items ≡ all.old.items ++ filter (λ name. Spec.is_file (name_text name)) names.now) }
{
    for name in names {
        if is_file(name) {
            all.push(*name)?;
        }
    }
    Ok(())
}
