//! The graph of a changed program in place of the graph before the change.

ghost use Rattle.std.specs.Prelude.{◌≡◌, ◌+◌, ◌≤◌, IfOk, OnOk, OnErr};
ghost use Rattle.ped_tree.specs.Views.{program_tree};
ghost use Rattle.ped_graph.specs.ped_symbols.specs.NameRefusals.{IsValid};
ghost use Rattle.ped_graph.specs.ped_symbols.specs.Kinds.{table_of};
ghost use Rattle.ped_graph.specs.Held.{held_of};
ghost use Rattle.ped_update.specs.Deltas.{TakesTo};
ghost use Rattle.ped_graph.specs.Keeping.{IsOneToOne};
ghost use Rattle.ped_update.specs.Fresh.{fresh_pairs};
ghost use Rattle.ped_update.specs.Matching.{parts_for};

use crate::deltas::Delta;
use crate::matching::matched;
use ped_affine::loop_variables;
use ped_base::NoMemory;
use ped_graph::extents::extents;
use ped_graph::numbered::numbered_statements;
use ped_graph::own_facts::all_own_facts;
use ped_graph::preparing::Known;
use ped_graph::{Graph, Keep, Parts};
use ped_refs::{listed_pairs, occurrences};
use ped_tree::Program;
use ped_tree::constants::Consts;
use ped_verdict::Steps;
use std::alloc::Global;
use std::sync::ledger::Ledger;

/// Makes the graph of the program before a change that of the valid program after it, whose named constants these
/// are, and gives the step back. A pair of references whose statements are kept, with the same numbers in them and the
/// same view as before, keeps its verdict; every other pair is tested, once. If memory runs out, the graph is as it
/// was.
pub fn update<L: Ledger>(
    alloc: Global,
    graph: &mut Graph<L>,
    program: &Program,
    consts: &Consts,
    keep: &Keep,
    steps: &mut Steps<L>,
) -> Result<Delta<L>, NoMemory>
    requires valid { IsValid (program_tree program.now) }
    requires constants { consts.now ≡ (table_of (program_tree program.now)).constants }
    requires one_to_one { IsOneToOne keep.now }
    ensures built { OnOk result (graph.new ≡ held_of (program_tree program.now)) }
    ensures back { IfOk result (λ delta. TakesTo delta graph.new graph.old) }
    ensures tested { IfOk result (λ delta. delta.tested ≡ fresh_pairs graph.old keep.now (held_of (program_tree program.now))) }
    ensures ticks { OnOk result (steps.new ≡ steps.old + fresh_pairs graph.old keep.now (held_of (program_tree program.now))) }
    ensures least { steps.old ≤ steps.new }
    ensures most { steps.new ≤ steps.old + fresh_pairs graph.old keep.now (held_of (program_tree program.now)) }
    ensures unchanged { OnErr result (graph.new ≡ graph.old) }
{
    let mut parts = parts_of(alloc, graph, program, consts, keep.as_slice(), steps)?;
    let tested = (parts.slots.len() - parts.kept.len()) as u64;
    graph.exchange(&mut parts);
    Ok(Delta::new(parts, tested))
}

/// What takes a graph to that of a valid program, whose named constants these are.
fn parts_of<L: Ledger>(
    alloc: Global,
    graph: &Graph<L>,
    program: &Program,
    consts: &Consts,
    keep: &[(u32, u32)],
    steps: &mut Steps<L>,
) -> Result<Parts<L>, NoMemory>
    requires valid { IsValid (program_tree program.now) }
    requires constants { consts.now ≡ (table_of (program_tree program.now)).constants }
    ensures parts { IfOk result (λ parts. IsOneToOne keep.now → parts ≡ parts_for graph.now keep.now (held_of (program_tree program.now))) }
    ensures ticks { OnOk result (IsOneToOne keep.now → steps.new ≡ steps.old + fresh_pairs graph.now keep.now (held_of (program_tree program.now))) }
    ensures least { steps.old ≤ steps.new }
    ensures most { IsOneToOne keep.now → steps.new ≤ steps.old + fresh_pairs graph.now keep.now (held_of (program_tree program.now)) }
{
    let found = occurrences(alloc, program)?;
    let extents = extents(alloc, &program.body)?;
    let listed = listed_pairs(alloc, &found)?;
    let own = all_own_facts(alloc, program, consts, &found)?;
    let statements = numbered_statements(alloc, &program.body)?;
    let loop_variables = loop_variables(alloc, &program.body)?;
    let known = Known {
        program,
        consts,
        loop_variables: &loop_variables,
        found: &found,
        own: &own,
        statements: &statements,
    };
    matched(alloc, graph, &known, &listed, extents, keep, steps)
}
