//! What `system` prints of a pair of references in a program.

ghost use Rattle.std.specs.Prelude.{◌≡◌, ◌+◌, ◌-◌, ◌≤◌, length, IfOk};
ghost use Rattle.ped_tree.specs.Views.{program_tree};
ghost use Rattle.ped_laws.specs.ped_graph.specs.ped_symbols.specs.Kinds.{table_of};
ghost use Rattle.ped_laws.specs.ped_graph.specs.ped_symbols.specs.NameRefusals.{IsValid};
ghost use Rattle.ped_evidence.specs.Claims.{system};
ghost use Rattle.ped_evidence.specs.Judged.{pair_of, AreShallow, IsKnown};
ghost use Rattle.ped_evidence.specs.SystemTexts as Spec;

use crate::claimed::{Known, Spoken, claimed, described_pair};
use crate::printing::{pair_text, unknown_names};
use crate::systems::Described;
use ped_affine::loop_variables;
use ped_base::{Bytes, NoMemory};
use ped_certificates::{Position, Sign};
use ped_laws::Symbols;
use ped_refs::occurrences;
use ped_refs::sizes::small_where_it_fits;
use ped_tree::Program;
use std::alloc::Global;

/// The system of the references at two places of a valid program, whose names stand for this, and of a pattern, as text;
/// none where evidence may not speak of them. The only error is running out of memory.
pub fn system_text(
    alloc: Global,
    program: &Program,
    symbols: &Symbols,
    source: &Position,
    sink: &Position,
    pattern: &[Sign],
) -> Result<Option<Bytes>, NoMemory>
    requires valid { IsValid (program_tree program.now) }
    requires symbols { symbols.now ≡ table_of (program_tree program.now) }
    ensures { IfOk result (λ text. text ≡ Spec.system_text (program_tree program.now) source.now sink.now pattern.now) }
{
    small_where_it_fits();
    let found = occurrences(alloc, program)?;
    let loop_variables = loop_variables(alloc, &program.body)?;
    let known = Known {
        program,
        constants: symbols.consts(),
        loop_variables: &loop_variables,
        found: &found,
    };
    text_in(alloc, &known, source, sink, pattern)
}

/// The same, where this is known of the program.
fn text_in(
    alloc: Global,
    known: &Known,
    source: &Position,
    sink: &Position,
    pattern: &[Sign],
) -> Result<Option<Bytes>, NoMemory>
    requires { IsKnown known.now }
    ensures { IfOk result (λ text. text ≡ Spec.system_text (program_tree known.now.program.now) source.now sink.now pattern.now) }
{
    let pair = claimed(known, *source, *sink, pattern);
    match &pair {
        Some(pair) => Ok(Some(text_of(alloc, known, pair, source, sink, pattern)?)),
        None => Ok(None),
    }
}

/// The system of this pair as text.
fn text_of(
    alloc: Global,
    known: &Known,
    pair: &Spoken,
    source: &Position,
    sink: &Position,
    pattern: &[Sign],
) -> Result<Bytes, NoMemory>
    requires known { IsKnown known.now }
    requires pair { AreShallow pair.now }
    ensures { IfOk result (λ text. text ≡ Spec.pair_text source.now sink.now pattern.now (Spec.names_in (program_tree known.now.program.now) (pair_of pair.now))
        (system (program_tree known.now.program.now) (pair_of pair.now).0 (pair_of pair.now).1 pattern.now)) }
{
    let described = described_pair(alloc, known, pair, pattern)?;
    let source_nest = pair.source.nest.as_slice();
    let sink_nest = pair.sink.nest.as_slice();
    let quotients = quotients(&described, source_nest.len() + sink_nest.len());
    let symbols = described.symbols.as_slice();
    let names = unknown_names(alloc, source_nest, sink_nest, quotients, symbols)?;
    pair_text(
        alloc,
        source,
        sink,
        pattern,
        names.as_slice(),
        &described.system,
    )
}

/// How many of the unknowns are quotients, where so many are variables of loops.
fn quotients(described: &Described, variables: usize) -> usize
    requires { variables + length described.now.symbols ≤ described.now.system.unknowns }
    ensures { result ≡ described.now.system.unknowns - (variables + length described.now.symbols) }
{
    let symbols = described.symbols.as_slice();
    described.system.unknowns - (variables + symbols.len())
}
