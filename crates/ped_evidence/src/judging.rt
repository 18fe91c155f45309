//! Which lines of evidence hold in a program, and what vectors of a dependence they disprove.

ghost use Rattle.std.specs.Prelude.{◌≡◌, ◌&&◌, map, IfOk};
ghost use Rattle.ped_tree.specs.Tree.{ProgramTree};
ghost use Rattle.ped_tree.specs.Views.{program_tree};
ghost use Rattle.ped_laws.specs.ped_graph.specs.ped_symbols.specs.Kinds.{table_of};
ghost use Rattle.ped_laws.specs.ped_graph.specs.ped_symbols.specs.NameRefusals.{IsValid};
ghost use Rattle.ped_laws.specs.ped_edges.specs.Edges.{Edge};
ghost use Rattle.ped_refs.specs.Occurrences.{reference_of};
ghost use Rattle.ped_certificates.specs.Certificates as Certificates;
ghost use Rattle.ped_evidence.specs.Signs as Signs;
ghost use Rattle.ped_evidence.specs.Claims as Claims;
ghost use Rattle.ped_evidence.specs.Evidence as Spec;
ghost use Rattle.ped_evidence.specs.Lines as Lines;
ghost use Rattle.ped_evidence.specs.Judged.{line_speaks_of, some_speaks_of, AreShallow, IsKnown};

use crate::claimed::{Known, Spoken, claimed, described_pair};
use ped_affine::loop_variables;
use ped_base::NoMemory;
use ped_certificates::{Claim, EvidenceLine, Position, Sign, refutes};
use ped_laws::Symbols;
use ped_refs::occurrences;
use ped_refs::sizes::small_where_it_fits;
use ped_tree::Program;
use ped_views::Direction;
use std::alloc::Global;

/// Whether each line of a text of evidence holds in a valid program, whose names stand for this: whether it is a claim of
/// a pair of references whose system its steps refute. The only error is running out of memory.
pub fn judge(
    alloc: Global,
    program: &Program,
    symbols: &Symbols,
    evidence: &[EvidenceLine],
) -> Result<Vec<bool>, NoMemory>
    requires valid { IsValid (program_tree program.now) }
    requires symbols { symbols.now ≡ table_of (program_tree program.now) }
    ensures { IfOk result (λ held. held.items ≡ map (Lines.line_holds (program_tree program.now)) evidence.now) }
{
    small_where_it_fits();
    let found = occurrences(alloc, program)?;
    let loop_variables = loop_variables(alloc, &program.body)?;
    let known = Known {
        program,
        constants: symbols.consts(),
        loop_variables: &loop_variables,
        found: &found,
    };
    judge_lines(alloc, &known, evidence)
}

/// Whether each of these lines holds.
fn judge_lines(
    alloc: Global,
    known: &Known,
    evidence: &[EvidenceLine],
) -> Result<Vec<bool>, NoMemory>
    requires { IsKnown known.now }
    ensures { IfOk result (λ held. held.items ≡ map (Lines.line_holds (program_tree known.now.program.now)) evidence.now) }
{
    let mut held = Vec::with_capacity(alloc, evidence.len())?;
    for line in evidence {
        let holds = line_holds(alloc, known, line)?;
        held.push(holds)?;
    }
    Ok(held)
}

/// Whether a line of a text holds.
fn line_holds(alloc: Global, known: &Known, line: &EvidenceLine) -> Result<bool, NoMemory>
    requires { IsKnown known.now }
    ensures { IfOk result (λ holds. holds ≡ Lines.line_holds (program_tree known.now.program.now) line.now) }
{
    match line {
        EvidenceLine::Empty | EvidenceLine::Malformed => Ok(false),
        EvidenceLine::Claim(claim) => holds(alloc, known, claim),
    }
}

/// Whether a claim holds.
fn holds(alloc: Global, known: &Known, claim: &Claim) -> Result<bool, NoMemory>
    requires { IsKnown known.now }
    ensures { IfOk result (λ holds. holds ≡ Spec.holds (program_tree known.now.program.now) (Lines.line_of claim.now)) }
{
    let pair = claimed(known, claim.source, claim.sink, claim.pattern.as_slice());
    match &pair {
        Some(pair) => is_refuted(alloc, known, pair, claim),
        None => Ok(false),
    }
}

/// Whether the steps of a claim refute the system of this pair.
fn is_refuted(alloc: Global, known: &Known, pair: &Spoken, claim: &Claim) -> Result<bool, NoMemory>
    requires known { IsKnown known.now }
    requires pair { AreShallow pair.now }
    ensures { IfOk result (λ refuted. refuted ≡ Certificates.refutes
        (Claims.system (program_tree known.now.program.now) (reference_of pair.now.source.now) (reference_of pair.now.sink.now) claim.now.pattern) claim.now.steps) }
{
    let described = described_pair(alloc, known, pair, claim.pattern.as_slice())?;
    refutes(alloc, &described.system, claim.steps.as_slice())
}

/// Whether evidence disproves a vector of a dependence from the reference at the first place to the one at the second,
/// where these of its lines hold.
pub fn is_disproved(
    source: (u32, u32),
    sink: (u32, u32),
    vector: &[Direction],
    evidence: &[EvidenceLine],
    held: &[bool],
) -> bool
    ensures { (t : ProgramTree) (e : Edge) → held.now ≡ map (Lines.line_holds t) evidence.now → e.source ≡ source → e.sink ≡ sink
        → result ≡ Spec.disproves t (Lines.lines_of evidence.now) e vector.now }
{
    some_speaks_of(source, sink, vector, evidence, held)
}

/// Whether a line that holds speaks of a dependence between these places in these directions.
fn some_speaks_of(
    source: (u32, u32),
    sink: (u32, u32),
    vector: &[Direction],
    evidence: &[EvidenceLine],
    held: &[bool],
) -> bool
    ensures { result ≡ some_speaks_of source sink vector.now evidence.now held.now }
{
    for i in 0..evidence.len().min(held.len()) {
        if is_said(source, sink, vector, &evidence[i], held[i]) {
            return true;
        }
    }
    false
}

/// Whether a line speaks of a dependence between these places in these directions, and holds.
fn is_said(
    source: (u32, u32),
    sink: (u32, u32),
    vector: &[Direction],
    line: &EvidenceLine,
    holds: bool,
) -> bool
    ensures { result ≡ (line_speaks_of source sink vector.now line.now && holds) }
{
    speaks_of(source, sink, vector, line) && holds
}

/// Whether a line of a text speaks of a dependence between these places in these directions.
fn speaks_of(
    source: (u32, u32),
    sink: (u32, u32),
    vector: &[Direction],
    line: &EvidenceLine,
) -> bool
    ensures { result ≡ line_speaks_of source sink vector.now line.now }
{
    match line {
        EvidenceLine::Empty | EvidenceLine::Malformed => false,
        EvidenceLine::Claim(claim) => is_place(claim.source, source)
            && is_place(claim.sink, sink)
            && fits(claim.pattern.as_slice(), vector),
    }
}

/// Whether this is the place.
fn is_place(position: Position, place: (u32, u32)) -> bool
    ensures { result ≡ Spec.same_place (Lines.place position) place }
{
    position.statement == place.0 && position.number == place.1
}

/// Whether a pattern fits a vector.
fn fits(pattern: &[Sign], vector: &[Direction]) -> bool
    ensures { result ≡ Signs.fits pattern.now vector.now }
{
    if pattern.len() != vector.len() {
        return false;
    }
    for i in 0..pattern.len().min(vector.len()) {
        if !says(pattern[i], vector[i]) {
            return false;
        }
    }
    true
}

/// Whether a sign says a direction.
fn says(sign: Sign, direction: Direction) -> bool
    ensures { result ≡ Signs.says sign direction }
{
    match sign {
        Sign::Any => true,
        Sign::Before => direction == Direction::Before,
        Sign::Same => direction == Direction::Same,
        Sign::After => direction == Direction::After,
    }
}
