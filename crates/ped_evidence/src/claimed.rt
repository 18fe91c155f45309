//! The pair of references of which a claim speaks, and its system in a program.

ghost use Rattle.std.specs.Prelude.{◌≡◌, ◌≤◌, [], length, All, IfOk, IfSome, option_map};
ghost use Rattle.ped_base.specs.Lists.{is_same_text};
ghost use Rattle.ped_certificates.specs.Limits.{IsSystem};
ghost use Rattle.ped_tree.specs.Views.{program_tree};
ghost use Rattle.ped_tree.specs.Numbering.{statement_with};
ghost use Rattle.ped_tree.specs.Names.Collecting.{with_names};
ghost use Rattle.ped_refs.specs.References as References;
ghost use Rattle.ped_refs.specs.Occurrences.{name_text, reference_of, references_of};
ghost use Rattle.ped_affine.specs.Arguments.{setting_of, site};
ghost use Rattle.ped_laws.specs.ped_graph.specs.Dependences.{assigned_by, site_of};
ghost use Rattle.ped_evidence.specs.Symbols.{symbols_of};
ghost use Rattle.ped_evidence.specs.Systems.{system_at};
ghost use Rattle.ped_evidence.specs.Claims as Spec;
ghost use Rattle.ped_evidence.specs.Lines as Lines;
ghost use Rattle.ped_evidence.specs.Judged.{pair_of, symbols_in, AreShallow, IsKnown, IsShallow};

use crate::systems::{Described, common_depth, describe};
use ped_affine::{Place, Setting, assigned};
use ped_base::NoMemory;
use ped_certificates::{Position, Sign};
use ped_refs::{Occurrence, RefName};
use ped_tree::constants::Consts;
use ped_tree::names::NameSet;
use ped_tree::{Program, Stmt};
use std::alloc::Global;

/// What is known of a program before evidence is judged.
#[derive(Clone, Copy)]
pub struct Known<'a> {
    /// The program.
    pub program: &'a Program,
    /// Its named constants.
    pub constants: &'a Consts,
    /// The variables of its DO loops.
    pub loop_variables: &'a NameSet,
    /// Its references.
    pub found: &'a [Occurrence<'a>],
}

/// Two references of which evidence may speak.
#[derive(Clone, Copy)]
pub struct Spoken<'a> {
    /// The source.
    pub source: &'a Occurrence<'a>,
    /// The sink.
    pub sink: &'a Occurrence<'a>,
}

/// The pair of references at these places, where evidence may speak of it with this pattern.
pub fn claimed<'a>(
    known: &Known<'a>,
    source: Position,
    sink: Position,
    pattern: &[Sign],
) -> Option<Spoken<'a>>
    requires { IsKnown known.now }
    ensures pair { option_map pair_of result ≡ Spec.claimed (program_tree known.now.program.now) (Lines.claim_about source sink pattern.now) }
    ensures shallow { IfSome result AreShallow }
{
    let Some(source) = reference_at(known.found, source) else {
        return None;
    };
    let Some(sink) = reference_at(known.found, sink) else {
        return None;
    };
    if may_speak(source, sink, pattern) {
        Some(Spoken { source, sink })
    } else {
        None
    }
}

/// The reference at a place.
fn reference_at<'a>(found: &'a [Occurrence<'a>], place: Position) -> Option<&'a Occurrence<'a>>
    requires { All IsShallow found.now }
    ensures reference { option_map (λ o. reference_of o.now) result ≡ Spec.reference_at (references_of found.now) (Lines.place place) }
    ensures shallow { IfSome result (λ o. IsShallow o.now) }
{
    for occurrence in found {
        if is_at(occurrence, place) {
            return Some(occurrence);
        }
    }
    None
}

/// Whether a reference is at a place.
fn is_at(occurrence: &Occurrence, place: Position) -> bool
    ensures { result ≡ Spec.is_at (Lines.place place) (reference_of occurrence.now) }
{
    occurrence.statement == place.statement && occurrence.number == place.number
}

/// Whether evidence may speak of two references with a pattern.
fn may_speak(source: &Occurrence, sink: &Occurrence, pattern: &[Sign]) -> bool
    ensures { result ≡ Spec.may_speak (reference_of source.now) (reference_of sink.now) pattern.now }
{
    let depth = common_depth(&source.nest, &sink.nest);
    have_same_name(source, sink)
        && (source.writes || sink.writes)
        && depth > 0
        && !source.subscripts.is_empty()
        && !sink.subscripts.is_empty()
        && pattern.len() == depth
}

/// Whether two references have one name.
fn have_same_name(a: &Occurrence, b: &Occurrence) -> bool
    ensures { result ≡ is_same_text (name_text a.now.name) (name_text b.now.name) }
{
    text_of(&a.name) == text_of(&b.name)
}

/// The text of what a reference reads or writes.
fn text_of(name: &RefName) -> &[u8]
    ensures { result.now ≡ name_text name.now }
{
    match name {
        RefName::Named(name) => name.as_bytes(),
        RefName::In => b"(IN)",
        RefName::Out => b"(OUT)",
    }
}

/// The system of a pair of references of a program and of a pattern, with the symbols of the pair.
pub fn described_pair(
    alloc: Global,
    known: &Known,
    pair: &Spoken,
    pattern: &[Sign],
) -> Result<Described, NoMemory>
    requires known { IsKnown known.now }
    requires pair { AreShallow pair.now }
    ensures system { IfOk result (λ found. found.system ≡ Spec.system (program_tree known.now.program.now) (reference_of pair.now.source.now) (reference_of pair.now.sink.now) pattern.now) }
    ensures symbols { IfOk result (λ found. found.symbols ≡ symbols_in (program_tree known.now.program.now) (pair_of pair.now)) }
    ensures fits { IfOk result (λ found. IsSystem found.system) }
{
    let assigned = assigned_round(alloc, known.program, outermost(pair.source))?;
    let setting = Setting {
        constants: known.constants,
        loop_variables: known.loop_variables,
        assigned: &assigned,
    };
    described_in(alloc, &setting, pair, pattern)
}

/// The same in a setting.
fn described_in(
    alloc: Global,
    setting: &Setting,
    pair: &Spoken,
    pattern: &[Sign],
) -> Result<Described, NoMemory>
    requires { AreShallow pair.now }
    ensures system { IfOk result (λ found. found.system ≡ system_at (setting_of setting.now) (site_of (pair_of pair.now).0) (site_of (pair_of pair.now).1) pattern.now) }
    ensures symbols { IfOk result (λ found. found.symbols ≡ symbols_of (setting_of setting.now) (site_of (pair_of pair.now).0) (site_of (pair_of pair.now).1)) }
    ensures fits { IfOk result (λ found. IsSystem found.system) }
{
    let source = place_of(pair.source);
    let sink = place_of(pair.sink);
    describe(alloc, setting, &source, &sink, pattern)
}

/// The number of the outermost DO round a reference, 0 where there is none.
fn outermost(occurrence: &Occurrence) -> u32
    ensures { result ≡ References.outermost (reference_of occurrence.now) }
{
    match occurrence.nest.first() {
        Some(l) => l.number,
        None => 0,
    }
}

/// What the DO with this number assigns, nothing where no DO has it.
fn assigned_round(alloc: Global, program: &Program, number: u32) -> Result<NameSet, NoMemory>
    ensures { IfOk result (λ names. names ≡ with_names [] (assigned_by (statement_with number (program_tree program.now)))) }
{
    match program.at(number) {
        Some(Stmt::Do(d)) => assigned(alloc, d),
        _ => Ok(NameSet::new(alloc)),
    }
}

/// Where a reference is.
fn place_of<'a>(occurrence: &'a Occurrence<'a>) -> Place<'a>
    requires { IsShallow occurrence.now }
    ensures site { site result ≡ site_of (reference_of occurrence.now) }
    ensures depth { length result.nest.now ≤ 6 }
{
    Place {
        nest: &occurrence.nest,
        subscripts: occurrence.subscripts,
    }
}
