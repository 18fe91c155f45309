//! What is known of the pairs of a program without a test, and the views that are to be tested.

ghost use Rattle.std.specs.Prelude.{◌≡◌, ◌≤◌, ◌<◌, ◌++◌, ◌∷◌, [], Some, map, length, IfOk, IfSome, OnOk, All, slice_get};
ghost use Rattle.ped_tree.specs.Views.{program_tree};
ghost use Rattle.ped_symbols.specs.NameRefusals.{IsValid};
ghost use Rattle.ped_symbols.specs.Kinds.{table_of};
ghost use Rattle.ped_refs.specs.References.{Reference, outermost, references, pairs};
ghost use Rattle.ped_refs.specs.Occurrences.{reference_of, references_of, pair_at, IsWithin};
ghost use Rattle.ped_affine.specs.Arguments.{setting_of, site};
ghost use Rattle.ped_affine.specs.PairViews.{view_at};
ghost use Rattle.ped_graph.specs.Sides.{IsSide};
ghost use Rattle.ped_graph.specs.Guards as Guards;
ghost use Rattle.ped_graph.specs.Held.{framed, frame_of, views_of};
ghost use Rattle.ped_graph.specs.Dependences as Spec;
ghost use Rattle.ped_graph.specs.Dependences.{facts_of, view_of};
ghost use Rattle.ped_graph.specs.CodeFacts.{framed_of};
ghost use Rattle.ped_graph.specs.KnownProgram.{own_of, IsKnown, IsRound, AreSides};

use crate::facts::{Facts, push_facts};
use crate::frames::Frame;
use crate::numbered::numbered_statements;
use crate::own_facts::{OwnFacts, all_own_facts};
use crate::rounds::{assigned_by, have_same_outermost, outermost};
use crate::sides::{Side, side_at, side_there};
use crate::told::told_view;
use ped_affine::{Place, Setting, loop_variables, view};
use ped_base::NoMemory;
use ped_refs::{Occurrence, Pair, listed_pairs, occurrences};
use ped_tree::constants::Consts;
use ped_tree::names::NameSet;
use ped_tree::{Program, Stmt};
use ped_views::PairView;
use std::alloc::Global;

/// Pairs of references with their views, side by side.
#[derive(Drop)]
pub struct Pairs {
    /// What is known of them without a test.
    pub facts: Vec<Facts>,
    /// Their views.
    pub views: Vec<PairView>,
}

/// What is known of a program before its pairs are tested.
#[derive(Clone, Copy)]
pub struct Known<'a, 's> {
    /// The program.
    pub program: &'a Program,
    /// Its named constants.
    pub consts: &'a Consts,
    /// The variables of its DO loops.
    pub loop_variables: &'a NameSet,
    /// Its references.
    pub found: &'a [Occurrence<'a>],
    /// What is known of each reference by itself.
    pub own: &'a [OwnFacts],
    /// The numbered statements of the program.
    pub statements: &'a [&'s Stmt],
}

/// The DO that is the outermost around some references, and what it assigns.
#[derive(Drop)]
pub struct Round {
    /// Its statement number.
    pub number: u32,
    /// What it assigns.
    pub assigned: NameSet,
}

/// All pairs of references of a valid program, whose named constants these are, with their views.
pub fn all_pairs(alloc: Global, program: &Program, consts: &Consts) -> Result<Pairs, NoMemory>
    requires valid { IsValid (program_tree program.now) }
    requires constants { consts.now ≡ (table_of (program_tree program.now)).constants }
    ensures facts { IfOk result (λ pairs. map framed_of pairs.facts.items ≡ (frame_of (program_tree program.now)).pairs) }
    ensures views { IfOk result (λ pairs. pairs.views.items ≡ views_of (program_tree program.now)) }
{
    let found = occurrences(alloc, program)?;
    let listed = listed_pairs(alloc, &found)?;
    let own = all_own_facts(alloc, program, consts, &found)?;
    let statements = numbered_statements(alloc, &program.body)?;
    let loop_variables = loop_variables(alloc, &program.body)?;
    let known = Known {
        program,
        consts,
        loop_variables: &loop_variables,
        found: &found,
        own: &own,
        statements: &statements,
    };
    pairs_of(alloc, &known, &listed)
}

/// These pairs of references, which are all pairs of the program, with their views.
fn pairs_of(alloc: Global, known: &Known, listed: &[Pair]) -> Result<Pairs, NoMemory>
    requires known { IsKnown known.now }
    requires within { All (IsWithin (length known.now.found.now)) listed.now }
    requires listed { map (pair_at (references_of known.now.found.now)) listed.now ≡ map Some (pairs (references (program_tree known.now.program.now))) }
    ensures facts { IfOk result (λ pairs. map framed_of pairs.facts.items ≡ (frame_of (program_tree known.now.program.now)).pairs) }
    ensures views { IfOk result (λ pairs. pairs.views.items ≡ views_of (program_tree known.now.program.now)) }
{
    let facts = facts_of_pairs(alloc, known, listed)?;
    let views = views_of_pairs(alloc, known, listed)?;
    Ok(Pairs { facts, views })
}

/// What is known of the program without a test, where these are all its pairs, and these the numbers of statements in
/// each of its statements.
pub fn frame_by(
    alloc: Global,
    known: &Known,
    listed: &[Pair],
    extents: Vec<u32>,
) -> Result<Frame, NoMemory>
    requires known { IsKnown known.now }
    requires within { All (IsWithin (length known.now.found.now)) listed.now }
    requires listed { map (pair_at (references_of known.now.found.now)) listed.now ≡ map Some (pairs (references (program_tree known.now.program.now))) }
    requires extents { extents.items ≡ (frame_of (program_tree known.now.program.now)).extents }
    ensures { IfOk result (λ frame. frame ≡ frame_of (program_tree known.now.program.now)) }
{
    let pairs = facts_of_pairs(alloc, known, listed)?;
    Ok(Frame { pairs, extents })
}

/// What is known of these pairs, which are all pairs of the program, without a test.
fn facts_of_pairs(alloc: Global, known: &Known, listed: &[Pair]) -> Result<Vec<Facts>, NoMemory>
    requires known { IsKnown known.now }
    requires within { All (IsWithin (length known.now.found.now)) listed.now }
    requires listed { map (pair_at (references_of known.now.found.now)) listed.now ≡ map Some (pairs (references (program_tree known.now.program.now))) }
    ensures { IfOk result (λ facts. map framed_of facts.items ≡ (frame_of (program_tree known.now.program.now)).pairs) }
{
    let mut facts = Vec::with_capacity(alloc, listed.len())?;
    for pair in listed {
        add_facts(&mut facts, known, pair)?;
    }
    Ok(facts)
}

/// The views of these pairs, which are all pairs of the program.
fn views_of_pairs(alloc: Global, known: &Known, listed: &[Pair]) -> Result<Vec<PairView>, NoMemory>
    requires known { IsKnown known.now }
    requires within { All (IsWithin (length known.now.found.now)) listed.now }
    requires listed { map (pair_at (references_of known.now.found.now)) listed.now ≡ map Some (pairs (references (program_tree known.now.program.now))) }
    ensures { IfOk result (λ views. views.items ≡ views_of (program_tree known.now.program.now)) }
{
    let sides = sides_of(alloc, known)?;
    let mut views = Vec::with_capacity(alloc, listed.len())?;
    let mut round = Round {
        number: 0,
        assigned: NameSet::new(alloc),
    };
    for pair in listed {
        let number = outermost(occurrence_at(known, pair.source));
        enter(alloc, &mut round, known, number)?;
        add_view(alloc, &mut views, known, &sides, &round, pair)?;
    }
    Ok(views)
}

/// Adds the view of a pair of the program's references, by their places.
fn add_view<'a>(
    alloc: Global,
    views: &mut Vec<PairView>,
    known: &Known,
    sides: &'a [Side<'a>],
    round: &Round,
    pair: &Pair,
) -> Result<(), NoMemory>
    requires known { IsKnown known.now }
    requires sides { AreSides (program_tree known.now.program.now) (references_of known.now.found.now) sides.now }
    requires within { IsWithin (length known.now.found.now) pair.now }
    requires round { IsRound (program_tree known.now.program.now) round.now }
    requires entered { (source : Reference) → slice_get (references_of known.now.found.now) pair.now.source ≡ Some source → round.now.number ≡ outermost source }
    ensures { OnOk result ((p : Reference × Reference) → pair_at (references_of known.now.found.now) pair.now ≡ Some p
        → views.new.items ≡ views.old.items ++ view_of (program_tree known.now.program.now) p.0 p.1 ∷ []) }
{
    let view = view_of_pair(alloc, known, sides, round, pair)?;
    views.push(view)?;
    Ok(())
}

/// The view of a pair of the program's references, by their places: by their sides, where these determine it.
fn view_of_pair<'a>(
    alloc: Global,
    known: &Known,
    sides: &'a [Side<'a>],
    round: &Round,
    pair: &Pair,
) -> Result<PairView, NoMemory>
    requires known { IsKnown known.now }
    requires sides { AreSides (program_tree known.now.program.now) (references_of known.now.found.now) sides.now }
    requires within { IsWithin (length known.now.found.now) pair.now }
    requires round { IsRound (program_tree known.now.program.now) round.now }
    requires entered { (source : Reference) → slice_get (references_of known.now.found.now) pair.now.source ≡ Some source → round.now.number ≡ outermost source }
    ensures { IfOk result (λ v. (p : Reference × Reference) → pair_at (references_of known.now.found.now) pair.now ≡ Some p
        → v ≡ view_of (program_tree known.now.program.now) p.0 p.1) }
{
    match told_at(alloc, known, sides, pair)? {
        Some(view) => Ok(view),
        None => view_at(alloc, known, round, pair),
    }
}

/// The view of a pair of the program's references, by their places, where their sides determine it.
fn told_at<'a>(
    alloc: Global,
    known: &Known,
    sides: &'a [Side<'a>],
    pair: &Pair,
) -> Result<Option<PairView>, NoMemory>
    requires known { IsKnown known.now }
    requires sides { AreSides (program_tree known.now.program.now) (references_of known.now.found.now) sides.now }
    requires within { IsWithin (length known.now.found.now) pair.now }
    ensures { IfOk result (λ told. IfSome told (λ v. (p : Reference × Reference) → pair_at (references_of known.now.found.now) pair.now ≡ Some p
        → v ≡ view_of (program_tree known.now.program.now) p.0 p.1)) }
{
    let source = occurrence_at(known, pair.source);
    let sink = occurrence_at(known, pair.sink);
    if !have_same_outermost(source, sink) {
        return Ok(None);
    }
    if pair.source >= sides.len() {
        return Ok(None);
    }
    if pair.sink >= sides.len() {
        return Ok(None);
    }
    let first = side_there(sides, pair.source);
    let second = side_there(sides, pair.sink);
    told_view(alloc, first, second)
}

/// The references of a program as sides of their pairs.
pub fn sides_of<'a>(alloc: Global, known: &Known<'a, '_>) -> Result<Vec<Side<'a>>, NoMemory>
    requires { IsKnown known.now }
    ensures { IfOk result (λ sides. AreSides (program_tree known.now.program.now) (references_of known.now.found.now) sides.items) }
{
    let mut sides = Vec::new(alloc);
    let mut round = Round {
        number: 0,
        assigned: NameSet::new(alloc),
    };
    for occurrence in known.found {
        enter(alloc, &mut round, known, outermost(occurrence))?;
        let side = side_of(alloc, known, &round, occurrence)?;
        sides.push(side)?;
    }
    Ok(sides)
}

/// A reference as a side of its pairs.
fn side_of<'a>(
    alloc: Global,
    known: &Known<'a, '_>,
    round: &Round,
    occurrence: &'a Occurrence<'a>,
) -> Result<Side<'a>, NoMemory>
    requires known { IsKnown known.now }
    requires shallow { length occurrence.now.nest.items ≤ 6 }
    requires round { IsRound (program_tree known.now.program.now) round.now }
    requires entered { round.now.number ≡ outermost (reference_of occurrence.now) }
    ensures { IfOk result (IsSide (Spec.setting_in (program_tree known.now.program.now) (outermost (reference_of occurrence.now))) (Spec.site_of (reference_of occurrence.now))) }
{
    let setting = Setting {
        constants: known.consts,
        loop_variables: known.loop_variables,
        assigned: &round.assigned,
    };
    side_at(alloc, &setting, &place_of(occurrence))
}

/// Goes on to the DO with this number, unless it is the same.
pub fn enter(alloc: Global, round: &mut Round, known: &Known, number: u32) -> Result<(), NoMemory>
    requires known { IsKnown known.now }
    requires round { IsRound (program_tree known.now.program.now) round.old }
    ensures round { OnOk result (IsRound (program_tree known.now.program.now) round.new) }
    ensures number { OnOk result (round.new.number ≡ number) }
{
    if round.number == number {
        return Ok(());
    }
    round.assigned = assigned_by(alloc, known.statements, number)?;
    round.number = number;
    Ok(())
}

/// Adds what is known of a pair of the program's references, by their places.
fn add_facts(all: &mut Vec<Facts>, known: &Known, pair: &Pair) -> Result<(), NoMemory>
    requires known { IsKnown known.now }
    requires within { IsWithin (length known.now.found.now) pair.now }
    ensures { OnOk result ((p : Reference × Reference) → pair_at (references_of known.now.found.now) pair.now ≡ Some p
        → map framed_of all.new.items ≡ map framed_of all.old.items ++ framed (facts_of (program_tree known.now.program.now)) p.0 p.1 ∷ []) }
{
    push_facts(
        all,
        occurrence_at(known, pair.source),
        occurrence_at(known, pair.sink),
        own_at(known, pair.source),
        own_at(known, pair.sink),
    )
}

/// The view of a pair of the program's references, by their places.
pub fn view_at(
    alloc: Global,
    known: &Known,
    round: &Round,
    pair: &Pair,
) -> Result<PairView, NoMemory>
    requires known { IsKnown known.now }
    requires within { IsWithin (length known.now.found.now) pair.now }
    requires round { IsRound (program_tree known.now.program.now) round.now }
    requires entered { (source : Reference) → slice_get (references_of known.now.found.now) pair.now.source ≡ Some source → round.now.number ≡ outermost source }
    ensures { IfOk result (λ v. (p : Reference × Reference) → pair_at (references_of known.now.found.now) pair.now ≡ Some p
        → v ≡ view_of (program_tree known.now.program.now) p.0 p.1) }
{
    let setting = Setting {
        constants: known.consts,
        loop_variables: known.loop_variables,
        assigned: &round.assigned,
    };
    let source = occurrence_at(known, pair.source);
    let sink = occurrence_at(known, pair.sink);
    view_in(alloc, &setting, source, sink)
}

/// The view of a pair of references in a setting.
fn view_in(
    alloc: Global,
    setting: &Setting,
    source: &Occurrence,
    sink: &Occurrence,
) -> Result<PairView, NoMemory>
    requires source { length source.now.nest.items ≤ 6 }
    requires sink { length sink.now.nest.items ≤ 6 }
    ensures { IfOk result (λ v. v ≡ view_at (setting_of setting.now) (Spec.site_of (reference_of source.now)) (Spec.site_of (reference_of sink.now))) }
{
    view(alloc, setting, &place_of(source), &place_of(sink))
}

/// The reference at a place.
pub fn occurrence_at<'a>(known: &Known<'a, '_>, place: usize) -> &'a Occurrence<'a>
    requires known { IsKnown known.now }
    requires within { place < length known.now.found.now }
    ensures there { slice_get (references_of known.now.found.now) place ≡ Some (reference_of result.now) }
    ensures shallow { length result.now.nest.items ≤ 6 }
{
    &known.found[place]
}

/// What is known of the reference at a place by itself.
fn own_at<'a>(known: &Known<'a, '_>, place: usize) -> &'a OwnFacts
    requires known { IsKnown known.now }
    requires within { place < length known.now.found.now }
    ensures { (r : Reference) → slice_get (references_of known.now.found.now) place ≡ Some r
        → result.now ≡ own_of known.now.consts.now (Guards.guards (program_tree known.now.program.now)) r }
{
    own_there(known.own, place)
}

fn own_there(own: &[OwnFacts], place: usize) -> &OwnFacts
    requires { place < length own.now }
    ensures { slice_get own.now place ≡ Some result.now }
{
    &own[place]
}

/// Where a reference is.
fn place_of<'a>(occurrence: &'a Occurrence<'a>) -> Place<'a>
    ensures site { site result ≡ Spec.site_of (reference_of occurrence.now) }
    ensures depth { length result.nest.now ≡ length occurrence.now.nest.items }
{
    Place {
        nest: &occurrence.nest,
        subscripts: occurrence.subscripts,
    }
}
