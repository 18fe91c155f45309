//! What a DO does to many scalars, from what its body does.

ghost use Rattle.std.specs.Prelude.{◌≡◌, ℕ, List, [], ◌∷◌, ◌++◌, length, Option, Some, IfOk, if◌then◌else◌};
ghost use Rattle.ped_base.specs.Lists.{is_same_text};
ghost use Rattle.ped_tree.specs.Tree;
ghost use Rattle.ped_tree.specs.Views.{stmt_trees};
ghost use Rattle.ped_tree.specs.Views.{head_of};
ghost use Rattle.ped_tree.specs.NamesIn.{all_loop_variables};
ghost use Rattle.ped_flow.specs.Events as Event;
ghost use Rattle.ped_flow.specs.Summaries as Spec;
ghost use Rattle.ped_flow.specs.Kept.{unless, first_reader};
ghost use Rattle.ped_flow.specs.RowPlaces.{place_of, IsRowOf};
ghost use Rattle.ped_flow.specs.RowMarks.{names_in, constants_in};
ghost use Rattle.ped_flow.specs.Rows.{Holds};
ghost use Rattle.ped_flow.specs.Parts.{IsPart};
ghost use Rattle.ped_flow.specs.declared.summaries.Summary.{Summary};

use crate::marking::{mark_name, mark_names};
use crate::parts::Part;
use crate::places::Places;
use crate::row_events::entering;
use crate::row_steps::less;
use crate::row_summaries::RowSummary;
use ped_base::NoMemory;
use ped_bits::Row;
use ped_tree::Do;
use std::alloc::Global;

/// A DO, from what its body does.
pub(crate) fn loop_part(
    alloc: Global,
    places: &Places,
    d: &Do,
    body: &Part,
) -> Result<Part, NoMemory>
    requires { body.now.summaries.width ≡ length (names_in places.now) }
    ensures { IfOk result (λ p. (n : ℕ) (f : List ℕ → Summary) (o : List ℕ → Option ℕ) → IsPart (names_in places.now) body.now f o (all_loop_variables (stmt_trees d.now.body.items)) → IsPart (names_in places.now) p (λ x. Spec.summary_in_turn (Spec.summary_events x (Event.own_events (constants_in places.now) n (Tree.Do (head_of d.now) (stmt_trees d.now.body.items)))) (Spec.summary_loop x n (head_of d.now) (stmt_trees d.now.body.items) (f x))) (λ x. Spec.least_of (first_reader x (Event.own_events (constants_in places.now) n (Tree.Do (head_of d.now) (stmt_trees d.now.body.items)))) (unless (is_same_text x d.now.variable) (o x))) (d.now.variable ∷ all_loop_variables (stmt_trees d.now.body.items))) }
{
    let trips = all_trips(alloc, places, d, body)?;
    let part = entered(alloc, places, d, &trips);
    drop(trips);
    part
}

/// The entry of a DO, and then its trips and its exit.
fn entered(alloc: Global, places: &Places, d: &Do, trips: &Part) -> Result<Part, NoMemory>
    requires { trips.now.summaries.width ≡ length (names_in places.now) }
    ensures { IfOk result (λ p. (n : ℕ) (g : List ℕ → Summary) (q : List ℕ → Option ℕ) (v : List (List ℕ)) → IsPart (names_in places.now) trips.now g q v → IsPart (names_in places.now) p (λ x. Spec.summary_in_turn (Spec.summary_events x (Event.own_events (constants_in places.now) n (Tree.Do (head_of d.now) (stmt_trees d.now.body.items)))) (g x)) (λ x. Spec.least_of (first_reader x (Event.own_events (constants_in places.now) n (Tree.Do (head_of d.now) (stmt_trees d.now.body.items)))) (q x)) v) }
{
    let part = entering(alloc, places, d)?;
    part.followed(alloc, trips)
}

/// The trips of a DO and its exit, from what its body does.
fn all_trips(alloc: Global, places: &Places, d: &Do, body: &Part) -> Result<Part, NoMemory>
    requires { body.now.summaries.width ≡ length (names_in places.now) }
    ensures width { IfOk result (λ p. p.summaries.width ≡ length (names_in places.now)) }
    ensures part { IfOk result (λ p. (n : ℕ) (f : List ℕ → Summary) (o : List ℕ → Option ℕ) → IsPart (names_in places.now) body.now f o (all_loop_variables (stmt_trees d.now.body.items)) → IsPart (names_in places.now) p (λ x. Spec.summary_loop x n (head_of d.now) (stmt_trees d.now.body.items) (f x)) (λ x. unless (is_same_text x d.now.variable) (o x)) (d.now.variable ∷ all_loop_variables (stmt_trees d.now.body.items))) }
{
    let iteration = iterating(alloc, places, d, body)?;
    let part = tripping(alloc, places, d, body, &iteration);
    drop(iteration);
    part
}

/// The scalars of which each iteration of a DO has copies in addition to its variable.
fn copies(alloc: Global, places: &Places, d: &Do, indices: &Row) -> Result<Row, NoMemory>
    requires { length indices.now ≡ length (names_in places.now) }
    ensures width { IfOk result (λ r. length r ≡ length (names_in places.now)) }
    ensures row { IfOk result (λ r. IsRowOf (names_in places.now) indices.now (all_loop_variables (stmt_trees d.now.body.items)) → IsRowOf (names_in places.now) r (Event.copied (head_of d.now) (stmt_trees d.now.body.items))) }
{
    let mut row = Row::new(alloc, places.names.len())?;
    mark_names(places, &mut row, d.private.as_slice());
    if d.parallel {
        indices.or_into(&mut row);
    }
    Ok(row)
}

/// The scalars that the exit of a DO leaves without a value.
fn left_by(alloc: Global, places: &Places, d: &Do, indices: &Row) -> Result<Row, NoMemory>
    requires { length indices.now ≡ length (names_in places.now) }
    ensures width { IfOk result (λ r. length r ≡ length (names_in places.now)) }
    ensures row { IfOk result (λ r. IsRowOf (names_in places.now) indices.now (all_loop_variables (stmt_trees d.now.body.items)) → IsRowOf (names_in places.now) r ((if d.now.parallel then d.now.variable ∷ [] else []) ++ Event.copied (head_of d.now) (stmt_trees d.now.body.items))) }
{
    let mut row = copies(alloc, places, d, indices)?;
    if d.parallel {
        mark_name(places, &mut row, &d.variable);
    }
    Ok(row)
}

/// An iteration of a DO, from what its body does.
fn iterating(alloc: Global, places: &Places, d: &Do, body: &Part) -> Result<RowSummary, NoMemory>
    requires { body.now.summaries.width ≡ length (names_in places.now) }
    ensures width { IfOk result (λ r. r.width ≡ length (names_in places.now)) }
    ensures held { IfOk result (λ r. (n : ℕ) (f : List ℕ → Summary) (o : List ℕ → Option ℕ) → IsPart (names_in places.now) body.now f o (all_loop_variables (stmt_trees d.now.body.items)) → (x : List ℕ) (i : ℕ) → place_of (names_in places.now) x ≡ Some i → Holds r i (Spec.summary_in_turn (Spec.summary_events x (Event.start_events n (head_of d.now) (stmt_trees d.now.body.items))) (f x))) }
{
    let start = starting(alloc, places, d, &body.indices)?;
    start.followed(alloc, &body.summaries)
}

/// The start of an iteration of a DO, with the variables of the loops in it.
fn starting(alloc: Global, places: &Places, d: &Do, indices: &Row) -> Result<RowSummary, NoMemory>
    requires { length indices.now ≡ length (names_in places.now) }
    ensures width { IfOk result (λ r. r.width ≡ length (names_in places.now)) }
    ensures held { IfOk result (λ r. (n : ℕ) → IsRowOf (names_in places.now) indices.now (all_loop_variables (stmt_trees d.now.body.items)) → (x : List ℕ) (i : ℕ) → place_of (names_in places.now) x ≡ Some i → Holds r i (Spec.summary_events x (Event.start_events n (head_of d.now) (stmt_trees d.now.body.items)))) }
{
    let copies = copies(alloc, places, d, indices)?;
    RowSummary::cleared(alloc, &copies)
}

/// The trips of a DO and its exit, from what its body and an iteration do.
fn tripping(
    alloc: Global,
    places: &Places,
    d: &Do,
    body: &Part,
    iteration: &RowSummary,
) -> Result<Part, NoMemory>
    requires body { body.now.summaries.width ≡ length (names_in places.now) }
    requires iteration { iteration.now.width ≡ length (names_in places.now) }
    ensures width { IfOk result (λ p. p.summaries.width ≡ length (names_in places.now)) }
    ensures part { IfOk result (λ p. (n : ℕ) (f : List ℕ → Summary) (o : List ℕ → Option ℕ) → IsPart (names_in places.now) body.now f o (all_loop_variables (stmt_trees d.now.body.items)) → ((x : List ℕ) (i : ℕ) → place_of (names_in places.now) x ≡ Some i → Holds iteration.now i (Spec.summary_in_turn (Spec.summary_events x (Event.start_events n (head_of d.now) (stmt_trees d.now.body.items))) (f x))) → IsPart (names_in places.now) p (λ x. Spec.summary_loop x n (head_of d.now) (stmt_trees d.now.body.items) (f x)) (λ x. unless (is_same_text x d.now.variable) (o x)) (d.now.variable ∷ all_loop_variables (stmt_trees d.now.body.items))) }
{
    let mut indices = variable_of(alloc, places, d)?;
    let loose = less(alloc, &body.loose, &indices)?;
    body.indices.or_into(&mut indices);
    let summaries = trip_summaries(alloc, places, d, body, iteration)?;
    Ok(Part {
        summaries,
        loose,
        indices,
    })
}

/// The place of the variable of a DO alone.
fn variable_of(alloc: Global, places: &Places, d: &Do) -> Result<Row, NoMemory>
    ensures width { IfOk result (λ r. length r ≡ length (names_in places.now)) }
    ensures row { IfOk result (λ r. IsRowOf (names_in places.now) r (d.now.variable ∷ [])) }
{
    let mut row = Row::new(alloc, places.names.len())?;
    mark_name(places, &mut row, &d.variable);
    Ok(row)
}

/// What the trips of a DO and its exit do, from what an iteration does.
fn trip_summaries(
    alloc: Global,
    places: &Places,
    d: &Do,
    body: &Part,
    iteration: &RowSummary,
) -> Result<RowSummary, NoMemory>
    requires body { body.now.summaries.width ≡ length (names_in places.now) }
    requires iteration { iteration.now.width ≡ length (names_in places.now) }
    ensures width { IfOk result (λ r. r.width ≡ length (names_in places.now)) }
    ensures held { IfOk result (λ r. (n : ℕ) (m : Summary) → IsRowOf (names_in places.now) body.now.indices (all_loop_variables (stmt_trees d.now.body.items)) → (x : List ℕ) (i : ℕ) → place_of (names_in places.now) x ≡ Some i → Holds iteration.now i m → Holds r i (Spec.summary_in_turn (Spec.summary_trips m) (Spec.summary_events x (Event.exit_events n (head_of d.now) (stmt_trees d.now.body.items))))) }
{
    let exit = leaving(alloc, places, d, &body.indices)?;
    let summaries = iteration.trips(alloc, &exit);
    drop(exit);
    summaries
}

/// The exit of a DO, with the variables of the loops in it.
fn leaving(alloc: Global, places: &Places, d: &Do, indices: &Row) -> Result<RowSummary, NoMemory>
    requires { length indices.now ≡ length (names_in places.now) }
    ensures width { IfOk result (λ r. r.width ≡ length (names_in places.now)) }
    ensures held { IfOk result (λ r. (n : ℕ) → IsRowOf (names_in places.now) indices.now (all_loop_variables (stmt_trees d.now.body.items)) → (x : List ℕ) (i : ℕ) → place_of (names_in places.now) x ≡ Some i → Holds r i (Spec.summary_events x (Event.exit_events n (head_of d.now) (stmt_trees d.now.body.items)))) }
{
    let left = left_by(alloc, places, d, indices)?;
    RowSummary::cleared(alloc, &left)
}
