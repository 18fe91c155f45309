//! What a statement by itself does to many scalars.

ghost use Rattle.std.specs.Prelude.{◌≡◌, ℕ, List, [], Option, map, length, IfOk, OnOk};
ghost use Rattle.ped_tree.specs.Tree;
ghost use Rattle.ped_tree.specs.Views.{expr_tree, cond_tree, item_tree, stmt_trees};
ghost use Rattle.ped_tree.specs.Views.{head_of};
ghost use Rattle.ped_flow.specs.Events as Event;
ghost use Rattle.ped_flow.specs.Summaries as Spec;
ghost use Rattle.ped_flow.specs.Kept.{first_reader};
ghost use Rattle.ped_flow.specs.RowMarks.{names_in, constants_in};
ghost use Rattle.ped_flow.specs.Parts.{IsPart, IsPartOf};
ghost use Rattle.ped_flow.specs.declared.summaries.Summary.{Summary};

use crate::marking::{
    mark_assigned, mark_condition, mark_expression, mark_items, mark_name, mark_read,
};
use crate::parts::Part;
use crate::places::Places;
use ped_base::NoMemory;
use ped_bits::Row;
use ped_tree::{Cond, Do, Expr, PrintItem};
use std::alloc::Global;

/// An assignment.
pub(crate) fn assignment(
    alloc: Global,
    places: &Places,
    left: &Expr,
    right: &Expr,
) -> Result<Part, NoMemory>
    ensures { IfOk result (λ p. (n : ℕ) → IsPartOf (names_in places.now) p (Event.own_events (constants_in places.now) n (Tree.Assign (expr_tree left.now) (expr_tree right.now)))) }
{
    let width = places.names.len();
    let mut reads = Row::new(alloc, width)?;
    mark_expression(places, &mut reads, right);
    mark_read(places, &mut reads, left);
    let mut assigned = Row::new(alloc, width)?;
    mark_assigned(places, &mut assigned, left);
    Part::of_events(alloc, reads, assigned)
}

/// A PRINT of items.
pub(crate) fn printing(
    alloc: Global,
    places: &Places,
    items: &[PrintItem],
) -> Result<Part, NoMemory>
    ensures { IfOk result (λ p. (n : ℕ) → IsPartOf (names_in places.now) p (Event.own_events (constants_in places.now) n (Tree.Print (map item_tree items.now)))) }
{
    let width = places.names.len();
    let mut reads = Row::new(alloc, width)?;
    mark_items(places, &mut reads, items);
    let assigned = Row::new(alloc, width)?;
    Part::of_events(alloc, reads, assigned)
}

/// A condition of an IF.
pub(crate) fn deciding(alloc: Global, places: &Places, c: &Cond) -> Result<Part, NoMemory>
    ensures { IfOk result (λ p. (n : ℕ) → IsPartOf (names_in places.now) p (Event.reads_of n (Event.scalars_in_cond (constants_in places.now) (cond_tree c.now)))) }
{
    let width = places.names.len();
    let mut reads = Row::new(alloc, width)?;
    mark_condition(places, &mut reads, c);
    let assigned = Row::new(alloc, width)?;
    Part::of_events(alloc, reads, assigned)
}

/// An item of a READ.
fn reading_of(alloc: Global, places: &Places, left: &Expr) -> Result<Part, NoMemory>
    ensures { IfOk result (λ p. (n : ℕ) → IsPartOf (names_in places.now) p (Event.left_events (constants_in places.now) n (expr_tree left.now))) }
{
    let width = places.names.len();
    let mut reads = Row::new(alloc, width)?;
    mark_read(places, &mut reads, left);
    let mut assigned = Row::new(alloc, width)?;
    mark_assigned(places, &mut assigned, left);
    Part::of_events(alloc, reads, assigned)
}

/// A READ of items, one after the other.
pub(crate) fn reading(alloc: Global, places: &Places, lefts: &[Expr]) -> Result<Part, NoMemory>
    ensures { IfOk result (λ p. (n : ℕ) → IsPartOf (names_in places.now) p (Event.own_events (constants_in places.now) n (Tree.Read (map expr_tree lefts.now)))) }
{
    let mut part = Part::nothing(alloc, places.names.len())?;
    for left in lefts {
        if let Err(error) = add_item(alloc, places, &mut part, left) {
            drop(part);
            return Err(error);
        }
    }
    Ok(part)
}

/// An item of a READ after those before it.
fn add_item(alloc: Global, places: &Places, part: &mut Part, left: &Expr) -> Result<(), NoMemory>
    requires { part.old.summaries.width ≡ length (names_in places.now) }
    ensures width { part.new.summaries.width ≡ part.old.summaries.width }
    ensures part { OnOk result ((n : ℕ) (f : List ℕ → Summary) (o : List ℕ → Option ℕ) → IsPart (names_in places.now) part.old f o [] → IsPart (names_in places.now) part.new (λ x. Spec.summary_in_turn (f x) (Spec.summary_events x (Event.left_events (constants_in places.now) n (expr_tree left.now)))) (λ x. Spec.least_of (o x) (first_reader x (Event.left_events (constants_in places.now) n (expr_tree left.now)))) []) }
{
    let item = reading_of(alloc, places, left)?;
    let done = part.then(alloc, &item);
    drop(item);
    done
}

/// The entry of a DO.
pub(crate) fn entering(alloc: Global, places: &Places, d: &Do) -> Result<Part, NoMemory>
    ensures { IfOk result (λ p. (n : ℕ) → IsPartOf (names_in places.now) p (Event.own_events (constants_in places.now) n (Tree.Do (head_of d.now) (stmt_trees d.now.body.items)))) }
{
    let width = places.names.len();
    let mut reads = Row::new(alloc, width)?;
    mark_expression(places, &mut reads, &d.first);
    mark_expression(places, &mut reads, &d.last);
    let mut assigned = Row::new(alloc, width)?;
    mark_name(places, &mut assigned, &d.variable);
    Part::of_events(alloc, reads, assigned)
}
