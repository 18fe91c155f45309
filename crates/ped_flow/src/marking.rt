//! The scalars that a part of a statement reads or assigns, as places of a row.

ghost use Rattle.std.specs.Prelude.{◌≡◌, [], ◌∷◌, map, length};
ghost use Rattle.std.specs.List.{flat_map};
ghost use Rattle.ped_tree.specs.Views.{expr_tree, pack_exprs, cond_tree, item_tree};
ghost use Rattle.ped_flow.specs.Events as Event;
ghost use Rattle.ped_flow.specs.RowPlaces.{AreMarked};
ghost use Rattle.ped_flow.specs.RowMarks as Spec;
ghost use Rattle.ped_flow.specs.RowMarks.{names_in, constants_in};

use crate::places::Places;
use ped_base::Name;
use ped_bits::Row;
use ped_tree::{Cond, Expr, PrintItem};

/// Marks a name, where it has a place.
pub(crate) fn mark_name(places: &Places, row: &mut Row, name: &Name)
    requires { length row.old ≡ length (names_in places.now) }
    ensures { AreMarked (names_in places.now) row.old row.new (name.now ∷ []) }
{
    match places.names.place(name) {
        Some(place) => {
            row.set(place);
        }
        None => {}
    }
}

/// Marks names.
pub(crate) fn mark_names(places: &Places, row: &mut Row, names: &[Name])
    requires { length row.old ≡ length (names_in places.now) }
    ensures { AreMarked (names_in places.now) row.old row.new names.now }
{
    for name in names {
        mark_name(places, row, name);
    }
}

/// Marks a variable, which no named constant is.
fn mark_variable(places: &Places, row: &mut Row, name: &Name)
    requires { length row.old ≡ length (names_in places.now) }
    ensures { AreMarked (names_in places.now) row.old row.new (Event.unless_constant (constants_in places.now) name.now) }
{
    mark_name(places, row, name);
}

/// Marks the scalars that an expression reads.
#[cycle(marks)]
pub(crate) fn mark_expression(places: &Places, row: &mut Row, e: &Expr)
    requires { length row.old ≡ length (names_in places.now) }
    ensures { AreMarked (names_in places.now) row.old row.new (Event.scalars_in (constants_in places.now) (expr_tree e.now)) }
{
    match e {
        Expr::Int(_) => {}
        Expr::Var(name) => mark_variable(places, row, name),
        Expr::Element(_, subscripts) => mark_expressions(places, row, subscripts),
        Expr::Neg(a) => mark_expression(places, row, a),
        Expr::Add(a, b) => {
            mark_expression(places, row, a);
            mark_expression(places, row, b);
        }
        Expr::Sub(a, b) => {
            mark_expression(places, row, a);
            mark_expression(places, row, b);
        }
        Expr::Mul(a, b) => {
            mark_expression(places, row, a);
            mark_expression(places, row, b);
        }
        Expr::Div(a, b) => {
            mark_expression(places, row, a);
            mark_expression(places, row, b);
        }
        Expr::Pow(a, b) => {
            mark_expression(places, row, a);
            mark_expression(places, row, b);
        }
        Expr::Call(_, arguments) => mark_expressions(places, row, arguments),
    }
}

/// Marks the scalars that expressions read.
#[cycle(marks)]
pub(crate) fn mark_expressions(places: &Places, row: &mut Row, es: &[Expr])
    requires { length row.old ≡ length (names_in places.now) }
    ensures { AreMarked (names_in places.now) row.old row.new (Event.all_scalars_in (constants_in places.now) (pack_exprs (map expr_tree es.now))) }
{
    for e in es {
        mark_expression(places, row, e);
    }
}

/// Marks the scalars that a condition reads.
#[cycle(condition_marks)]
pub(crate) fn mark_condition(places: &Places, row: &mut Row, c: &Cond)
    requires { length row.old ≡ length (names_in places.now) }
    ensures { AreMarked (names_in places.now) row.old row.new (Event.scalars_in_cond (constants_in places.now) (cond_tree c.now)) }
{
    match c {
        Cond::Rel(_, a, b) => {
            mark_expression(places, row, a);
            mark_expression(places, row, b);
            return;
        }
        Cond::Not(a) => {
            mark_condition(places, row, a);
            return;
        }
        Cond::And(a, b) => {
            mark_condition(places, row, a);
            mark_condition(places, row, b);
            return;
        }
        Cond::Or(a, b) => {
            mark_condition(places, row, a);
            mark_condition(places, row, b);
            return;
        }
    }
}

/// Marks the scalars that an item of a PRINT reads.
fn mark_item(places: &Places, row: &mut Row, item: &PrintItem)
    requires { length row.old ≡ length (names_in places.now) }
    ensures { AreMarked (names_in places.now) row.old row.new (Event.scalars_in_item (constants_in places.now) (item_tree item.now)) }
{
    match item {
        PrintItem::Value(e) => {
            mark_expression(places, row, e);
            return;
        }
        PrintItem::Text(_) => {
            return;
        }
    }
}

/// Marks the scalars that the items of a PRINT read.
pub(crate) fn mark_items(places: &Places, row: &mut Row, items: &[PrintItem])
    requires { length row.old ≡ length (names_in places.now) }
    ensures { AreMarked (names_in places.now) row.old row.new (flat_map (Event.scalars_in_item (constants_in places.now)) (map item_tree items.now)) }
{
    for item in items {
        mark_item(places, row, item);
    }
}

/// Marks the scalars that a left side, or an item of a READ, reads.
pub(crate) fn mark_read(places: &Places, row: &mut Row, left: &Expr)
    requires { length row.old ≡ length (names_in places.now) }
    ensures { AreMarked (names_in places.now) row.old row.new (Spec.read_left (constants_in places.now) (expr_tree left.now)) }
{
    match left {
        Expr::Element(_, subscripts) => {
            mark_expressions(places, row, subscripts);
            return;
        }
        Expr::Var(_)
        | Expr::Int(_)
        | Expr::Neg(_)
        | Expr::Add(_, _)
        | Expr::Sub(_, _)
        | Expr::Mul(_, _)
        | Expr::Div(_, _)
        | Expr::Pow(_, _)
        | Expr::Call(_, _) => {
            return;
        }
    }
}

/// Marks the scalar that a left side, or an item of a READ, assigns.
pub(crate) fn mark_assigned(places: &Places, row: &mut Row, left: &Expr)
    requires { length row.old ≡ length (names_in places.now) }
    ensures { AreMarked (names_in places.now) row.old row.new (Spec.assigned_left (constants_in places.now) (expr_tree left.now)) }
{
    match left {
        Expr::Var(name) => {
            mark_variable(places, row, name);
            return;
        }
        Expr::Element(_, _)
        | Expr::Int(_)
        | Expr::Neg(_)
        | Expr::Add(_, _)
        | Expr::Sub(_, _)
        | Expr::Mul(_, _)
        | Expr::Div(_, _)
        | Expr::Pow(_, _)
        | Expr::Call(_, _) => {
            return;
        }
    }
}
