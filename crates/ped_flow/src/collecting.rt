//! The scalars of a program: the names that an expression reads, and those that a statement or a loop assigns or copies.

ghost use Rattle.std.specs.Prelude.{◌≡◌};

use crate::places::Places;
use ped_base::{Name, NoMemory};
use ped_tree::{Cond, Do, Expr, PrintItem, Stmt};

/// Gives the scalars of statements places.
#[cycle(statement_names)]
pub(crate) fn place_statements(places: &mut Places, body: &[Stmt]) -> Result<(), NoMemory>
    ensures { places.new.decls.now ≡ places.old.decls.now }
{
    for s in body {
        place_statement(places, s)?;
    }
    Ok(())
}

/// Gives the scalars of a statement places.
#[cycle(statement_names)]
fn place_statement(places: &mut Places, s: &Stmt) -> Result<(), NoMemory>
    ensures { places.new.decls.now ≡ places.old.decls.now }
{
    match s {
        Stmt::Comment(_) => {
            return Ok(());
        }
        Stmt::Stop => {
            return Ok(());
        }
        Stmt::Assign { left, right } => {
            place_expression(places, right)?;
            return place_expression(places, left);
        }
        Stmt::Print(items) => {
            return place_items(places, items);
        }
        Stmt::Read(items) => {
            return place_expressions(places, items);
        }
        Stmt::If {
            condition: c,
            then_part,
            else_part,
        } => {
            place_condition(places, c)?;
            place_statements(places, then_part)?;
            return place_statements(places, else_part);
        }
        Stmt::Do(d) => {
            place_head(places, d)?;
            return place_statements(places, &d.body);
        }
    }
}

/// Gives the scalars of the head of a loop places.
fn place_head(places: &mut Places, d: &Do) -> Result<(), NoMemory>
    ensures { places.new.decls.now ≡ places.old.decls.now }
{
    places.add(&d.variable)?;
    place_expression(places, &d.first)?;
    place_expression(places, &d.last)?;
    place_names(places, d.private.as_slice())
}

/// Gives names places.
fn place_names(places: &mut Places, names: &[Name]) -> Result<(), NoMemory>
    ensures { places.new.decls.now ≡ places.old.decls.now }
{
    for name in names {
        places.add(name)?;
    }
    Ok(())
}

/// Gives the scalars of an expression places.
#[cycle(expression_names)]
fn place_expression(places: &mut Places, e: &Expr) -> Result<(), NoMemory>
    ensures { places.new.decls.now ≡ places.old.decls.now }
{
    match e {
        Expr::Int(_) => {
            return Ok(());
        }
        Expr::Var(name) => {
            return places.add(name);
        }
        Expr::Element(_, subscripts) => {
            return place_expressions(places, subscripts);
        }
        Expr::Neg(a) => {
            return place_expression(places, a);
        }
        Expr::Add(a, b) | Expr::Sub(a, b) | Expr::Mul(a, b) | Expr::Div(a, b) | Expr::Pow(a, b) => {
            place_expression(places, a)?;
            return place_expression(places, b);
        }
        Expr::Call(_, arguments) => {
            return place_expressions(places, arguments);
        }
    }
}

/// Gives the scalars of expressions places.
#[cycle(expression_names)]
fn place_expressions(places: &mut Places, es: &[Expr]) -> Result<(), NoMemory>
    ensures { places.new.decls.now ≡ places.old.decls.now }
{
    for e in es {
        place_expression(places, e)?;
    }
    Ok(())
}

/// Gives the scalars of a condition places.
#[cycle(condition_names)]
fn place_condition(places: &mut Places, c: &Cond) -> Result<(), NoMemory>
    ensures { places.new.decls.now ≡ places.old.decls.now }
{
    match c {
        Cond::Rel(_, a, b) => {
            place_expression(places, a)?;
            return place_expression(places, b);
        }
        Cond::Not(a) => {
            return place_condition(places, a);
        }
        Cond::And(a, b) | Cond::Or(a, b) => {
            place_condition(places, a)?;
            return place_condition(places, b);
        }
    }
}

/// Gives the scalars of the items of a PRINT places.
fn place_items(places: &mut Places, items: &[PrintItem]) -> Result<(), NoMemory>
    ensures { places.new.decls.now ≡ places.old.decls.now }
{
    for item in items {
        place_item(places, item)?;
    }
    Ok(())
}

/// Gives the scalars of an item of a PRINT places.
fn place_item(places: &mut Places, item: &PrintItem) -> Result<(), NoMemory>
    ensures { places.new.decls.now ≡ places.old.decls.now }
{
    match item {
        PrintItem::Value(e) => {
            return place_expression(places, e);
        }
        PrintItem::Text(_) => {
            return Ok(());
        }
    }
}
