//! What a statement by itself does to one scalar.

ghost use Rattle.std.specs.Prelude.{◌≡◌, [], ◌∷◌, ◌++◌, map, if◌then◌else◌};
ghost use Rattle.std.specs.List.{flat_map};
ghost use Rattle.ped_base.specs.Lists as Lists;
ghost use Rattle.ped_tree.specs.Views.{expr_tree, pack_exprs, cond_tree, item_tree, stmt_tree, stmt_trees};
ghost use Rattle.ped_tree.specs.Views.{head_of};
ghost use Rattle.ped_tree.specs.NamesIn.{loop_variables, all_loop_variables};
ghost use Rattle.ped_flow.specs.Events as Event;
ghost use Rattle.ped_flow.specs.Summaries.{summary_events};
ghost use Rattle.ped_flow.specs.Kept.{name_of, constants_of};

use crate::asked::Scalar;
use crate::summaries::Summary;
use ped_base::{Name, is_among};
use ped_tree::{Cond, Do, Expr, PrintItem, Stmt};

/// Whether two names are the same.
pub(crate) fn is_same(a: &Name, b: &Name) -> bool
    ensures { result ≡ Lists.is_same_text a.now b.now }
{
    a == b
}

/// Whether a name is that of the scalar and no constant's.
fn is_variable(scalar: &Scalar, name: &Name) -> bool
    ensures { result ≡ Lists.is_among (name_of scalar.now) (Event.unless_constant (constants_of scalar.now) name.now) }
{
    !scalar.constant && is_same(scalar.name, name)
}

/// The statement with this number reads a variable.
fn variable(scalar: &Scalar, name: &Name, number: u32) -> Summary
    ensures { result ≡ summary_events (name_of scalar.now) (Event.reads_of number (Event.unless_constant (constants_of scalar.now) name.now)) }
{
    if is_variable(scalar, name) {
        return Summary::read_by(number);
    }
    Summary::passing()
}

/// The statement with this number reads an expression.
#[cycle(expressions)]
#[tactic(auto, using(crate::proofs::SumLaws::summing))]
pub(crate) fn expression(scalar: &Scalar, e: &Expr, number: u32) -> Summary
    ensures { result ≡ summary_events (name_of scalar.now) (Event.reads_of number (Event.scalars_in (constants_of scalar.now) (expr_tree e.now))) }
{
    match e {
        Expr::Int(_) => {
            return Summary::passing();
        }
        Expr::Var(name) => {
            return variable(scalar, name, number);
        }
        Expr::Element(_, subscripts) => {
            return expressions(scalar, subscripts, number);
        }
        Expr::Neg(a) => {
            return expression(scalar, a, number);
        }
        Expr::Add(a, b) => {
            return expression(scalar, a, number).then(expression(scalar, b, number));
        }
        Expr::Sub(a, b) => {
            return expression(scalar, a, number).then(expression(scalar, b, number));
        }
        Expr::Mul(a, b) => {
            return expression(scalar, a, number).then(expression(scalar, b, number));
        }
        Expr::Div(a, b) => {
            return expression(scalar, a, number).then(expression(scalar, b, number));
        }
        Expr::Pow(a, b) => {
            return expression(scalar, a, number).then(expression(scalar, b, number));
        }
        Expr::Call(_, arguments) => {
            return expressions(scalar, arguments, number);
        }
    }
}

/// The statement with this number reads expressions, one after another.
#[cycle(expressions)]
#[tactic(auto, using(crate::proofs::SumLaws::summing))]
pub(crate) fn expressions(scalar: &Scalar, es: &[Expr], number: u32) -> Summary
    ensures { result ≡ summary_events (name_of scalar.now) (Event.reads_of number (Event.all_scalars_in (constants_of scalar.now) (pack_exprs (map expr_tree es.now)))) }
{
    let mut summary = Summary::passing();
    for e in es {
        summary = summary.then(expression(scalar, e, number));
    }
    summary
}

/// The statement with this number reads a condition.
#[cycle(conditions)]
#[tactic(auto, using(crate::proofs::SumLaws::summing))]
pub(crate) fn condition(scalar: &Scalar, c: &Cond, number: u32) -> Summary
    ensures { result ≡ summary_events (name_of scalar.now) (Event.reads_of number (Event.scalars_in_cond (constants_of scalar.now) (cond_tree c.now))) }
{
    match c {
        Cond::Rel(_, a, b) => {
            return expression(scalar, a, number).then(expression(scalar, b, number));
        }
        Cond::Not(a) => {
            return condition(scalar, a, number);
        }
        Cond::And(a, b) => {
            return condition(scalar, a, number).then(condition(scalar, b, number));
        }
        Cond::Or(a, b) => {
            return condition(scalar, a, number).then(condition(scalar, b, number));
        }
    }
}

/// The statement with this number reads an item of a PRINT.
fn item(scalar: &Scalar, item: &PrintItem, number: u32) -> Summary
    ensures { result ≡ summary_events (name_of scalar.now) (Event.reads_of number (Event.scalars_in_item (constants_of scalar.now) (item_tree item.now))) }
{
    match item {
        PrintItem::Value(e) => {
            return expression(scalar, e, number);
        }
        PrintItem::Text(_) => {
            return Summary::passing();
        }
    }
}

/// The statement with this number reads the items of a PRINT.
#[tactic(auto, using(crate::proofs::SumLaws::summing))]
pub(crate) fn items(scalar: &Scalar, items: &[PrintItem], number: u32) -> Summary
    ensures { result ≡ summary_events (name_of scalar.now) (Event.reads_of number (flat_map (Event.scalars_in_item (constants_of scalar.now)) (map item_tree items.now))) }
{
    let mut summary = Summary::passing();
    for i in items {
        summary = summary.then(item(scalar, i, number));
    }
    summary
}

/// The statement with this number assigns a variable.
fn assignment(scalar: &Scalar, name: &Name) -> Summary
    ensures { result ≡ summary_events (name_of scalar.now) (map (Event.event 0 Event.assigns) (Event.unless_constant (constants_of scalar.now) name.now)) }
{
    if is_variable(scalar, name) {
        return Summary::assigned();
    }
    Summary::passing()
}

/// The statement with this number assigns a left side, or an item of a READ, whose subscripts it reads.
pub(crate) fn target(scalar: &Scalar, left: &Expr, number: u32) -> Summary
    ensures { result ≡ summary_events (name_of scalar.now) (Event.left_events (constants_of scalar.now) number (expr_tree left.now)) }
{
    match left {
        Expr::Var(name) => {
            return assignment(scalar, name);
        }
        Expr::Element(_, subscripts) => {
            return expressions(scalar, subscripts, number);
        }
        Expr::Int(_)
        | Expr::Neg(_)
        | Expr::Add(_, _)
        | Expr::Sub(_, _)
        | Expr::Mul(_, _)
        | Expr::Div(_, _)
        | Expr::Pow(_, _)
        | Expr::Call(_, _) => {
            return Summary::passing();
        }
    }
}

/// The statement with this number reads and assigns the items of a READ, one after the other.
#[tactic(auto, using(crate::proofs::SumLaws::summing))]
pub(crate) fn targets(scalar: &Scalar, lefts: &[Expr], number: u32) -> Summary
    ensures { result ≡ summary_events (name_of scalar.now) (flat_map (Event.left_events (constants_of scalar.now) number) (map expr_tree lefts.now)) }
{
    let mut summary = Summary::passing();
    for left in lefts {
        summary = summary.then(target(scalar, left, number));
    }
    summary
}

/// The entry of a DO with this number: its bounds are read, and its variable is assigned.
#[tactic(auto, using(crate::proofs::SumLaws::summing))]
pub(crate) fn entry(scalar: &Scalar, d: &Do, number: u32) -> Summary
    ensures { result ≡ summary_events (name_of scalar.now) (Event.reads_of number (Event.scalars_in (constants_of scalar.now) (expr_tree d.now.first) ++ Event.scalars_in (constants_of scalar.now) (expr_tree d.now.last)) ++ (Event.event number Event.assigns d.now.variable) ∷ []) }
{
    let bounds = expression(scalar, &d.first, number).then(expression(scalar, &d.last, number));
    bounds.then(set_variable(scalar, d))
}

/// The variable of a DO is assigned.
fn set_variable(scalar: &Scalar, d: &Do) -> Summary
    ensures { result ≡ summary_events (name_of scalar.now) ((Event.event 0 Event.assigns d.now.variable) ∷ []) }
{
    if is_same(scalar.name, &d.variable) {
        return Summary::assigned();
    }
    Summary::passing()
}

/// The start of an iteration of a DO, which clears the scalars of which it has copies.
pub(crate) fn start(scalar: &Scalar, d: &Do, number: u32) -> Summary
    ensures { result ≡ summary_events (name_of scalar.now) (Event.start_events number (head_of d.now) (stmt_trees d.now.body.items)) }
{
    if is_copied(scalar.name, d) {
        return Summary::cleared();
    }
    Summary::passing()
}

/// The exit of a DO, which clears them too, and of a PARALLEL DO its variable.
pub(crate) fn exit(scalar: &Scalar, d: &Do, number: u32) -> Summary
    ensures { result ≡ summary_events (name_of scalar.now) (Event.exit_events number (head_of d.now) (stmt_trees d.now.body.items)) }
{
    if is_left(scalar.name, d) {
        return Summary::cleared();
    }
    Summary::passing()
}

/// Whether each iteration of a DO has a copy of a scalar that isn't its variable.
fn is_copied(name: &Name, d: &Do) -> bool
    ensures { result ≡ Lists.is_among name.now (Event.copied (head_of d.now) (stmt_trees d.now.body.items)) }
{
    is_among(name, d.private.as_slice()) || (d.parallel && has_loop_of(name, &d.body))
}

/// Whether the exit of a DO clears a scalar.
fn is_left(name: &Name, d: &Do) -> bool
    ensures { result ≡ Lists.is_among name.now ((if d.now.parallel then d.now.variable ∷ [] else []) ++ Event.copied (head_of d.now) (stmt_trees d.now.body.items)) }
{
    (d.parallel && is_same(name, &d.variable)) || is_copied(name, d)
}

/// Whether a DO among statements or in them has the variable.
#[cycle(loops)]
fn has_loop_of(name: &Name, statements: &[Stmt]) -> bool
    ensures { result ≡ Lists.is_among name.now (all_loop_variables (stmt_trees statements.now)) }
{
    for statement in statements {
        if is_loop_of(name, statement) {
            return true;
        }
    }
    false
}

/// Whether a statement or one in it is a DO that has the variable.
#[cycle(loops)]
fn is_loop_of(name: &Name, statement: &Stmt) -> bool
    ensures { result ≡ Lists.is_among name.now (loop_variables (stmt_tree statement.now)) }
{
    match statement {
        Stmt::If {
            condition: _,
            then_part,
            else_part,
        } => has_loop_of(name, then_part) || has_loop_of(name, else_part),
        Stmt::Do(d) => is_same(name, &d.variable) || has_loop_of(name, &d.body),
        Stmt::Assign { left: _, right: _ }
        | Stmt::Print(_)
        | Stmt::Read(_)
        | Stmt::Stop
        | Stmt::Comment(_) => false,
    }
}
