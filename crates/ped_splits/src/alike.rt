//! Whether two DO loops are alike: the same bounds and increment, written alike, and a variable that serves both.

ghost use Rattle.std.specs.Prelude.{◌≡◌, ◌↔◌, IsTrue, map};
ghost use Rattle.std.specs.List.{flat_map};
ghost use Rattle.ped_base.specs.Lists as Lists;
ghost use Rattle.ped_tree.specs.NamesIn as Names;
ghost use Rattle.ped_tree.specs.Tree as Tree;
ghost use Rattle.ped_tree.specs.Views.{expr_tree, pack_exprs, cond_tree, item_tree, stmt_tree, stmt_trees, head_of};
ghost use Rattle.ped_splits.specs.CodeAlike as Code;
ghost use Rattle.ped_splits.specs.Neighbours.{AreAlike};

use ped_base::{Name, is_among};
use ped_tree::{Cond, Do, Expr, Intrinsic, PrintItem, Stmt};

/// Whether the second DO is like the first one.
pub(crate) fn are_alike(own: &Do, next: &Do) -> bool
    ensures { IsTrue result ↔ AreAlike (head_of own.now) (head_of next.now) (stmt_trees next.now.body.items) }
{
    is_like(own, next)
}

/// The same.
fn is_like(own: &Do, next: &Do) -> bool
    ensures { result ≡ Code.is_like (head_of own.now) (head_of next.now) (stmt_trees next.now.body.items) }
{
    have_same_bounds(own, next)
        && (is_same(&own.variable, &next.variable) || !name_in_all(&own.variable, &next.body))
}

/// Whether both have the same bounds and the same increment, written alike.
fn have_same_bounds(own: &Do, next: &Do) -> bool
    ensures { result ≡ Code.have_same_bounds (head_of own.now) (head_of next.now) }
{
    is_same_expr(&own.first, &next.first)
        && is_same_expr(&own.last, &next.last)
        && is_same_expr(&own.step, &next.step)
}

pub(crate) fn is_same(x: &Name, y: &Name) -> bool
    ensures { result ≡ Lists.is_same_text x.now y.now }
{
    x.as_bytes() == y.as_bytes()
}

/// Whether two expressions are written alike.
#[cycle(same)]
fn is_same_expr(a: &Expr, b: &Expr) -> bool
    ensures { result ≡ Code.is_same_expr (expr_tree a.now) (expr_tree b.now) }
{
    match a {
        Expr::Int(m) => is_literal(*m, b),
        Expr::Var(x) => is_variable(x, b),
        Expr::Element(x, all) => is_same_element(x, all, b),
        Expr::Neg(c) => match b {
            Expr::Neg(d) => is_same_expr(c, d),
            _ => false,
        },
        Expr::Add(c, d) => match b {
            Expr::Add(e, f) => is_same_expr(c, e) && is_same_expr(d, f),
            _ => false,
        },
        Expr::Sub(c, d) => match b {
            Expr::Sub(e, f) => is_same_expr(c, e) && is_same_expr(d, f),
            _ => false,
        },
        Expr::Mul(c, d) => match b {
            Expr::Mul(e, f) => is_same_expr(c, e) && is_same_expr(d, f),
            _ => false,
        },
        Expr::Div(c, d) => match b {
            Expr::Div(e, f) => is_same_expr(c, e) && is_same_expr(d, f),
            _ => false,
        },
        Expr::Pow(c, d) => match b {
            Expr::Pow(e, f) => is_same_expr(c, e) && is_same_expr(d, f),
            _ => false,
        },
        Expr::Call(f, all) => is_same_call(*f, all, b),
    }
}

/// Whether the expression is the literal of this value.
fn is_literal(value: u32, b: &Expr) -> bool
    ensures { result ≡ Code.is_same_expr (Tree.Int value) (expr_tree b.now) }
{
    match b {
        Expr::Int(n) => *n == value,
        _ => false,
    }
}

/// Whether the expression is the variable with this name.
fn is_variable(x: &Name, b: &Expr) -> bool
    ensures { result ≡ Code.is_same_expr (Tree.Var x.now) (expr_tree b.now) }
{
    match b {
        Expr::Var(y) => is_same(x, y),
        _ => false,
    }
}

/// Whether the expression is the element of the array with this name that has subscripts written alike.
#[cycle(same)]
fn is_same_element(x: &Name, all: &[Expr], b: &Expr) -> bool
    ensures { result ≡ Code.is_same_expr (Tree.Element x.now (pack_exprs (map expr_tree all.now))) (expr_tree b.now) }
{
    match b {
        Expr::Element(y, others) => is_same(x, y) && are_same_exprs(all, others),
        _ => false,
    }
}

/// Whether the expression is a call of this function with arguments written alike.
#[cycle(same)]
fn is_same_call(f: Intrinsic, all: &[Expr], b: &Expr) -> bool
    ensures { result ≡ Code.is_same_expr (Tree.Call f (pack_exprs (map expr_tree all.now))) (expr_tree b.now) }
{
    match b {
        Expr::Call(g, others) => {
            function_number(*g) == function_number(f) && are_same_exprs(all, others)
        }
        _ => false,
    }
}

/// Whether these are as many expressions as those, each written like the other at its place.
#[cycle(same)]
fn are_same_exprs(all: &[Expr], others: &[Expr]) -> bool
    ensures { result ≡ Code.are_same_exprs (pack_exprs (map expr_tree all.now)) (pack_exprs (map expr_tree others.now)) }
{
    if all.len() != others.len() {
        return false;
    }
    for (place, e) in all.iter().enumerate() {
        if !is_same_expr(e, &others[place]) {
            return false;
        }
    }
    true
}

fn function_number(f: Intrinsic) -> u32
    ensures { result ≡ Code.function_number f }
{
    match f {
        Intrinsic::Mod => 0,
        Intrinsic::Abs => 1,
        Intrinsic::Max => 2,
        Intrinsic::Min => 3,
    }
}

/// Whether the name occurs in an expression.
#[cycle(naming)]
#[tactic(auto, using(crate::proofs::NamedTrees::among_both))]
fn name_in(x: &Name, e: &Expr) -> bool
    ensures { result ≡ Lists.is_among x.now (Names.expr_names (expr_tree e.now)) }
{
    match e {
        Expr::Int(_) => false,
        Expr::Var(y) => is_same(x, y),
        Expr::Element(y, all) => is_same(x, y) || name_in_exprs(x, all),
        Expr::Neg(a) => name_in(x, a),
        Expr::Add(a, b) => name_in(x, a) || name_in(x, b),
        Expr::Sub(a, b) => name_in(x, a) || name_in(x, b),
        Expr::Mul(a, b) => name_in(x, a) || name_in(x, b),
        Expr::Div(a, b) => name_in(x, a) || name_in(x, b),
        Expr::Pow(a, b) => name_in(x, a) || name_in(x, b),
        Expr::Call(_, all) => name_in_exprs(x, all),
    }
}

/// Whether the name occurs in one of these expressions.
#[cycle(naming)]
#[tactic(auto, using(crate::proofs::NamedTrees::among_both))]
fn name_in_exprs(x: &Name, all: &[Expr]) -> bool
    ensures { result ≡ Lists.is_among x.now (Names.exprs_names (pack_exprs (map expr_tree all.now))) }
{
    for e in all {
        if name_in(x, e) {
            return true;
        }
    }
    false
}

/// Whether the name occurs in a condition.
#[tactic(auto, using(crate::proofs::NamedTrees::among_both))]
fn name_in_condition(x: &Name, c: &Cond) -> bool
    ensures { result ≡ Lists.is_among x.now (Names.cond_names (cond_tree c.now)) }
{
    match c {
        Cond::Rel(_, a, b) => name_in(x, a) || name_in(x, b),
        Cond::Not(a) => name_in_condition(x, a),
        Cond::And(a, b) => name_in_condition(x, a) || name_in_condition(x, b),
        Cond::Or(a, b) => name_in_condition(x, a) || name_in_condition(x, b),
    }
}

/// Whether the name occurs in one of these items.
#[tactic(auto, using(crate::proofs::NamedTrees::among_both))]
fn name_in_items(x: &Name, items: &[PrintItem]) -> bool
    ensures { result ≡ Lists.is_among x.now (flat_map Names.item_names (map item_tree items.now)) }
{
    for item in items {
        if name_in_item(x, item) {
            return true;
        }
    }
    false
}

/// Whether the name occurs in an item.
fn name_in_item(x: &Name, item: &PrintItem) -> bool
    ensures { result ≡ Lists.is_among x.now (Names.item_names (item_tree item.now)) }
{
    match item {
        PrintItem::Value(e) => name_in(x, e),
        PrintItem::Text(_) => false,
    }
}

/// Whether the name occurs in one of the items of a READ.
#[tactic(auto, using(crate::proofs::NamedTrees::among_both))]
fn name_in_read(x: &Name, items: &[Expr]) -> bool
    ensures { result ≡ Lists.is_among x.now (flat_map Names.expr_names (map expr_tree items.now)) }
{
    for item in items {
        if name_in(x, item) {
            return true;
        }
    }
    false
}

/// Whether the name occurs in a statement, in lists of names, too.
#[cycle(standing)]
#[tactic(auto, using(crate::proofs::NamedTrees::among_both))]
fn name_in_one(x: &Name, statement: &Stmt) -> bool
    ensures { result ≡ Lists.is_among x.now (Names.stmt_names (stmt_tree statement.now)) }
{
    match statement {
        Stmt::Assign { left, right } => name_in(x, left) || name_in(x, right),
        Stmt::If {
            condition,
            then_part,
            else_part,
        } => {
            name_in_condition(x, condition)
                || name_in_all(x, then_part)
                || name_in_all(x, else_part)
        }
        Stmt::Do(d) => name_in_head(x, d) || name_in_all(x, &d.body),
        Stmt::Print(items) => name_in_items(x, items),
        Stmt::Read(items) => name_in_read(x, items),
        Stmt::Stop | Stmt::Comment(_) => false,
    }
}

/// Whether the name occurs in the head of a DO.
#[tactic(auto, using(crate::proofs::NamedTrees::among_both, crate::proofs::NamedTrees::among_more))]
fn name_in_head(x: &Name, d: &Do) -> bool
    ensures { result ≡ Lists.is_among x.now (Names.head_names (head_of d.now)) }
{
    is_among(x, d.rejected.as_slice())
        || is_same(x, &d.variable)
        || name_in(x, &d.first)
        || name_in(x, &d.last)
        || name_in(x, &d.step)
        || is_among(x, d.private.as_slice())
}

/// Whether the name occurs in statements.
#[cycle(standing)]
#[tactic(auto, using(crate::proofs::NamedTrees::among_both))]
fn name_in_all(x: &Name, statements: &[Stmt]) -> bool
    ensures { result ≡ Lists.is_among x.now (Names.stmts_names (stmt_trees statements.now)) }
{
    for statement in statements {
        if name_in_one(x, statement) {
            return true;
        }
    }
    false
}
