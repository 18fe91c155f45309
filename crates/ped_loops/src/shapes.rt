//! How bounds of an inner DO depend on the variable of the outer one, and the bounds that result where the two
//! change places (Allen and Kennedy, section 5.2).

ghost use Rattle.std.specs.Prelude.{◌≡◌, ◌++◌, ◌∷◌, [], map, true, false, Some, None, IfOk, OnOk, MatchOption};
ghost use Rattle.ped_base.specs.Lists as Lists;
ghost use Rattle.ped_tree.specs.Tree as Tree;
ghost use Rattle.ped_tree.specs.NamesIn.{exprs_names};
ghost use Rattle.ped_tree.specs.Views.{expr_tree, pack_exprs, stmt_tree, stmt_trees, head_of, do_tree};
ghost use Rattle.ped_rules.specs.OnlyLoops.{only_loop};
ghost use Rattle.ped_rules.specs.ped_steps.specs.Replacing.{alone};
ghost use Rattle.ped_loops.specs.Shapes as Spec;
ghost use Rattle.ped_loops.specs.CodeShapes.{shape_in, outer_of, inner_of, HasShapes};
ghost use Rattle.ped_loops.specs.CodeInterchanging.{one_around, each_around};
ghost use Rattle.ped_loops.specs.Interchanging.{with_exchanged};

use ped_base::{Name, NoMemory, both};
use ped_symbolic::{minus, plus};
use ped_tree::{Do, Expr, Intrinsic, Stmt};
use std::alloc::Global;

/// How a bound of an inner DO depends on the variable I of the outer one.
#[derive(Clone, Copy)]
pub(crate) enum Shape<'a> {
    /// It doesn't name it.
    Free,
    /// I.
    Itself,
    /// I+c or c+I.
    Sum(&'a Expr),
    /// I-c.
    Difference(&'a Expr),
    /// c-I.
    Turned(&'a Expr),
}

/// A DO and the only DO in its body, with the shapes of the bounds of that one.
#[derive(Clone, Copy)]
pub(crate) struct Pair<'a> {
    /// The outer DO.
    pub(crate) outer: &'a Do,
    /// The inner DO.
    pub(crate) inner: &'a Do,
    /// The shape of the first bound of the inner DO.
    pub(crate) first: Shape<'a>,
    /// The shape of its last bound.
    pub(crate) last: Shape<'a>,
}

/// A DO and the only DO in its body, where the bounds of that one have shapes.
pub(crate) fn pair_of<'a>(outer: &'a Do, inner: &'a Do) -> Option<Pair<'a>>
    ensures { MatchOption result (Spec.isnt_shaped (head_of outer.now) (head_of inner.now) ≡ true) (λ p. (p.outer.now ≡ outer.now) × (p.inner.now ≡ inner.now) × HasShapes p) }
{
    let Some(first) = shape_of(&outer.variable, &inner.first) else {
        return None;
    };
    let Some(last) = shape_of(&outer.variable, &inner.last) else {
        return None;
    };
    Some(Pair {
        outer,
        inner,
        first,
        last,
    })
}

/// The shape of a bound, where it has one.
fn shape_of<'a>(x: &Name, e: &'a Expr) -> Option<Shape<'a>>
    ensures { MatchOption result (Spec.shape_of x.now (expr_tree e.now) ≡ None) (λ shape. Spec.shape_of x.now (expr_tree e.now) ≡ Some (shape_in shape)) }
{
    if is_named(x, e) {
        shaped(x, e)
    } else {
        Some(Shape::Free)
    }
}

/// The shape of a bound that names the variable, where it has one.
fn shaped<'a>(x: &Name, e: &'a Expr) -> Option<Shape<'a>>
    ensures { MatchOption result (Spec.shaped x.now (expr_tree e.now) ≡ None) (λ shape. Spec.shaped x.now (expr_tree e.now) ≡ Some (shape_in shape)) }
{
    match e {
        Expr::Var(y) => shape_of_name(x, y),
        Expr::Add(a, b) => shape_of_sum(x, a, b),
        Expr::Sub(a, b) => shape_of_difference(x, a, b),
        _ => None,
    }
}

/// The shape of a name as a bound, where it is the variable.
fn shape_of_name<'a>(x: &Name, y: &Name) -> Option<Shape<'a>>
    ensures { MatchOption result (Lists.is_same_text x.now y.now ≡ false) (λ shape. (shape_in shape ≡ Spec.itself) × (Lists.is_same_text x.now y.now ≡ true)) }
{
    if is_same(x, y) {
        Some(Shape::Itself)
    } else {
        None
    }
}

/// The shape of a sum, where it has one.
fn shape_of_sum<'a>(x: &Name, a: &'a Expr, b: &'a Expr) -> Option<Shape<'a>>
    ensures { MatchOption result (Spec.shaped x.now (Tree.Add (expr_tree a.now) (expr_tree b.now)) ≡ None)
        (λ shape. Spec.shaped x.now (Tree.Add (expr_tree a.now) (expr_tree b.now)) ≡ Some (shape_in shape)) }
{
    if is_with(x, a, b) {
        return Some(Shape::Sum(b));
    }
    if is_with(x, b, a) {
        return Some(Shape::Sum(a));
    }
    None
}

/// The shape of a difference, where it has one.
fn shape_of_difference<'a>(x: &Name, a: &'a Expr, b: &'a Expr) -> Option<Shape<'a>>
    ensures { MatchOption result (Spec.shaped x.now (Tree.Sub (expr_tree a.now) (expr_tree b.now)) ≡ None)
        (λ shape. Spec.shaped x.now (Tree.Sub (expr_tree a.now) (expr_tree b.now)) ≡ Some (shape_in shape)) }
{
    if is_with(x, a, b) {
        return Some(Shape::Difference(b));
    }
    if is_with(x, b, a) {
        return Some(Shape::Turned(a));
    }
    None
}

/// Whether the first expression is the name alone, and the other one doesn't name it.
fn is_with(x: &Name, a: &Expr, c: &Expr) -> bool
    ensures { result ≡ Spec.is_with x.now (expr_tree a.now) (expr_tree c.now) }
{
    is_variable(x, a) && !is_named(x, c)
}

/// Whether the expression is the name alone.
fn is_variable(x: &Name, e: &Expr) -> bool
    ensures { result ≡ Spec.is_variable x.now (expr_tree e.now) }
{
    match e {
        Expr::Var(y) => is_same(x, y),
        _ => false,
    }
}

fn is_same(x: &Name, y: &Name) -> bool
    ensures { result ≡ Lists.is_same_text x.now y.now }
{
    x.as_bytes() == y.as_bytes()
}

/// Whether a bound of the inner DO names the variable of the outer one.
pub(crate) fn names_outer(outer: &Do, inner: &Do) -> bool
    ensures { result ≡ Spec.names_outer (head_of outer.now) (head_of inner.now) }
{
    is_named(&outer.variable, &inner.first) || is_named(&outer.variable, &inner.last)
}

/// Whether the name occurs in the expression.
#[cycle(naming)]
#[tactic(auto, using(crate::proofs::ShapedCode::among_both))]
fn is_named(x: &Name, e: &Expr) -> bool
    ensures { result ≡ Spec.is_named x.now (expr_tree e.now) }
{
    match e {
        Expr::Int(_) => false,
        Expr::Var(y) => is_same(x, y),
        Expr::Element(y, subscripts) => is_same(x, y) || are_named(x, subscripts),
        Expr::Neg(a) => is_named(x, a),
        Expr::Add(a, b) => is_named(x, a) || is_named(x, b),
        Expr::Sub(a, b) => is_named(x, a) || is_named(x, b),
        Expr::Mul(a, b) => is_named(x, a) || is_named(x, b),
        Expr::Div(a, b) => is_named(x, a) || is_named(x, b),
        Expr::Pow(a, b) => is_named(x, a) || is_named(x, b),
        Expr::Call(_, arguments) => are_named(x, arguments),
    }
}

/// Whether the name occurs in one of these expressions.
#[cycle(naming)]
#[tactic(auto, using(crate::proofs::ShapedCode::among_both))]
fn are_named(x: &Name, arguments: &[Expr]) -> bool
    ensures { result ≡ Lists.is_among x.now (exprs_names (pack_exprs (map expr_tree arguments.now))) }
{
    for argument in arguments {
        if is_named(x, argument) {
            return true;
        }
    }
    false
}

/// The new outer DO, with the new inner one in its body: comments stay.
pub(crate) fn exchanged(alloc: Global, pair: &Pair) -> Result<Do, NoMemory>
    requires shapes { HasShapes pair.now }
    requires inner { only_loop (stmt_trees pair.now.outer.now.body.items) ≡ Some (inner_of pair.now, stmt_trees pair.now.inner.now.body.items) }
    ensures { IfOk result (λ d. alone (do_tree d) ≡ with_exchanged (outer_of pair.now) (stmt_trees pair.now.outer.now.body.items)) }
{
    let body = all_around(alloc, pair, &pair.outer.body)?;
    let first = outer_first(alloc, pair)?;
    let (first, last) = both(first, outer_last(alloc, pair))?;
    with_bounds(alloc, pair.inner, first, last, body)
}

/// A DO with these bounds and this body in place of its own.
fn with_bounds(
    alloc: Global,
    d: &Do,
    first: Expr,
    last: Expr,
    body: Vec<Stmt>,
) -> Result<Do, NoMemory>
    ensures { IfOk result (λ new. do_tree new ≡ Tree.Do (record (head_of d.now) { first = expr_tree first; last = expr_tree last }) (stmt_trees body.items)) }
{
    let ((first, last), step) = both((first, last), d.step.copy(alloc))?;
    d.with_header_and_body(first, last, step, body, alloc)
}

/// The first bound of the new outer DO.
fn outer_first(alloc: Global, pair: &Pair) -> Result<Expr, NoMemory>
    requires { HasShapes pair.now }
    ensures { IfOk result (λ e. expr_tree e ≡ (Spec.new_outer (outer_of pair.now) (inner_of pair.now)).first) }
{
    let bound = &pair.inner.first;
    moved_bound(
        alloc,
        &pair.first,
        bound,
        &pair.outer.first,
        &pair.outer.last,
    )
}

/// The last bound of the new outer DO.
fn outer_last(alloc: Global, pair: &Pair) -> Result<Expr, NoMemory>
    requires { HasShapes pair.now }
    ensures { IfOk result (λ e. expr_tree e ≡ (Spec.new_outer (outer_of pair.now) (inner_of pair.now)).last) }
{
    let bound = &pair.inner.last;
    moved_bound(
        alloc,
        &pair.last,
        bound,
        &pair.outer.last,
        &pair.outer.first,
    )
}

/// The bound of the new outer DO that comes of a bound of the old inner one with this shape.
fn moved_bound(
    alloc: Global,
    shape: &Shape,
    bound: &Expr,
    near: &Expr,
    far: &Expr,
) -> Result<Expr, NoMemory>
    ensures { IfOk result (λ e. expr_tree e ≡ Spec.moved_bound (shape_in shape.now) (expr_tree bound.now) (expr_tree near.now) (expr_tree far.now)) }
{
    match shape {
        Shape::Free => bound.copy(alloc),
        Shape::Itself => near.copy(alloc),
        Shape::Sum(c) => plus(alloc, near, c),
        Shape::Difference(c) => minus(alloc, near, c),
        Shape::Turned(c) => minus(alloc, c, far),
    }
}

/// Copies of statements, with the new inner DO in the place of each DO.
#[tactic(auto, using(crate::proofs::ShapedCode::around_all))]
fn all_around(alloc: Global, pair: &Pair, statements: &[Stmt]) -> Result<Vec<Stmt>, NoMemory>
    requires { HasShapes pair.now }
    ensures { IfOk result (λ body. stmt_trees body.items ≡ each_around (Spec.new_inner (outer_of pair.now) (inner_of pair.now)) (stmt_trees pair.now.inner.now.body.items) (stmt_trees statements.now)) }
{
    let mut body = Vec::new(alloc);
    for statement in statements {
        body.push(around(alloc, pair, statement)?)?;
    }
    Ok(body)
}

/// A copy of a comment next to the inner DO, or the new inner DO.
fn around(alloc: Global, pair: &Pair, statement: &Stmt) -> Result<Stmt, NoMemory>
    requires { HasShapes pair.now }
    ensures { IfOk result (λ new. stmt_tree new ≡ one_around (Spec.new_inner (outer_of pair.now) (inner_of pair.now)) (stmt_trees pair.now.inner.now.body.items) (stmt_tree statement.now)) }
{
    match statement {
        Stmt::Do(_) => {
            return Ok(Stmt::of_loop(inside(alloc, pair)?));
        }
        _ => {
            return statement.copy(alloc);
        }
    }
}

/// The new inner DO.
fn inside(alloc: Global, pair: &Pair) -> Result<Do, NoMemory>
    requires { HasShapes pair.now }
    ensures { IfOk result (λ d. do_tree d ≡ Tree.Do (Spec.new_inner (outer_of pair.now) (inner_of pair.now)) (stmt_trees pair.now.inner.now.body.items)) }
{
    let body = copies(alloc, &pair.inner.body)?;
    let first = inner_first(alloc, pair)?;
    let (first, last) = both(first, inner_last(alloc, pair))?;
    with_bounds(alloc, pair.outer, first, last, body)
}

/// Copies of statements.
fn copies(alloc: Global, statements: &[Stmt]) -> Result<Vec<Stmt>, NoMemory>
    ensures { IfOk result (λ all. stmt_trees all.items ≡ stmt_trees statements.now) }
{
    let mut all = Vec::new(alloc);
    for statement in statements {
        all.push(statement.copy(alloc)?)?;
    }
    Ok(all)
}

/// The first bound of the new inner DO.
fn inner_first(alloc: Global, pair: &Pair) -> Result<Expr, NoMemory>
    requires { HasShapes pair.now }
    ensures { IfOk result (λ e. expr_tree e ≡ (Spec.new_inner (outer_of pair.now) (inner_of pair.now)).first) }
{
    let x = &pair.inner.variable;
    let mut asked = Vec::new(alloc);
    add_asked(alloc, &mut asked, is_turned(&pair.first), &pair.first, x)?;
    add_asked(alloc, &mut asked, !is_turned(&pair.last), &pair.last, x)?;
    extreme_of(alloc, Intrinsic::Max, &pair.outer.first, asked)
}

/// The last bound of the new inner DO.
fn inner_last(alloc: Global, pair: &Pair) -> Result<Expr, NoMemory>
    requires { HasShapes pair.now }
    ensures { IfOk result (λ e. expr_tree e ≡ (Spec.new_inner (outer_of pair.now) (inner_of pair.now)).last) }
{
    let x = &pair.inner.variable;
    let mut asked = Vec::new(alloc);
    add_asked(alloc, &mut asked, !is_turned(&pair.first), &pair.first, x)?;
    add_asked(alloc, &mut asked, is_turned(&pair.last), &pair.last, x)?;
    extreme_of(alloc, Intrinsic::Min, &pair.outer.last, asked)
}

/// Whether the bound falls as I grows.
fn is_turned(shape: &Shape) -> bool
    ensures { result ≡ Spec.is_turned (shape_in shape.now) }
{
    match shape {
        Shape::Turned(_) => true,
        Shape::Free | Shape::Itself | Shape::Sum(_) | Shape::Difference(_) => false,
    }
}

/// Adds what a bound asks of I, where this end wants it; `x` is the variable of the new outer DO.
fn add_asked(
    alloc: Global,
    asked: &mut Vec<Expr>,
    wanted: bool,
    shape: &Shape,
    x: &Name,
) -> Result<(), NoMemory>
    ensures { OnOk result (map expr_tree asked.new.items ≡ map expr_tree asked.old.items ++ Spec.asked_if wanted (shape_in shape.now) x.now) }
{
    if !wanted {
        return Ok(());
    }
    match asked_of(alloc, shape, x)? {
        Some(e) => {
            asked.push(e)?;
            return Ok(());
        }
        None => {
            return Ok(());
        }
    }
}

/// What a bound of this shape asks of I; `x` is the variable of the new outer DO.
fn asked_of(alloc: Global, shape: &Shape, x: &Name) -> Result<Option<Expr>, NoMemory>
    ensures { IfOk result (λ e. MatchOption e (Spec.asked_of (shape_in shape.now) x.now ≡ []) (λ e. Spec.asked_of (shape_in shape.now) x.now ≡ expr_tree e ∷ [])) }
{
    let variable = Expr::scalar(*x);
    let asked = asked_by(alloc, shape, x, &variable);
    drop(variable);
    asked
}

/// The same, where this is that variable as an expression.
fn asked_by(
    alloc: Global,
    shape: &Shape,
    x: &Name,
    variable: &Expr,
) -> Result<Option<Expr>, NoMemory>
    requires { expr_tree variable.now ≡ Tree.Var x.now }
    ensures { IfOk result (λ e. MatchOption e (Spec.asked_of (shape_in shape.now) x.now ≡ []) (λ e. Spec.asked_of (shape_in shape.now) x.now ≡ expr_tree e ∷ [])) }
{
    match shape {
        Shape::Free => {
            return Ok(None);
        }
        Shape::Itself => {
            return Ok(Some(Expr::scalar(*x)));
        }
        Shape::Sum(c) => {
            return Ok(Some(minus(alloc, variable, c)?));
        }
        Shape::Difference(c) => {
            return Ok(Some(plus(alloc, variable, c)?));
        }
        Shape::Turned(c) => {
            return Ok(Some(minus(alloc, c, variable)?));
        }
    }
}

/// The bound, or the greatest or the least of it and of others, where there are some.
fn extreme_of(
    alloc: Global,
    f: Intrinsic,
    bound: &Expr,
    others: Vec<Expr>,
) -> Result<Expr, NoMemory>
    ensures { IfOk result (λ e. expr_tree e ≡ Spec.extreme_of f (expr_tree bound.now) (map expr_tree others.items)) }
{
    if others.is_empty() {
        return bound.copy(alloc);
    }
    let mut arguments = others;
    arguments.insert(0, bound.copy(alloc)?)?;
    Ok(Expr::call(f, arguments))
}
