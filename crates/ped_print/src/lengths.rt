//! Printed lengths of declarations, and of statements without their indentation and the statements in
//! their parts. Computing them takes no memory. Where a length exceeds a `usize`, the result is the
//! greatest `usize`.

ghost use Rattle.std.specs.Prelude.{◌≡◌, ◌+◌, ◌-◌, ◌*◌, ◌^◌, [], ◌++◌, min, map, length, codes};
ghost use Rattle.std.specs.List.{flat_map, join_by};
ghost use Rattle.std.specs.Fmt.{decimal};
ghost use Rattle.ped_tree.specs.Tree;
ghost use Rattle.ped_tree.specs.Printing.{alone, whole, expr_text, exprs_text, value_text, cond_text, own_text, do_text, do_word, step_text, item_text, constant_text, doubled, names_text, private_text, decl_text, declarator_text, dimensions_text, bound_text, parameter_text, printed_length};
ghost use Rattle.ped_tree.specs.Views.{expr_tree, pack_exprs, cond_tree, item_tree, head, stmt_tree, decl_tree, declarator_tree, bound_tree, value_tree};
ghost use Rattle.ped_print.specs.Lengths.{limited};
ghost use Rattle.ped_print.specs.Places.{place_of};
ghost use Rattle.ped_print.specs.Standings.{standing_of};

use crate::conditions::{Standing, relation_name};
use crate::expressions::{Place, intrinsic_name, is_one};
use crate::{conditions, expressions};
use itoa::Buffer;
use ped_base::Name;
use ped_tree::{Bound, Cond, Decl, Declarator, Expr, PrintItem, Stmt};

/// The printed length of a statement by itself. The indentation doesn't count. It takes no memory; a length that has
/// no room is the greatest number.
pub fn length(statement: &Stmt) -> usize
    ensures { result ≡ limited (printed_length (stmt_tree statement.now)) }
{
    match statement {
        Stmt::Assign { left, right } => {
            sum(value_length(left), b" = ".len(), value_length(right))
        }
        Stmt::If { condition, .. } => if_length(condition),
        Stmt::Do(head) => do_length(
            &head.variable,
            &head.first,
            &head.last,
            &head.step,
            head.parallel,
        ),
        Stmt::Print(items) => items_length(items).saturating_add(b"PRINT *".len()),
        Stmt::Read(items) => targets_length(items).saturating_add(b"READ *".len()),
        Stmt::Stop => b"STOP".len(),
        Stmt::Comment(text) => text.len().saturating_add(b"C".len()),
    }
}

/// The length of the IF statement or the ELSE IF statement with this condition.
pub fn if_length(condition: &Cond) -> usize
    ensures { result ≡ limited (length (codes "IF (" ++ cond_text whole (cond_tree condition.now) ++ codes ") THEN")) }
{
    sum(
        b"IF (".len(),
        cond_length(Standing::Whole, condition),
        b") THEN".len(),
    )
}

/// The length of a DO statement.
pub fn do_length(variable: &Name, first: &Expr, last: &Expr, step: &Expr, parallel: bool) -> usize
    ensures { result ≡ limited (length (do_text
        (head variable.now first.now last.now step.now parallel [] []))) }
{
    let left = sum(
        do_word_length(parallel),
        variable.as_bytes().len(),
        b" = ".len(),
    );
    let bounds = sum(value_length(first), b", ".len(), value_length(last));
    sum(left, bounds, step_length(step))
}

/// The length of the PRIVATE statement with these names.
pub fn private_length(names: &[Name]) -> usize
    ensures { result ≡ limited (length (private_text names.now)) }
{
    names_length(names).saturating_add(b"PRIVATE ".len())
}

/// The length of the SAVE statement with these names.
pub fn save_length(names: &[Name]) -> usize
    ensures { result ≡ limited (length (decl_text (Tree.Save names.now))) }
{
    names_length(names).saturating_add(b"SAVE ".len())
}

/// The printed length of a declaration, or of a comment among declarations.
pub fn decl_length(decl: &Decl) -> usize
    ensures { result ≡ limited (length (decl_text (decl_tree decl.now))) }
{
    match decl {
        Decl::Program(name) => name.as_bytes().len().saturating_add(b"PROGRAM ".len()),
        Decl::Implicit => b"IMPLICIT INTEGER (A-Z)".len(),
        Decl::Integer(all) => declarators_length(all).saturating_add(b"INTEGER ".len()),
        Decl::Dimension(all) => declarators_length(all).saturating_add(b"DIMENSION ".len()),
        Decl::Parameter(all) => sum(b"PARAMETER (".len(), constants_length(all), b")".len()),
        Decl::Save(names) => save_length(names.as_slice()),
        Decl::Comment(text) => text.len().saturating_add(b"C".len()),
    }
}

/// The sum of three lengths.
fn sum(first: usize, second: usize, third: usize) -> usize
    ensures { result ≡ limited (first + second + third) }
{
    first.saturating_add(second).saturating_add(third)
}

/// The length of DO or PARALLEL DO with the blank after it.
fn do_word_length(parallel: bool) -> usize
    ensures { result ≡ length (do_word parallel) }
{
    if parallel {
        b"PARALLEL DO ".len()
    } else {
        b"DO ".len()
    }
}

/// The length of an increment other than 1 and of the comma before it.
fn step_length(step: &Expr) -> usize
    ensures { result ≡ limited (length (step_text (expr_tree step.now))) }
{
    if is_one(step) {
        return 0;
    }
    value_length(step).saturating_add(b", ".len())
}

/// The length of the items of a PRINT, each after a comma.
fn items_length(all: &[PrintItem]) -> usize
    ensures { result ≡ limited (length (flat_map (λ i. codes ", " ++ item_text i) (map item_tree all.now))) }
{
    let mut total: usize = 0;
    for item in all {
        total = sum(total, b", ".len(), item_length(item));
    }
    total
}

/// The length of an item of a PRINT.
fn item_length(item: &PrintItem) -> usize
    ensures { result ≡ limited (length (item_text (item_tree item.now))) }
{
    match item {
        PrintItem::Value(e) => value_length(e),
        PrintItem::Text(text) => constant_length(text.as_slice()),
    }
}

/// The length of a character constant with its apostrophes.
fn constant_length(text: &[u8]) -> usize
    ensures { result ≡ limited (length (constant_text text.now)) }
{
    let mut total: usize = b"''".len();
    for c in text {
        let places = if *c == b'\'' { 2 } else { 1 };
        total = total.saturating_add(places);
    }
    total
}

/// The length of the items of a READ, each after a comma.
fn targets_length(all: &[Expr]) -> usize
    ensures { result ≡ limited (length (flat_map (λ e. codes ", " ++ value_text e) (map expr_tree all.now))) }
{
    let mut total: usize = 0;
    for target in all {
        total = sum(total, b", ".len(), value_length(target));
    }
    total
}

/// The length of a condition at its place.
#[cycle(condition_lengths)]
fn cond_length(standing: Standing, condition: &Cond) -> usize
    ensures { result ≡ limited (length (cond_text (standing_of standing) (cond_tree condition.now))) }
{
    let bare = bare_cond_length(condition);
    if conditions::is_enclosed(standing, condition) {
        bare.saturating_add(b"()".len())
    } else {
        bare
    }
}

/// The length of a condition without parentheses around it.
#[cycle(condition_lengths)]
fn bare_cond_length(condition: &Cond) -> usize
    ensures { result ≡ limited (length (cond_text whole (cond_tree condition.now))) }
{
    match condition {
        Cond::Rel(relation, left, right) => sum(
            value_length(left),
            relation_name(*relation).len(),
            value_length(right),
        ),
        Cond::Not(operand) => cond_length(Standing::InNot, operand).saturating_add(b".NOT.".len()),
        Cond::And(left, right) => sum(
            cond_length(Standing::InOr, left),
            b".AND.".len(),
            cond_length(Standing::InAnd, right),
        ),
        Cond::Or(left, right) => sum(
            cond_length(Standing::Whole, left),
            b".OR.".len(),
            cond_length(Standing::InOr, right),
        ),
    }
}

/// The length of an expression that is alone.
fn value_length(e: &Expr) -> usize
    ensures { result ≡ limited (length (value_text (expr_tree e.now))) }
{
    expr_length(Place::Alone, e)
}

/// The length of an expression at its place.
#[cycle(expression_lengths)]
fn expr_length(place: Place, e: &Expr) -> usize
    ensures { result ≡ limited (length (expr_text (place_of place) (expr_tree e.now))) }
{
    let bare = bare_length(e);
    if expressions::is_enclosed(place, e) {
        bare.saturating_add(b"()".len())
    } else {
        bare
    }
}

/// The length of an expression without parentheses around it.
#[cycle(expression_lengths)]
fn bare_length(e: &Expr) -> usize
    ensures { result ≡ limited (length (expr_text alone (expr_tree e.now))) }
{
    match e {
        Expr::Int(value) => number_length(*value),
        Expr::Var(name) => name.as_bytes().len(),
        Expr::Element(name, subscripts) => sum(
            name.as_bytes().len(),
            b"()".len(),
            exprs_length(subscripts),
        ),
        Expr::Neg(operand) => expr_length(Place::AsTerm, operand).saturating_add(b"-".len()),
        Expr::Add(left, right) | Expr::Sub(left, right) => sum(
            expr_length(Place::Alone, left),
            b"+".len(),
            expr_length(Place::AsTerm, right),
        ),
        Expr::Mul(left, right) | Expr::Div(left, right) => sum(
            expr_length(Place::AsTerm, left),
            b"*".len(),
            expr_length(Place::AsFactor, right),
        ),
        Expr::Pow(base, exponent) => sum(
            expr_length(Place::AsBase, base),
            b"**".len(),
            expr_length(Place::AsFactor, exponent),
        ),
        Expr::Call(intrinsic, arguments) => sum(
            intrinsic_name(*intrinsic).len(),
            b"()".len(),
            exprs_length(arguments),
        ),
    }
}

/// The length of subscripts or arguments, with a comma between two.
#[cycle(expression_lengths)]
fn exprs_length(all: &[Expr]) -> usize
    ensures { result ≡ limited (length (exprs_text (pack_exprs (map expr_tree all.now)))) }
{
    let Some(first) = all.first() else {
        return 0;
    };
    let mut total = expr_length(Place::Alone, first);
    for e in &all[1..] {
        total = sum(total, b",".len(), expr_length(Place::Alone, e));
    }
    total
}

/// How many digits a literal has.
fn number_length(number: u32) -> usize
    ensures { result ≡ limited (length (decimal number)) }
{
    let mut buffer = Buffer::new();
    buffer.format(number).len()
}

/// The length of names, with a comma and a blank between two.
fn names_length(all: &[Name]) -> usize
    ensures { result ≡ limited (length (names_text all.now)) }
{
    let Some(first) = all.first() else {
        return 0;
    };
    let mut total = first.as_bytes().len();
    for name in &all[1..] {
        total = sum(total, b", ".len(), name.as_bytes().len());
    }
    total
}

/// The length of declared names, with a comma and a blank between two.
fn declarators_length(all: &[Declarator]) -> usize
    ensures { result ≡ limited (length (join_by declarator_text (codes ", ") (map declarator_tree all.now))) }
{
    let Some(first) = all.first() else {
        return 0;
    };
    let mut total = declarator_length(first);
    for declarator in &all[1..] {
        total = sum(total, b", ".len(), declarator_length(declarator));
    }
    total
}

/// The length of a declared name with its dimensions.
fn declarator_length(declarator: &Declarator) -> usize
    ensures { result ≡ limited (length (declarator_text (declarator_tree declarator.now))) }
{
    dimensions_length(&declarator.bounds).saturating_add(declarator.name.as_bytes().len())
}

/// The length of dimensions in parentheses, 0 where there are none.
fn dimensions_length(all: &[Bound]) -> usize
    ensures { result ≡ limited (length (dimensions_text (map bound_tree all.now))) }
{
    let Some(first) = all.first() else {
        return 0;
    };
    let mut total = bound_length(first).saturating_add(b"()".len());
    for bound in &all[1..] {
        total = sum(total, b",".len(), bound_length(bound));
    }
    total
}

/// The length of a dimension, without its lower bound where that is 1.
fn bound_length(bound: &Bound) -> usize
    ensures { result ≡ limited (length (bound_text (bound_tree bound.now))) }
{
    if is_one(&bound.lower) {
        return value_length(&bound.upper);
    }
    sum(
        value_length(&bound.lower),
        b":".len(),
        value_length(&bound.upper),
    )
}

/// The length of named constants with their values, with a comma and a blank between two.
fn constants_length(all: &[(Name, Expr)]) -> usize
    ensures { result ≡ limited (length (join_by parameter_text (codes ", ") (map value_tree all.now))) }
{
    let Some(first) = all.first() else {
        return 0;
    };
    let mut total = parameter_length(first);
    for constant in &all[1..] {
        total = sum(total, b", ".len(), parameter_length(constant));
    }
    total
}

/// The length of a named constant and its value.
fn parameter_length(constant: &(Name, Expr)) -> usize
    ensures { result ≡ limited (length (parameter_text (value_tree constant.now))) }
{
    sum(
        constant.0.as_bytes().len(),
        b"=".len(),
        value_length(&constant.1),
    )
}
