//! Numbers that are too large in a tree: literals above 2147483647, the greatest integer of the profile,
//! and more than seven dimensions of an array (ANSI X3.9-1978, section 5.1.1).

ghost use Rattle.std.specs.Prelude.{◌≡◌, ◌||◌, map, length, nat_lt};
ghost use Rattle.std.specs.List.{list_any};
ghost use Rattle.ped_tree.specs.Grammar.Literals as Spec;
ghost use Rattle.ped_tree.specs.Grammar.ProgramRefusals as Refusals;
ghost use Rattle.ped_tree.specs.Views.{expr_tree, item_tree, stmt_tree, stmt_trees, bound_tree, declarator_tree, decl_tree, value_tree};
ghost use Rattle.ped_tree.specs.Grammar.LimitNumbers.{most_dimensions};

use crate::limits::MOST_DIMENSIONS;
use ped_base::Name;
use ped_expressions::{cond_has_large_literal, has_large_literal};
use ped_tree::{Bound, Decl, Declarator, Expr, PrintItem, Stmt};

/// Whether a literal in the bounds or the increment of a DO is too large.
pub fn head_has_large_literal(first: &Expr, last: &Expr, step: &Expr) -> bool
    ensures { result ≡ (Spec.has_large_literal (expr_tree first.now) || Spec.has_large_literal (expr_tree last.now) || Spec.has_large_literal (expr_tree step.now)) }
{
    has_large_literal(first) || has_large_literal(last) || has_large_literal(step)
}

/// Whether a literal in the statement or in its parts is too large.
#[cycle(stmt_literals)]
pub fn stmt_has_large_literal(statement: &Stmt) -> bool
    ensures { result ≡ Spec.stmt_has_large_literal (stmt_tree statement.now) }
{
    match statement {
        Stmt::Assign { left, right } => has_large_literal(left) || has_large_literal(right),
        Stmt::If {
            condition,
            then_part,
            else_part,
        } => {
            cond_has_large_literal(condition)
                || stmts_have_large_literal(then_part)
                || stmts_have_large_literal(else_part)
        }
        Stmt::Do(d) => {
            head_has_large_literal(&d.first, &d.last, &d.step) || stmts_have_large_literal(&d.body)
        }
        Stmt::Print(items) => items_have_large_literal(items),
        Stmt::Read(items) => any_has_large_literal(items),
        Stmt::Stop | Stmt::Comment(_) => false,
    }
}

#[cycle(stmt_literals)]
fn stmts_have_large_literal(statements: &[Stmt]) -> bool
    ensures { result ≡ Spec.stmts_have_large_literal (stmt_trees statements.now) }
{
    for statement in statements {
        if stmt_has_large_literal(statement) {
            return true;
        }
    }
    false
}

fn items_have_large_literal(items: &[PrintItem]) -> bool
    ensures { result ≡ list_any Spec.item_has_large_literal (map item_tree items.now) }
{
    for item in items {
        if item_has_large_literal(item) {
            return true;
        }
    }
    false
}

fn item_has_large_literal(item: &PrintItem) -> bool
    ensures { result ≡ Spec.item_has_large_literal (item_tree item.now) }
{
    match item {
        PrintItem::Value(e) => has_large_literal(e),
        PrintItem::Text(_) => false,
    }
}

fn any_has_large_literal(items: &[Expr]) -> bool
    ensures { result ≡ list_any Spec.has_large_literal (map expr_tree items.now) }
{
    for item in items {
        if has_large_literal(item) {
            return true;
        }
    }
    false
}

/// Whether a literal in the declaration is too large.
pub fn decl_has_large_literal(decl: &Decl) -> bool
    ensures { result ≡ Spec.decl_has_large_literal (decl_tree decl.now) }
{
    match decl {
        Decl::Integer(declarators) | Decl::Dimension(declarators) => {
            declarators_have_large_literal(declarators)
        }
        Decl::Parameter(constants) => constants_have_large_literal(constants),
        Decl::Program(_) | Decl::Implicit | Decl::Save(_) | Decl::Comment(_) => false,
    }
}

fn declarators_have_large_literal(declarators: &[Declarator]) -> bool
    ensures { result ≡ list_any Spec.declarator_has_large_literal (map declarator_tree declarators.now) }
{
    for declarator in declarators {
        if bounds_have_large_literal(&declarator.bounds) {
            return true;
        }
    }
    false
}

fn bounds_have_large_literal(bounds: &[Bound]) -> bool
    ensures { result ≡ list_any (λ b. Spec.has_large_literal b.lower || Spec.has_large_literal b.upper) (map bound_tree bounds.now) }
{
    for bound in bounds {
        if has_large_literal(&bound.lower) || has_large_literal(&bound.upper) {
            return true;
        }
    }
    false
}

fn constants_have_large_literal(constants: &[(Name, Expr)]) -> bool
    ensures { result ≡ list_any (λ v. Spec.has_large_literal v.1) (map value_tree constants.now) }
{
    for constant in constants {
        if has_large_literal(&constant.1) {
            return true;
        }
    }
    false
}

/// Whether a declared array has more dimensions than an array may have.
pub fn has_eight_dimensions(decl: &Decl) -> bool
    ensures { result ≡ Refusals.has_eight_dimensions (decl_tree decl.now) }
{
    match decl {
        Decl::Integer(declarators) | Decl::Dimension(declarators) => {
            any_has_many_dimensions(declarators)
        }
        Decl::Program(_) | Decl::Implicit | Decl::Parameter(_) | Decl::Save(_) | Decl::Comment(_) =>
            false,
    }
}

fn any_has_many_dimensions(declarators: &[Declarator]) -> bool
    ensures { result ≡ list_any (λ d. nat_lt most_dimensions (length d.bounds)) (map declarator_tree declarators.now) }
{
    for declarator in declarators {
        if declarator.bounds.len() > MOST_DIMENSIONS {
            return true;
        }
    }
    false
}
