//! The references in one statement, its reads and its writes, counted without a list of them. Counts stop
//! at the greatest `usize`.

ghost use Rattle.std.specs.Prelude.{◌≡◌, ◌++◌, map, length, if◌then◌else◌};
ghost use Rattle.std.specs.List.{flat_map};
ghost use Rattle.ped_tree.specs.Tree;
ghost use Rattle.ped_tree.specs.Accesses as Spec;
ghost use Rattle.ped_base.specs.Lists as Lists;
ghost use Rattle.ped_tree.specs.Accesses.{own_accesses, constant_names};
ghost use Rattle.ped_tree.specs.Views.{expr_tree, pack_exprs, cond_tree, item_tree, stmt_tree, decl_tree};
ghost use Rattle.ped_print.specs.Lengths.{limited};
ghost use Rattle.ped_limits.specs.Constants.{names_of};

use crate::constants::{Constants, is_constant};
use ped_base::{Name, is_among};
use ped_tree::names::NameSet;
use ped_tree::{Cond, Decl, Expr, PrintItem, Stmt};

/// How many references a statement by itself has, where these are the named constants and the variables of
/// the DO loops around it; `usize::MAX` where it has more.
pub fn references(constants: &NameSet, variables: &[Name], statement: &Stmt) -> usize
    ensures { result ≡ limited (length (own_accesses constants.now variables.now (stmt_tree statement.now))) }
{
    accesses(&Constants::Named(constants), variables, statement)
}

/// How many references a statement by itself has, where these are the declarations of its program and the
/// variables of the DO loops around it; `usize::MAX` where it has more. It takes no memory.
pub fn references_declared(decls: &[Decl], variables: &[Name], statement: &Stmt) -> usize
    ensures { result ≡ limited (length (own_accesses (constant_names (map decl_tree decls.now)) variables.now (stmt_tree statement.now))) }
{
    accesses(&Constants::Declared(decls), variables, statement)
}

/// How many references a DO statement with these bounds and private names has; `usize::MAX` where it has
/// more.
pub fn do_references(
    constants: &NameSet,
    variables: &[Name],
    first: &Expr,
    last: &Expr,
    private: &[Name],
) -> usize
    ensures { result ≡ limited (length (Spec.expr_reads constants.now variables.now (expr_tree first.now)
        ++ Spec.expr_reads constants.now variables.now (expr_tree last.now)
        ++ Spec.private_writes constants.now private.now)) }
{
    do_accesses(
        &Constants::Named(constants),
        variables,
        first,
        last,
        private,
    )
}

/// How many references a condition has, which are those of an IF; `usize::MAX` where it has more.
pub fn cond_references(constants: &NameSet, variables: &[Name], condition: &Cond) -> usize
    ensures { result ≡ limited (length (Spec.cond_reads constants.now variables.now (cond_tree condition.now))) }
{
    cond_reads(&Constants::Named(constants), variables, condition)
}

/// How many references a statement by itself has.
fn accesses(constants: &Constants, variables: &[Name], statement: &Stmt) -> usize
    ensures { result ≡ limited (length (own_accesses (names_of constants.now) variables.now (stmt_tree statement.now))) }
{
    match statement {
        Stmt::Assign { left, right } => expr_reads(constants, variables, right).saturating_add(
            left_accesses(constants, variables, left),
        ),
        Stmt::If { condition, .. } => cond_reads(constants, variables, condition),
        Stmt::Do(d) => do_accesses(
            constants,
            variables,
            &d.first,
            &d.last,
            d.private.as_slice(),
        ),
        Stmt::Print(items) => items_reads(constants, variables, items).saturating_add(1),
        Stmt::Read(items) => targets_accesses(constants, variables, items).saturating_add(1),
        Stmt::Stop | Stmt::Comment(_) => 0,
    }
}

/// How many references a DO statement has.
fn do_accesses(
    constants: &Constants,
    variables: &[Name],
    first: &Expr,
    last: &Expr,
    private: &[Name],
) -> usize
    ensures { result ≡ limited (length (Spec.expr_reads (names_of constants.now) variables.now (expr_tree first.now)
        ++ Spec.expr_reads (names_of constants.now) variables.now (expr_tree last.now)
        ++ Spec.private_writes (names_of constants.now) private.now)) }
{
    expr_reads(constants, variables, first)
        .saturating_add(expr_reads(constants, variables, last))
        .saturating_add(private_writes(constants, private))
}

/// How many private names are no constants.
#[tactic(auto, using(crate::proofs::Counts::unless_length))]
fn private_writes(constants: &Constants, private: &[Name]) -> usize
    ensures { result ≡ limited (length (Spec.private_writes (names_of constants.now) private.now)) }
{
    let mut total: usize = 0;
    for name in private {
        total = total.saturating_add(unless_constant(constants, name));
    }
    total
}

/// 1 for a read or a write of a variable, 0 where the name is a constant.
fn unless_constant(constants: &Constants, name: &Name) -> usize
    ensures { result ≡ (if Lists.is_among name.now (names_of constants.now) then 0 else 1) }
{
    if is_constant(constants, name) { 0 } else { 1 }
}

/// How many references the items of a PRINT have.
fn items_reads(constants: &Constants, variables: &[Name], items: &[PrintItem]) -> usize
    ensures { result ≡ limited (length (flat_map (Spec.item_reads (names_of constants.now) variables.now) (map item_tree items.now))) }
{
    let mut total: usize = 0;
    for item in items {
        total = total.saturating_add(item_reads(constants, variables, item));
    }
    total
}

fn item_reads(constants: &Constants, variables: &[Name], item: &PrintItem) -> usize
    ensures { result ≡ limited (length (Spec.item_reads (names_of constants.now) variables.now (item_tree item.now))) }
{
    match item {
        PrintItem::Value(e) => expr_reads(constants, variables, e),
        PrintItem::Text(_) => 0,
    }
}

/// How many references the items of a READ have.
fn targets_accesses(constants: &Constants, variables: &[Name], items: &[Expr]) -> usize
    ensures { result ≡ limited (length (flat_map (Spec.left_accesses (names_of constants.now) variables.now) (map expr_tree items.now))) }
{
    let mut total: usize = 0;
    for item in items {
        total = total.saturating_add(left_accesses(constants, variables, item));
    }
    total
}

/// How many references a left side has.
#[tactic(auto, using(crate::proofs::Counts::unless_length))]
fn left_accesses(constants: &Constants, variables: &[Name], left: &Expr) -> usize
    ensures { result ≡ limited (length (Spec.left_accesses (names_of constants.now) variables.now (expr_tree left.now))) }
{
    match left {
        Expr::Var(name) => unless_constant(constants, name),
        Expr::Element(name, subscripts) => exprs_reads(
            constants, variables, subscripts,
        ).saturating_add(unless_constant(constants, name)),
        Expr::Int(_)
        | Expr::Neg(_)
        | Expr::Add(_, _)
        | Expr::Sub(_, _)
        | Expr::Mul(_, _)
        | Expr::Div(_, _)
        | Expr::Pow(_, _)
        | Expr::Call(_, _) => 0,
    }
}

/// How many references a condition has.
#[cycle(cond_reads)]
fn cond_reads(constants: &Constants, variables: &[Name], condition: &Cond) -> usize
    ensures { result ≡ limited (length (Spec.cond_reads (names_of constants.now) variables.now (cond_tree condition.now))) }
{
    match condition {
        Cond::Rel(_, left, right) => expr_reads(constants, variables, left).saturating_add(
            expr_reads(constants, variables, right),
        ),
        Cond::Not(operand) => cond_reads(constants, variables, operand),
        Cond::And(left, right) | Cond::Or(left, right) => {
            cond_reads(constants, variables, left).saturating_add(cond_reads(
                constants, variables, right,
            ))
        }
    }
}

/// How many references an expression has.
#[cycle(reads)]
#[tactic(auto, using(crate::proofs::Counts::unless_length))]
fn expr_reads(constants: &Constants, variables: &[Name], e: &Expr) -> usize
    ensures { result ≡ limited (length (Spec.expr_reads (names_of constants.now) variables.now (expr_tree e.now))) }
{
    match e {
        Expr::Int(_) => 0,
        Expr::Var(name) => scalar_reads(constants, variables, name),
        Expr::Element(name, subscripts) => exprs_reads(
            constants, variables, subscripts,
        ).saturating_add(unless_constant(constants, name)),
        Expr::Neg(operand) => expr_reads(constants, variables, operand),
        Expr::Add(left, right)
        | Expr::Sub(left, right)
        | Expr::Mul(left, right)
        | Expr::Div(left, right)
        | Expr::Pow(left, right) => expr_reads(constants, variables, left).saturating_add(
            expr_reads(constants, variables, right),
        ),
        Expr::Call(_, arguments) => exprs_reads(constants, variables, arguments),
    }
}

/// How many references a scalar is that is read: none where it is the variable of a DO or a constant.
#[tactic(auto, using(crate::proofs::Counts::unless_length))]
fn scalar_reads(constants: &Constants, variables: &[Name], name: &Name) -> usize
    ensures { result ≡ length (Spec.expr_reads (names_of constants.now) variables.now (Tree.Var name.now)) }
{
    if is_among(name, variables) {
        0
    } else {
        unless_constant(constants, name)
    }
}

/// How many references subscripts or arguments have.
#[cycle(reads)]
#[tactic(auto, using(crate::proofs::Counts::unless_length))]
fn exprs_reads(constants: &Constants, variables: &[Name], exprs: &[Expr]) -> usize
    ensures { result ≡ limited (length (Spec.exprs_reads (names_of constants.now) variables.now (pack_exprs (map expr_tree exprs.now)))) }
{
    let mut total: usize = 0;
    for e in exprs {
        total = total.saturating_add(expr_reads(constants, variables, e));
    }
    total
}
