//! What one statement by itself reads and writes, in order: the right side before the left, subscripts before
//! their element, a DO's bounds before its private names. If memory runs out, the list has a prefix of what
//! was to be added.

ghost use Rattle.std.specs.Prelude.{◌≡◌, [], ◌∷◌, ◌++◌, map, true, IfOk, OnOk};
ghost use Rattle.std.specs.List.{flat_map};
ghost use Rattle.ped_tree.specs.Tree;
ghost use Rattle.ped_tree.specs.Accesses as Spec;
ghost use Rattle.ped_tree.specs.Views.{expr_tree, pack_exprs, cond_tree, item_tree, stmt_tree};
ghost use Rattle.ped_refs.specs.Occurrences.{name_text};
ghost use Rattle.ped_refs.specs.Listing.{accesses_of, constants_round, indices_round};

use crate::loops::is_index;
use crate::references::RefName;
use crate::surroundings::Surroundings;
use ped_base::{Name, NoMemory};
use ped_tree::{Cond, Do, Expr, PrintItem, Stmt};
use std::alloc::Global;

/// A read or a write.
#[derive(Clone, Copy)]
pub struct Access<'a> {
    /// What is read or written.
    pub name: RefName,
    /// Whether it is written.
    pub writes: bool,
    /// The subscripts, none for a scalar.
    pub subscripts: &'a [Expr],
}

/// The accesses of a statement by itself.
pub fn own_accesses<'a>(
    alloc: Global,
    around: &Surroundings,
    statement: &'a Stmt,
) -> Result<Vec<Access<'a>>, NoMemory>
    ensures { IfOk result (λ found. accesses_of found.items ≡ Spec.own_accesses (constants_round around.now) (indices_round around.now) (stmt_tree statement.now)) }
{
    let mut found = Vec::new(alloc);
    add_statement(&mut found, around, statement)?;
    Ok(found)
}

/// Adds the accesses of a statement by itself.
fn add_statement<'a>(
    found: &mut Vec<Access<'a>>,
    around: &Surroundings,
    statement: &'a Stmt,
) -> Result<(), NoMemory>
    ensures { OnOk result (accesses_of found.new.items ≡ accesses_of found.old.items ++ Spec.own_accesses (constants_round around.now) (indices_round around.now) (stmt_tree statement.now)) }
{
    match statement {
        Stmt::Assign { left, right } => {
            add_expr(found, around, right)?;
            add_left(found, around, left)
        }
        Stmt::If { condition, .. } => add_cond(found, around, condition),
        Stmt::Do(d) => add_do(found, around, d),
        Stmt::Print(items) => {
            add_items(found, around, items)?;
            add_write(found, RefName::Out)
        }
        Stmt::Read(items) => {
            add_write(found, RefName::In)?;
            add_targets(found, around, items)
        }
        Stmt::Stop | Stmt::Comment(_) => Ok(()),
    }
}

/// Adds the accesses of a DO statement: its bounds, and a write of each private name.
fn add_do<'a>(found: &mut Vec<Access<'a>>, around: &Surroundings, d: &'a Do) -> Result<(), NoMemory>
    ensures { OnOk result (accesses_of found.new.items ≡ accesses_of found.old.items ++ Spec.expr_reads (constants_round around.now) (indices_round around.now) (expr_tree d.now.first)
        ++ Spec.expr_reads (constants_round around.now) (indices_round around.now) (expr_tree d.now.last)
        ++ Spec.private_writes (constants_round around.now) d.now.private) }
{
    add_expr(found, around, &d.first)?;
    add_expr(found, around, &d.last)?;
    add_private(found, around, d.private.as_slice())
}

/// Adds a read or a write.
fn add_access<'a>(
    found: &mut Vec<Access<'a>>,
    name: RefName,
    writes: bool,
    subscripts: &'a [Expr],
) -> Result<(), NoMemory>
    ensures { OnOk result (accesses_of found.new.items ≡ accesses_of found.old.items ++ (record { name = name_text name; writes = writes; subscripts = map expr_tree subscripts.now }) ∷ []) }
{
    match found.push(Access {
        name,
        writes,
        subscripts,
    }) {
        Ok(()) => Ok(()),
        Err(_) => Err(NoMemory),
    }
}

/// Adds a write of the data lines or the output.
fn add_write<'a>(found: &mut Vec<Access<'a>>, name: RefName) -> Result<(), NoMemory>
    ensures { OnOk result (accesses_of found.new.items ≡ accesses_of found.old.items ++ Spec.write_of (name_text name) [] ∷ []) }
{
    add_access(found, name, true, &[])
}

/// Adds a read or a write of a variable with these subscripts, where the name is no constant.
fn add_variable<'a>(
    found: &mut Vec<Access<'a>>,
    around: &Surroundings,
    name: &Name,
    writes: bool,
    subscripts: &'a [Expr],
) -> Result<(), NoMemory>
    ensures { OnOk result (accesses_of found.new.items ≡ accesses_of found.old.items
        ++ Spec.unless_constant (constants_round around.now) (record { name = name.now; writes = writes; subscripts = map expr_tree subscripts.now })) }
{
    if !around.constants.contains(name) {
        add_access(found, RefName::Named(*name), writes, subscripts)?;
    }
    Ok(())
}

/// Adds a write of each private name.
fn add_private<'a>(
    found: &mut Vec<Access<'a>>,
    around: &Surroundings,
    private: &[Name],
) -> Result<(), NoMemory>
    ensures { OnOk result (accesses_of found.new.items ≡ accesses_of found.old.items ++ Spec.private_writes (constants_round around.now) private.now) }
{
    for name in private {
        add_variable(found, around, name, true, &[])?;
    }
    Ok(())
}

/// Adds what the items of a PRINT read.
fn add_items<'a>(
    found: &mut Vec<Access<'a>>,
    around: &Surroundings,
    items: &'a [PrintItem],
) -> Result<(), NoMemory>
    ensures { OnOk result (accesses_of found.new.items ≡ accesses_of found.old.items ++ flat_map (Spec.item_reads (constants_round around.now) (indices_round around.now)) (map item_tree items.now)) }
{
    for item in items {
        add_item(found, around, item)?;
    }
    Ok(())
}

fn add_item<'a>(
    found: &mut Vec<Access<'a>>,
    around: &Surroundings,
    item: &'a PrintItem,
) -> Result<(), NoMemory>
    ensures { OnOk result (accesses_of found.new.items ≡ accesses_of found.old.items ++ Spec.item_reads (constants_round around.now) (indices_round around.now) (item_tree item.now)) }
{
    match item {
        PrintItem::Value(e) => add_expr(found, around, e),
        PrintItem::Text(_) => Ok(()),
    }
}

/// Adds what the items of a READ read and write.
fn add_targets<'a>(
    found: &mut Vec<Access<'a>>,
    around: &Surroundings,
    items: &'a [Expr],
) -> Result<(), NoMemory>
    ensures { OnOk result (accesses_of found.new.items ≡ accesses_of found.old.items ++ flat_map (Spec.left_accesses (constants_round around.now) (indices_round around.now)) (map expr_tree items.now)) }
{
    for item in items {
        add_left(found, around, item)?;
    }
    Ok(())
}

/// Adds what a left side reads, and then its write.
fn add_left<'a>(
    found: &mut Vec<Access<'a>>,
    around: &Surroundings,
    left: &'a Expr,
) -> Result<(), NoMemory>
    ensures { OnOk result (accesses_of found.new.items ≡ accesses_of found.old.items ++ Spec.left_accesses (constants_round around.now) (indices_round around.now) (expr_tree left.now)) }
{
    match left {
        Expr::Var(name) => add_variable(found, around, name, true, &[]),
        Expr::Element(array, subscripts) => {
            add_exprs(found, around, subscripts)?;
            add_variable(found, around, array, true, subscripts)
        }
        Expr::Int(_)
        | Expr::Neg(_)
        | Expr::Add(_, _)
        | Expr::Sub(_, _)
        | Expr::Mul(_, _)
        | Expr::Div(_, _)
        | Expr::Pow(_, _)
        | Expr::Call(_, _) => Ok(()),
    }
}

/// Adds what a condition reads.
#[cycle(conditions)]
fn add_cond<'a>(
    found: &mut Vec<Access<'a>>,
    around: &Surroundings,
    condition: &'a Cond,
) -> Result<(), NoMemory>
    ensures { OnOk result (accesses_of found.new.items ≡ accesses_of found.old.items ++ Spec.cond_reads (constants_round around.now) (indices_round around.now) (cond_tree condition.now)) }
{
    match condition {
        Cond::Rel(_, left, right) => {
            add_expr(found, around, left)?;
            add_expr(found, around, right)
        }
        Cond::Not(operand) => add_cond(found, around, operand),
        Cond::And(left, right) | Cond::Or(left, right) => {
            add_cond(found, around, left)?;
            add_cond(found, around, right)
        }
    }
}

/// Adds what an expression reads.
#[cycle(expressions)]
fn add_expr<'a>(
    found: &mut Vec<Access<'a>>,
    around: &Surroundings,
    e: &'a Expr,
) -> Result<(), NoMemory>
    ensures { OnOk result (accesses_of found.new.items ≡ accesses_of found.old.items ++ Spec.expr_reads (constants_round around.now) (indices_round around.now) (expr_tree e.now)) }
{
    match e {
        Expr::Int(_) => Ok(()),
        Expr::Var(name) => add_scalar(found, around, name),
        Expr::Element(name, subscripts) => {
            add_exprs(found, around, subscripts)?;
            add_variable(found, around, name, false, subscripts)
        }
        Expr::Neg(operand) => add_expr(found, around, operand),
        Expr::Add(left, right)
        | Expr::Sub(left, right)
        | Expr::Mul(left, right)
        | Expr::Div(left, right)
        | Expr::Pow(left, right) => {
            add_expr(found, around, left)?;
            add_expr(found, around, right)
        }
        Expr::Call(_, arguments) => add_exprs(found, around, arguments),
    }
}

/// Adds the read of a scalar, where it is neither the variable of a DO nor a constant.
fn add_scalar<'a>(
    found: &mut Vec<Access<'a>>,
    around: &Surroundings,
    name: &Name,
) -> Result<(), NoMemory>
    ensures { OnOk result (accesses_of found.new.items ≡ accesses_of found.old.items ++ Spec.expr_reads (constants_round around.now) (indices_round around.now) (Tree.Var name.now)) }
{
    if is_index(name, around.loops) {
        return Ok(());
    }
    add_variable(found, around, name, false, &[])
}

/// Adds what subscripts or arguments read.
#[cycle(expressions)]
fn add_exprs<'a>(
    found: &mut Vec<Access<'a>>,
    around: &Surroundings,
    exprs: &'a [Expr],
) -> Result<(), NoMemory>
    ensures { OnOk result (accesses_of found.new.items ≡ accesses_of found.old.items ++ Spec.exprs_reads (constants_round around.now) (indices_round around.now) (pack_exprs (map expr_tree exprs.now))) }
{
    for e in exprs {
        add_expr(found, around, e)?;
    }
    Ok(())
}
