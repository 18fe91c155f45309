//! The two loops that replace a DO with a list. In the iterations of the first, all sums are kept apart. The second
//! adds them to the scalars.

ghost use Rattle.std.specs.Prelude.{◌≡◌, [], map, true, IfOk, OnOk};
ghost use Rattle.ped_tree.specs.Tree;
ghost use Rattle.ped_tree.specs.Views.{expr_tree, stmt_tree, stmt_trees, do_tree, head_of};
ghost use Rattle.ped_rules.specs.ped_steps.specs.Replacing as Replacing;
ghost use Rattle.ped_tree.specs.declared.expressions.Intrinsic.TheVariants.{Mod};
ghost use Rattle.ped_reduce.specs.Lists as Lists;
ghost use Rattle.ped_reduce.specs.Lowering as Spec;
ghost use Rattle.ped_reduce.specs.CodeLowering.{partials_view};
ghost use Rattle.ped_reduce.specs.CodeSums.{sum_view};

use crate::lists::without_list;
use crate::partials::Partials;
use crate::sums::{Sum, sum_to};
use ped_base::{Listed, Name, NoMemory, both};
use ped_tree::{Cond, Do, Expr, Intrinsic, Relation, Stmt};
use std::alloc::Global;

/// The DO with all sums kept apart as a PARALLEL DO, and after it the DO that adds them to the scalars.
pub(crate) fn lowered_loop(
    alloc: Global,
    partials: &[Partials],
    d: &Do,
) -> Result<Vec<Stmt>, NoMemory>
    ensures { IfOk result (λ all. stmt_trees all.items ≡ Spec.lowered_loop true (map partials_view partials.now) (head_of d.now) (stmt_trees d.now.body.items)) }
{
    let mut all = Vec::new(alloc);
    all.push(loop_apart(alloc, partials, d)?)?;
    all.push(exit_loop(alloc, partials, d)?)?;
    Ok(all)
}

/// The DO with all sums kept apart, as a PARALLEL DO.
fn loop_apart(alloc: Global, partials: &[Partials], d: &Do) -> Result<Stmt, NoMemory>
    ensures { IfOk result (λ s. stmt_tree s ≡ Tree.Do (record (head_of d.now) { parallel = true }) (Replacing.followed (Spec.zeros d.now.variable (map partials_view partials.now)) (Spec.all_summed d.now.variable (map partials_view partials.now) (Lists.without_list (stmt_trees d.now.body.items))))) }
{
    let mut body = zeros(alloc, d.variable, partials)?;
    let rest = without_list(alloc, &d.body)?;
    add_summed(alloc, d.variable, partials, rest, &mut body)?;
    let mut new = d.with_body(body, alloc)?;
    new.parallel = true;
    Ok(Stmt::of_loop(new))
}

/// The DO with the same iterations that adds what is kept apart to the scalars.
fn exit_loop(alloc: Global, partials: &[Partials], d: &Do) -> Result<Stmt, NoMemory>
    ensures { IfOk result (λ s. stmt_tree s ≡ Tree.Do (Spec.bare (head_of d.now)) (Spec.exits d.now.variable (map partials_view partials.now))) }
{
    let body = exits(alloc, d.variable, partials)?;
    let mut new = d.with_body(body, alloc)?;
    new.parallel = false;
    new.private = Listed::new(alloc);
    new.rejected = Listed::new(alloc);
    Ok(Stmt::of_loop(new))
}

/// Each iteration begins with nothing added.
fn zeros(alloc: Global, v: Name, partials: &[Partials]) -> Result<Vec<Stmt>, NoMemory>
    ensures { IfOk result (λ all. stmt_trees all.items ≡ Spec.zeros v (map partials_view partials.now)) }
{
    let mut all = Vec::new(alloc);
    for p in partials {
        all.push(set(alloc, p.high, v, 0)?)?;
        all.push(set(alloc, p.low, v, 0)?)?;
        all.push(set(alloc, p.flag, v, 0)?)?;
    }
    Ok(all)
}

/// The element at the value of the DO's variable becomes this literal.
fn set(alloc: Global, array: Name, v: Name, value: u32) -> Result<Stmt, NoMemory>
    ensures { IfOk result (λ s. stmt_tree s ≡ Tree.Assign (Spec.at array v) (Tree.Int value)) }
{
    let left = at(alloc, array, v)?;
    Ok(Stmt::assignment(left, Expr::literal(value)))
}

/// The element of an array at the value of the DO's variable.
fn at(alloc: Global, array: Name, v: Name) -> Result<Expr, NoMemory>
    ensures { IfOk result (λ e. expr_tree e ≡ Spec.at array v) }
{
    let mut subscripts = Vec::new(alloc);
    subscripts.push(Expr::scalar(v))?;
    Ok(Expr::element(array, subscripts))
}

/// Adds statements in which all sums are kept apart.
#[cycle(summed)]
fn add_summed(
    alloc: Global,
    v: Name,
    partials: &[Partials],
    statements: &[Stmt],
    all: &mut Vec<Stmt>,
) -> Result<(), NoMemory>
    ensures { OnOk result (stmt_trees all.new.items ≡ Replacing.followed (stmt_trees all.old.items) (Spec.all_summed v (map partials_view partials.now) (stmt_trees statements.now))) }
{
    for statement in statements {
        add_one_summed(alloc, v, partials, statement, all)?;
    }
    Ok(())
}

/// Adds a statement in which all sums are kept apart.
#[cycle(summed)]
fn add_one_summed(
    alloc: Global,
    v: Name,
    partials: &[Partials],
    statement: &Stmt,
    all: &mut Vec<Stmt>,
) -> Result<(), NoMemory>
    ensures { OnOk result (stmt_trees all.new.items ≡ Replacing.followed (stmt_trees all.old.items) (Spec.summed v (map partials_view partials.now) (stmt_tree statement.now))) }
{
    match statement {
        Stmt::Assign { left: _, right: _ } => {
            return add_apart(alloc, all, v, partials, statement);
        }
        Stmt::If {
            condition,
            then_part,
            else_part,
        } => {
            let mut then_new = Vec::new(alloc);
            add_summed(alloc, v, partials, then_part, &mut then_new)?;
            let mut else_new = Vec::new(alloc);
            add_summed(alloc, v, partials, else_part, &mut else_new)?;
            let condition = condition.copy(alloc)?;
            return add_one(all, Stmt::block_if(condition, then_new, else_new));
        }
        Stmt::Do(d) => {
            let mut body = Vec::new(alloc);
            add_summed(alloc, v, partials, &d.body, &mut body)?;
            let new = d.with_body(body, alloc)?;
            return add_one(all, Stmt::of_loop(new));
        }
        Stmt::Print(_) | Stmt::Read(_) | Stmt::Stop | Stmt::Comment(_) => {
            return add_one(all, statement.copy(alloc)?);
        }
    }
}

/// Adds a statement.
fn add_one(all: &mut Vec<Stmt>, statement: Stmt) -> Result<(), NoMemory>
    ensures { OnOk result (stmt_trees all.new.items ≡ Replacing.followed (stmt_trees all.old.items) (Replacing.alone (stmt_tree statement))) }
{
    all.push(statement)?;
    Ok(())
}

/// Adds an assignment; where it is a sum of one of the scalars, the statements that keep it apart.
fn add_apart(
    alloc: Global,
    all: &mut Vec<Stmt>,
    v: Name,
    partials: &[Partials],
    statement: &Stmt,
) -> Result<(), NoMemory>
    ensures { OnOk result (stmt_trees all.new.items ≡ Replacing.followed (stmt_trees all.old.items) (Spec.sum_apart v (map partials_view partials.now) (stmt_tree statement.now))) }
{
    for p in partials {
        if let Some(sum) = sum_to(&p.scalar, statement) {
            return add_sum(alloc, all, v, p, &sum);
        }
    }
    add_one(all, statement.copy(alloc)?)
}

/// Adds the statements that keep apart what is added to a scalar.
fn add_sum(
    alloc: Global,
    all: &mut Vec<Stmt>,
    v: Name,
    p: &Partials,
    sum: &Sum,
) -> Result<(), NoMemory>
    ensures { OnOk result (stmt_trees all.new.items ≡ Replacing.followed (stmt_trees all.old.items) (Spec.added_apart v (partials_view p.now) (sum_view sum.now))) }
{
    all.push(high_part(alloc, v, p, sum)?)?;
    all.push(low_part(alloc, v, p, sum)?)?;
    all.push(set(alloc, p.flag, v, 1)?)?;
    Ok(())
}

/// The high part of what is added.
fn high_part(alloc: Global, v: Name, p: &Partials, sum: &Sum) -> Result<Stmt, NoMemory>
    ensures { IfOk result (λ s. stmt_tree s ≡ Tree.Assign (Spec.at p.now.high v) (Tree.Add (Spec.at p.now.high v) (Tree.Div (Spec.with_sum (Spec.at p.now.low v) (sum_view sum.now)) (Tree.Int 65536)))) }
{
    let value = with_sum(alloc, v, p, sum)?;
    let quotient = Expr::quotient(alloc, value, Expr::literal(65536))?;
    let (quotient, left) = both(quotient, at(alloc, p.high, v))?;
    accumulation(alloc, left, quotient)
}

/// The assignment that adds a value to a variable or an element.
fn accumulation(alloc: Global, left: Expr, value: Expr) -> Result<Stmt, NoMemory>
    ensures { IfOk result (λ s. stmt_tree s ≡ Tree.Assign (expr_tree left) (Tree.Add (expr_tree left) (expr_tree value))) }
{
    let before = left.copy(alloc);
    let ((left, value), before) = both((left, value), before)?;
    let (left, right) = both(left, Expr::sum(alloc, before, value))?;
    Ok(Stmt::assignment(left, right))
}

/// The low part of what is added.
fn low_part(alloc: Global, v: Name, p: &Partials, sum: &Sum) -> Result<Stmt, NoMemory>
    ensures { IfOk result (λ s. stmt_tree s ≡ Tree.Assign (Spec.at p.now.low v) (Tree.Call Mod (Tree.more_exprs (Spec.with_sum (Spec.at p.now.low v) (sum_view sum.now)) (Tree.more_exprs (Tree.Int 65536) Tree.no_exprs)))) }
{
    let mut arguments = Vec::new(alloc);
    arguments.push(with_sum(alloc, v, p, sum)?)?;
    arguments.push(Expr::literal(65536))?;
    let left = at(alloc, p.low, v)?;
    Ok(Stmt::assignment(left, Expr::call(Intrinsic::Mod, arguments)))
}

/// The low part with what is added, or without what is taken away.
fn with_sum(alloc: Global, v: Name, p: &Partials, sum: &Sum) -> Result<Expr, NoMemory>
    ensures { IfOk result (λ e. expr_tree e ≡ Spec.with_sum (Spec.at p.now.low v) (sum_view sum.now)) }
{
    match sum {
        Sum::Plus(e) => {
            let (low, e) = both(at(alloc, p.low, v)?, e.copy(alloc))?;
            Expr::sum(alloc, low, e)
        }
        Sum::Minus(e) => {
            let (low, e) = both(at(alloc, p.low, v)?, e.copy(alloc))?;
            Expr::difference(alloc, low, e)
        }
    }
}

/// What an iteration has added goes to each scalar.
fn exits(alloc: Global, v: Name, partials: &[Partials]) -> Result<Vec<Stmt>, NoMemory>
    ensures { IfOk result (λ all. stmt_trees all.items ≡ Spec.exits v (map partials_view partials.now)) }
{
    let mut all = Vec::new(alloc);
    for p in partials {
        all.push(exit(alloc, v, p)?)?;
    }
    Ok(all)
}

/// What an iteration has added goes to the scalar, where it has added something.
fn exit(alloc: Global, v: Name, p: &Partials) -> Result<Stmt, NoMemory>
    ensures { IfOk result (λ s. stmt_tree s ≡ Spec.exit v (partials_view p.now)) }
{
    let mut then_part = Vec::new(alloc);
    then_part.push(addition(alloc, v, p)?)?;
    let flag = at(alloc, p.flag, v)?;
    let condition = Cond::relation(Relation::Eq, flag, Expr::literal(1));
    Ok(Stmt::block_if(condition, then_part, Vec::new(alloc)))
}

/// The scalar becomes itself with what an iteration has added.
fn addition(alloc: Global, v: Name, p: &Partials) -> Result<Stmt, NoMemory>
    ensures { IfOk result (λ s. stmt_tree s ≡ Spec.addition v (partials_view p.now)) }
{
    let high = at(alloc, p.high, v)?;
    let product = Expr::product(alloc, high, Expr::literal(65536))?;
    let (product, low) = both(product, at(alloc, p.low, v))?;
    let added = Expr::sum(alloc, product, low)?;
    accumulation(alloc, Expr::scalar(p.scalar), added)
}
