//! Copies of statements, with everything in them.

ghost use Rattle.std.specs.Prelude.{◌≡◌, Err, IfOk, map};
ghost use Rattle.ped_tree.specs.Tree;
ghost use Rattle.ped_tree.specs.Views.{expr_tree, cond_tree, item_tree, stmt_tree, stmt_trees, head, head_of, do_tree};

use super::expressions::copy_exprs;
use super::{copy_bytes, copy_names};
use crate::conditions::Cond;
use crate::expressions::Expr;
use crate::statements::{Do, PrintItem, Stmt};
use ped_base::{Names, NoMemory};
use std::alloc::Global;

impl PrintItem {
    /// A copy, with the same plain tree.
    pub fn copy(&self, alloc: Global) -> Result<Self, NoMemory>
        ensures { IfOk result (λ copy. item_tree copy ≡ item_tree self.now) }
    {
        match self {
            PrintItem::Value(value) => Ok(PrintItem::Value(value.copy(alloc)?)),
            PrintItem::Text(text) => Ok(PrintItem::Text(copy_bytes(text, alloc)?)),
        }
    }
}

fn copy_items(items: &[PrintItem], alloc: Global) -> Result<Vec<PrintItem>, NoMemory>
    ensures { IfOk result (λ copies. map item_tree copies.items ≡ map item_tree items.now) }
{
    let mut copies = Vec::new(alloc);
    for item in items {
        copies.push(item.copy(alloc)?)?;
    }
    Ok(copies)
}

impl Stmt {
    /// A copy, with the same plain tree.
    #[cycle(copy_stmt)]
    pub fn copy(&self, alloc: Global) -> Result<Self, NoMemory>
        ensures { IfOk result (λ copy. stmt_tree copy ≡ stmt_tree self.now) }
    {
        match self {
            Stmt::Assign { left, right } => copy_assignment(left, right, alloc),
            Stmt::If {
                condition,
                then_part,
                else_part,
            } => {
                let then_part = copy_stmts(then_part, alloc)?;
                match copy_stmts(else_part, alloc) {
                    Ok(else_part) => with_condition(condition, then_part, else_part, alloc),
                    Err(error) => let_go(then_part, error),
                }
            }
            Stmt::Do(body) => Ok(Stmt::Do(body.copy(alloc)?)),
            Stmt::Print(items) => Ok(Stmt::Print(copy_items(items, alloc)?)),
            Stmt::Read(items) => Ok(Stmt::Read(copy_exprs(items, alloc)?)),
            Stmt::Stop => Ok(Stmt::Stop),
            Stmt::Comment(text) => Ok(Stmt::Comment(copy_bytes(text, alloc)?)),
        }
    }
}

impl Do {
    /// A copy, with the same plain tree.
    #[cycle(copy_stmt)]
    pub fn copy(&self, alloc: Global) -> Result<Self, NoMemory>
        ensures { IfOk result (λ copy. do_tree copy ≡ do_tree self.now) }
    {
        let body = copy_stmts(&self.body, alloc)?;
        self.with_body(body, alloc)
    }

    /// A copy whose body are these statements in place of its own.
    pub fn with_body(&self, body: Vec<Stmt>, alloc: Global) -> Result<Self, NoMemory>
        ensures { IfOk result (λ copy. do_tree copy ≡ Tree.Do (head_of self.now) (stmt_trees body.items)) }
    {
        match self.copy_control(alloc) {
            Ok(control) => self.with_control(control, body, alloc),
            Err(error) => {
                drop(body);
                Err(error)
            }
        }
    }

    /// A copy with this initial value, limit and increment in place of its own.
    pub fn with_header(
        &self,
        first: Expr,
        last: Expr,
        step: Expr,
        alloc: Global,
    ) -> Result<Self, NoMemory>
        ensures { IfOk result (λ copy. do_tree copy ≡ Tree.Do
            (head self.now.variable first last step self.now.parallel self.now.private self.now.rejected)
            (stmt_trees self.now.body.items)) }
    {
        let control = Control { first, last, step };
        match copy_stmts(&self.body, alloc) {
            Ok(body) => self.with_control(control, body, alloc),
            Err(error) => {
                drop(control);
                Err(error)
            }
        }
    }

    /// A copy with this initial value, limit and increment, and with this body, in place of its own.
    pub fn with_header_and_body(
        &self,
        first: Expr,
        last: Expr,
        step: Expr,
        body: Vec<Stmt>,
        alloc: Global,
    ) -> Result<Self, NoMemory>
        ensures { IfOk result (λ copy. do_tree copy ≡ Tree.Do
            (head self.now.variable first last step self.now.parallel self.now.private self.now.rejected)
            (stmt_trees body.items)) }
    {
        self.with_control(Control { first, last, step }, body, alloc)
    }

    /// A copy with these parameters and this body in place of its own.
    fn with_control(
        &self,
        control: Control,
        body: Vec<Stmt>,
        alloc: Global,
    ) -> Result<Self, NoMemory>
        ensures { IfOk result (λ copy. do_tree copy ≡ Tree.Do
            (head self.now.variable control.first control.last control.step self.now.parallel self.now.private self.now.rejected)
            (stmt_trees body.items)) }
    {
        match self.copy_lists(alloc) {
            Ok((private, rejected)) => Ok(Do {
                variable: self.variable,
                first: control.first,
                last: control.last,
                step: control.step,
                parallel: self.parallel,
                private,
                rejected,
                body,
            }),
            Err(error) => {
                drop(control);
                drop(body);
                Err(error)
            }
        }
    }

    /// Copies of the private and of the rejected names.
    fn copy_lists(&self, alloc: Global) -> Result<(Names, Names), NoMemory>
        ensures { IfOk result (λ copies. (copies.0 ≡ self.now.private) × (copies.1 ≡ self.now.rejected)) }
    {
        let private = copy_names(&self.private, alloc)?;
        let rejected = copy_names(&self.rejected, alloc)?;
        Ok((private, rejected))
    }

    /// Copies of the parameters of the loop.
    fn copy_control(&self, alloc: Global) -> Result<Control, NoMemory>
        ensures { IfOk result (λ copy. (expr_tree copy.first ≡ expr_tree self.now.first)
            × (expr_tree copy.last ≡ expr_tree self.now.last) × (expr_tree copy.step ≡ expr_tree self.now.step)) }
    {
        let first = self.first.copy(alloc)?;
        match self.last.copy(alloc) {
            Ok(last) => with_step(first, last, &self.step, alloc),
            Err(error) => {
                drop(first);
                Err(error)
            }
        }
    }
}

/// The parameters of a loop (ANSI X3.9-1978, section 11.10.1).
#[derive(Drop)]
struct Control {
    first: Expr,
    last: Expr,
    step: Expr,
}

/// The parameters with a copy of this increment.
fn with_step(first: Expr, last: Expr, step: &Expr, alloc: Global) -> Result<Control, NoMemory>
    ensures { IfOk result (λ control. (expr_tree control.first ≡ expr_tree first)
        × (expr_tree control.last ≡ expr_tree last) × (expr_tree control.step ≡ expr_tree step.now)) }
{
    match step.copy(alloc) {
        Ok(step) => Ok(Control { first, last, step }),
        Err(error) => {
            drop(first);
            drop(last);
            Err(error)
        }
    }
}

/// The assignment of a copy of `right` to a copy of `left`.
fn copy_assignment(left: &Expr, right: &Expr, alloc: Global) -> Result<Stmt, NoMemory>
    ensures { IfOk result (λ copy. stmt_tree copy ≡ Tree.Assign (expr_tree left.now) (expr_tree right.now)) }
{
    let left = left.copy(alloc)?;
    match right.copy(alloc) {
        Ok(right) => Ok(Stmt::assignment(left, right)),
        Err(error) => {
            drop(left);
            Err(error)
        }
    }
}

/// The block IF with a copy of this condition and with these parts.
fn with_condition(
    condition: &Cond,
    then_part: Vec<Stmt>,
    else_part: Vec<Stmt>,
    alloc: Global,
) -> Result<Stmt, NoMemory>
    ensures { IfOk result (λ copy. stmt_tree copy ≡ Tree.If (cond_tree condition.now) (stmt_trees then_part.items) (stmt_trees else_part.items)) }
{
    match condition.copy(alloc) {
        Ok(condition) => Ok(Stmt::block_if(condition, then_part, else_part)),
        Err(error) => {
            drop(then_part);
            drop(else_part);
            Err(error)
        }
    }
}

/// Lets statements go, since something else of the same tree couldn't be had.
fn let_go(statements: Vec<Stmt>, error: NoMemory) -> Result<Stmt, NoMemory>
    ensures { result ≡ Err error }
{
    Err(error)
}

#[cycle(copy_stmt)]
pub(crate) fn copy_stmts(stmts: &[Stmt], alloc: Global) -> Result<Vec<Stmt>, NoMemory>
    ensures { IfOk result (λ copies. map stmt_tree copies.items ≡ map stmt_tree stmts.now) }
{
    let mut copies = Vec::new(alloc);
    for stmt in stmts {
        copies.push(stmt.copy(alloc)?)?;
    }
    Ok(copies)
}
