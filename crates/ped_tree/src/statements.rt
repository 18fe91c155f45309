//! Executable statements.

ghost use Rattle.std.specs.Prelude.{◌≡◌, map};

use crate::conditions::Cond;
use crate::expressions::Expr;
use ped_base::{Bytes, Name, Names};

/// An item of a PRINT statement (ANSI X3.9-1978, section 12.8.2).
#[derive(Drop)]
pub enum PrintItem {
    /// The value of an expression.
    Value(Expr),
    /// A character constant, as it is written out.
    Text(Bytes),
}

/// An executable statement, or a comment among them.
#[cycle(stmt)]
#[derive(Drop)]
pub enum Stmt {
    /// An assignment, whose left side is a variable or an element (ANSI X3.9-1978, section 10.1).
    Assign {
        left: Expr,
        right: Expr,
    },
    /// A block IF with its two parts; no ELSE is an empty second part (section 11.6).
    If {
        condition: Cond,
        then_part: Vec<Stmt>,
        else_part: Vec<Stmt>,
    },
    /// A DO loop.
    Do(Do),
    /// `PRINT *` and its items (section 12.8).
    Print(Vec<PrintItem>),
    /// `READ *` and its items, variables and elements (section 12.8).
    Read(Vec<Expr>),
    /// STOP (section 11.12).
    Stop,
    /// A comment by its text, which begins in column 2 (section 3.2.1).
    Comment(Bytes),
}

/// A DO loop with the statements of its body (ANSI X3.9-1978, section 11.10). The statement that ends
/// it is no part of the tree.
#[cycle(stmt)]
#[derive(Drop)]
pub struct Do {
    /// The DO variable.
    pub variable: Name,
    /// The initial value.
    pub first: Expr,
    /// The limit.
    pub last: Expr,
    /// The increment, a literal 1 where none is written.
    pub step: Expr,
    /// Whether it is a PARALLEL DO.
    pub parallel: bool,
    /// The scalars of which each iteration has its own copy, in the order of the PRIVATE statement.
    pub private: Names,
    /// The names whose pending dependences the user has rejected, in the order of the directives.
    pub rejected: Names,
    /// The statements of the body.
    pub body: Vec<Stmt>,
}

impl PrintItem {
    ghost use Rattle.ped_tree.specs.Tree;
    ghost use Rattle.ped_tree.specs.Views.{expr_tree, item_tree};

    /// The value of an expression.
    pub fn value(value: Expr) -> PrintItem
        ensures { item_tree result ≡ Tree.Value (expr_tree value) }
    {
        PrintItem::Value(value)
    }

    /// A character constant.
    pub fn text(text: Bytes) -> PrintItem
        ensures { item_tree result ≡ Tree.Text text }
    {
        PrintItem::Text(text)
    }
}

impl Stmt {
    ghost use Rattle.ped_tree.specs.Tree;
    ghost use Rattle.ped_tree.specs.Views.{expr_tree, cond_tree, item_tree, stmt_tree, stmt_trees, do_tree};

    /// The assignment of `right` to `left`.
    pub fn assignment(left: Expr, right: Expr) -> Stmt
        ensures { stmt_tree result ≡ Tree.Assign (expr_tree left) (expr_tree right) }
    {
        Stmt::Assign { left, right }
    }

    /// The block IF with these parts.
    pub fn block_if(condition: Cond, then_part: Vec<Stmt>, else_part: Vec<Stmt>) -> Stmt
        ensures { stmt_tree result ≡ Tree.If (cond_tree condition) (stmt_trees then_part.items) (stmt_trees else_part.items) }
    {
        Stmt::If {
            condition,
            then_part,
            else_part,
        }
    }

    /// The loop as a statement.
    pub fn of_loop(body: Do) -> Stmt
        ensures { stmt_tree result ≡ do_tree body }
    {
        Stmt::Do(body)
    }

    /// PRINT with these items.
    pub fn print(items: Vec<PrintItem>) -> Stmt
        ensures { stmt_tree result ≡ Tree.Print (map item_tree items.items) }
    {
        Stmt::Print(items)
    }

    /// READ with these items.
    pub fn read(items: Vec<Expr>) -> Stmt
        ensures { stmt_tree result ≡ Tree.Read (map expr_tree items.items) }
    {
        Stmt::Read(items)
    }

    /// STOP.
    pub fn stop() -> Stmt
        ensures { stmt_tree result ≡ Tree.Stop }
    {
        Stmt::Stop
    }

    /// The comment with this text.
    pub fn comment(text: Bytes) -> Stmt
        ensures { stmt_tree result ≡ Tree.Comment text }
    {
        Stmt::Comment(text)
    }
}
