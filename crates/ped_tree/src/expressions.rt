//! Expressions.

ghost use Rattle.std.specs.Prelude.{◌≡◌, Err, IfOk, map};

use ped_base::{Name, NoMemory};
use std::alloc::Global;

/// An intrinsic function of the profile (ANSI X3.9-1978, section 15.10). IABS is read as ABS, MAX0 as
/// MAX and MIN0 as MIN.
#[derive(Clone, Copy, PartialEq, Eq)]
pub enum Intrinsic {
    /// The remainder of a division, of two arguments.
    Mod,
    /// The absolute value, of one argument.
    Abs,
    /// The greatest of two or more arguments.
    Max,
    /// The least of two or more arguments.
    Min,
}

/// An arithmetic expression (ANSI X3.9-1978, section 6.1).
#[derive(Drop)]
pub enum Expr {
    /// An unsigned literal.
    Int(u32),
    /// A scalar variable or a named constant.
    Var(Name),
    /// An element of an array, by its subscripts.
    Element(Name, Vec<Expr>),
    /// A negation.
    Neg(Box<Expr>),
    /// A sum.
    Add(Box<Expr>, Box<Expr>),
    /// A difference.
    Sub(Box<Expr>, Box<Expr>),
    /// A product.
    Mul(Box<Expr>, Box<Expr>),
    /// A quotient.
    Div(Box<Expr>, Box<Expr>),
    /// A power.
    Pow(Box<Expr>, Box<Expr>),
    /// An intrinsic function of its arguments.
    Call(Intrinsic, Vec<Expr>),
}

impl Expr {
    ghost use Rattle.ped_tree.specs.Tree;
    ghost use Rattle.ped_tree.specs.Views.{expr_tree, pack_exprs};

    /// The literal `value`.
    pub fn literal(value: u32) -> Expr
        ensures { expr_tree result ≡ Tree.Int value }
    {
        Expr::Int(value)
    }

    /// The scalar `name`.
    pub fn scalar(name: Name) -> Expr
        ensures { expr_tree result ≡ Tree.Var name }
    {
        Expr::Var(name)
    }

    /// The element of the array `name` with these subscripts.
    pub fn element(name: Name, subscripts: Vec<Expr>) -> Expr
        ensures { expr_tree result ≡ Tree.Element name (pack_exprs (map expr_tree subscripts.items)) }
    {
        Expr::Element(name, subscripts)
    }

    /// `-operand`.
    pub fn negation(alloc: Global, operand: Expr) -> Result<Expr, NoMemory>
        ensures { IfOk result (λ e. expr_tree e ≡ Tree.Neg (expr_tree operand)) }
    {
        Ok(Expr::Neg(Box::new(alloc, operand)?))
    }

    /// `left + right`.
    pub fn sum(alloc: Global, left: Expr, right: Expr) -> Result<Expr, NoMemory>
        ensures { IfOk result (λ e. expr_tree e ≡ Tree.Add (expr_tree left) (expr_tree right)) }
    {
        Ok(Expr::Add(Box::new(alloc, left)?, Box::new(alloc, right)?))
    }

    /// `left - right`.
    pub fn difference(alloc: Global, left: Expr, right: Expr) -> Result<Expr, NoMemory>
        ensures { IfOk result (λ e. expr_tree e ≡ Tree.Sub (expr_tree left) (expr_tree right)) }
    {
        Ok(Expr::Sub(Box::new(alloc, left)?, Box::new(alloc, right)?))
    }

    /// `left * right`.
    pub fn product(alloc: Global, left: Expr, right: Expr) -> Result<Expr, NoMemory>
        ensures { IfOk result (λ e. expr_tree e ≡ Tree.Mul (expr_tree left) (expr_tree right)) }
    {
        Ok(Expr::Mul(Box::new(alloc, left)?, Box::new(alloc, right)?))
    }

    /// `left / right`.
    pub fn quotient(alloc: Global, left: Expr, right: Expr) -> Result<Expr, NoMemory>
        ensures { IfOk result (λ e. expr_tree e ≡ Tree.Div (expr_tree left) (expr_tree right)) }
    {
        Ok(Expr::Div(Box::new(alloc, left)?, Box::new(alloc, right)?))
    }

    /// `base ** exponent`.
    pub fn power(alloc: Global, base: Expr, exponent: Expr) -> Result<Expr, NoMemory>
        ensures { IfOk result (λ e. expr_tree e ≡ Tree.Pow (expr_tree base) (expr_tree exponent)) }
    {
        Ok(Expr::Pow(Box::new(alloc, base)?, Box::new(alloc, exponent)?))
    }

    /// The intrinsic function of these arguments.
    pub fn call(intrinsic: Intrinsic, arguments: Vec<Expr>) -> Expr
        ensures { expr_tree result ≡ Tree.Call intrinsic (pack_exprs (map expr_tree arguments.items)) }
    {
        Expr::Call(intrinsic, arguments)
    }
}
