//! Conditions.

ghost use Rattle.std.specs.Prelude.{◌≡◌, Err, IfOk};

use crate::expressions::Expr;
use ped_base::NoMemory;
use std::alloc::Global;

/// A relational operator (ANSI X3.9-1978, section 6.3).
#[derive(Clone, Copy, PartialEq, Eq)]
pub enum Relation {
    /// `.LT.`
    Lt,
    /// `.LE.`
    Le,
    /// `.EQ.`
    Eq,
    /// `.NE.`
    Ne,
    /// `.GT.`
    Gt,
    /// `.GE.`
    Ge,
}

/// A logical expression over relations (ANSI X3.9-1978, sections 6.3 and 6.4).
#[derive(Drop)]
pub enum Cond {
    /// A relation of two expressions.
    Rel(Relation, Expr, Expr),
    /// `.NOT.`
    Not(Box<Cond>),
    /// `.AND.`
    And(Box<Cond>, Box<Cond>),
    /// `.OR.`
    Or(Box<Cond>, Box<Cond>),
}

impl Cond {
    ghost use Rattle.ped_tree.specs.Tree;
    ghost use Rattle.ped_tree.specs.Views.{expr_tree, cond_tree};

    /// The relation of two expressions.
    pub fn relation(relation: Relation, left: Expr, right: Expr) -> Cond
        ensures { cond_tree result ≡ Tree.Rel relation (expr_tree left) (expr_tree right) }
    {
        Cond::Rel(relation, left, right)
    }

    /// `.NOT. operand`.
    pub fn negation(alloc: Global, operand: Cond) -> Result<Cond, NoMemory>
        ensures { IfOk result (λ c. cond_tree c ≡ Tree.Not (cond_tree operand)) }
    {
        Ok(Cond::Not(Box::new(alloc, operand)?))
    }

    /// `left .AND. right`.
    pub fn conjunction(alloc: Global, left: Cond, right: Cond) -> Result<Cond, NoMemory>
        ensures { IfOk result (λ c. cond_tree c ≡ Tree.And (cond_tree left) (cond_tree right)) }
    {
        Ok(Cond::And(Box::new(alloc, left)?, Box::new(alloc, right)?))
    }

    /// `left .OR. right`.
    pub fn disjunction(alloc: Global, left: Cond, right: Cond) -> Result<Cond, NoMemory>
        ensures { IfOk result (λ c. cond_tree c ≡ Tree.Or (cond_tree left) (cond_tree right)) }
    {
        Ok(Cond::Or(Box::new(alloc, left)?, Box::new(alloc, right)?))
    }
}
