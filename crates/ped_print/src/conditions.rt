//! Conditions, added at the end of a text, without blanks and with the fewest parentheses that parse
//! to the same tree. If memory runs out, the text ends somewhere in what was to be added.

ghost use Rattle.std.specs.Prelude.{◌≡◌, ◌++◌, OnOk};
ghost use Rattle.ped_tree.specs.Printing.{whole, cond_text, relation_text};
ghost use Rattle.ped_tree.specs.Views.{cond_tree};
ghost use Rattle.ped_print.specs.Standings.{standing_of, encloses};

use crate::expressions::push_value;
use ped_base::{Bytes, NoMemory};
use ped_tree::{Cond, Relation};

/// The place of a condition (ANSI X3.9-1978, section 6.4.2).
#[derive(Clone, Copy, PartialEq, Eq)]
pub enum Standing {
    /// As a whole, or as the left part of `.OR.`.
    Whole,
    /// As the right part of `.OR.` or the left part of `.AND.`.
    InOr,
    /// As the right part of `.AND.`.
    InAnd,
    /// After `.NOT.`.
    InNot,
}

/// Adds a condition, in parentheses where its place needs them.
#[cycle(conditions)]
pub fn push_cond(out: &mut Bytes, standing: Standing, condition: &Cond) -> Result<(), NoMemory>
    ensures { OnOk result (out.new ≡ out.old ++ cond_text (standing_of standing) (cond_tree condition.now)) }
{
    if !is_enclosed(standing, condition) {
        return push_bare(out, condition);
    }
    out.push(b'(')?;
    push_bare(out, condition)?;
    out.push(b')')
}

/// Adds a condition without parentheses around it.
#[cycle(conditions)]
fn push_bare(out: &mut Bytes, condition: &Cond) -> Result<(), NoMemory>
    ensures { OnOk result (out.new ≡ out.old ++ cond_text whole (cond_tree condition.now)) }
{
    match condition {
        Cond::Rel(relation, left, right) => {
            push_value(out, left)?;
            out.extend_from_slice(relation_name(*relation))?;
            push_value(out, right)
        }
        Cond::Not(operand) => { push_operand(out, b".NOT.", Standing::InNot, operand) }
        Cond::And(left, right) => {
            push_cond(out, Standing::InOr, left)?;
            push_operand(out, b".AND.", Standing::InAnd, right)
        }
        Cond::Or(left, right) => {
            push_cond(out, Standing::Whole, left)?;
            push_operand(out, b".OR.", Standing::InOr, right)
        }
    }
}

/// Adds a logical operator, and the operand after it.
#[cycle(conditions)]
fn push_operand(
    out: &mut Bytes,
    operator: &[u8],
    standing: Standing,
    condition: &Cond,
) -> Result<(), NoMemory>
    ensures { OnOk result (out.new ≡ out.old ++ operator.now ++ cond_text (standing_of standing) (cond_tree condition.now)) }
{
    out.extend_from_slice(operator)?;
    push_cond(out, standing, condition)
}

/// Whether a condition needs parentheses where it is.
pub fn is_enclosed(standing: Standing, condition: &Cond) -> bool
    ensures { result ≡ encloses (standing_of standing) (cond_tree condition.now) }
{
    match condition {
        Cond::Rel(_, _, _) => false,
        Cond::Not(_) => standing == Standing::InNot,
        Cond::And(_, _) => standing == Standing::InAnd || standing == Standing::InNot,
        Cond::Or(_, _) => standing != Standing::Whole,
    }
}

/// The relational operator between its periods.
pub fn relation_name(relation: Relation) -> &'static [u8]
    ensures { result.now ≡ relation_text relation }
{
    match relation {
        Relation::Lt => b".LT.",
        Relation::Le => b".LE.",
        Relation::Eq => b".EQ.",
        Relation::Ne => b".NE.",
        Relation::Gt => b".GT.",
        Relation::Ge => b".GE.",
    }
}
