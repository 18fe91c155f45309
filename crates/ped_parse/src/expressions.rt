//! Texts read as expressions by themselves.

ghost use Rattle.std.specs.Prelude.{◌≡◌, IfOk, IfErr, IsFalse};
ghost use Rattle.ped_tree.specs.Views.{expr_tree};
ghost use Rattle.ped_tree.specs.Grammar.ExpressionForms.{ReadsExpr};
ghost use Rattle.ped_tree.specs.Grammar.Literals as Literals;
ghost use Rattle.ped_parse.specs.Refusals.{IsRefusalOfExpression};

use crate::refusals::ReadRefusal;
use ped_statements::{Reading, read_expression};
use ped_tree::Expr;
use ped_tree::grammar::{Refusal, RefusalKind};
use std::alloc::Global;

/// The arithmetic expression that the text reads as (ANSI X3.9-1978, section 6.1). The text is written as that of a
/// statement: in capitals and without blanks.
///
/// # Errors
///
/// `At` on line 0 with `Syntax` exactly where the text is no expression, and with `Limit` exactly where it is one with
/// a literal above 2147483647. `NoMemory` where memory runs out.
pub fn expression(alloc: Global, text: &[u8]) -> Result<Expr, ReadRefusal>
    ensures reads { IfOk result (λ e. ReadsExpr text.now (expr_tree e)) }
    ensures small { IfOk result (λ e. IsFalse (Literals.has_large_literal (expr_tree e))) }
    ensures refused { IfErr result (λ e. IsRefusalOfExpression text.now e) }
{
    match read_expression(alloc, text)? {
        Reading::Tree(e) => Ok(e),
        Reading::TooLarge => Err(without_line(RefusalKind::Limit)),
        Reading::NoForm => Err(without_line(RefusalKind::Syntax)),
    }
}

/// A refusal of a text that has no lines.
fn without_line(kind: RefusalKind) -> ReadRefusal
    ensures { result ≡ ReadRefusal.At (record { kind = kind; line = 0 }) }
{
    ReadRefusal::At(Refusal { kind, line: 0 })
}
