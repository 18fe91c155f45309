//! The number of statements. The count stops at the greatest `usize`.

ghost use Rattle.std.specs.Prelude.{◌≡◌};
ghost use Rattle.ped_tree.specs.Numbering as Spec;
ghost use Rattle.ped_tree.specs.Views.{stmt_tree, stmt_trees};
ghost use Rattle.ped_print.specs.Lengths.{limited};

use ped_tree::Stmt;

/// How many numbered statements a statement has, itself and those in its parts; `usize::MAX` where it has
/// more.
#[cycle(statement_count)]
pub fn statement_count(statement: &Stmt) -> usize
    ensures { result ≡ limited (Spec.statement_count (stmt_tree statement.now)) }
{
    match statement {
        Stmt::If {
            condition: _,
            then_part,
            else_part,
        } => statements_count(then_part)
            .saturating_add(statements_count(else_part))
            .saturating_add(1),
        Stmt::Do(d) => statements_count(&d.body).saturating_add(1),
        Stmt::Comment(_) => 0,
        Stmt::Assign { left: _, right: _ } | Stmt::Print(_) | Stmt::Read(_) | Stmt::Stop => 1,
    }
}

/// How many numbered statements are among these and in their parts.
#[cycle(statement_count)]
fn statements_count(statements: &[Stmt]) -> usize
    ensures { result ≡ limited (Spec.statements_count (stmt_trees statements.now)) }
{
    let mut total: usize = 0;
    for statement in statements {
        total = total.saturating_add(statement_count(statement));
    }
    total
}
