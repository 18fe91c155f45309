//! Whether a program has lists of sums.

ghost use Rattle.std.specs.Prelude.{◌≡◌, IfOk};
ghost use Rattle.ped_tree.specs.Views.{stmt_tree, stmt_trees};
ghost use Rattle.ped_session.specs.Listing as Spec;

use ped_base::NoMemory;
use ped_transformations::has_list;
use ped_tree::Stmt;
use std::alloc::Global;

/// Whether one of these statements is a DO with a list, or one is in it.
#[cycle(lists)]
pub(crate) fn some_holds_list(alloc: Global, statements: &[Stmt]) -> Result<bool, NoMemory>
    ensures { IfOk result (λ holds. holds ≡ Spec.some_holds_list (stmt_trees statements.now)) }
{
    for statement in statements {
        if holds_list(alloc, statement)? {
            return Ok(true);
        }
    }
    Ok(false)
}

/// Whether a statement is a DO with a list, or one is in it.
#[cycle(lists)]
fn holds_list(alloc: Global, statement: &Stmt) -> Result<bool, NoMemory>
    ensures { IfOk result (λ holds. holds ≡ Spec.holds_list (stmt_tree statement.now)) }
{
    match statement {
        Stmt::If {
            condition: _,
            then_part,
            else_part,
        } => {
            if some_holds_list(alloc, then_part)? {
                return Ok(true);
            }
            return some_holds_list(alloc, else_part);
        }
        Stmt::Do(d) => {
            if has_list(alloc, d)? {
                return Ok(true);
            }
            return some_holds_list(alloc, &d.body);
        }
        Stmt::Assign { left: _, right: _ }
        | Stmt::Print(_)
        | Stmt::Read(_)
        | Stmt::Stop
        | Stmt::Comment(_) => {
            return Ok(false);
        }
    }
}
