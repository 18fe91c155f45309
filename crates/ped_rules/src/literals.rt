//! Literals.

ghost use Rattle.std.specs.Prelude.{◌≡◌, ◌≤◌, IfOk, unsigned_abs};
ghost use Rattle.ped_tree.specs.Views.{expr_tree};
ghost use Rattle.ped_loop_runs.specs.ped_symbolic.specs.Arithmetic;

use ped_base::NoMemory;
use ped_tree::Expr;
use std::alloc::Global;

/// The literal of a number, with a sign where the number is negative (ANSI X3.9-1978, section 4.3).
pub fn literal(alloc: Global, n: i64) -> Result<Expr, NoMemory>
    requires { unsigned_abs n ≤ 2147483647 }
    ensures { IfOk result (λ e. expr_tree e ≡ Arithmetic.literal n) }
{
    let size = Expr::literal(n.unsigned_abs() as u32);
    if n < 0 {
        Expr::negation(alloc, size)
    } else {
        Ok(size)
    }
}
