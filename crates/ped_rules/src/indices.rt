//! Variables of DO loops.

ghost use Rattle.std.specs.Prelude.{◌≡◌, ◌||◌};
ghost use Rattle.std.specs.List.{list_any};
ghost use Rattle.ped_base.specs.Lists as Lists;
ghost use Rattle.ped_tree.specs.Tree;
ghost use Rattle.ped_tree.specs.Views.{stmt_tree, stmt_trees};
ghost use Rattle.ped_refs.specs.Loops.{nest_of};
ghost use Rattle.ped_tree.specs.Views.{head_of};
ghost use Rattle.ped_tree.specs.NamesIn.{loop_variables, all_loop_variables};

use ped_base::Name;
use ped_refs::Loop;
use ped_tree::{Do, Stmt};

/// Whether one of these DO loops is a PARALLEL DO.
pub fn is_some_parallel(loops: &[Loop]) -> bool
    ensures { result ≡ list_any (λ m. m.head.parallel) (nest_of loops.now) }
{
    for l in loops {
        if l.statement.parallel {
            return true;
        }
    }
    false
}

/// Whether the name is the variable of a DO or of one in it.
pub fn is_index_in(name: &Name, d: &Do) -> bool
    ensures { result ≡ Lists.is_among name.now (loop_variables (Tree.Do (head_of d.now) (stmt_trees d.now.body.items))) }
{
    is_same(name, &d.variable) || is_index_of(name, &d.body)
}

fn is_same(a: &Name, b: &Name) -> bool
    ensures { result ≡ Lists.is_same_text a.now b.now }
{
    a.as_bytes() == b.as_bytes()
}

/// Whether the name is the variable of a DO among statements or in them.
#[cycle(loops)]
pub fn is_index_of(name: &Name, statements: &[Stmt]) -> bool
    ensures { result ≡ Lists.is_among name.now (all_loop_variables (stmt_trees statements.now)) }
{
    for statement in statements {
        if is_index_within(name, statement) {
            return true;
        }
    }
    false
}

/// Whether the name is the variable of a DO that is this statement or in it.
#[cycle(loops)]
fn is_index_within(name: &Name, statement: &Stmt) -> bool
    ensures { result ≡ Lists.is_among name.now (loop_variables (stmt_tree statement.now)) }
{
    match statement {
        Stmt::If {
            condition: _,
            then_part,
            else_part,
        } => is_index_of(name, then_part) || is_index_of(name, else_part),
        Stmt::Do(d) => is_same(name, &d.variable) || is_index_of(name, &d.body),
        Stmt::Assign { left: _, right: _ }
        | Stmt::Print(_)
        | Stmt::Read(_)
        | Stmt::Stop
        | Stmt::Comment(_) => false,
    }
}
