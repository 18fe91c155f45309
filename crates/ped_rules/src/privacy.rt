//! PRIVATE lists.

ghost use Rattle.std.specs.Prelude.{◌≡◌};
ghost use Rattle.std.specs.List.{list_any};
ghost use Rattle.ped_base.specs.Lists as Lists;
ghost use Rattle.ped_tree.specs.NamesIn as Names;
ghost use Rattle.ped_tree.specs.Tree;
ghost use Rattle.ped_tree.specs.Views.{stmt_tree, stmt_trees};
ghost use Rattle.ped_refs.specs.Loops.{nest_of};
ghost use Rattle.ped_tree.specs.Views.{head_of};

use ped_base::{Name, is_among};
use ped_refs::Loop;
use ped_tree::{Do, Stmt};

/// Whether the name is in the PRIVATE list of one of these DO loops.
pub fn is_private_round(name: &Name, loops: &[Loop]) -> bool
    ensures { result ≡ list_any (λ l. Lists.is_among name.now l.head.private) (nest_of loops.now) }
{
    for l in loops {
        if is_among(name, l.statement.private.as_slice()) {
            return true;
        }
    }
    false
}

/// Whether the name is in the PRIVATE list of a DO or of one in it.
pub fn is_private_in(name: &Name, d: &Do) -> bool
    ensures { result ≡ Lists.is_among name.now (Names.private_names_in (Tree.Do (head_of d.now) (stmt_trees d.now.body.items))) }
{
    is_among(name, d.private.as_slice()) || is_private_among(name, &d.body)
}

/// Whether the name is in the PRIVATE list of a DO among statements or in them.
#[cycle(private)]
fn is_private_among(name: &Name, statements: &[Stmt]) -> bool
    ensures { result ≡ Lists.is_among name.now (Names.all_private_names_in (stmt_trees statements.now)) }
{
    for statement in statements {
        if is_private_within(name, statement) {
            return true;
        }
    }
    false
}

/// Whether the name is in the PRIVATE list of a DO that is this statement or in it.
#[cycle(private)]
fn is_private_within(name: &Name, statement: &Stmt) -> bool
    ensures { result ≡ Lists.is_among name.now (Names.private_names_in (stmt_tree statement.now)) }
{
    match statement {
        Stmt::If {
            condition: _,
            then_part,
            else_part,
        } => is_private_among(name, then_part) || is_private_among(name, else_part),
        Stmt::Do(d) => { is_among(name, d.private.as_slice()) || is_private_among(name, &d.body) }
        Stmt::Assign { left: _, right: _ }
        | Stmt::Print(_)
        | Stmt::Read(_)
        | Stmt::Stop
        | Stmt::Comment(_) => false,
    }
}
