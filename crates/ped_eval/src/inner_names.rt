//! The names that are private to the iterations of a DO.

ghost use Rattle.std.specs.Prelude.{◌≡◌, [], ◌++◌, IfOk, OnOk};
ghost use Rattle.ped_tree.specs.NamesIn as Names;
ghost use Rattle.ped_tree.specs.Views.{stmt_tree, stmt_trees};
ghost use Rattle.ped_eval.specs.Loops as Loops;
ghost use Rattle.ped_eval.specs.Plans.{copied_by};
ghost use Rattle.ped_tree.specs.Views.{head_of};

use crate::sorting::sorted_once;
use ped_base::{Name, Names, NoMemory};
use ped_tree::{Do, Stmt};
use std::alloc::Global;

/// Of a PARALLEL DO, the variables of the DO loops in it, each once, in byte order.
pub(crate) fn inner_variables(alloc: Global, d: &Do) -> Result<Names, NoMemory>
    ensures { IfOk result (λ names. names ≡ Loops.inner_variables d.now.parallel (stmt_trees d.now.body.items)) }
{
    if !d.parallel {
        return Ok(Names::new(alloc));
    }
    let mut names = Names::new(alloc);
    add_index_names(&mut names, &d.body)?;
    sorted_once(alloc, names.as_slice())
}

/// The names of which each iteration of a DO has its own copies, where these are the variables of the DO loops in it.
pub(crate) fn copied_names(alloc: Global, d: &Do, inner: &[Name]) -> Result<Names, NoMemory>
    ensures { IfOk result (λ names. names ≡ copied_by (head_of d.now) inner.now) }
{
    let mut names = Names::new(alloc);
    if d.parallel {
        names.push(d.variable)?;
    }
    add_all(&mut names, d.private.as_slice())?;
    if d.parallel {
        add_all(&mut names, inner)?;
    }
    Ok(names)
}

/// Adds names at the end.
pub(crate) fn add_all(names: &mut Names, more: &[Name]) -> Result<(), NoMemory>
    ensures { OnOk result (names.new ≡ names.old ++ more.now) }
{
    for name in more {
        names.push(*name)?;
    }
    Ok(())
}

/// Adds the variables of the DO loops in a statement, in text order.
#[cycle(loop_variables)]
fn add_index_names_of(names: &mut Names, stmt: &Stmt) -> Result<(), NoMemory>
    ensures { OnOk result (names.new ≡ names.old ++ Names.loop_variables (stmt_tree stmt.now)) }
{
    match stmt {
        Stmt::If {
            condition: _,
            then_part,
            else_part,
        } => {
            add_index_names(names, then_part)?;
            add_index_names(names, else_part)
        }
        Stmt::Do(d) => {
            names.push(d.variable)?;
            add_index_names(names, &d.body)
        }
        Stmt::Assign { left: _, right: _ }
        | Stmt::Print(_)
        | Stmt::Read(_)
        | Stmt::Stop
        | Stmt::Comment(_) => Ok(()),
    }
}

/// Adds the variables of the DO loops in statements, in text order.
#[cycle(loop_variables)]
fn add_index_names(names: &mut Names, stmts: &[Stmt]) -> Result<(), NoMemory>
    ensures { OnOk result (names.new ≡ names.old ++ Names.all_loop_variables (stmt_trees stmts.now)) }
{
    for stmt in stmts {
        add_index_names_of(names, stmt)?;
    }
    Ok(())
}
