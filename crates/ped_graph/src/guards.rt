//! The statements inside an IF (ANSI X3.9-1978, section 11.6).

ghost use Rattle.std.specs.Prelude.{◌≡◌, [], ◌∷◌, ◌++◌, false, true, IfOk, OnOk};
ghost use Rattle.ped_tree.specs.Views.{stmt_tree, stmt_trees};
ghost use Rattle.ped_graph.specs.Guards.{guards_in, all_guards_in};

use ped_base::NoMemory;
use ped_tree::Stmt;
use std::alloc::Global;

/// For each numbered statement, in text order, whether it is in an IF.
pub fn guards(alloc: Global, body: &[Stmt]) -> Result<Vec<bool>, NoMemory>
    ensures { IfOk result (λ guards. guards.items ≡ all_guards_in false (stmt_trees body.now)) }
{
    let mut guards = Vec::new(alloc);
    push_all(&mut guards, false, body)?;
    Ok(guards)
}

/// Adds for each numbered statement whether it is in an IF, where these statements do or not.
#[cycle(guards)]
fn push_all(guards: &mut Vec<bool>, inside: bool, body: &[Stmt]) -> Result<(), NoMemory>
    ensures { OnOk result (guards.new.items ≡ guards.old.items ++ all_guards_in inside (stmt_trees body.now)) }
{
    for statement in body {
        push_statement(guards, inside, statement)?;
    }
    Ok(())
}

#[cycle(guards)]
fn push_statement(guards: &mut Vec<bool>, inside: bool, statement: &Stmt) -> Result<(), NoMemory>
    ensures { OnOk result (guards.new.items ≡ guards.old.items ++ guards_in inside (stmt_tree statement.now)) }
{
    match statement {
        Stmt::Comment(_) => Ok(()),
        Stmt::If {
            then_part,
            else_part,
            ..
        } => {
            guards.push(inside)?;
            push_all(guards, true, then_part)?;
            push_all(guards, true, else_part)
        }
        Stmt::Do(d) => {
            guards.push(inside)?;
            push_all(guards, inside, &d.body)
        }
        Stmt::Assign { .. } => push_one(guards, inside),
        Stmt::Print(_) => push_one(guards, inside),
        Stmt::Read(_) => push_one(guards, inside),
        Stmt::Stop => push_one(guards, inside),
    }
}

fn push_one(guards: &mut Vec<bool>, inside: bool) -> Result<(), NoMemory>
    ensures { OnOk result (guards.new.items ≡ guards.old.items ++ inside ∷ []) }
{
    guards.push(inside)?;
    Ok(())
}
