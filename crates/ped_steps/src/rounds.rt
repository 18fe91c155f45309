//! The DO loops around a statement.

ghost use Rattle.std.specs.Prelude.{◌≡◌, ◌++◌, ◌+◌, ◌<◌, ◌^◌, IfOk, OnOk};
ghost use Rattle.ped_tree.specs.Views.{stmt_tree, stmt_trees, program_tree};
ghost use Rattle.ped_tree.specs.Numbering.{statement_count, statements_count};
ghost use Rattle.ped_refs.specs.Loops.{nest_of};
ghost use Rattle.ped_weaves.specs.ped_flow.specs.PlainBounds as Spec;

use ped_base::NoMemory;
use ped_refs::Loop;
use ped_tree::{Do, Program, Stmt, count_statement, count_statements};
use std::alloc::Global;

/// The DO loops of a program around the statement with a number, the outermost first.
pub fn loops_round<'a>(
    alloc: Global,
    program: &'a Program,
    number: u32,
) -> Result<Vec<Loop<'a>>, NoMemory>
    requires { statements_count (program_tree program.now).body + 1 < 2 ^ 32 }
    ensures { IfOk result (λ loops. nest_of loops.items ≡ Spec.nest_round (program_tree program.now) number) }
{
    let mut loops = Vec::new(alloc);
    add_all(&mut loops, number, &program.body, 1)?;
    Ok(loops)
}

/// Adds the DO loops of statements that are around the statement with a number; the first of them has the number
/// `place`.
#[cycle(round)]
#[tactic(auto, using(crate::proofs::Followed::following))]
fn add_all<'a>(
    loops: &mut Vec<Loop<'a>>,
    number: u32,
    statements: &'a [Stmt],
    place: u32,
) -> Result<(), NoMemory>
    requires { place + statements_count (stmt_trees statements.now) < 2 ^ 32 }
    ensures { OnOk result (nest_of loops.new.items ≡ nest_of loops.old.items ++ Spec.all_loops_round number (stmt_trees statements.now) place) }
{
    let mut next = place;
    for statement in statements {
        add(loops, number, statement, next)?;
        next += count_statement(statement);
    }
    Ok(())
}

/// Adds the DO loops of a statement that are around the statement with a number; it has the number `place`.
#[cycle(round)]
#[tactic(auto, using(crate::proofs::Followed::following))]
fn add<'a>(
    loops: &mut Vec<Loop<'a>>,
    number: u32,
    statement: &'a Stmt,
    place: u32,
) -> Result<(), NoMemory>
    requires { place + statement_count (stmt_tree statement.now) < 2 ^ 32 }
    ensures { OnOk result (nest_of loops.new.items ≡ nest_of loops.old.items ++ Spec.loops_round number (stmt_tree statement.now) place) }
{
    match statement {
        Stmt::If {
            condition: _,
            then_part,
            else_part,
        } => {
            add_all(loops, number, then_part, place + 1)?;
            let behind = place + 1 + count_statements(then_part);
            add_all(loops, number, else_part, behind)
        }
        Stmt::Do(d) => {
            if place < number && number <= place + count_statements(&d.body) {
                loops.push(Loop {
                    number: place,
                    statement: d,
                })?;
                return add_all(loops, number, &d.body, place + 1);
            }
            Ok(())
        }
        Stmt::Assign { left: _, right: _ }
        | Stmt::Print(_)
        | Stmt::Read(_)
        | Stmt::Stop
        | Stmt::Comment(_) => Ok(()),
    }
}
