//! The references of a program with their surroundings, statement by statement. If memory runs out, the list
//! has a prefix of what was to be added.

ghost use Rattle.std.specs.Prelude.{◌≡◌, [], ◌∷◌, ◌++◌, ◌+◌, ◌^◌, ◌<◌, length, IfOk, OnOk};
ghost use Rattle.ped_tree.specs.Numbering.{statement_count, statements_count};
ghost use Rattle.ped_tree.specs.Views.{stmt_tree, stmt_trees, program_tree};
ghost use Rattle.ped_refs.specs.References.{numbered_accesses, statement_references, statements_references, references};
ghost use Rattle.ped_refs.specs.Loops.{nest_of};
ghost use Rattle.ped_tree.specs.Views.{head_of};
ghost use Rattle.ped_refs.specs.Occurrences.{references_of};
ghost use Rattle.ped_refs.specs.Listing.{accesses_of, constants_round, nest_round, own_references};

use crate::accesses::{Access, own_accesses};
use crate::constants::constants_of;
use crate::loops::Loop;
use crate::references::RefName;
use crate::surroundings::Surroundings;
use ped_base::NoMemory;
use ped_tree::{Do, Expr, Program, Stmt};
use std::alloc::Global;

/// A reference of a program with what is around it.
#[derive(Drop)]
pub struct Occurrence<'a> {
    /// The number of its statement.
    pub statement: u32,
    /// Its number among the references of its statement, from 1.
    pub number: u32,
    /// What it reads or writes.
    pub name: RefName,
    /// Whether it writes.
    pub writes: bool,
    /// Its subscripts, none for a scalar.
    pub subscripts: &'a [Expr],
    /// The DO loops around it, the outermost first. What a DO's header reads is outside that DO.
    pub nest: Vec<Loop<'a>>,
}

/// The references of a program, in text order. The time is linear in the size of the program and the number of loops
/// around its references. Each has its subscripts and the DO loops around it.
pub fn occurrences<'a>(alloc: Global, program: &'a Program) -> Result<Vec<Occurrence<'a>>, NoMemory>
    requires statements { statements_count (program_tree program.now).body < 2 ^ 32 }
    requires references { length (references (program_tree program.now)) < 2 ^ 32 }
    ensures { IfOk result (λ found. references_of found.items ≡ references (program_tree program.now)) }
{
    let constants = constants_of(alloc, &program.decls)?;
    let around = Surroundings {
        constants: &constants,
        loops: &[],
    };
    let mut found = Vec::new(alloc);
    let mut before = 0;
    add_statements(alloc, &mut found, &around, &mut before, &program.body)?;
    Ok(found)
}

/// Adds the references of these statements, where this many numbered statements come
/// before them.
#[cycle(statements)]
fn add_statements<'a>(
    alloc: Global,
    found: &mut Vec<Occurrence<'a>>,
    around: &Surroundings<'_, 'a>,
    before: &mut u32,
    statements: &'a [Stmt],
) -> Result<(), NoMemory>
    requires statements { before.old + statements_count (stmt_trees statements.now) < 2 ^ 32 }
    requires references { length (statements_references (constants_round around.now) (nest_round around.now) (before.old + 1) (stmt_trees statements.now)) < 2 ^ 32 }
    ensures before { OnOk result (before.new ≡ before.old + statements_count (stmt_trees statements.now)) }
    ensures found { OnOk result (references_of found.new.items ≡ references_of found.old.items
        ++ statements_references (constants_round around.now) (nest_round around.now) (before.old + 1) (stmt_trees statements.now)) }
{
    for statement in statements {
        add_statement(alloc, found, around, before, statement)?;
    }
    Ok(())
}

/// Adds the references of a statement and of its parts.
#[cycle(statements)]
fn add_statement<'a>(
    alloc: Global,
    found: &mut Vec<Occurrence<'a>>,
    around: &Surroundings<'_, 'a>,
    before: &mut u32,
    statement: &'a Stmt,
) -> Result<(), NoMemory>
    requires statements { before.old + statement_count (stmt_tree statement.now) < 2 ^ 32 }
    requires references { length (statement_references (constants_round around.now) (nest_round around.now) (before.old + 1) (stmt_tree statement.now)) < 2 ^ 32 }
    ensures before { OnOk result (before.new ≡ before.old + statement_count (stmt_tree statement.now)) }
    ensures found { OnOk result (references_of found.new.items ≡ references_of found.old.items
        ++ statement_references (constants_round around.now) (nest_round around.now) (before.old + 1) (stmt_tree statement.now)) }
{
    match statement {
        Stmt::If {
            condition: _,
            then_part,
            else_part,
        } => {
            add_own(alloc, found, around, before, statement)?;
            add_statements(alloc, found, around, before, then_part)?;
            add_statements(alloc, found, around, before, else_part)
        }
        Stmt::Do(d) => {
            add_own(alloc, found, around, before, statement)?;
            add_body(alloc, found, around, before, d)
        }
        Stmt::Assign { left: _, right: _ } | Stmt::Print(_) | Stmt::Read(_) | Stmt::Stop => {
            add_own(alloc, found, around, before, statement)
        }
        Stmt::Comment(_) => Ok(()),
    }
}

/// Adds the references of the body of a DO, where this many numbered statements come before its body: that is
/// the DO's number.
#[cycle(statements)]
fn add_body<'a>(
    alloc: Global,
    found: &mut Vec<Occurrence<'a>>,
    around: &Surroundings<'_, 'a>,
    before: &mut u32,
    d: &'a Do,
) -> Result<(), NoMemory>
    requires statements { before.old + statements_count (stmt_trees d.now.body.items) < 2 ^ 32 }
    requires references { length (statements_references (constants_round around.now) (nest_round around.now ++ (record { number = before.old; head = head_of d.now }) ∷ []) (before.old + 1) (stmt_trees d.now.body.items)) < 2 ^ 32 }
    ensures before { OnOk result (before.new ≡ before.old + statements_count (stmt_trees d.now.body.items)) }
    ensures found { OnOk result (references_of found.new.items ≡ references_of found.old.items
        ++ statements_references (constants_round around.now) (nest_round around.now ++ (record { number = before.old; head = head_of d.now }) ∷ []) (before.old + 1) (stmt_trees d.now.body.items)) }
{
    let loops = with_loop(alloc, around.loops, *before, d)?;
    let inner = Surroundings {
        constants: around.constants,
        loops: &loops,
    };
    add_statements(alloc, found, &inner, before, &d.body)
}

/// The loops with one more at the end.
fn with_loop<'a>(
    alloc: Global,
    loops: &[Loop<'a>],
    number: u32,
    statement: &'a Do,
) -> Result<Vec<Loop<'a>>, NoMemory>
    ensures { IfOk result (λ all. nest_of all.items ≡ nest_of loops.now ++ (record { number = number; head = head_of statement.now }) ∷ []) }
{
    let mut all = loops.to_vec(alloc)?;
    all.push(Loop { number, statement })?;
    Ok(all)
}

/// Counts a numbered statement, and adds the references that it has by itself.
fn add_own<'a>(
    alloc: Global,
    found: &mut Vec<Occurrence<'a>>,
    around: &Surroundings<'_, 'a>,
    before: &mut u32,
    statement: &'a Stmt,
) -> Result<(), NoMemory>
    requires statements { before.old + 1 < 2 ^ 32 }
    requires references { length (own_references around.now (before.old + 1) (stmt_tree statement.now)) < 2 ^ 32 }
    ensures before { OnOk result (before.new ≡ before.old + 1) }
    ensures found { OnOk result (references_of found.new.items ≡ references_of found.old.items
        ++ own_references around.now (before.old + 1) (stmt_tree statement.now)) }
{
    *before += 1;
    let accesses = own_accesses(alloc, around, statement)?;
    add_numbered(alloc, found, around.loops, *before, &accesses)
}

/// Adds accesses as references of a statement, numbered from 1.
fn add_numbered<'a>(
    alloc: Global,
    found: &mut Vec<Occurrence<'a>>,
    loops: &[Loop<'a>],
    statement: u32,
    accesses: &[Access<'a>],
) -> Result<(), NoMemory>
    requires { length accesses.now < 2 ^ 32 }
    ensures { OnOk result (references_of found.new.items ≡ references_of found.old.items
        ++ numbered_accesses statement 1 (nest_of loops.now) (accesses_of accesses.now)) }
{
    let mut number = 0;
    for access in accesses {
        number += 1;
        found.push(Occurrence {
            statement,
            number,
            name: access.name,
            writes: access.writes,
            subscripts: access.subscripts,
            nest: loops.to_vec(alloc)?,
        })?;
    }
    Ok(())
}
