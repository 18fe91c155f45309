//! The expanded statements of a main program made into a program: arrays with new names are declared, and comments
//! before the first statement go to the declarations.

ghost use Rattle.std.specs.Prelude.{◌≡◌, ◌++◌, ◌∷◌, [], true, IfOk, OnOk, map};
ghost use Rattle.ped_tree.specs.Tree.{StmtTrees, more_stmts, Remark};
ghost use Rattle.ped_tree.specs.Views.{decl_tree, stmt_tree, stmt_trees, program_tree};
ghost use Rattle.ped_links.specs.ped_units.specs.Verdicts as Spec;
ghost use Rattle.ped_calls.specs.Opening.{placed, is_comment as is_comment_tree};

use ped_base::{Bytes, NoMemory};
use ped_tree::{Decl, Program, Stmt, copy_decls};
use std::alloc::Global;

/// The program with these arrays after the declarations, and with these statements.
pub fn settled(
    alloc: Global,
    decls: &[Decl],
    arrays: Vec<Decl>,
    body: Vec<Stmt>,
) -> Result<Program, NoMemory>
    ensures tree { IfOk result (λ p. program_tree p ≡ Spec.settled (record { decls = map decl_tree decls.now ++ map decl_tree arrays.items; body = stmt_trees body.items })) }
    ensures lines { IfOk result (λ p. p.lines.items ≡ []) }
{
    match declared(alloc, decls, arrays) {
        Ok(all) => place_all(alloc, all, body),
        Err(error) => {
            drop(body);
            Err(error)
        }
    }
}

/// Declarations and these arrays after them.
fn declared(alloc: Global, decls: &[Decl], arrays: Vec<Decl>) -> Result<Vec<Decl>, NoMemory>
    ensures { IfOk result (λ all. map decl_tree all.items ≡ map decl_tree decls.now ++ map decl_tree arrays.items) }
{
    let mut all = copy_decls(decls, alloc)?;
    for array in arrays {
        all.push(array)?;
    }
    Ok(all)
}

/// The program with these declarations and these statements.
fn place_all(alloc: Global, declared: Vec<Decl>, body: Vec<Stmt>) -> Result<Program, NoMemory>
    ensures tree { IfOk result (λ p. program_tree p ≡ Spec.settled (record { decls = map decl_tree declared.items; body = stmt_trees body.items })) }
    ensures lines { IfOk result (λ p. p.lines.items ≡ []) }
{
    let mut decls = declared;
    let mut rest = Vec::new(alloc);
    for statement in body {
        place(alloc, &mut decls, &mut rest, statement)?;
    }
    Ok(Program {
        decls,
        body: rest,
        lines: Vec::new(alloc),
    })
}

/// Adds a statement, or a comment before the first statement to the declarations.
fn place(
    alloc: Global,
    decls: &mut Vec<Decl>,
    rest: &mut Vec<Stmt>,
    statement: Stmt,
) -> Result<(), NoMemory>
    ensures { OnOk result ((left : StmtTrees) → placed (map decl_tree decls.new.items) (map stmt_tree rest.new.items) left ≡ placed (map decl_tree decls.old.items) (map stmt_tree rest.old.items) (more_stmts (stmt_tree statement) left)) }
{
    if !rest.is_empty() {
        rest.push(statement)?;
        return Ok(());
    }
    if !is_comment(&statement) {
        rest.push(statement)?;
        return Ok(());
    }
    let done = push_comment(alloc, decls, &statement);
    drop(statement);
    done
}

/// Adds a comment among statements to declarations.
fn push_comment(alloc: Global, decls: &mut Vec<Decl>, comment: &Stmt) -> Result<(), NoMemory>
    ensures { OnOk result (is_comment_tree (stmt_tree comment.now) ≡ true → (left : StmtTrees) → placed (map decl_tree decls.new.items) [] left ≡ placed (map decl_tree decls.old.items) [] (more_stmts (stmt_tree comment.now) left)) }
{
    match comment {
        Stmt::Comment(text) => push_remark(alloc, decls, text.as_slice()),
        Stmt::Assign { left: _, right: _ }
        | Stmt::If {
            condition: _,
            then_part: _,
            else_part: _,
        }
        | Stmt::Do(_)
        | Stmt::Print(_)
        | Stmt::Read(_)
        | Stmt::Stop => Ok(()),
    }
}

fn push_remark(alloc: Global, decls: &mut Vec<Decl>, text: &[u8]) -> Result<(), NoMemory>
    ensures { OnOk result (map decl_tree decls.new.items ≡ map decl_tree decls.old.items ++ Remark text.now ∷ []) }
{
    let mut copy = Bytes::new(alloc);
    copy.extend_from_slice(text)?;
    decls.push(Decl::Comment(copy))?;
    Ok(())
}

/// Whether the statement is a comment.
fn is_comment(statement: &Stmt) -> bool
    ensures { result ≡ is_comment_tree (stmt_tree statement.now) }
{
    match statement {
        Stmt::Comment(_) => true,
        Stmt::Assign { left: _, right: _ }
        | Stmt::If {
            condition: _,
            then_part: _,
            else_part: _,
        }
        | Stmt::Do(_)
        | Stmt::Print(_)
        | Stmt::Read(_)
        | Stmt::Stop => false,
    }
}
