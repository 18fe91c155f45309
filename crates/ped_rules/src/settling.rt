//! Comments that come before the first executable statement go to the declarations.

ghost use Rattle.std.specs.Prelude.{◌≡◌, ◌++◌, [], ◌∷◌, map, IfOk, OnOk, IfErr};
ghost use Rattle.ped_tree.specs.Tree.{StmtTrees, more_stmts};
ghost use Rattle.ped_tree.specs.Views.{decl_tree, stmt_tree, stmt_trees};
ghost use Rattle.ped_rules.specs.Settling as Spec;
ghost use Rattle.ped_rules.specs.CodeSettling.{decls_of, body_of};

use ped_base::NoMemory;
use ped_tree::{Decl, Stmt};
use std::alloc::Global;

/// Moves the comments before the first statement that is none to the declarations, and answers the statements from that one
/// on.
pub fn behind_comments(
    alloc: Global,
    decls: &mut Vec<Decl>,
    statements: Vec<Stmt>,
) -> Result<Vec<Stmt>, NoMemory>
    ensures decls { OnOk result (map decl_tree decls.new.items ≡ map decl_tree decls.old.items ++ Spec.front_comments (stmt_trees statements.items)) }
    ensures body { IfOk result (λ body. stmt_trees body.items ≡ Spec.behind_comments (stmt_trees statements.items)) }
{
    let mut body = Vec::new(alloc);
    for statement in statements {
        place(decls, &mut body, statement)?;
    }
    Ok(body)
}

/// Adds a statement to the body, or to the declarations, where it is a comment and no other statement has come before.
fn place(decls: &mut Vec<Decl>, body: &mut Vec<Stmt>, statement: Stmt) -> Result<(), NoMemory>
    ensures decls { (rest : StmtTrees) → OnOk result (decls_of (map decl_tree decls.new.items) (stmt_trees body.new.items) rest
        ≡ decls_of (map decl_tree decls.old.items) (stmt_trees body.old.items) (more_stmts (stmt_tree statement) rest)) }
    ensures body { (rest : StmtTrees) → OnOk result (body_of (stmt_trees body.new.items) rest ≡ body_of (stmt_trees body.old.items) (more_stmts (stmt_tree statement) rest)) }
{
    if !body.is_empty() {
        body.push(statement)?;
        return Ok(());
    }
    match remark(statement) {
        Ok(decl) => decls.push(decl)?,
        Err(statement) => body.push(statement)?,
    }
    Ok(())
}

/// A comment as one among declarations; any other statement as it was.
fn remark(statement: Stmt) -> Result<Decl, Stmt>
    ensures comment { IfOk result (λ decl. (rest : StmtTrees) → Spec.front_comments (more_stmts (stmt_tree statement) rest) ≡ decl_tree decl ∷ Spec.front_comments rest) }
    ensures gone { IfOk result (λ decl. (rest : StmtTrees) → Spec.behind_comments (more_stmts (stmt_tree statement) rest) ≡ Spec.behind_comments rest) }
    ensures none { IfErr result (λ s. (rest : StmtTrees) → Spec.front_comments (more_stmts (stmt_tree statement) rest) ≡ []) }
    ensures stays { IfErr result (λ s. (rest : StmtTrees) → Spec.behind_comments (more_stmts (stmt_tree statement) rest) ≡ more_stmts (stmt_tree s) rest) }
{
    match statement {
        Stmt::Comment(text) => Ok(Decl::Comment(text)),
        Stmt::Assign { left, right } => Err(Stmt::assignment(left, right)),
        Stmt::If {
            condition,
            then_part,
            else_part,
        } => Err(Stmt::block_if(condition, then_part, else_part)),
        Stmt::Do(body) => Err(Stmt::of_loop(body)),
        Stmt::Print(items) => Err(Stmt::print(items)),
        Stmt::Read(items) => Err(Stmt::read(items)),
        Stmt::Stop => Err(Stmt::stop()),
    }
}
