//! Declarations with the comments before them. Comments before the first executable statement belong
//! to them, too.

ghost use Rattle.std.specs.Prelude.{◌≡◌, ◌∷◌, [], ◌++◌, List, map, IfOk, IfErr, OnOk};
ghost use Rattle.ped_tree.specs.Tree.{Remark, StmtTree};
ghost use Rattle.ped_tree.specs.Views.{decl_tree, stmt_tree};
ghost use Rattle.ped_tree.specs.Grammar.ProgramForms as Spec;
ghost use Rattle.ped_tree.specs.Grammar.StatementViews.{note_of};
ghost use Rattle.ped_blocks.specs.Fronts.{decls_of, body_of};

use ped_base::{Listed, Names, NoMemory};
use ped_tree::grammar::NoteLine;
use ped_tree::{Decl, Stmt};
use std::alloc::Global;

/// Adds comments to declarations.
fn push_remarks(decls: &mut Vec<Decl>, comments: Listed<NoteLine>) -> Result<(), NoMemory>
    ensures { OnOk result (map decl_tree decls.new.items
        ≡ map decl_tree decls.old.items ++ map (λ n. Remark n.text) (map note_of comments)) }
{
    for comment in comments.into_vec() {
        let NoteLine { line: _, text } = comment;
        decls.push(Decl::Comment(text))?;
    }
    Ok(())
}

/// Adds a declaration after the comments before it.
pub fn push_declaration(
    decls: &mut Vec<Decl>,
    comments: Listed<NoteLine>,
    decl: Decl,
) -> Result<(), NoMemory>
    ensures { OnOk result (map decl_tree decls.new.items
        ≡ map decl_tree decls.old.items ++ (map (λ n. Remark n.text) (map note_of comments) ++ decl_tree decl ∷ [])) }
{
    let Ok(()) = push_remarks(decls, comments) else {
        drop(decl);
        return Err(NoMemory);
    };
    decls.push(decl)?;
    Ok(())
}

/// Adds SAVE of these names, where there is one, after the comments before it.
pub fn push_save(
    alloc: Global,
    decls: &mut Vec<Decl>,
    comments: Listed<NoteLine>,
    names: &Names,
) -> Result<(), NoMemory>
    ensures { OnOk result (map decl_tree decls.new.items
        ≡ map decl_tree decls.old.items ++ (map (λ n. Remark n.text) (map note_of comments) ++ Spec.save_of names.now)) }
{
    push_remarks(decls, comments)?;
    push_names(alloc, decls, names)
}

fn push_names(alloc: Global, decls: &mut Vec<Decl>, names: &Names) -> Result<(), NoMemory>
    ensures { OnOk result (map decl_tree decls.new.items ≡ map decl_tree decls.old.items ++ Spec.save_of names.now) }
{
    if names.is_empty() {
        return Ok(());
    }
    let names = Listed::from_vec(names.as_slice().to_vec(alloc)?);
    decls.push(Decl::Save(names))?;
    Ok(())
}

/// Moves the comments before the first statement that is none to the declarations, and answers the
/// statements from that one on.
pub fn behind_front(
    alloc: Global,
    decls: &mut Vec<Decl>,
    statements: Vec<Stmt>,
) -> Result<Vec<Stmt>, NoMemory>
    ensures decls { OnOk result (map decl_tree decls.new.items ≡ map decl_tree decls.old.items ++ Spec.front_remarks (map stmt_tree statements.items)) }
    ensures body { IfOk result (λ body. map stmt_tree body.items ≡ Spec.behind_front (map stmt_tree statements.items)) }
{
    let mut body = Vec::new(alloc);
    for statement in statements {
        place(decls, &mut body, statement)?;
    }
    Ok(body)
}

/// Adds a statement to the body, or to the declarations, where it is a comment and no other statement
/// has come before.
fn place(decls: &mut Vec<Decl>, body: &mut Vec<Stmt>, statement: Stmt) -> Result<(), NoMemory>
    ensures decls { (rest : List StmtTree) → OnOk result (decls_of (map decl_tree decls.new.items) (map stmt_tree body.new.items) rest
        ≡ decls_of (map decl_tree decls.old.items) (map stmt_tree body.old.items) (stmt_tree statement ∷ rest)) }
    ensures body { (rest : List StmtTree) → OnOk result (body_of (map stmt_tree body.new.items) rest ≡ body_of (map stmt_tree body.old.items) (stmt_tree statement ∷ rest)) }
{
    if !body.is_empty() {
        body.push(statement)?;
        return Ok(());
    }
    match remark(statement) {
        Ok(decl) => decls.push(decl)?,
        Err(statement) => body.push(statement)?,
    }
    Ok(())
}

/// A comment as one among declarations; any other statement as it was.
fn remark(statement: Stmt) -> Result<Decl, Stmt>
    ensures comment { IfOk result (λ decl. (rest : List StmtTree) → Spec.front_remarks (stmt_tree statement ∷ rest) ≡ decl_tree decl ∷ Spec.front_remarks rest) }
    ensures gone { IfOk result (λ decl. (rest : List StmtTree) → Spec.behind_front (stmt_tree statement ∷ rest) ≡ Spec.behind_front rest) }
    ensures none { IfErr result (λ s. (rest : List StmtTree) → Spec.front_remarks (stmt_tree statement ∷ rest) ≡ []) }
    ensures stays { IfErr result (λ s. (rest : List StmtTree) → Spec.behind_front (stmt_tree statement ∷ rest) ≡ stmt_tree s ∷ rest) }
{
    match statement {
        Stmt::Comment(text) => Ok(Decl::Comment(text)),
        Stmt::Assign { left, right } => Err(Stmt::assignment(left, right)),
        Stmt::If {
            condition,
            then_part,
            else_part,
        } => Err(Stmt::block_if(condition, then_part, else_part)),
        Stmt::Do(body) => Err(Stmt::of_loop(body)),
        Stmt::Print(items) => Err(Stmt::print(items)),
        Stmt::Read(items) => Err(Stmt::read(items)),
        Stmt::Stop => Err(Stmt::stop()),
    }
}
