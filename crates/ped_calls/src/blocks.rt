//! The marked block of a CALL: a block IF whose first line is a comment that names the CALL.

ghost use Rattle.std.specs.Prelude.{◌≡◌, ◌++◌, ◌∷◌, [], IfOk, map, take};
ghost use Rattle.ped_tree.specs.declared.conditions.Relation.TheVariants.{Eq};
ghost use Rattle.ped_tree.specs.Tree.{If, Rel, Int, no_stmts};
ghost use Rattle.ped_tree.specs.Views.{expr_tree, pack_exprs, stmt_tree, stmt_trees};
ghost use Rattle.ped_links.specs.ped_units.specs.Expanding as Spec;

use crate::printing::push_called;
use ped_base::{Bytes, Name, NoMemory};
use ped_tree::{Cond, Expr, Relation, Stmt};
use std::alloc::Global;

/// The block of a CALL without statements.
pub fn bare_block(alloc: Global, name: &Name, arguments: &[Expr]) -> Result<Stmt, NoMemory>
    ensures { IfOk result (λ s. stmt_tree s ≡ Spec.block_of (record { name = name.now; arguments = pack_exprs (map expr_tree arguments.now) }) [] no_stmts) }
{
    Ok(block(alloc, begun(alloc, name, arguments)?))
}

/// The statements of the block of a CALL so far: the comment that names it.
pub fn begun(alloc: Global, name: &Name, arguments: &[Expr]) -> Result<Vec<Stmt>, NoMemory>
    ensures { IfOk result (λ all. map stmt_tree all.items ≡ Spec.call_comment (record { name = name.now; arguments = pack_exprs (map expr_tree arguments.now) }) ∷ []) }
{
    let mut all = Vec::new(alloc);
    all.push(call_comment(alloc, name, arguments)?)?;
    Ok(all)
}

/// Statements and others after them.
pub fn joined(first: Vec<Stmt>, rest: Vec<Stmt>) -> Result<Vec<Stmt>, NoMemory>
    ensures { IfOk result (λ all. map stmt_tree all.items ≡ map stmt_tree first.items ++ map stmt_tree rest.items) }
{
    let mut all = first;
    for statement in rest {
        all.push(statement)?;
    }
    Ok(all)
}

/// The block IF with the condition 0.EQ.0 and these statements.
pub fn block(alloc: Global, body: Vec<Stmt>) -> Stmt
    ensures { stmt_tree result ≡ If (Rel Eq (Int 0) (Int 0)) (stmt_trees body.items) no_stmts }
{
    Stmt::block_if(
        Cond::relation(Relation::Eq, Expr::literal(0), Expr::literal(0)),
        body,
        Vec::new(alloc),
    )
}

/// The comment that names a CALL, cut to a line.
fn call_comment(alloc: Global, name: &Name, arguments: &[Expr]) -> Result<Stmt, NoMemory>
    ensures { IfOk result (λ s. stmt_tree s ≡ Spec.call_comment (record { name = name.now; arguments = pack_exprs (map expr_tree arguments.now) })) }
{
    let mut text = Bytes::new(alloc);
    text.extend_from_slice(b"$CALL ")?;
    push_called(&mut text, name, arguments)?;
    let mut cut = Bytes::new(alloc);
    cut.extend_from_slice(first_bytes(text.as_slice(), 71))?;
    Ok(Stmt::comment(cut))
}

/// The first `count` bytes of a text, or all of a shorter one.
fn first_bytes(text: &[u8], count: usize) -> &[u8]
    ensures { result.now ≡ take count text.now }
{
    if text.len() <= count {
        text
    } else {
        &text[..count]
    }
}
