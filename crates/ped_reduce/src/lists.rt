//! The list of a reduction: comments at the front of a DO's body.

ghost use Rattle.std.specs.Prelude.{◌≡◌, ◌≤◌, map, filter, not, IfOk};
ghost use Rattle.std.specs.Char.{to_ascii_uppercase};
ghost use Rattle.ped_tree.specs.Grammar.Columns.{is_blank};
ghost use Rattle.ped_tree.specs.Tree;
ghost use Rattle.ped_tree.specs.Views.{stmt_tree, stmt_trees, head_of};
ghost use Rattle.ped_reduce.specs.Lists as Spec;
ghost use Rattle.ped_reduce.specs.CodeLists.{listed_by};

use ped_base::{Bytes, Listed, Name, NoMemory};
use ped_tree::{Do, Stmt};
use std::alloc::Global;

/// The names of the list at the front of a body.
pub(crate) fn list_of(alloc: Global, body: &[Stmt]) -> Result<Vec<Name>, NoMemory>
    ensures { IfOk result (λ names. names.items ≡ Spec.list_of (stmt_trees body.now)) }
{
    let mut names = Vec::new(alloc);
    for statement in body {
        match listed(alloc, statement)? {
            Some(name) => names.push(name)?,
            None => return Ok(names),
        }
    }
    Ok(names)
}

/// The statements of a body after its list.
pub(crate) fn without_list<'a>(alloc: Global, body: &'a [Stmt]) -> Result<&'a [Stmt], NoMemory>
    ensures { IfOk result (λ rest. stmt_trees rest.now ≡ Spec.without_list (stmt_trees body.now)) }
{
    for place in 0..body.len() {
        if listed(alloc, &body[place])?.is_none() {
            return Ok(&body[place..]);
        }
    }
    Ok(&body[body.len()..])
}

/// Whether the body of a DO has a list.
pub fn has_list(alloc: Global, d: &Do) -> Result<bool, NoMemory>
    ensures { IfOk result (λ has. has ≡ Spec.has_list (head_of d.now) (stmt_trees d.now.body.items)) }
{
    let names = list_of(alloc, &d.body)?;
    Ok(!names.is_empty())
}

/// The name that a statement lists, where it is a comment that lists one.
fn listed(alloc: Global, statement: &Stmt) -> Result<Option<Name>, NoMemory>
    ensures { IfOk result (λ name. name ≡ listed_by (stmt_tree statement.now)) }
{
    match statement {
        Stmt::Comment(text) => listed_name(alloc, text.as_slice()),
        _ => Ok(None),
    }
}

/// The name that a comment with this text lists, where it lists one.
fn listed_name(alloc: Global, text: &[u8]) -> Result<Option<Name>, NoMemory>
    ensures { IfOk result (λ name. name ≡ Spec.listed_name text.now) }
{
    let folded = folded(alloc, text)?;
    Ok(name_behind_word(&folded))
}

/// The name after the word $REDUCE.
fn name_behind_word(text: &[u8]) -> Option<Name>
    ensures { result ≡ Spec.name_behind_word text.now }
{
    let name = text.strip_prefix(b"$REDUCE")?;
    Name::from_bytes(name)
}

/// A text in capitals, without blanks.
fn folded(alloc: Global, text: &[u8]) -> Result<Vec<u8>, NoMemory>
    ensures { IfOk result (λ v. v.items ≡ Spec.folded text.now) }
{
    let mut folded = Vec::new(alloc);
    for c in text {
        if *c != b' ' {
            folded.push(c.to_ascii_uppercase())?;
        }
    }
    Ok(folded)
}

/// The DO with comments at the front of its body that list these names.
pub(crate) fn with_list(alloc: Global, d: &Do, names: &[Name]) -> Result<Vec<Stmt>, NoMemory>
    ensures { IfOk result (λ body. stmt_trees body.items ≡ Spec.with_list names.now (stmt_trees d.now.body.items)) }
{
    let mut body = comments(alloc, names)?;
    for statement in &d.body {
        body.push(statement.copy(alloc)?)?;
    }
    Ok(body)
}

/// Comments that list these names.
fn comments(alloc: Global, names: &[Name]) -> Result<Vec<Stmt>, NoMemory>
    ensures { IfOk result (λ all. stmt_trees all.items ≡ Spec.with_list names.now Tree.no_stmts) }
{
    let mut all = Vec::new(alloc);
    for name in names {
        let text = list_text(alloc, name)?;
        all.push(Stmt::comment(text))?;
    }
    Ok(all)
}

/// The text of a comment that lists a name.
fn list_text(alloc: Global, name: &Name) -> Result<Bytes, NoMemory>
    ensures { IfOk result (λ text. text ≡ Spec.list_text name.now) }
{
    let mut text = Listed::new(alloc);
    text.extend_from_slice(b"$REDUCE ")?;
    text.extend_from_slice(name.as_bytes())?;
    Ok(text)
}
