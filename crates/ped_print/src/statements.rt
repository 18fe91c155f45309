//! The text of a statement, without the statements in its parts, added at the end of a text.
//! If memory runs out, the text ends somewhere in what was to be added.

ghost use Rattle.std.specs.Prelude.{◌≡◌, ◌++◌, map, codes, OnOk};
ghost use Rattle.std.specs.List.{flat_map};
ghost use Rattle.ped_tree.specs.Printing.{own_text, do_text, do_word, step_text, private_text, item_text, constant_text, doubled, value_text, cond_text, whole};
ghost use Rattle.ped_tree.specs.Views.{cond_tree, expr_tree, item_tree, head, stmt_tree};

use crate::conditions::{Standing, push_cond};
use crate::declarations::push_names;
use crate::expressions::{is_one, push_value};
use ped_base::{Bytes, Name, NoMemory};
use ped_tree::{Cond, Do, Expr, PrintItem, Stmt};

/// Adds a statement by itself.
pub fn push_own(out: &mut Bytes, statement: &Stmt) -> Result<(), NoMemory>
    ensures { OnOk result (out.new ≡ out.old ++ own_text (stmt_tree statement.now)) }
{
    match statement {
        Stmt::Assign { left, right } => {
            push_value(out, left)?;
            push_behind(out, b" = ", right)
        }
        Stmt::If { condition, .. } => push_if(out, condition),
        Stmt::Do(head) => push_do(out, head),
        Stmt::Print(items) => {
            out.extend_from_slice(b"PRINT *")?;
            push_items(out, items)
        }
        Stmt::Read(items) => {
            out.extend_from_slice(b"READ *")?;
            push_targets(out, items)
        }
        Stmt::Stop => out.extend_from_slice(b"STOP"),
        Stmt::Comment(text) => {
            out.push(b'C')?;
            out.extend_from_slice(text.as_slice())
        }
    }
}

/// Adds words, and an expression after them.
fn push_behind(out: &mut Bytes, words: &[u8], e: &Expr) -> Result<(), NoMemory>
    ensures { OnOk result (out.new ≡ out.old ++ words.now ++ value_text (expr_tree e.now)) }
{
    out.extend_from_slice(words)?;
    push_value(out, e)
}

/// Adds a block IF with this condition.
fn push_if(out: &mut Bytes, condition: &Cond) -> Result<(), NoMemory>
    ensures { OnOk result (out.new ≡ out.old ++ (codes "IF (" ++ cond_text whole (cond_tree condition.now) ++ codes ") THEN")) }
{
    out.extend_from_slice(b"IF (")?;
    push_cond(out, Standing::Whole, condition)?;
    out.extend_from_slice(b") THEN")
}

/// Adds a DO statement.
fn push_do(out: &mut Bytes, d: &Do) -> Result<(), NoMemory>
    ensures { OnOk result (out.new ≡ out.old
        ++ do_text
        (head d.now.variable d.now.first d.now.last d.now.step d.now.parallel d.now.private d.now.rejected)) }
{
    push_do_word(out, d.parallel)?;
    out.extend_from_slice(d.variable.as_bytes())?;
    push_behind(out, b" = ", &d.first)?;
    push_behind(out, b", ", &d.last)?;
    push_step(out, &d.step)
}

/// Adds DO or PARALLEL DO, with a blank after it.
fn push_do_word(out: &mut Bytes, parallel: bool) -> Result<(), NoMemory>
    ensures { OnOk result (out.new ≡ out.old ++ do_word parallel) }
{
    if parallel {
        out.extend_from_slice(b"PARALLEL DO ")
    } else {
        out.extend_from_slice(b"DO ")
    }
}

/// Adds an increment other than 1, after a comma.
fn push_step(out: &mut Bytes, step: &Expr) -> Result<(), NoMemory>
    ensures { OnOk result (out.new ≡ out.old ++ step_text (expr_tree step.now)) }
{
    if is_one(step) {
        return Ok(());
    }
    push_behind(out, b", ", step)
}

/// Adds the items of a PRINT, each after a comma.
fn push_items(out: &mut Bytes, all: &[PrintItem]) -> Result<(), NoMemory>
    ensures { OnOk result (out.new
        ≡ out.old ++ flat_map (λ i. codes ", " ++ item_text i) (map item_tree all.now)) }
{
    for item in all {
        out.extend_from_slice(b", ")?;
        push_item(out, item)?;
    }
    Ok(())
}

/// Adds an item of a PRINT.
fn push_item(out: &mut Bytes, item: &PrintItem) -> Result<(), NoMemory>
    ensures { OnOk result (out.new ≡ out.old ++ item_text (item_tree item.now)) }
{
    match item {
        PrintItem::Value(e) => push_value(out, e),
        PrintItem::Text(text) => push_constant(out, text.as_slice()),
    }
}

/// Adds a character constant between apostrophes (ANSI X3.9-1978, section 4.8).
fn push_constant(out: &mut Bytes, text: &[u8]) -> Result<(), NoMemory>
    ensures { OnOk result (out.new ≡ out.old ++ constant_text text.now) }
{
    out.push(b'\'')?;
    push_doubled(out, text)?;
    out.push(b'\'')
}

/// Adds the characters of a constant, each apostrophe twice.
fn push_doubled(out: &mut Bytes, text: &[u8]) -> Result<(), NoMemory>
    ensures { OnOk result (out.new ≡ out.old ++ doubled text.now) }
{
    for c in text {
        if *c == b'\'' {
            out.push(b'\'')?;
        }
        out.push(*c)?;
    }
    Ok(())
}

/// Adds the items of a READ, each after a comma.
fn push_targets(out: &mut Bytes, all: &[Expr]) -> Result<(), NoMemory>
    ensures { OnOk result (out.new
        ≡ out.old ++ flat_map (λ e. codes ", " ++ value_text e) (map expr_tree all.now)) }
{
    for target in all {
        out.extend_from_slice(b", ")?;
        push_value(out, target)?;
    }
    Ok(())
}

/// Adds a PRIVATE statement.
pub fn push_private(out: &mut Bytes, names: &[Name]) -> Result<(), NoMemory>
    ensures { OnOk result (out.new ≡ out.old ++ private_text names.now) }
{
    out.extend_from_slice(b"PRIVATE ")?;
    push_names(out, names)
}
