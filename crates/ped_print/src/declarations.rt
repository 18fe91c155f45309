//! The text of declarations, added at the end of a text. If memory runs out, the text ends somewhere
//! in what was to be added.

ghost use Rattle.std.specs.Prelude.{◌≡◌, ◌++◌, map, codes, OnOk};
ghost use Rattle.std.specs.List.{join_by};
ghost use Rattle.ped_tree.specs.Printing as Spec;
ghost use Rattle.ped_tree.specs.Printing.{decl_text, declarator_text, dimensions_text, bound_text, parameter_text, names_text};
ghost use Rattle.ped_tree.specs.Tree;
ghost use Rattle.ped_tree.specs.Views.{decl_tree, declarator_tree, bound_tree, value_tree};

use crate::expressions::{is_one, push_value};
use ped_base::{Bytes, Name, NoMemory};
use ped_tree::{Bound, Decl, Declarator, Expr};

/// Adds a declaration, or a comment among declarations.
pub fn push_decl(out: &mut Bytes, decl: &Decl) -> Result<(), NoMemory>
    ensures { OnOk result (out.new ≡ out.old ++ decl_text (decl_tree decl.now)) }
{
    match decl {
        Decl::Program(name) => {
            out.extend_from_slice(b"PROGRAM ")?;
            out.extend_from_slice(name.as_bytes())
        }
        Decl::Implicit => out.extend_from_slice(b"IMPLICIT INTEGER (A-Z)"),
        Decl::Integer(declarators) => {
            out.extend_from_slice(b"INTEGER ")?;
            push_declarators(out, declarators)
        }
        Decl::Dimension(declarators) => {
            out.extend_from_slice(b"DIMENSION ")?;
            push_declarators(out, declarators)
        }
        Decl::Parameter(constants) => push_parameter(out, constants),
        Decl::Save(names) => {
            out.extend_from_slice(b"SAVE ")?;
            push_names(out, names.as_slice())
        }
        Decl::Comment(text) => {
            out.push(b'C')?;
            out.extend_from_slice(text.as_slice())
        }
    }
}

/// Whether a declaration is a comment, which begins in column 1.
pub fn is_remark(decl: &Decl) -> bool
    ensures { result ≡ Spec.is_remark (decl_tree decl.now) }
{
    match decl {
        Decl::Comment(_) => true,
        _ => false,
    }
}

/// Adds declared names, with a comma and a blank between two.
fn push_declarators(out: &mut Bytes, all: &[Declarator]) -> Result<(), NoMemory>
    ensures { OnOk result (out.new
        ≡ out.old ++ join_by declarator_text (codes ", ") (map declarator_tree all.now)) }
{
    let Some(first) = all.first() else {
        return Ok(());
    };
    push_declarator(out, first)?;
    for declarator in &all[1..] {
        out.extend_from_slice(b", ")?;
        push_declarator(out, declarator)?;
    }
    Ok(())
}

/// Adds a declared name with its dimensions.
fn push_declarator(out: &mut Bytes, declarator: &Declarator) -> Result<(), NoMemory>
    ensures { OnOk result (out.new ≡ out.old ++ declarator_text (declarator_tree declarator.now)) }
{
    out.extend_from_slice(declarator.name.as_bytes())?;
    push_dimensions(out, &declarator.bounds)
}

/// Adds dimensions in parentheses, nothing where there are none.
fn push_dimensions(out: &mut Bytes, all: &[Bound]) -> Result<(), NoMemory>
    ensures { OnOk result (out.new ≡ out.old ++ dimensions_text (map bound_tree all.now)) }
{
    let Some(first) = all.first() else {
        return Ok(());
    };
    out.push(b'(')?;
    push_bound(out, first)?;
    for bound in &all[1..] {
        out.push(b',')?;
        push_bound(out, bound)?;
    }
    out.push(b')')
}

/// Adds a dimension, without its lower bound where that is 1.
fn push_bound(out: &mut Bytes, bound: &Bound) -> Result<(), NoMemory>
    ensures { OnOk result (out.new ≡ out.old ++ bound_text (bound_tree bound.now)) }
{
    if is_one(&bound.lower) {
        return push_value(out, &bound.upper);
    }
    push_value(out, &bound.lower)?;
    out.push(b':')?;
    push_value(out, &bound.upper)
}

/// Adds PARAMETER with named constants in parentheses.
fn push_parameter(out: &mut Bytes, all: &[(Name, Expr)]) -> Result<(), NoMemory>
    ensures { OnOk result (out.new ≡ out.old ++ decl_text (Tree.Parameter (map value_tree all.now))) }
{
    out.extend_from_slice(b"PARAMETER (")?;
    push_constants(out, all)?;
    out.push(b')')
}

/// Adds named constants with their values, with a comma and a blank between two.
fn push_constants(out: &mut Bytes, all: &[(Name, Expr)]) -> Result<(), NoMemory>
    ensures { OnOk result (out.new
        ≡ out.old ++ join_by parameter_text (codes ", ") (map value_tree all.now)) }
{
    let Some(first) = all.first() else {
        return Ok(());
    };
    push_constant(out, first)?;
    for constant in &all[1..] {
        out.extend_from_slice(b", ")?;
        push_constant(out, constant)?;
    }
    Ok(())
}

/// Adds a named constant and its value.
fn push_constant(out: &mut Bytes, constant: &(Name, Expr)) -> Result<(), NoMemory>
    ensures { OnOk result (out.new ≡ out.old ++ parameter_text (value_tree constant.now)) }
{
    out.extend_from_slice(constant.0.as_bytes())?;
    out.push(b'=')?;
    push_value(out, &constant.1)
}

/// Adds names, with a comma and a blank between two.
pub fn push_names(out: &mut Bytes, all: &[Name]) -> Result<(), NoMemory>
    ensures { OnOk result (out.new ≡ out.old ++ names_text all.now) }
{
    let Some(first) = all.first() else {
        return Ok(());
    };
    out.extend_from_slice(first.as_bytes())?;
    for name in &all[1..] {
        out.extend_from_slice(b", ")?;
        out.extend_from_slice(name.as_bytes())?;
    }
    Ok(())
}
