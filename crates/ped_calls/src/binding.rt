//! What the names of a subroutine stand for in the block of a CALL: dummy arguments for arguments, constants for their
//! literals, all other names for new ones (ANSI X3.9-1978, section 15.9).

ghost use Rattle.std.specs.Prelude.{◌≡◌, ◌++◌, ◌∷◌, [], IfOk, IfSome, OnOk, map, drop};
ghost use Rattle.ped_tree.specs.Tree.{Var, Assign};
ghost use Rattle.ped_tree.specs.Views.{expr_tree, stmt_tree};
ghost use Rattle.ped_tree.specs.Constants.NamedConstants.{value_named};
ghost use Rattle.ped_links.specs.ped_symbols.specs.Kinds.{table_of};
ghost use Rattle.ped_links.specs.ped_symbols.specs.Values as Values;
ghost use Rattle.ped_links.specs.ped_symbols.specs.Entries.{entry_of, with_entry};
ghost use Rattle.ped_links.specs.ped_units.specs.Refusals.{for_names};
ghost use Rattle.ped_links.specs.ped_units.specs.ped_symbolic.specs.Arithmetic.{literal as literal_tree};
ghost use Rattle.ped_links.specs.ped_units.specs.Expanding as Spec;
ghost use Rattle.ped_links.specs.ped_units.specs.Expanding.{free_name, with_new, with_formals, with_renamed, bound_arguments};
ghost use Rattle.ped_calls.specs.Giving.{given_of, HasNext, IsSmall, HasSmallKind};
ghost use Rattle.ped_calls.specs.Meaning.{meanings_of};
ghost use Rattle.ped_calls.specs.Binding.{StandAlike, local_meanings, named_one};
ghost use Rattle.ped_links.specs.ped_units.specs.Views.{program_unit_of};

use crate::giving::{Given, literal};
use crate::occurring::body_names;
use crate::replacing::Meanings;
use ped_base::{Name, NoMemory};
use ped_links::{ProgramUnit, Symbols};
use ped_tree::constants::{Consts, constant};
use ped_tree::{Expr, Stmt};
use std::alloc::Global;

/// Has dummy arguments stand for what arguments are bound to, from left to right. Assignments of arguments to new names
/// are added after other statements.
pub fn bind(
    alloc: Global,
    given: &mut Given,
    constants: &Consts,
    formals: &[Name],
    arguments: &[Expr],
    meanings: &mut Meanings,
    front: &mut Vec<Stmt>,
) -> Result<(), NoMemory>
    requires { HasNext given.old }
    ensures meanings { OnOk result (meanings_of meanings.new ≡ with_formals (meanings_of meanings.old) formals.now (bound_arguments constants.now (map expr_tree arguments.now) (given_of given.old)).meant) }
    ensures assignments { OnOk result (map stmt_tree front.new.items ≡ map stmt_tree front.old.items ++ (bound_arguments constants.now (map expr_tree arguments.now) (given_of given.old)).assignments) }
    ensures given { OnOk result (given_of given.new ≡ (bound_arguments constants.now (map expr_tree arguments.now) (given_of given.old)).given) }
    ensures next { OnOk result (HasNext given.new) }
{
    for (place, argument) in arguments.iter().enumerate() {
        let e = bound(alloc, given, constants, argument, front)?;
        keep_at(meanings, formals, place, e)?;
    }
    Ok(())
}

/// Has the dummy argument at a place stand for an expression, where there is one.
fn keep_at(meanings: &mut Meanings, formals: &[Name], place: usize, e: Expr) -> Result<(), NoMemory>
    ensures { OnOk result (meanings_of meanings.new ≡ with_formals (meanings_of meanings.old) (drop place formals.now) (expr_tree e ∷ [])) }
{
    if place < formals.len() {
        meanings.keep(&formals[place], e)
    } else {
        drop(e);
        Ok(())
    }
}

/// What an argument is bound to: the variable whose name it is, the literal of its value, or a new name to which it is
/// assigned.
fn bound(
    alloc: Global,
    given: &mut Given,
    constants: &Consts,
    argument: &Expr,
    front: &mut Vec<Stmt>,
) -> Result<Expr, NoMemory>
    requires { HasNext given.old }
    ensures meant { IfOk result (λ e. expr_tree e ∷ [] ≡ (bound_arguments constants.now (expr_tree argument.now ∷ []) (given_of given.old)).meant) }
    ensures assignments { OnOk result (map stmt_tree front.new.items ≡ map stmt_tree front.old.items ++ (bound_arguments constants.now (expr_tree argument.now ∷ []) (given_of given.old)).assignments) }
    ensures given { OnOk result (given_of given.new ≡ (bound_arguments constants.now (expr_tree argument.now ∷ []) (given_of given.old)).given) }
    ensures next { OnOk result (HasNext given.new) }
{
    if is_variable_name(constants, argument) {
        return argument.copy(alloc);
    }
    match fixed_value(constants, argument) {
        Some(value) => literal(alloc, value),
        None => assigned(alloc, given, argument, front),
    }
}

/// A new name to which an argument is assigned.
fn assigned(
    alloc: Global,
    given: &mut Given,
    argument: &Expr,
    front: &mut Vec<Stmt>,
) -> Result<Expr, NoMemory>
    requires { HasNext given.old }
    ensures meant { IfOk result (λ e. expr_tree e ≡ Var (free_name (given_of given.old).taken)) }
    ensures assignments { OnOk result (map stmt_tree front.new.items ≡ map stmt_tree front.old.items ++ Assign (Var (free_name (given_of given.old).taken)) (expr_tree argument.now) ∷ []) }
    ensures given { OnOk result (given_of given.new ≡ with_new (given_of given.old)) }
    ensures next { OnOk result (HasNext given.new) }
{
    let name = given.new_name(alloc)?;
    push_assignment(alloc, &name, argument, front)?;
    Ok(Expr::scalar(name))
}

fn push_assignment(
    alloc: Global,
    name: &Name,
    e: &Expr,
    front: &mut Vec<Stmt>,
) -> Result<(), NoMemory>
    ensures { OnOk result (map stmt_tree front.new.items ≡ map stmt_tree front.old.items ++ Assign (Var name.now) (expr_tree e.now) ∷ []) }
{
    let right = e.copy(alloc)?;
    front.push(Stmt::assignment(Expr::scalar(*name), right))?;
    Ok(())
}

/// Whether the expression is the name of a variable.
fn is_variable_name(constants: &Consts, e: &Expr) -> bool
    ensures { result ≡ Spec.is_variable_name constants.now (expr_tree e.now) }
{
    match e {
        Expr::Var(name) => constants.get(name).is_none(),
        _ => false,
    }
}

/// The value of a constant expression that isn't too large.
fn fixed_value(constants: &Consts, e: &Expr) -> Option<i64>
    ensures value { result ≡ Values.fixed_value constants.now (expr_tree e.now) }
    ensures small { IfSome result IsSmall }
{
    match constant(e, constants) {
        Some(value) => within(value),
        None => None,
    }
}

fn within(value: i128) -> Option<i64>
    ensures value { result ≡ Values.within (Some value) }
    ensures small { IfSome result IsSmall }
{
    if -2_147_483_647 <= value && value <= 2_147_483_647 {
        Some(value as i64)
    } else {
        None
    }
}

/// Has literals stand for the named constants in the statements of a unit, and new names for all other names in them,
/// where nothing does yet, in the order in which they occur first. Named constants that don't occur are left out.
pub fn add_names(
    alloc: Global,
    meanings: &mut Meanings,
    given: &mut Given,
    unit: &ProgramUnit,
    table: &Symbols,
) -> Result<(), NoMemory>
    requires next { HasNext given.old }
    requires table { table.now ≡ table_of (for_names (program_unit_of unit.now)) }
    ensures meanings { OnOk result (StandAlike (Spec.body_names (program_unit_of unit.now)) (meanings_of meanings.new) (local_meanings (program_unit_of unit.now) (meanings_of meanings.old) (given_of given.old)).meanings) }
    ensures given { OnOk result (given_of given.new ≡ (local_meanings (program_unit_of unit.now) (meanings_of meanings.old) (given_of given.old)).given) }
    ensures next { OnOk result (HasNext given.new) }
{
    let names = body_names(alloc, &unit.program.body)?;
    for name in names.as_slice() {
        add_name(alloc, meanings, given, table, name)?;
    }
    Ok(())
}

/// Has the literal of a named constant or a new name stand for a name, where nothing does yet.
fn add_name(
    alloc: Global,
    meanings: &mut Meanings,
    given: &mut Given,
    table: &Symbols,
    name: &Name,
) -> Result<(), NoMemory>
    requires next { HasNext given.old }
    requires constant { IfSome (value_named table.now.constants name.now) IsSmall }
    requires kind { HasSmallKind (entry_of table.now.kinds name.now) }
    ensures meanings { OnOk result (meanings_of meanings.new ≡ (named_one table.now.constants name.now (entry_of table.now.kinds name.now) (record { meanings = meanings_of meanings.old; given = given_of given.old })).meanings) }
    ensures given { OnOk result (given_of given.new ≡ (named_one table.now.constants name.now (entry_of table.now.kinds name.now) (record { meanings = meanings_of meanings.old; given = given_of given.old })).given) }
    ensures next { OnOk result (HasNext given.new) }
{
    if meanings.has(name) {
        return Ok(());
    }
    match table.consts().get(name) {
        Some(value) => add_constant(alloc, meanings, name, value),
        None => add_local(alloc, meanings, given, table, name),
    }
}

/// Has the literal of its value stand for a named constant.
fn add_constant(
    alloc: Global,
    meanings: &mut Meanings,
    name: &Name,
    value: i64,
) -> Result<(), NoMemory>
    requires { IsSmall value }
    ensures { OnOk result (meanings_of meanings.new ≡ with_entry (meanings_of meanings.old) name.now (literal_tree value)) }
{
    let e = literal(alloc, value)?;
    meanings.keep(name, e)
}

/// Has a new name stand for a name.
fn add_local(
    alloc: Global,
    meanings: &mut Meanings,
    given: &mut Given,
    table: &Symbols,
    name: &Name,
) -> Result<(), NoMemory>
    requires next { HasNext given.old }
    requires small { HasSmallKind (entry_of table.now.kinds name.now) }
    ensures meanings { OnOk result (meanings_of meanings.new ≡ (with_renamed name.now (entry_of table.now.kinds name.now) (record { meanings = meanings_of meanings.old; given = given_of given.old })).meanings) }
    ensures given { OnOk result (given_of given.new ≡ (with_renamed name.now (entry_of table.now.kinds name.now) (record { meanings = meanings_of meanings.old; given = given_of given.old })).given) }
    ensures next { OnOk result (HasNext given.new) }
{
    let new = given.new_local(alloc, table.kind(name))?;
    meanings.keep(name, Expr::scalar(new))
}
