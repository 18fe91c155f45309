//! The names of units: what they mean, or the first of the rules 14 to 19 that they break.

ghost use Rattle.std.specs.Prelude.{◌≡◌, ◌++◌, [], ◌∷◌, List, ℕ, IfOk, IfErr, OnOk, All, map};
ghost use Rattle.std.specs.List.{flat_map};
ghost use Rattle.ped_base.specs.Lists as Lists;
ghost use Rattle.ped_tree.specs.Tree as Tree;
ghost use Rattle.ped_tree.specs.Accesses.{listed};
ghost use Rattle.ped_tree.specs.NamesIn as NamesIn;
ghost use Rattle.ped_tree.specs.Names.Collecting.{with_names};
ghost use Rattle.ped_tree.specs.Views.{declarator_tree, decl_tree, stmt_tree, stmt_trees, cond_tree, program_tree, expr_tree, pack_exprs};
ghost use Rattle.ped_valid.specs.ped_symbols.specs.Uses.{type_uses, dimension_uses};
ghost use Rattle.ped_valid.specs.ped_symbols.specs.Declarations.{is_dimensioning, names_with};
ghost use Rattle.ped_units.specs.Units.{with_calls, all_with_calls};
ghost use Rattle.ped_units.specs.Refusals as Spec;
ghost use Rattle.ped_units.specs.Naming.{HasFew, dimensioned_in, HaveTables, IsFirstNameRefusal, JudgesNames, JudgesAllNames, tables_view, goes_on, cond_view};
ghost use Rattle.ped_units.specs.Views.{program_unit_of};

use crate::reading::{at, first_of_both};
use crate::refusals::UnitRefusal;
use crate::units::ProgramUnit;
use ped_base::{Listed, Name, Names, NoMemory};
use ped_tree::grammar::Refusal;
use ped_tree::names::NameSet;
use ped_tree::{Cond, Decl, Declarator, Expr, Program, Relation, Stmt};
use ped_valid::{NameRefusal, Symbols, symbols_of};
use std::alloc::Global;

/// What the names of each unit stand for.
///
/// # Errors
///
/// `At` exactly where the names of a unit break a rule, with the first of all units; `NoMemory` where memory runs out.
pub fn tables(alloc: Global, units: &[ProgramUnit]) -> Result<Vec<Symbols>, UnitRefusal>
    requires { All HasFew (map program_unit_of units.now) }
    ensures tables { IfOk result (λ tables. HaveTables (map program_unit_of units.now) tables.items) }
    ensures refused { IfErr result (IsFirstNameRefusal (map program_unit_of units.now)) }
{
    let judged = all_tables(alloc, units)?;
    match judged {
        Ok(tables) => Ok(tables),
        Err(refusal) => Err(at(refusal)),
    }
}

/// What the names of all units stand for, or the first refusal of them.
fn all_tables(
    alloc: Global,
    units: &[ProgramUnit],
) -> Result<Result<Vec<Symbols>, Refusal>, NoMemory>
    requires { All HasFew (map program_unit_of units.now) }
    ensures { IfOk result (λ r. JudgesAllNames (map program_unit_of units.now) (tables_view r)) }
{
    let mut tables = Vec::new(alloc);
    let mut found = None;
    for unit in units {
        let judged = table(alloc, unit)?;
        match judged {
            Ok(symbols) => tables.push(symbols)?,
            Err(refusal) => found = first_of_both(found, Some(refusal)),
        }
    }
    match found {
        Some(refusal) => Ok(Err(refusal)),
        None => Ok(Ok(tables)),
    }
}

/// What the names of a unit stand for, or their first refusal.
fn table(alloc: Global, unit: &ProgramUnit) -> Result<Result<Symbols, Refusal>, NoMemory>
    requires { HasFew (program_unit_of unit.now) }
    ensures { IfOk result (JudgesNames (program_unit_of unit.now)) }
{
    let program = for_names(alloc, unit)?;
    match symbols_of(alloc, &program) {
        Ok(symbols) => Ok(Ok(symbols)),
        Err(NameRefusal::At(refusal)) => Ok(Err(refusal)),
        Err(NameRefusal::NoMemory) => Err(NoMemory),
    }
}

/// The unit as the program that its names are looked at in: its dummy arguments come first, and something plain stands
/// for each CALL.
fn for_names(alloc: Global, unit: &ProgramUnit) -> Result<Program, NoMemory>
    ensures tree { IfOk result (λ p. program_tree p ≡ Spec.for_names (program_unit_of unit.now)) }
    ensures lines { IfOk result (λ p. p.lines.items ≡ Spec.lines_for_names (program_unit_of unit.now)) }
{
    let arrays = dimensioned(alloc, &unit.program.decls)?;
    let body = without_calls(alloc, &arrays, &unit.program.body)?;
    with_statements(alloc, unit, body)
}

/// The program with the declarations of a unit, of which its dummy arguments come first, and these statements.
fn with_statements(alloc: Global, unit: &ProgramUnit, body: Vec<Stmt>) -> Result<Program, NoMemory>
    ensures tree { IfOk result (λ p. program_tree p ≡ record { decls = Spec.save_of_formals unit.now.formals ++ map decl_tree unit.now.program.decls.items; body = stmt_trees body.items }) }
    ensures lines { IfOk result (λ p. p.lines.items ≡ Spec.lines_for_names (program_unit_of unit.now)) }
{
    match declared(alloc, unit) {
        Ok((decls, lines)) => Ok(Program { decls, body, lines }),
        Err(error) => {
            drop(body);
            Err(error)
        }
    }
}

/// The declarations of a unit after a SAVE of its dummy arguments, where there are some, with their lines and those of
/// its statements.
fn declared(alloc: Global, unit: &ProgramUnit) -> Result<(Vec<Decl>, Vec<u64>), NoMemory>
    ensures decls { IfOk result (λ r. map decl_tree r.0.items ≡ Spec.save_of_formals unit.now.formals ++ map decl_tree unit.now.program.decls.items) }
    ensures lines { IfOk result (λ r. r.1.items ≡ Spec.lines_for_names (program_unit_of unit.now)) }
{
    let mut decls = Vec::new(alloc);
    let mut lines = Vec::new(alloc);
    if !unit.formals.is_empty() {
        let names = first_occurrences(alloc, unit.formals.as_slice())?;
        decls.push(Decl::Save(names))?;
        lines.push(unit.line)?;
    }
    for decl in &unit.program.decls {
        decls.push(decl.copy(alloc)?)?;
    }
    lines.extend_from_slice(&unit.program.lines)?;
    Ok((decls, lines))
}

/// Each of these names once, where it occurs first.
fn first_occurrences(alloc: Global, names: &[Name]) -> Result<Names, NoMemory>
    ensures { IfOk result (λ first. first ≡ NamesIn.first_occurrences [] names.now) }
{
    let mut seen = NameSet::new(alloc);
    for name in names {
        seen.insert(name)?;
    }
    Ok(Listed::from_vec(seen.as_slice().to_vec(alloc)?))
}

/// The names that declarations give dimensions.
pub fn dimensioned(alloc: Global, decls: &[Decl]) -> Result<NameSet, NoMemory>
    ensures { IfOk result (λ arrays. (x : List ℕ) → Lists.is_among x arrays ≡ Lists.is_among x (Spec.dimensioned (map decl_tree decls.now))) }
{
    let mut arrays = NameSet::new(alloc);
    for decl in decls {
        add_dimensioned(&mut arrays, decl)?;
    }
    Ok(arrays)
}

/// Adds the names that a declaration gives dimensions.
fn add_dimensioned(arrays: &mut NameSet, decl: &Decl) -> Result<(), NoMemory>
    ensures { OnOk result (arrays.new ≡ with_names arrays.old (dimensioned_in (decl_tree decl.now))) }
{
    match decl {
        Decl::Integer(declared) => add_typed_arrays(arrays, declared),
        Decl::Dimension(declared) => add_arrays(arrays, declared),
        Decl::Program(_) | Decl::Implicit | Decl::Parameter(_) | Decl::Save(_) | Decl::Comment(_) =>
            { Ok(()) }
    }
}

/// Adds the names that INTEGER gives dimensions.
fn add_typed_arrays(arrays: &mut NameSet, declared: &[Declarator]) -> Result<(), NoMemory>
    ensures { OnOk result (arrays.new ≡ with_names arrays.old (names_with is_dimensioning (flat_map type_uses (map declarator_tree declared.now)))) }
{
    for d in declared {
        if !d.bounds.is_empty() {
            arrays.insert(&d.name)?;
        }
    }
    Ok(())
}

/// Adds the names of DIMENSION.
fn add_arrays(arrays: &mut NameSet, declared: &[Declarator]) -> Result<(), NoMemory>
    ensures { OnOk result (arrays.new ≡ with_names arrays.old (names_with is_dimensioning (flat_map dimension_uses (map declarator_tree declared.now)))) }
{
    for d in declared {
        arrays.insert(&d.name)?;
    }
    Ok(())
}

/// Copies of statements where something plain stands for each CALL.
#[cycle(without_calls)]
fn without_calls(
    alloc: Global,
    arrays: &NameSet,
    statements: &[Stmt],
) -> Result<Vec<Stmt>, NoMemory>
    ensures { IfOk result (λ copies. stmt_trees copies.items ≡ all_with_calls (Spec.using_arguments arrays.now) (stmt_trees statements.now)) }
{
    let mut copies = Vec::new(alloc);
    for statement in statements {
        copies.push(without_call(alloc, arrays, statement)?)?;
    }
    Ok(copies)
}

#[cycle(without_calls)]
fn without_call(alloc: Global, arrays: &NameSet, statement: &Stmt) -> Result<Stmt, NoMemory>
    ensures { IfOk result (λ copy. stmt_tree copy ≡ with_calls (Spec.using_arguments arrays.now) (stmt_tree statement.now)) }
{
    match statement {
        Stmt::Assign {
            left: Expr::Int(_),
            right: Expr::Element(_, arguments),
        } => using(alloc, arrays, arguments),
        Stmt::Assign {
            left: Expr::Int(_),
            right: Expr::Var(_),
        } => using(alloc, arrays, &[]),
        Stmt::If {
            condition,
            then_part,
            else_part,
        } => {
            let then_part = without_calls(alloc, arrays, then_part)?;
            match without_calls(alloc, arrays, else_part) {
                Ok(else_part) => with_condition(alloc, condition, then_part, else_part),
                Err(error) => {
                    drop(then_part);
                    Err(error)
                }
            }
        }
        Stmt::Do(d) => {
            let body = without_calls(alloc, arrays, &d.body)?;
            Ok(Stmt::of_loop(d.with_body(body, alloc)?))
        }
        Stmt::Assign { .. } | Stmt::Print(_) | Stmt::Read(_) | Stmt::Stop | Stmt::Comment(_) => {
            statement.copy(alloc)
        }
    }
}

/// The block IF with a copy of this condition and with these parts.
pub fn with_condition(
    alloc: Global,
    condition: &Cond,
    then_part: Vec<Stmt>,
    else_part: Vec<Stmt>,
) -> Result<Stmt, NoMemory>
    ensures { IfOk result (λ s. stmt_tree s ≡ Tree.If (cond_tree condition.now) (stmt_trees then_part.items) (stmt_trees else_part.items)) }
{
    match condition.copy(alloc) {
        Ok(condition) => Ok(Stmt::block_if(condition, then_part, else_part)),
        Err(error) => {
            drop(then_part);
            drop(else_part);
            Err(error)
        }
    }
}

/// A statement that uses the names of arguments, but for arrays as a whole.
fn using(alloc: Global, arrays: &NameSet, arguments: &[Expr]) -> Result<Stmt, NoMemory>
    ensures { IfOk result (λ s. stmt_tree s ≡ Tree.If (Spec.condition_of (Spec.plain_arguments arrays.now (listed (pack_exprs (map expr_tree arguments.now))))) Tree.no_stmts Tree.no_stmts) }
{
    let condition = condition(alloc, arrays, arguments)?;
    Ok(Stmt::block_if(condition, Vec::new(alloc), Vec::new(alloc)))
}

/// A condition with exactly the arguments that are no arrays as a whole.
fn condition(alloc: Global, arrays: &NameSet, arguments: &[Expr]) -> Result<Cond, NoMemory>
    ensures { IfOk result (λ c. cond_tree c ≡ Spec.condition_of (Spec.plain_arguments arrays.now (listed (pack_exprs (map expr_tree arguments.now))))) }
{
    let mut whole = None;
    for argument in arguments {
        if !is_whole_array(arrays, argument) {
            whole = Some(conjunction(alloc, whole, argument)?);
        }
    }
    Ok(match whole {
        Some(condition) => condition,
        None => is_zero(Expr::literal(0)),
    })
}

/// A condition and the relation of an expression to 0; that alone where there is no condition.
fn conjunction(alloc: Global, condition: Option<Cond>, e: &Expr) -> Result<Cond, NoMemory>
    ensures { IfOk result (λ c. (rest : List Tree.ExprTree) → Spec.and_zeros (cond_tree c) rest ≡ goes_on (cond_view condition) (expr_tree e.now ∷ rest)) }
{
    let Some(condition) = condition else {
        return Ok(is_zero(e.copy(alloc)?));
    };
    match e.copy(alloc) {
        Ok(e) => Cond::conjunction(alloc, condition, is_zero(e)),
        Err(error) => {
            drop(condition);
            Err(error)
        }
    }
}

/// The relation of an expression to 0.
fn is_zero(e: Expr) -> Cond
    ensures { cond_tree result ≡ Spec.is_zero (expr_tree e) }
{
    Cond::relation(Relation::Eq, e, Expr::literal(0))
}

/// Whether the argument is the name of an array.
fn is_whole_array(arrays: &NameSet, argument: &Expr) -> bool
    ensures { result ≡ Spec.is_whole_array arrays.now (expr_tree argument.now) }
{
    match argument {
        Expr::Var(name) => arrays.contains(name),
        _ => false,
    }
}
