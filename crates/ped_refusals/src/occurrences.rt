//! The names that occur in statements, added to a set in text order. After running out of memory the set
//! has some of the names to be added.

ghost use Rattle.std.specs.Prelude.{◌≡◌, ◌∷◌, ◌++◌, map, drop, Some, None, OnOk, if◌then◌else◌};
ghost use Rattle.std.specs.List.{flat_map};
ghost use Rattle.ped_tree.specs.Grammar.Occurrences as Spec;
ghost use Rattle.ped_tree.specs.NamesIn.{expr_names, exprs_names, cond_names, item_names, stmt_names, stmts_names, head_names, declarator_names, decl_names};
ghost use Rattle.ped_tree.specs.Grammar.Occurrences.{names_in, of_reading, entry_names, is_rejection};
ghost use Rattle.ped_tree.specs.Views.{expr_tree, pack_exprs, cond_tree, item_tree, stmt_tree, stmt_trees, head, bound_tree, declarator_tree, decl_tree, value_tree};
ghost use Rattle.ped_tree.specs.Grammar.StatementViews.{note_of};
ghost use Rattle.ped_tree.specs.Grammar.ItemViews.{item_of, do_head, reading_of, entry_of};
ghost use Rattle.ped_tree.specs.Names.Collecting.{with_name, with_names};

use ped_base::{Name, NoMemory};
use ped_expressions::{after, name_of};
use ped_tree::grammar::{DoStatement, Entry, Item, NoteLine, StatementReading};
use ped_tree::names::NameSet;
use ped_tree::{Bound, Cond, Decl, Declarator, Do, Expr, PrintItem, Stmt};

/// Adds the names of a statement, those that its directives reject first.
pub fn add_entry(names: &mut NameSet, entry: &Entry) -> Result<(), NoMemory>
    ensures { OnOk result (names.new ≡ with_names names.old (entry_names (entry_of entry.now))) }
{
    add_rejected(names, entry.statement.directives.as_slice())?;
    match &entry.reading {
        StatementReading::Says(item) => add_item(names, item),
        StatementReading::OutsideProfile | StatementReading::NoForm => Ok(()),
    }
}

/// Adds the constants that a statement names.
pub fn add_constants(names: &mut NameSet, entry: &Entry) -> Result<(), NoMemory>
    ensures { OnOk result (names.new ≡ with_names names.old (of_reading Spec.constants_of (entry_of entry.now).reading)) }
{
    match &entry.reading {
        StatementReading::Says(Item::Declaration(Decl::Parameter(constants))) => {
            add_first_parts(names, constants)
        }
        _ => Ok(()),
    }
}

/// Adds the variable of a DO statement.
pub fn add_do_variable(names: &mut NameSet, entry: &Entry) -> Result<(), NoMemory>
    ensures { OnOk result (names.new ≡ with_names names.old (of_reading Spec.do_variables (entry_of entry.now).reading)) }
{
    match &entry.reading {
        StatementReading::Says(Item::Do(d)) => names.insert(&d.variable),
        _ => Ok(()),
    }
}

fn add_first_parts(names: &mut NameSet, constants: &[(Name, Expr)]) -> Result<(), NoMemory>
    ensures { OnOk result (names.new ≡ with_names names.old (map (λ v. v.0) (map value_tree constants.now))) }
{
    for constant in constants {
        names.insert(&constant.0)?;
    }
    Ok(())
}

/// Adds the names that directives reject.
fn add_rejected(names: &mut NameSet, directives: &[NoteLine]) -> Result<(), NoMemory>
    ensures { OnOk result (names.new ≡ with_names names.old (Spec.rejected_names (map note_of directives.now))) }
{
    for directive in directives {
        if let Some(name) = rejected_name(directive.text.as_slice()) {
            names.insert(&name)?;
        }
    }
    Ok(())
}

/// The name that a directive with this text rejects, where it is REJECT and a name.
#[tactic(auto, using(crate::proofs::Rejections::reject_and_name))]
pub fn rejected_name(text: &[u8]) -> Option<Name>
    ensures { result ≡ (if is_rejection text.now then Some (drop 6 text.now) else None) }
{
    match after(text, b"REJECT") {
        Some(name) => name_of(name),
        None => None,
    }
}

/// Adds the names in what a statement says.
fn add_item(names: &mut NameSet, item: &Item) -> Result<(), NoMemory>
    ensures { OnOk result (names.new ≡ with_names names.old (names_in (item_of item.now))) }
{
    match item {
        Item::Declaration(decl) => add_decl(names, decl),
        Item::Simple(statement) => add_stmt(names, statement),
        Item::LogicalIf(condition, None) | Item::BlockIf(condition) | Item::ElseIf(condition) => {
            add_cond(names, condition)
        }
        Item::LogicalIf(condition, Some(statement)) => {
            add_cond(names, condition)?;
            add_stmt(names, statement)
        }
        Item::Do(d) => add_do(names, d),
        Item::Private(private) => add_names(names, private.as_slice()),
        Item::SaveAll | Item::Continue | Item::Else | Item::EndIf | Item::EndDo | Item::End => Ok(
            (),
        ),
    }
}

/// Adds names without a change.
fn add_names(names: &mut NameSet, all: &[Name]) -> Result<(), NoMemory>
    ensures { OnOk result (names.new ≡ with_names names.old all.now) }
{
    for name in all {
        names.insert(name)?;
    }
    Ok(())
}

/// Adds the names in a DO statement.
fn add_do(names: &mut NameSet, d: &DoStatement) -> Result<(), NoMemory>
    ensures { OnOk result (names.new ≡ with_names names.old (head_names (do_head d.now))) }
{
    names.insert(&d.variable)?;
    add_expr(names, &d.first)?;
    add_expr(names, &d.last)?;
    add_expr(names, &d.step)
}

/// Adds the names in the header of a DO.
fn add_head(names: &mut NameSet, d: &Do) -> Result<(), NoMemory>
    ensures { OnOk result (names.new ≡ with_names names.old
        (head_names (head d.now.variable d.now.first d.now.last d.now.step d.now.parallel d.now.private d.now.rejected))) }
{
    add_names(names, d.rejected.as_slice())?;
    names.insert(&d.variable)?;
    add_expr(names, &d.first)?;
    add_expr(names, &d.last)?;
    add_expr(names, &d.step)?;
    add_names(names, d.private.as_slice())
}

/// Adds the names in a statement, its left side first.
#[cycle(statements)]
fn add_stmt(names: &mut NameSet, statement: &Stmt) -> Result<(), NoMemory>
    ensures { OnOk result (names.new ≡ with_names names.old (stmt_names (stmt_tree statement.now))) }
{
    match statement {
        Stmt::Assign { left, right } => {
            add_expr(names, left)?;
            add_expr(names, right)
        }
        Stmt::If {
            condition,
            then_part,
            else_part,
        } => {
            add_cond(names, condition)?;
            add_stmts(names, then_part)?;
            add_stmts(names, else_part)
        }
        Stmt::Do(d) => {
            add_head(names, d)?;
            add_stmts(names, &d.body)
        }
        Stmt::Print(items) => add_print_items(names, items),
        Stmt::Read(items) => add_read_items(names, items),
        Stmt::Stop | Stmt::Comment(_) => Ok(()),
    }
}

#[cycle(statements)]
fn add_stmts(names: &mut NameSet, statements: &[Stmt]) -> Result<(), NoMemory>
    ensures { OnOk result (names.new ≡ with_names names.old (stmts_names (stmt_trees statements.now))) }
{
    for statement in statements {
        add_stmt(names, statement)?;
    }
    Ok(())
}

fn add_print_items(names: &mut NameSet, items: &[PrintItem]) -> Result<(), NoMemory>
    ensures { OnOk result (names.new ≡ with_names names.old (flat_map item_names (map item_tree items.now))) }
{
    for item in items {
        add_print_item(names, item)?;
    }
    Ok(())
}

fn add_print_item(names: &mut NameSet, item: &PrintItem) -> Result<(), NoMemory>
    ensures { OnOk result (names.new ≡ with_names names.old (item_names (item_tree item.now))) }
{
    match item {
        PrintItem::Value(e) => add_expr(names, e),
        PrintItem::Text(_) => Ok(()),
    }
}

fn add_read_items(names: &mut NameSet, items: &[Expr]) -> Result<(), NoMemory>
    ensures { OnOk result (names.new ≡ with_names names.old (flat_map expr_names (map expr_tree items.now))) }
{
    for item in items {
        add_expr(names, item)?;
    }
    Ok(())
}

/// Adds the names in a declaration; the program's name counts nowhere.
fn add_decl(names: &mut NameSet, decl: &Decl) -> Result<(), NoMemory>
    ensures { OnOk result (names.new ≡ with_names names.old (decl_names (decl_tree decl.now))) }
{
    match decl {
        Decl::Integer(declarators) | Decl::Dimension(declarators) => {
            add_declarators(names, declarators)
        }
        Decl::Parameter(constants) => add_parameters(names, constants),
        Decl::Save(saved) => add_names(names, saved.as_slice()),
        Decl::Program(_) | Decl::Implicit | Decl::Comment(_) => Ok(()),
    }
}

fn add_declarators(names: &mut NameSet, declarators: &[Declarator]) -> Result<(), NoMemory>
    ensures { OnOk result (names.new ≡ with_names names.old (flat_map declarator_names (map declarator_tree declarators.now))) }
{
    for declarator in declarators {
        add_declarator(names, declarator)?;
    }
    Ok(())
}

/// Adds a declared name, and the names in its bounds.
fn add_declarator(names: &mut NameSet, declarator: &Declarator) -> Result<(), NoMemory>
    ensures { OnOk result (names.new ≡ with_names names.old (declarator_names (declarator_tree declarator.now))) }
{
    names.insert(&declarator.name)?;
    add_bounds(names, &declarator.bounds)
}

fn add_bounds(names: &mut NameSet, bounds: &[Bound]) -> Result<(), NoMemory>
    ensures { OnOk result (names.new ≡ with_names names.old
        (flat_map (λ b. expr_names b.lower ++ expr_names b.upper) (map bound_tree bounds.now))) }
{
    for bound in bounds {
        add_expr(names, &bound.lower)?;
        add_expr(names, &bound.upper)?;
    }
    Ok(())
}

fn add_parameters(names: &mut NameSet, constants: &[(Name, Expr)]) -> Result<(), NoMemory>
    ensures { OnOk result (names.new ≡ with_names names.old
        (flat_map (λ v. v.0 ∷ expr_names v.1) (map value_tree constants.now))) }
{
    for constant in constants {
        names.insert(&constant.0)?;
        add_expr(names, &constant.1)?;
    }
    Ok(())
}

/// Adds the names in a condition.
#[cycle(conditions)]
fn add_cond(names: &mut NameSet, condition: &Cond) -> Result<(), NoMemory>
    ensures { OnOk result (names.new ≡ with_names names.old (cond_names (cond_tree condition.now))) }
{
    match condition {
        Cond::Rel(_, left, right) => {
            add_expr(names, left)?;
            add_expr(names, right)
        }
        Cond::Not(operand) => add_cond(names, operand),
        Cond::And(left, right) | Cond::Or(left, right) => {
            add_cond(names, left)?;
            add_cond(names, right)
        }
    }
}

/// Adds the names in an expression.
#[cycle(expressions)]
fn add_expr(names: &mut NameSet, e: &Expr) -> Result<(), NoMemory>
    ensures { OnOk result (names.new ≡ with_names names.old (expr_names (expr_tree e.now))) }
{
    match e {
        Expr::Int(_) => Ok(()),
        Expr::Var(name) => names.insert(name),
        Expr::Element(name, subscripts) => {
            names.insert(name)?;
            add_exprs(names, subscripts)
        }
        Expr::Neg(operand) => add_expr(names, operand),
        Expr::Add(left, right)
        | Expr::Sub(left, right)
        | Expr::Mul(left, right)
        | Expr::Div(left, right)
        | Expr::Pow(left, right) => {
            add_expr(names, left)?;
            add_expr(names, right)
        }
        Expr::Call(_, arguments) => add_exprs(names, arguments),
    }
}

#[cycle(expressions)]
fn add_exprs(names: &mut NameSet, exprs: &[Expr]) -> Result<(), NoMemory>
    ensures { OnOk result (names.new ≡ with_names names.old (exprs_names (pack_exprs (map expr_tree exprs.now)))) }
{
    for e in exprs {
        add_expr(names, e)?;
    }
    Ok(())
}
