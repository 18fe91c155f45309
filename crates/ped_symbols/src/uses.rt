//! How the statements of a program use names. When out of memory, a list has some of what was to be added.

ghost use Rattle.std.specs.Prelude.{◌≡◌, [], ◌∷◌, ◌++◌, map, OnOk};
ghost use Rattle.std.specs.List.{flat_map};
ghost use Rattle.ped_tree.specs.Views.{expr_tree, pack_exprs, cond_tree, item_tree, stmt_tree, head, bound_tree, declarator_tree, decl_tree, value_tree};
ghost use Rattle.ped_symbols.specs.Declarations as Declarations;
ghost use Rattle.ped_symbols.specs.Uses as Spec;
ghost use Rattle.ped_symbols.specs.Uses.{used_as};

use ped_base::{Name, NoMemory};
use ped_tree::{Bound, Cond, Decl, Declarator, Do, Expr, PrintItem, Stmt};

/// How a name is used at one place.
#[derive(Clone, Copy, PartialEq, Eq)]
pub enum Role {
    /// It is named in INTEGER (ANSI X3.9-1978, section 8.4.1).
    Typed,
    /// It gets this many dimensions, by INTEGER or DIMENSION (section 5.1).
    Dimensioned(usize),
    /// PARAMETER makes it a constant (section 8.6).
    Named,
    /// It is named in SAVE (section 8.9).
    Saved,
    /// A directive rejects dependences on it.
    Rejected,
    /// It is named in PRIVATE.
    Private,
    /// It is the variable of a DO (section 11.10).
    Index,
    /// It is assigned or read into, with this number of subscripts, 0 for a scalar (sections 10.1, 12.8).
    Assigned(usize),
    /// It occurs in an expression, with this many subscripts (sections 5.4, 6.1).
    Operand(usize),
}

impl Role {
    /// Whether the name is typed.
    pub fn is_typing(self) -> bool
        ensures { result ≡ Declarations.is_typing self }
    {
        matches!(self, Role::Typed)
    }

    /// Whether the name gets dimensions.
    pub fn is_dimensioning(self) -> bool
        ensures { result ≡ Declarations.is_dimensioning self }
    {
        matches!(self, Role::Dimensioned(_))
    }

    /// Whether the name is made a constant.
    pub fn is_naming(self) -> bool
        ensures { result ≡ Declarations.is_naming self }
    {
        matches!(self, Role::Named)
    }

    /// Whether the name is saved.
    pub fn is_saving(self) -> bool
        ensures { result ≡ Declarations.is_saving self }
    {
        matches!(self, Role::Saved)
    }
}

/// A name at one place of a program.
#[derive(Clone, Copy)]
pub struct Use {
    /// The name.
    pub name: Name,
    /// How it is used there.
    pub role: Role,
}

/// Adds the uses in declarations.
pub fn push_decls(uses: &mut Vec<Use>, decls: &[Decl]) -> Result<(), NoMemory>
    ensures { OnOk result (uses.new.items ≡ uses.old.items ++ flat_map Spec.decl_uses (map decl_tree decls.now)) }
{
    for decl in decls {
        push_decl(uses, decl)?;
    }
    Ok(())
}

/// Adds the uses in a declaration.
pub fn push_decl(uses: &mut Vec<Use>, decl: &Decl) -> Result<(), NoMemory>
    ensures { OnOk result (uses.new.items ≡ uses.old.items ++ Spec.decl_uses (decl_tree decl.now)) }
{
    match decl {
        Decl::Integer(declarators) => push_types(uses, declarators),
        Decl::Dimension(declarators) => push_dimensions(uses, declarators),
        Decl::Parameter(values) => push_constants(uses, values),
        Decl::Save(names) => push_all(uses, Role::Saved, names.as_slice()),
        Decl::Program(_) | Decl::Implicit | Decl::Comment(_) => Ok(()),
    }
}

/// Adds the uses in a statement by itself, without those in its parts and those of PRIVATE.
pub fn push_own(uses: &mut Vec<Use>, statement: &Stmt) -> Result<(), NoMemory>
    ensures { OnOk result (uses.new.items ≡ uses.old.items ++ Spec.own_uses (stmt_tree statement.now)) }
{
    match statement {
        Stmt::Assign { left, right } => {
            push_target(uses, left)?;
            push_expr(uses, right)
        }
        Stmt::If { condition, .. } => push_cond(uses, condition),
        Stmt::Do(d) => push_do(uses, d),
        Stmt::Print(items) => push_items(uses, items),
        Stmt::Read(items) => push_targets(uses, items),
        Stmt::Stop | Stmt::Comment(_) => Ok(()),
    }
}

/// Adds uses of names in one role.
pub fn push_all(uses: &mut Vec<Use>, role: Role, names: &[Name]) -> Result<(), NoMemory>
    ensures { OnOk result (uses.new.items ≡ uses.old.items ++ map (used_as role) names.now) }
{
    for name in names {
        push(uses, role, name)?;
    }
    Ok(())
}

fn push(uses: &mut Vec<Use>, role: Role, name: &Name) -> Result<(), NoMemory>
    ensures { OnOk result (uses.new.items ≡ uses.old.items ++ used_as role name.now ∷ []) }
{
    uses.push(Use { name: *name, role })?;
    Ok(())
}

/// Adds the uses in a DO statement by itself, without those of PRIVATE.
fn push_do(uses: &mut Vec<Use>, d: &Do) -> Result<(), NoMemory>
    ensures { OnOk result (uses.new.items ≡ uses.old.items ++ (map (used_as Role.Rejected) d.now.rejected
        ++ used_as Role.Index d.now.variable ∷ (Spec.expr_uses (expr_tree d.now.first)
        ++ Spec.expr_uses (expr_tree d.now.last) ++ Spec.expr_uses (expr_tree d.now.step)))) }
{
    push_all(uses, Role::Rejected, d.rejected.as_slice())?;
    push(uses, Role::Index, &d.variable)?;
    push_expr(uses, &d.first)?;
    push_expr(uses, &d.last)?;
    push_expr(uses, &d.step)
}

/// Adds the uses in the items of a PRINT.
fn push_items(uses: &mut Vec<Use>, items: &[PrintItem]) -> Result<(), NoMemory>
    ensures { OnOk result (uses.new.items ≡ uses.old.items ++ flat_map Spec.item_uses (map item_tree items.now)) }
{
    for item in items {
        push_item(uses, item)?;
    }
    Ok(())
}

fn push_item(uses: &mut Vec<Use>, item: &PrintItem) -> Result<(), NoMemory>
    ensures { OnOk result (uses.new.items ≡ uses.old.items ++ Spec.item_uses (item_tree item.now)) }
{
    match item {
        PrintItem::Value(e) => push_expr(uses, e),
        PrintItem::Text(_) => Ok(()),
    }
}

/// Adds the uses in the items of a READ.
fn push_targets(uses: &mut Vec<Use>, items: &[Expr]) -> Result<(), NoMemory>
    ensures { OnOk result (uses.new.items ≡ uses.old.items ++ flat_map Spec.target_uses (map expr_tree items.now)) }
{
    for item in items {
        push_target(uses, item)?;
    }
    Ok(())
}

/// Adds the uses in a left side or an item of a READ.
#[tactic(auto, using(crate::proofs::Elements::uses_of_target))]
fn push_target(uses: &mut Vec<Use>, target: &Expr) -> Result<(), NoMemory>
    ensures { OnOk result (uses.new.items ≡ uses.old.items ++ Spec.target_uses (expr_tree target.now)) }
{
    match target {
        Expr::Var(name) => push(uses, Role::Assigned(0), name),
        Expr::Element(name, subscripts) => {
            push_element(uses, Role::Assigned(subscripts.len()), name, subscripts)
        }
        Expr::Int(_)
        | Expr::Neg(_)
        | Expr::Add(_, _)
        | Expr::Sub(_, _)
        | Expr::Mul(_, _)
        | Expr::Div(_, _)
        | Expr::Pow(_, _)
        | Expr::Call(_, _) => push_expr(uses, target),
    }
}

/// Adds the uses in a condition.
#[cycle(push_cond)]
fn push_cond(uses: &mut Vec<Use>, condition: &Cond) -> Result<(), NoMemory>
    ensures { OnOk result (uses.new.items ≡ uses.old.items ++ Spec.cond_uses (cond_tree condition.now)) }
{
    match condition {
        Cond::Rel(_, left, right) => {
            push_expr(uses, left)?;
            push_expr(uses, right)
        }
        Cond::Not(operand) => push_cond(uses, operand),
        Cond::And(left, right) | Cond::Or(left, right) => {
            push_cond(uses, left)?;
            push_cond(uses, right)
        }
    }
}

/// Adds the uses in an expression.
#[cycle(push_exprs)]
#[tactic(auto, using(crate::proofs::Elements::uses_of_element))]
fn push_expr(uses: &mut Vec<Use>, e: &Expr) -> Result<(), NoMemory>
    ensures { OnOk result (uses.new.items ≡ uses.old.items ++ Spec.expr_uses (expr_tree e.now)) }
{
    match e {
        Expr::Int(_) => Ok(()),
        Expr::Var(name) => push(uses, Role::Operand(0), name),
        Expr::Element(name, subscripts) => {
            push_element(uses, Role::Operand(subscripts.len()), name, subscripts)
        }
        Expr::Neg(operand) => push_expr(uses, operand),
        Expr::Add(left, right) => {
            push_expr(uses, left)?;
            push_expr(uses, right)
        }
        Expr::Sub(left, right) => {
            push_expr(uses, left)?;
            push_expr(uses, right)
        }
        Expr::Mul(left, right) => {
            push_expr(uses, left)?;
            push_expr(uses, right)
        }
        Expr::Div(left, right) => {
            push_expr(uses, left)?;
            push_expr(uses, right)
        }
        Expr::Pow(left, right) => {
            push_expr(uses, left)?;
            push_expr(uses, right)
        }
        Expr::Call(_, arguments) => push_exprs(uses, arguments),
    }
}

/// Adds a name in a role, and the uses in its subscripts.
#[cycle(push_exprs)]
fn push_element(
    uses: &mut Vec<Use>,
    role: Role,
    name: &Name,
    subscripts: &[Expr],
) -> Result<(), NoMemory>
    ensures { OnOk result (uses.new.items ≡ uses.old.items ++ used_as role name.now ∷ Spec.exprs_uses (pack_exprs (map expr_tree subscripts.now))) }
{
    push(uses, role, name)?;
    push_exprs(uses, subscripts)
}

/// Adds the uses in subscripts or arguments.
#[cycle(push_exprs)]
fn push_exprs(uses: &mut Vec<Use>, exprs: &[Expr]) -> Result<(), NoMemory>
    ensures { OnOk result (uses.new.items ≡ uses.old.items ++ Spec.exprs_uses (pack_exprs (map expr_tree exprs.now))) }
{
    for e in exprs {
        push_expr(uses, e)?;
    }
    Ok(())
}

/// Adds the uses in the declarators of INTEGER.
fn push_types(uses: &mut Vec<Use>, declarators: &[Declarator]) -> Result<(), NoMemory>
    ensures { OnOk result (uses.new.items ≡ uses.old.items ++ flat_map Spec.type_uses (map declarator_tree declarators.now)) }
{
    for declarator in declarators {
        push_type(uses, declarator)?;
    }
    Ok(())
}

fn push_type(uses: &mut Vec<Use>, declarator: &Declarator) -> Result<(), NoMemory>
    ensures { OnOk result (uses.new.items ≡ uses.old.items ++ Spec.type_uses (declarator_tree declarator.now)) }
{
    push(uses, Role::Typed, &declarator.name)?;
    if declarator.bounds.is_empty() {
        return Ok(());
    }
    push_dimension(uses, declarator)
}

/// Adds the uses in the declarators of DIMENSION.
fn push_dimensions(uses: &mut Vec<Use>, declarators: &[Declarator]) -> Result<(), NoMemory>
    ensures { OnOk result (uses.new.items ≡ uses.old.items ++ flat_map Spec.dimension_uses (map declarator_tree declarators.now)) }
{
    for declarator in declarators {
        push_dimension(uses, declarator)?;
    }
    Ok(())
}

/// Adds a name with dimensions, and the uses in them.
fn push_dimension(uses: &mut Vec<Use>, declarator: &Declarator) -> Result<(), NoMemory>
    ensures { OnOk result (uses.new.items ≡ uses.old.items ++ Spec.dimension_uses (declarator_tree declarator.now)) }
{
    push(
        uses,
        Role::Dimensioned(declarator.bounds.len()),
        &declarator.name,
    )?;
    push_bounds(uses, &declarator.bounds)
}

fn push_bounds(uses: &mut Vec<Use>, bounds: &[Bound]) -> Result<(), NoMemory>
    ensures { OnOk result (uses.new.items ≡ uses.old.items ++ Spec.bounds_uses (map bound_tree bounds.now)) }
{
    for bound in bounds {
        push_expr(uses, &bound.lower)?;
        push_expr(uses, &bound.upper)?;
    }
    Ok(())
}

/// Adds the uses in the items of a PARAMETER.
fn push_constants(uses: &mut Vec<Use>, values: &[(Name, Expr)]) -> Result<(), NoMemory>
    ensures { OnOk result (uses.new.items ≡ uses.old.items ++ flat_map (λ v. used_as Role.Named v.0 ∷ Spec.expr_uses v.1) (map value_tree values.now)) }
{
    for value in values {
        push(uses, Role::Named, &value.0)?;
        push_expr(uses, &value.1)?;
    }
    Ok(())
}
