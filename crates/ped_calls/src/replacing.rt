//! Expressions and loop headers with each name replaced by its meaning. No constants are folded.

ghost use Rattle.std.specs.Prelude.{◌≡◌, [], Ok, IfOk, OnOk, is_some, map};
ghost use Rattle.ped_tree.specs.Tree as Tree;
ghost use Rattle.ped_tree.specs.Views.{expr_tree, pack_exprs, cond_tree, item_tree, stmt_tree, stmt_trees, do_tree, head_of};
ghost use Rattle.ped_links.specs.ped_symbols.specs.Entries.{entry_of, with_entry};
ghost use Rattle.ped_links.specs.ped_units.specs.Expanding as Spec;
ghost use Rattle.ped_calls.specs.Meaning.{meanings_of, with_control, with_operands as with_operands_tree};

use indexmap::IndexMap;
use ped_base::{Listed, Name, Names, NoMemory, both};
use ped_tree::{Cond, Do, Expr, PrintItem, Relation, Stmt};
use std::alloc::Global;

/// Names with what stands for them. Of a name that is kept twice the first counts.
#[derive(Drop)]
pub struct Meanings {
    exprs: IndexMap<Name, Expr>,
}

impl Meanings {
    /// Each name stands for itself.
    pub fn nothing(alloc: Global) -> Meanings
        ensures { meanings_of result ≡ [] }
    {
        Meanings {
            exprs: IndexMap::new(alloc),
        }
    }

    /// Whether something stands for the name.
    pub fn has(&self, name: &Name) -> bool
        ensures { result ≡ is_some (entry_of (meanings_of self.now) name.now) }
    {
        self.exprs.contains_key(name)
    }

    /// Keeps what stands for a name, where nothing does yet.
    pub fn keep(&mut self, name: &Name, e: Expr) -> Result<(), NoMemory>
        ensures { OnOk result (meanings_of self.new ≡ with_entry (meanings_of self.old) name.now (expr_tree e)) }
    {
        if self.exprs.contains_key(name) {
            drop(e);
            return Ok(());
        }
        drop(self.exprs.insert(*name, e)?);
        Ok(())
    }

    /// What stands for the name: itself where nothing else does.
    fn of(&self, alloc: Global, name: &Name) -> Result<Expr, NoMemory>
        ensures { IfOk result (λ e. expr_tree e ≡ Spec.meaning (meanings_of self.now) name.now) }
    {
        match self.exprs.get(name) {
            Some(e) => e.copy(alloc),
            None => Ok(Expr::Var(*name)),
        }
    }

    /// The name that stands for the name: itself where no other does.
    fn name_of(&self, name: &Name) -> Name
        ensures { result ≡ Spec.name_meant (meanings_of self.now) name.now }
    {
        match self.exprs.get(name) {
            Some(e) => name_or(name, e),
            None => *name,
        }
    }
}

/// The name that an expression is, else another.
fn name_or(name: &Name, e: &Expr) -> Name
    ensures { result ≡ Spec.name_or name.now (expr_tree e.now) }
{
    match e {
        Expr::Var(other) => *other,
        _ => *name,
    }
}

/// An expression with what stands for each name.
#[cycle(replaced)]
pub fn replaced(alloc: Global, m: &Meanings, e: &Expr) -> Result<Expr, NoMemory>
    ensures { IfOk result (λ new. expr_tree new ≡ Spec.replaced (meanings_of m.now) (expr_tree e.now)) }
{
    match e {
        Expr::Int(value) => Ok(Expr::Int(*value)),
        Expr::Var(name) => m.of(alloc, name),
        Expr::Element(name, subscripts) => Ok(Expr::Element(
            m.name_of(name),
            all_replaced(alloc, m, subscripts)?,
        )),
        Expr::Neg(a) => Expr::negation(alloc, replaced(alloc, m, a)?),
        Expr::Add(a, b) | Expr::Sub(a, b) | Expr::Mul(a, b) | Expr::Div(a, b) | Expr::Pow(a, b) => {
            let (a, b) = with_second(alloc, m, replaced(alloc, m, a), b)?;
            with_operands(alloc, e, a, b)
        }
        Expr::Call(intrinsic, arguments) => {
            Ok(Expr::Call(*intrinsic, all_replaced(alloc, m, arguments)?))
        }
    }
}

/// An expression, and a second one with what stands for each name.
#[cycle(replaced)]
fn with_second(
    alloc: Global,
    m: &Meanings,
    first: Result<Expr, NoMemory>,
    second: &Expr,
) -> Result<(Expr, Expr), NoMemory>
    ensures first { IfOk result (λ pair. first ≡ Ok pair.0) }
    ensures second { IfOk result (λ pair. expr_tree pair.1 ≡ Spec.replaced (meanings_of m.now) (expr_tree second.now)) }
{
    let first = first?;
    both(first, replaced(alloc, m, second))
}

/// The operation that an expression is, on these operands; of what has not two operands, the first of these.
fn with_operands(alloc: Global, e: &Expr, left: Expr, right: Expr) -> Result<Expr, NoMemory>
    ensures { IfOk result (λ new. expr_tree new ≡ with_operands_tree (expr_tree e.now) (expr_tree left) (expr_tree right)) }
{
    match e {
        Expr::Add(_, _) => Expr::sum(alloc, left, right),
        Expr::Sub(_, _) => Expr::difference(alloc, left, right),
        Expr::Mul(_, _) => Expr::product(alloc, left, right),
        Expr::Div(_, _) => Expr::quotient(alloc, left, right),
        Expr::Pow(_, _) => Expr::power(alloc, left, right),
        Expr::Int(_) | Expr::Var(_) | Expr::Element(_, _) | Expr::Neg(_) | Expr::Call(_, _) => {
            drop(right);
            Ok(left)
        }
    }
}

/// Expressions with what stands for each name.
#[cycle(replaced)]
pub fn all_replaced(alloc: Global, m: &Meanings, exprs: &[Expr]) -> Result<Vec<Expr>, NoMemory>
    ensures items { IfOk result (λ new. map expr_tree new.items ≡ map (Spec.replaced (meanings_of m.now)) (map expr_tree exprs.now)) }
    ensures packed { IfOk result (λ new. pack_exprs (map expr_tree new.items) ≡ Spec.all_replaced (meanings_of m.now) (pack_exprs (map expr_tree exprs.now))) }
{
    let mut all = Vec::new(alloc);
    for e in exprs {
        all.push(replaced(alloc, m, e)?)?;
    }
    Ok(all)
}

/// A condition with what stands for each name.
#[cycle(cond_replaced)]
pub fn cond_replaced(alloc: Global, m: &Meanings, c: &Cond) -> Result<Cond, NoMemory>
    ensures { IfOk result (λ new. cond_tree new ≡ Spec.cond_replaced (meanings_of m.now) (cond_tree c.now)) }
{
    match c {
        Cond::Rel(relation, a, b) => relation_replaced(alloc, m, *relation, a, b),
        Cond::Not(a) => Cond::negation(alloc, cond_replaced(alloc, m, a)?),
        Cond::And(a, b) => {
            let (a, b) = both(cond_replaced(alloc, m, a)?, cond_replaced(alloc, m, b))?;
            Cond::conjunction(alloc, a, b)
        }
        Cond::Or(a, b) => {
            let (a, b) = both(cond_replaced(alloc, m, a)?, cond_replaced(alloc, m, b))?;
            Cond::disjunction(alloc, a, b)
        }
    }
}

fn relation_replaced(
    alloc: Global,
    m: &Meanings,
    relation: Relation,
    a: &Expr,
    b: &Expr,
) -> Result<Cond, NoMemory>
    ensures { IfOk result (λ new. cond_tree new ≡ Tree.Rel relation (Spec.replaced (meanings_of m.now) (expr_tree a.now)) (Spec.replaced (meanings_of m.now) (expr_tree b.now))) }
{
    let (a, b) = both(replaced(alloc, m, a)?, replaced(alloc, m, b))?;
    Ok(Cond::relation(relation, a, b))
}

/// The items of a PRINT with what stands for each name.
pub fn items_replaced(
    alloc: Global,
    m: &Meanings,
    items: &[PrintItem],
) -> Result<Vec<PrintItem>, NoMemory>
    ensures { IfOk result (λ new. map item_tree new.items ≡ map (Spec.item_replaced (meanings_of m.now)) (map item_tree items.now)) }
{
    let mut all = Vec::new(alloc);
    for item in items {
        all.push(item_replaced(alloc, m, item)?)?;
    }
    Ok(all)
}

fn item_replaced(alloc: Global, m: &Meanings, item: &PrintItem) -> Result<PrintItem, NoMemory>
    ensures { IfOk result (λ new. item_tree new ≡ Spec.item_replaced (meanings_of m.now) (item_tree item.now)) }
{
    match item {
        PrintItem::Value(e) => Ok(PrintItem::Value(replaced(alloc, m, e)?)),
        PrintItem::Text(_) => item.copy(alloc),
    }
}

/// An assignment with what stands for each name.
pub fn assignment_replaced(
    alloc: Global,
    m: &Meanings,
    left: &Expr,
    right: &Expr,
) -> Result<Stmt, NoMemory>
    ensures { IfOk result (λ new. stmt_tree new ≡ Tree.Assign (Spec.replaced (meanings_of m.now) (expr_tree left.now)) (Spec.replaced (meanings_of m.now) (expr_tree right.now))) }
{
    let (left, right) = both(replaced(alloc, m, left)?, replaced(alloc, m, right))?;
    Ok(Stmt::assignment(left, right))
}

/// A loop with what stands for each name in its head, and with this body.
pub fn loop_replaced(alloc: Global, m: &Meanings, d: &Do, body: Vec<Stmt>) -> Result<Do, NoMemory>
    ensures { IfOk result (λ new. do_tree new ≡ Tree.Do (Spec.head_replaced (meanings_of m.now) (head_of d.now)) (stmt_trees body.items)) }
{
    match control_replaced(alloc, m, d) {
        Ok(control) => with_lists(alloc, m, d, control, body),
        Err(error) => {
            drop(body);
            Err(error)
        }
    }
}

/// The parameters of a loop (ANSI X3.9-1978, section 11.10.1).
#[derive(Drop)]
struct Control {
    first: Expr,
    last: Expr,
    step: Expr,
}

fn control_replaced(alloc: Global, m: &Meanings, d: &Do) -> Result<Control, NoMemory>
    ensures first { IfOk result (λ new. expr_tree new.first ≡ Spec.replaced (meanings_of m.now) (expr_tree d.now.first)) }
    ensures last { IfOk result (λ new. expr_tree new.last ≡ Spec.replaced (meanings_of m.now) (expr_tree d.now.last)) }
    ensures step { IfOk result (λ new. expr_tree new.step ≡ Spec.replaced (meanings_of m.now) (expr_tree d.now.step)) }
{
    let (first, last) = both(replaced(alloc, m, &d.first)?, replaced(alloc, m, &d.last))?;
    match replaced(alloc, m, &d.step) {
        Ok(step) => Ok(Control { first, last, step }),
        Err(error) => {
            drop(first);
            drop(last);
            Err(error)
        }
    }
}

fn with_lists(
    alloc: Global,
    m: &Meanings,
    d: &Do,
    control: Control,
    body: Vec<Stmt>,
) -> Result<Do, NoMemory>
    ensures { IfOk result (λ new. do_tree new ≡ Tree.Do (with_control (expr_tree control.first) (expr_tree control.last) (expr_tree control.step) (Spec.head_replaced (meanings_of m.now) (head_of d.now))) (stmt_trees body.items)) }
{
    match lists_replaced(alloc, m, d) {
        Ok((private, rejected)) => Ok(Do {
            variable: m.name_of(&d.variable),
            first: control.first,
            last: control.last,
            step: control.step,
            parallel: d.parallel,
            private,
            rejected,
            body,
        }),
        Err(error) => {
            drop(control);
            drop(body);
            Err(error)
        }
    }
}

fn lists_replaced(alloc: Global, m: &Meanings, d: &Do) -> Result<(Names, Names), NoMemory>
    ensures private { IfOk result (λ lists. lists.0 ≡ map (Spec.name_meant (meanings_of m.now)) d.now.private) }
    ensures rejected { IfOk result (λ lists. lists.1 ≡ d.now.rejected) }
{
    let private = names_replaced(alloc, m, d.private.as_slice())?;
    let rejected = Listed::from_vec(d.rejected.as_slice().to_vec(alloc)?);
    Ok((private, rejected))
}

/// The names that stand for names.
fn names_replaced(alloc: Global, m: &Meanings, names: &[Name]) -> Result<Names, NoMemory>
    ensures { IfOk result (λ new. new ≡ map (Spec.name_meant (meanings_of m.now)) names.now) }
{
    let mut all = Names::new(alloc);
    for name in names {
        all.push(m.name_of(name))?;
    }
    Ok(all)
}
