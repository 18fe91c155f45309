//! The variable of a DO loop: nothing in the range of the loop may assign it (ANSI X3.9-1978, section
//! 11.10.5), and no PRIVATE statement may name it.

ghost use Rattle.std.specs.Prelude.{◌≡◌, ◌∷◌, [], MatchOption, map};
ghost use Rattle.std.specs.List.{flat_map};
ghost use Rattle.ped_tree.specs.Grammar.Contexts.{open_loops, open_variables};
ghost use Rattle.ped_tree.specs.Grammar.Occurrences.{of_reading, do_variables};
ghost use Rattle.ped_tree.specs.Grammar.ProgramRefusals as Spec;
ghost use Rattle.ped_tree.specs.Grammar.ProgramRefusals.{meets};
ghost use Rattle.ped_tree.specs.Grammar.Refusal.{IndexAssigned, earliest, refused_if};
ghost use Rattle.ped_tree.specs.Views.{expr_tree, stmt_tree};
ghost use Rattle.ped_tree.specs.Grammar.ItemViews.{reading_of};
ghost use Rattle.ped_tree.specs.Grammar.RefusalViews.{found_of};
ghost use Rattle.ped_refusals.specs.OpenBlocks.{block_of, blocks_of};
ghost use Rattle.ped_refusals.specs.OpenContexts.{context_of};

use crate::blocks::{Block, split_innermost};
use crate::contexts::Context;
use ped_base::{Name, is_among};
use ped_tree::grammar::{Item, Refusal, RefusalKind, StatementReading, standing};
use ped_tree::{Expr, Stmt};

/// Whether the variable of a loop around the statement is assigned, read into, a DO variable again or named
/// in PRIVATE. `variables` are those of the open loops.
pub fn assigns_index(context: &Context, variables: &[Name], reading: &StatementReading) -> bool
    requires { variables.now ≡ open_variables (blocks_of context.now.blocks.items) }
    ensures { result ≡ Spec.assigns_index (context_of context.now) (reading_of reading.now) }
{
    match reading {
        StatementReading::Says(Item::Private(names)) => any_is_among(names.as_slice(), variables),
        StatementReading::Says(Item::Simple(stmt) | Item::LogicalIf(_, Some(stmt))) => {
            assigns_any(stmt, variables)
        }
        StatementReading::Says(Item::Do(d)) => is_among(&d.variable, variables),
        _ => false,
    }
}

/// Whether a simple statement assigns or reads into one of these variables.
fn assigns_any(stmt: &Stmt, variables: &[Name]) -> bool
    ensures { result ≡ meets (Spec.assigned_by (stmt_tree stmt.now)) variables.now }
{
    match stmt {
        Stmt::Assign { left, right: _ } => is_one_of(left, variables),
        Stmt::Read(items) => reads_any(items, variables),
        _ => false,
    }
}

fn reads_any(items: &[Expr], variables: &[Name]) -> bool
    ensures { result ≡ meets (flat_map Spec.scalar_of (map expr_tree items.now)) variables.now }
{
    for item in items {
        if is_one_of(item, variables) {
            return true;
        }
    }
    false
}

/// Whether a left side or an item of a READ is one of these variables.
fn is_one_of(target: &Expr, variables: &[Name]) -> bool
    ensures { result ≡ meets (Spec.scalar_of (expr_tree target.now)) variables.now }
{
    match target {
        Expr::Var(name) => is_among(name, variables),
        _ => false,
    }
}

/// Whether one of these names is one of the variables.
fn any_is_among(names: &[Name], variables: &[Name]) -> bool
    ensures { result ≡ meets names.now variables.now }
{
    for name in names {
        if is_among(name, variables) {
            return true;
        }
    }
    false
}

/// The first of what was found and what a DO is refused for whose variable is private to loops around it:
/// each at the line of its PRIVATE statement.
pub fn at_private(
    found: Option<Refusal>,
    context: &Context,
    reading: &StatementReading,
) -> Option<Refusal>
    ensures { found_of result ≡ earliest (found_of found) (Spec.at_private (context_of context.now) (reading_of reading.now)) }
{
    match do_variable(reading) {
        Some(variable) => at_loops(found, variable, &context.blocks),
        None => found,
    }
}

/// The variable of a DO statement.
fn do_variable(reading: &StatementReading) -> Option<&Name>
    ensures { MatchOption result (of_reading do_variables (reading_of reading.now) ≡ []) (λ x. of_reading do_variables (reading_of reading.now) ≡ x.now ∷ []) }
{
    match reading {
        StatementReading::Says(Item::Do(d)) => Some(&d.variable),
        _ => None,
    }
}

fn at_loops(found: Option<Refusal>, variable: &Name, blocks: &[Block]) -> Option<Refusal>
    ensures { found_of result ≡ earliest (found_of found)
        (flat_map (λ d. refused_if (meets (variable.now ∷ []) d.private) IndexAssigned d.private_line) (open_loops (blocks_of blocks.now))) }
{
    let mut found = found;
    let mut left = blocks;
    while let Some((block, outer)) = split_innermost(left) {
        found = at_block(found, variable, block);
        left = outer;
    }
    found
}

fn at_block(found: Option<Refusal>, variable: &Name, block: &Block) -> Option<Refusal>
    ensures { found_of result ≡ earliest (found_of found)
        (flat_map (λ d. refused_if (meets (variable.now ∷ []) d.private) IndexAssigned d.private_line) (open_loops (block_of block.now ∷ []))) }
{
    match block {
        Block::Loop(d) => standing(
            found,
            is_among(variable, d.private.as_slice()),
            RefusalKind::IndexAssigned,
            d.private_line,
        ),
        Block::Then(_) | Block::Else(_) => found,
    }
}
