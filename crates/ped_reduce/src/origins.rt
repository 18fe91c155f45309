//! Which statement each statement of a lowered program comes from.

ghost use Rattle.std.specs.Prelude.{◌≡◌, ◌≤◌, ◌<◌, ◌+◌, ◌*◌, ◌^◌, ◌++◌, map, length, take, drop, replicate, filter, IfOk, OnOk};
ghost use Rattle.ped_tree.specs.Numbering.{numbered, all_numbered, statement_count, statements_count};
ghost use Rattle.ped_tree.specs.Views.{stmt_tree, stmt_trees};
ghost use Rattle.ped_reduce.specs.Lowering as Spec;
ghost use Rattle.ped_reduce.specs.CodeLowering.{partials_view};

use crate::partials::Partials;
use crate::sums::sum_to;
use ped_base::NoMemory;
use ped_tree::{Stmt, count_statement, count_statements};
use std::alloc::Global;

/// What the statements come from when the DO with number `number` is lowered, which has number `by_now` by now: what is added
/// comes from the DO.
pub(crate) fn origins_behind(
    alloc: Global,
    number: u32,
    by_now: u32,
    partials: &[Partials],
    body: &[Stmt],
    before: &[u32],
) -> Result<Vec<u32>, NoMemory>
    requires few { number + statements_count (stmt_trees body.now) + 1 < 2 ^ 32 }
    requires small { by_now + statements_count (stmt_trees body.now) < 2 ^ 32 }
    requires eight { length partials.now ≤ 8 }
    ensures { IfOk result (λ all. all.items ≡ Spec.origins_behind number by_now (map partials_view partials.now) (stmt_trees body.now) before.now) }
{
    let mut all = Vec::new(alloc);
    all.extend_from_slice(front(before, by_now))?;
    add_times(&mut all, number, 3 * partials.len() as u32)?;
    add_summed(&mut all, partials, body, number + 1)?;
    add_times(&mut all, number, 2 * partials.len() as u32 + 1)?;
    all.extend_from_slice(behind(before, by_now + count_statements(body)))?;
    Ok(all)
}

/// The first `count` numbers, or all where there are fewer.
fn front(numbers: &[u32], count: u32) -> &[u32]
    ensures { result.now ≡ take count numbers.now }
{
    numbers.split_at(numbers.len().min(count as usize)).0
}

/// The numbers after the first `count`.
fn behind(numbers: &[u32], count: u32) -> &[u32]
    ensures { result.now ≡ drop count numbers.now }
{
    numbers.split_at(numbers.len().min(count as usize)).1
}

/// Adds a number this many times.
fn add_times(all: &mut Vec<u32>, number: u32, times: u32) -> Result<(), NoMemory>
    ensures { OnOk result (all.new.items ≡ all.old.items ++ replicate times number) }
{
    for _time in 0..times {
        all.push(number)?;
    }
    Ok(())
}

/// Adds what the statements come from that these become where all sums are kept apart; these have the numbers from `first` on.
#[cycle(summed)]
fn add_summed(
    all: &mut Vec<u32>,
    partials: &[Partials],
    statements: &[Stmt],
    first: u32,
) -> Result<(), NoMemory>
    requires { first + statements_count (stmt_trees statements.now) < 2 ^ 32 }
    ensures { OnOk result (all.new.items ≡ all.old.items ++ Spec.summed_origins (map partials_view partials.now) (all_numbered (stmt_trees statements.now)) first) }
{
    let mut next = first;
    for statement in statements {
        add_one_summed(all, partials, statement, next)?;
        next += count_statement(statement);
    }
    Ok(())
}

/// Adds what the statements come from that this becomes where all sums are kept apart; it has this number.
#[cycle(summed)]
fn add_one_summed(
    all: &mut Vec<u32>,
    partials: &[Partials],
    statement: &Stmt,
    number: u32,
) -> Result<(), NoMemory>
    requires { number + statement_count (stmt_tree statement.now) < 2 ^ 32 }
    ensures { OnOk result (all.new.items ≡ all.old.items ++ Spec.summed_origins (map partials_view partials.now) (numbered (stmt_tree statement.now)) number) }
{
    match statement {
        Stmt::Comment(_) => {
            return Ok(());
        }
        Stmt::If {
            condition: _,
            then_part,
            else_part,
        } => {
            all.push(number)?;
            add_summed(all, partials, then_part, number + 1)?;
            let behind = number + 1 + count_statements(then_part);
            return add_summed(all, partials, else_part, behind);
        }
        Stmt::Do(d) => {
            all.push(number)?;
            return add_summed(all, partials, &d.body, number + 1);
        }
        Stmt::Assign { left: _, right: _ } | Stmt::Print(_) | Stmt::Read(_) | Stmt::Stop => {
            if is_sum(partials, statement) {
                return add_times(all, number, 3);
            }
            return add_times(all, number, 1);
        }
    }
}

/// Whether the statement is a sum of one of the scalars.
fn is_sum(partials: &[Partials], statement: &Stmt) -> bool
    ensures { result ≡ Spec.is_sum (map partials_view partials.now) (stmt_tree statement.now) }
{
    for p in partials {
        if sum_to(&p.scalar, statement).is_some() {
            return true;
        }
    }
    false
}

/// How many statements come when a DO with this body is lowered.
pub(crate) fn gained(partials: &[Partials], body: &[Stmt]) -> u32
    requires { 5 * length partials.now + 1 + 2 * statements_count (stmt_trees body.now) < 2 ^ 32 }
    ensures value { result ≡ Spec.gained (map partials_view partials.now) (stmt_trees body.now) }
    ensures small { result ≤ 5 * length partials.now + 1 + 2 * statements_count (stmt_trees body.now) }
{
    5 * partials.len() as u32 + 1 + 2 * count_sums(partials, body)
}

/// How many of these statements and of those in them are sums of one of the scalars.
#[cycle(sums)]
fn count_sums(partials: &[Partials], statements: &[Stmt]) -> u32
    requires { statements_count (stmt_trees statements.now) < 2 ^ 32 }
    ensures value { result ≡ length (filter (Spec.is_sum (map partials_view partials.now)) (all_numbered (stmt_trees statements.now))) }
    ensures small { result ≤ statements_count (stmt_trees statements.now) }
{
    let mut total = 0;
    for statement in statements {
        total += count_sums_in(partials, statement);
    }
    total
}

/// How many sums of one of the scalars this statement is, with those in it.
#[cycle(sums)]
fn count_sums_in(partials: &[Partials], statement: &Stmt) -> u32
    requires { statement_count (stmt_tree statement.now) < 2 ^ 32 }
    ensures value { result ≡ length (filter (Spec.is_sum (map partials_view partials.now)) (numbered (stmt_tree statement.now))) }
    ensures small { result ≤ statement_count (stmt_tree statement.now) }
{
    match statement {
        Stmt::If {
            condition: _,
            then_part,
            else_part,
        } => count_sums(partials, then_part) + count_sums(partials, else_part),
        Stmt::Do(d) => count_sums(partials, &d.body),
        Stmt::Comment(_) => 0,
        Stmt::Assign { left: _, right: _ } | Stmt::Print(_) | Stmt::Read(_) | Stmt::Stop => {
            if is_sum(partials, statement) { 1 } else { 0 }
        }
    }
}
