//! Values of expressions and truth of conditions in a store. One walk gives the value and notes what it reads, up to a
//! fault.

ghost use Rattle.std.specs.Prelude.{◌≡◌, ◌<◌, ◌≤◌, ◌-◌, pos, ℕ, List, length, map, true, false, take, drop, replicate, IfOk, IfErr, OnOk, Ok, Err};
ghost use Rattle.ped_tree.specs.Tree as Tree;
ghost use Rattle.ped_tree.specs.Views.{expr_tree, cond_tree, pack_exprs};
ghost use Rattle.ped_base.specs.Arithmetic.Arithmetic.{greatest_of, least_of};
ghost use Rattle.ped_store.specs.CellViews.{cell_view, IsCell};
ghost use Rattle.ped_store.specs.Keeping.{memory_of};
ghost use Rattle.ped_eval.specs.Results.{value_at, values_at, target_at, truth_at, next_result, fault_or};
ghost use Rattle.ped_eval.specs.Noting.{HasNoted, HasReferred, HasTouched, has_been_read, read_within, seen_next, seen_at, all_seen_at, target_seen_at, truth_seen_at};
ghost use Rattle.ped_store.specs.Races.{is_lines};
ghost use Rattle.ped_eval.specs.Values as Values;
ghost use Rattle.ped_eval.specs.Evaluation as Evaluation;
ghost use Rattle.ped_store.specs.Memories.{got};
ghost use Rattle.ped_eval.specs.Scopes as Scopes;
ghost use Rattle.ped_eval.specs.Targets.{bounded, IsNamedBy};

use crate::named::constant_named;
use crate::narrow::{next_side, whole_value};
use crate::notes::Notes;
use crate::operations::{
    Valued, absolute, added, both, denied, divided, either, multiplied, negative, raised, related,
    remaining, subtracted,
};
use crate::surroundings::Surroundings;
use ped_base::Name;
use ped_store::{Cell, FaultKind, RunFault};
use ped_tree::{Cond, Expr, Intrinsic};

/// The value of an expression at a place of a run; notes are made of what it reads, up to its fault.
///
/// # Errors
///
/// The first fault from left to right: an undefined scalar or element is read, a subscript lies outside its bounds, a
/// division by zero, or a value leaves 128 bits (ANSI X3.9-1978, section 6.6).
#[cycle(value_of)]
pub fn value_of(e: &Expr, around: &Surroundings, notes: &mut Notes) -> Valued
    ensures value { result ≡ value_at around.now (expr_tree e.now) }
    ensures noted { HasNoted notes.old (seen_at around.now (expr_tree e.now)) notes.new }
{
    match e {
        Expr::Int(value) => return Ok(i128::from(*value)),
        Expr::Var(name) => return scalar_value(name, around, notes),
        Expr::Element(name, subscripts) => return element_value(name, subscripts, around, notes),
        Expr::Neg(a) => return negative(operand_value(a, around, notes)),
        Expr::Add(a, b) => {
            let left = operand_value(a, around, notes);
            let right = next_value(&left, b, around, notes);
            return added(left, right);
        }
        Expr::Sub(a, b) => {
            let left = operand_value(a, around, notes);
            let right = next_value(&left, b, around, notes);
            return subtracted(left, right);
        }
        Expr::Mul(a, b) => {
            let left = operand_value(a, around, notes);
            let right = next_value(&left, b, around, notes);
            return multiplied(left, right);
        }
        Expr::Div(a, b) => {
            let left = operand_value(a, around, notes);
            let right = next_value(&left, b, around, notes);
            return divided(left, right);
        }
        Expr::Pow(a, b) => {
            let left = operand_value(a, around, notes);
            let right = next_value(&left, b, around, notes);
            return raised(left, right);
        }
        Expr::Call(intrinsic, arguments) => return call_value(*intrinsic, arguments, around, notes),
    }
}

/// The value of an operand, where the one before it has come to a value; else the fault of that.
#[cycle(value_of)]
#[inline(always)]
fn next_value(first: &Valued, e: &Expr, around: &Surroundings, notes: &mut Notes) -> Valued
    ensures value { result ≡ next_result first.now (value_at around.now (expr_tree e.now)) }
    ensures noted { HasNoted notes.old (seen_next first.now (seen_at around.now (expr_tree e.now))) notes.new }
{
    match first {
        Ok(_) => return operand_value(e, around, notes),
        Err(fault) => return Err(*fault),
    }
}

/// The value of an operand. Most operands are numbers and scalars, for which `value_of` with all its cases needn't be
/// entered.
#[cycle(value_of)]
#[inline(always)]
fn operand_value(e: &Expr, around: &Surroundings, notes: &mut Notes) -> Valued
    ensures value { result ≡ value_at around.now (expr_tree e.now) }
    ensures noted { HasNoted notes.old (seen_at around.now (expr_tree e.now)) notes.new }
{
    match e {
        Expr::Int(value) => return Ok(i128::from(*value)),
        Expr::Var(name) => return scalar_value(name, around, notes),
        Expr::Element(_, _)
        | Expr::Neg(_)
        | Expr::Add(_, _)
        | Expr::Sub(_, _)
        | Expr::Mul(_, _)
        | Expr::Div(_, _)
        | Expr::Pow(_, _)
        | Expr::Call(_, _) => return value_of(e, around, notes),
    }
}

/// The value of a scalar or of a named constant. A variable of a DO has in the DO's body the value that the place
/// gives.
#[inline(never)]
fn scalar_value(name: &Name, around: &Surroundings, notes: &mut Notes) -> Valued
    ensures value { result ≡ value_at around.now (Tree.Var name.now) }
    ensures noted { HasNoted notes.old (seen_at around.now (Tree.Var name.now)) notes.new }
{
    match constant_named(name, around.consts) {
        Some(constant) => return Ok(constant),
        None => return variable_value(name, around, notes),
    }
}

/// The value of a scalar variable. The variable of a DO in its body is read by no reference.
fn variable_value(name: &Name, around: &Surroundings, notes: &mut Notes) -> Valued
    ensures value { result ≡ (Values.variable_value (Scopes.index_value around.now.scope.now name.now) (memory_of around.now.store.now).cells (Scopes.cell_of around.now.scope.now name.now)).result }
    ensures noted { HasNoted notes.old (Values.variable_value (Scopes.index_value around.now.scope.now name.now) (memory_of around.now.store.now).cells (Scopes.cell_of around.now.scope.now name.now)).seen notes.new }
{
    match around.scope.index(name) {
        Some(value) => {
            note_index(name, around, notes);
            return Ok(value);
        }
        None => return stored_value(name, around, notes),
    }
}

/// Notes the read of the variable of a DO in its body; its cell is looked up for kept notes alone.
fn note_index(name: &Name, around: &Surroundings, notes: &mut Notes)
    ensures { HasTouched notes.old (Scopes.cell_of around.now.scope.now name.now) false notes.new }
{
    if notes.kept {
        touch_index(name, around, notes);
    }
}

/// Notes the read of the variable of a DO in its body, by no reference.
#[inline(never)]
fn touch_index(name: &Name, around: &Surroundings, notes: &mut Notes)
    ensures { HasTouched notes.old (Scopes.cell_of around.now.scope.now name.now) false notes.new }
{
    notes.touch(&around.scope.cell(name), false);
}

/// The value of a scalar that is read from its cell. The cell is made for kept notes alone, and for private copies.
fn stored_value(name: &Name, around: &Surroundings, notes: &mut Notes) -> Valued
    ensures value { result ≡ (Evaluation.read_cell (memory_of around.now.store.now).cells (Scopes.cell_of around.now.scope.now name.now)).result }
    ensures noted { HasReferred notes.old (Scopes.cell_of around.now.scope.now name.now) false notes.new }
{
    if notes.kept {
        return cell_value(name, around, notes);
    }
    if around.scope.has_copy(name) {
        return cell_value(name, around, notes);
    }
    around.store.get_scalar(name)
}

/// The value of the cell that a scalar stands for.
#[inline(never)]
fn cell_value(name: &Name, around: &Surroundings, notes: &mut Notes) -> Valued
    ensures value { result ≡ (Evaluation.read_cell (memory_of around.now.store.now).cells (Scopes.cell_of around.now.scope.now name.now)).result }
    ensures noted { HasReferred notes.old (Scopes.cell_of around.now.scope.now name.now) false notes.new }
{
    let cell = around.scope.cell(name);
    notes.refer(&cell, false);
    around.store.get(&cell)
}

/// The value of an element: its subscripts are evaluated in order, then their bounds are tested, then it is read. Its cell
/// is made for kept notes alone.
#[cycle(value_of)]
#[inline(never)]
fn element_value(
    name: &Name,
    subscripts: &[Expr],
    around: &Surroundings,
    notes: &mut Notes,
) -> Valued
    ensures value { result ≡ value_at around.now (Tree.Element name.now (pack_exprs (map expr_tree subscripts.now))) }
    ensures noted { HasNoted notes.old (seen_at around.now (Tree.Element name.now (pack_exprs (map expr_tree subscripts.now)))) notes.new }
{
    if notes.kept {
        return noted_element(name, subscripts, around, notes);
    }
    unnoted_element(name, subscripts, around, notes)
}

/// The value of an element, of which notes are made.
#[cycle(value_of)]
#[inline(never)]
fn noted_element(
    name: &Name,
    subscripts: &[Expr],
    around: &Surroundings,
    notes: &mut Notes,
) -> Valued
    ensures value { result ≡ value_at around.now (Tree.Element name.now (pack_exprs (map expr_tree subscripts.now))) }
    ensures noted { HasNoted notes.old (seen_at around.now (Tree.Element name.now (pack_exprs (map expr_tree subscripts.now)))) notes.new }
{
    match element_cell(name, subscripts, around, notes) {
        Ok(cell) => return value_within(&cell, around, notes),
        Err(fault) => return Err(fault),
    }
}

/// The value of an element, of which no notes are kept. One subscript or two need no room for seven.
#[cycle(value_of)]
fn unnoted_element(
    name: &Name,
    indices: &[Expr],
    around: &Surroundings,
    notes: &mut Notes,
) -> Valued
    requires { notes.old.kept ≡ false }
    ensures value { result ≡ value_at around.now (Tree.Element name.now (pack_exprs (map expr_tree indices.now))) }
    ensures noted { HasNoted notes.old (seen_at around.now (Tree.Element name.now (pack_exprs (map expr_tree indices.now)))) notes.new }
{
    let [index] = indices else {
        return element_by_more(name, indices, around, notes);
    };
    match operand_value(index, around, notes) {
        Ok(place) => return around.store.get_element(name, &[place]),
        Err(fault) => return Err(fault),
    }
}

/// The value of an element that hasn't one subscript, of which no notes are kept.
#[cycle(value_of)]
#[inline(never)]
fn element_by_more(
    name: &Name,
    indices: &[Expr],
    around: &Surroundings,
    notes: &mut Notes,
) -> Valued
    requires { notes.old.kept ≡ false }
    ensures value { result ≡ value_at around.now (Tree.Element name.now (pack_exprs (map expr_tree indices.now))) }
    ensures noted { HasNoted notes.old (seen_at around.now (Tree.Element name.now (pack_exprs (map expr_tree indices.now)))) notes.new }
{
    let [first, second] = indices else {
        return element_by_many(name, indices, around, notes);
    };
    let row = operand_value(first, around, notes);
    let column = next_value(&row, second, around, notes);
    match row {
        Ok(row) => match column {
            Ok(column) => return around.store.get_element(name, &[row, column]),
            Err(fault) => return Err(fault),
        },
        Err(fault) => return Err(fault),
    }
}

/// The value of an element with any number of subscripts, of which no notes are kept.
#[cycle(value_of)]
#[inline(never)]
pub(crate) fn element_by_many(
    name: &Name,
    indices: &[Expr],
    around: &Surroundings,
    notes: &mut Notes,
) -> Valued
    requires { notes.old.kept ≡ false }
    ensures value { result ≡ value_at around.now (Tree.Element name.now (pack_exprs (map expr_tree indices.now))) }
    ensures noted { HasNoted notes.old (seen_at around.now (Tree.Element name.now (pack_exprs (map expr_tree indices.now)))) notes.new }
{
    if !is_rank(indices.len()) {
        return Err(fault_in(indices, RunFault::OUTSIDE_BOUNDS, around, notes));
    }
    match places_of(indices, around, notes) {
        Ok(places) => return around
            .store
            .get_element(name, first_places(&places, indices.len())),
        Err(fault) => return Err(fault),
    }
}

/// The value of a cell whose bounds are tested; it is read where it lies within them.
fn value_within(cell: &Cell, around: &Surroundings, notes: &mut Notes) -> Valued
    requires cell { IsCell cell.now }
    requires kind { is_lines (cell_view cell.now) ≡ false }
    ensures value { result ≡ got (memory_of around.now.store.now) (cell_view cell.now) }
    ensures noted { HasNoted notes.old (read_within (memory_of around.now.store.now).cells (bounded (memory_of around.now.store.now) (cell_view cell.now))) notes.new }
{
    let value = around.store.get(cell);
    if is_read(&value) {
        notes.refer(cell, false);
    }
    value
}

/// Whether a cell with this answer has been read: it has a value, or it is undefined.
fn is_read(value: &Valued) -> bool
    ensures { result ≡ has_been_read value.now }
{
    match value {
        Ok(_) => return true,
        Err(fault) => return matches!(fault.kind, FaultKind::UndefinedRead),
    }
}

/// The cell of a left side or of an item of a READ, whose subscripts are evaluated in order; notes are made of what they
/// read. Whether they lie within their bounds is tested where the cell is stored.
///
/// # Errors
///
/// The first fault in the subscripts; outside bounds where there are no subscripts or more than seven, and where the
/// expression is neither a scalar nor an element.
pub fn target_cell(e: &Expr, around: &Surroundings, notes: &mut Notes) -> Result<Cell, RunFault>
    ensures cell { IfOk result (λ c. IsCell c) }
    ensures named { IfOk result (λ c. IsNamedBy around.now.scope.now (expr_tree e.now) (cell_view c)) }
    ensures target { IfOk result (λ c. target_at around.now (expr_tree e.now) ≡ bounded (memory_of around.now.store.now) (cell_view c)) }
    ensures err { IfErr result (λ n. target_at around.now (expr_tree e.now) ≡ Err n) }
    ensures noted { HasNoted notes.old (target_seen_at around.now (expr_tree e.now)) notes.new }
{
    match e {
        Expr::Var(name) => return Ok(around.scope.cell(name)),
        Expr::Element(name, subscripts) => return element_cell(name, subscripts, around, notes),
        Expr::Int(_)
        | Expr::Neg(_)
        | Expr::Add(_, _)
        | Expr::Sub(_, _)
        | Expr::Mul(_, _)
        | Expr::Div(_, _)
        | Expr::Pow(_, _)
        | Expr::Call(_, _) => return Err(RunFault::OUTSIDE_BOUNDS),
    }
}

/// The cell of an element, whose bounds aren't tested.
#[cycle(value_of)]
fn element_cell(
    name: &Name,
    subscripts: &[Expr],
    around: &Surroundings,
    notes: &mut Notes,
) -> Result<Cell, RunFault>
    ensures cell { IfOk result (λ c. IsCell c) }
    ensures named { IfOk result (λ c. IsNamedBy around.now.scope.now (Tree.Element name.now (pack_exprs (map expr_tree subscripts.now))) (cell_view c)) }
    ensures target { IfOk result (λ c. target_at around.now (Tree.Element name.now (pack_exprs (map expr_tree subscripts.now))) ≡ bounded (memory_of around.now.store.now) (cell_view c)) }
    ensures err { IfErr result (λ n. target_at around.now (Tree.Element name.now (pack_exprs (map expr_tree subscripts.now))) ≡ Err n) }
    ensures noted { HasNoted notes.old (all_seen_at around.now subscripts.now) notes.new }
{
    if !is_rank(subscripts.len()) {
        return Err(fault_in(subscripts, RunFault::OUTSIDE_BOUNDS, around, notes));
    }
    match places_of(subscripts, around, notes) {
        Ok(places) => {
            return Ok(Cell::Element {
                name: *name,
                rank: subscripts.len() as u8,
                subscripts: places,
            });
        }
        Err(fault) => return Err(fault),
    }
}

/// The values of the subscripts of an element, in order, and 0 in the places past them.
///
/// # Errors
///
/// The first fault in them; outside bounds where there are none, or more than seven.
pub(crate) fn ranked_places(
    subscripts: &[Expr],
    around: &Surroundings,
    notes: &mut Notes,
) -> Result<[i128; 7], RunFault>
    ensures rank { OnOk result (Values.is_rank (length subscripts.now) ≡ true) }
    ensures places { IfOk result (λ places. values_at around.now subscripts.now ≡ Ok (take (length subscripts.now) places)) }
    ensures err { IfErr result (λ n. (x : List ℕ) → target_at around.now (Tree.Element x (pack_exprs (map expr_tree subscripts.now))) ≡ Err n) }
    ensures noted { HasNoted notes.old (all_seen_at around.now subscripts.now) notes.new }
{
    if !is_rank(subscripts.len()) {
        return Err(fault_in(subscripts, RunFault::OUTSIDE_BOUNDS, around, notes));
    }
    match places_of(subscripts, around, notes) {
        Ok(places) => return Ok(places),
        Err(fault) => return Err(fault),
    }
}

/// The first places.
pub(crate) fn first_places(places: &[i128; 7], count: usize) -> &[i128]
    requires { count ≤ 7 }
    ensures { result.now ≡ take count places.now }
{
    &places[..count]
}

/// Whether an element may have this many subscripts.
fn is_rank(count: usize) -> bool
    ensures { result ≡ Values.is_rank count }
{
    1 <= count && count <= 7
}

/// The values of at most seven subscripts, in order, and 0 in the places past them.
#[cycle(value_of)]
fn places_of(
    subscripts: &[Expr],
    around: &Surroundings,
    notes: &mut Notes,
) -> Result<[i128; 7], RunFault>
    requires { length subscripts.now ≤ 7 }
    ensures places { IfOk result (λ places. values_at around.now subscripts.now ≡ Ok (take (length subscripts.now) places)) }
    ensures rest { IfOk result (λ places. drop (length subscripts.now) places ≡ replicate (7 - length subscripts.now) (pos 0)) }
    ensures err { IfErr result (λ n. values_at around.now subscripts.now ≡ Err n) }
    ensures noted { HasNoted notes.old (all_seen_at around.now subscripts.now) notes.new }
{
    let mut places = [0; 7];
    for i in 0..subscripts.len() {
        places[i] = value_of(&subscripts[i], around, notes)?;
    }
    Ok(places)
}

/// The first fault in expressions that are evaluated in order, or else this one.
#[cycle(value_of)]
fn fault_in(
    expressions: &[Expr],
    fault: RunFault,
    around: &Surroundings,
    notes: &mut Notes,
) -> RunFault
    ensures noted { HasNoted notes.old (all_seen_at around.now expressions.now) notes.new }
    ensures fault { result ≡ fault_or fault (values_at around.now expressions.now) }
{
    for e in expressions {
        if let Err(first) = value_of(e, around, notes) {
            return first;
        }
    }
    fault
}

/// The value of an intrinsic function of its arguments; another number of them than it takes is out of range.
#[cycle(value_of)]
#[inline(never)]
fn call_value(
    intrinsic: Intrinsic,
    arguments: &[Expr],
    around: &Surroundings,
    notes: &mut Notes,
) -> Valued
    ensures value { result ≡ value_at around.now (Tree.Call intrinsic (pack_exprs (map expr_tree arguments.now))) }
    ensures noted { HasNoted notes.old (all_seen_at around.now arguments.now) notes.new }
{
    match intrinsic {
        Intrinsic::Mod => return remainder_of_two(arguments, around, notes),
        Intrinsic::Abs => return absolute_value_of_one(arguments, around, notes),
        Intrinsic::Max => return greatest_of_all(arguments, around, notes),
        Intrinsic::Min => return least_of_all(arguments, around, notes),
    }
}

/// MOD of two arguments.
#[cycle(value_of)]
#[tactic(auto, using(crate::proofs::Intrinsics::mod_of_others))]
fn remainder_of_two(arguments: &[Expr], around: &Surroundings, notes: &mut Notes) -> Valued
    ensures value { result ≡ value_at around.now (Tree.Call Intrinsic.Mod (pack_exprs (map expr_tree arguments.now))) }
    ensures noted { HasNoted notes.old (all_seen_at around.now arguments.now) notes.new }
{
    let [dividend, divisor] = arguments else {
        return Err(fault_in(arguments, RunFault::OUT_OF_RANGE, around, notes));
    };
    let first = value_of(dividend, around, notes);
    let second = next_value(&first, divisor, around, notes);
    remaining(first, second)
}

/// ABS of one argument.
#[cycle(value_of)]
#[tactic(auto, using(crate::proofs::Intrinsics::abs_of_others))]
fn absolute_value_of_one(arguments: &[Expr], around: &Surroundings, notes: &mut Notes) -> Valued
    ensures value { result ≡ value_at around.now (Tree.Call Intrinsic.Abs (pack_exprs (map expr_tree arguments.now))) }
    ensures noted { HasNoted notes.old (all_seen_at around.now arguments.now) notes.new }
{
    let [argument] = arguments else {
        return Err(fault_in(arguments, RunFault::OUT_OF_RANGE, around, notes));
    };
    absolute(value_of(argument, around, notes))
}

/// MAX of two or more arguments.
#[cycle(value_of)]
#[tactic(auto, using(crate::proofs::Intrinsics::max_of_few))]
fn greatest_of_all(arguments: &[Expr], around: &Surroundings, notes: &mut Notes) -> Valued
    ensures value { result ≡ value_at around.now (Tree.Call Intrinsic.Max (pack_exprs (map expr_tree arguments.now))) }
    ensures noted { HasNoted notes.old (all_seen_at around.now arguments.now) notes.new }
{
    if arguments.len() < 2 {
        return Err(fault_in(arguments, RunFault::OUT_OF_RANGE, around, notes));
    }
    let mut value = value_of(&arguments[0], around, notes)?;
    for argument in &arguments[1..] {
        value = greater(value, value_of(argument, around, notes)?);
    }
    Ok(value)
}

/// MIN of two or more arguments.
#[cycle(value_of)]
#[tactic(auto, using(crate::proofs::Intrinsics::min_of_few))]
fn least_of_all(arguments: &[Expr], around: &Surroundings, notes: &mut Notes) -> Valued
    ensures value { result ≡ value_at around.now (Tree.Call Intrinsic.Min (pack_exprs (map expr_tree arguments.now))) }
    ensures noted { HasNoted notes.old (all_seen_at around.now arguments.now) notes.new }
{
    if arguments.len() < 2 {
        return Err(fault_in(arguments, RunFault::OUT_OF_RANGE, around, notes));
    }
    let mut value = value_of(&arguments[0], around, notes)?;
    for argument in &arguments[1..] {
        value = less(value, value_of(argument, around, notes)?);
    }
    Ok(value)
}

/// The greater of two numbers.
fn greater(a: i128, b: i128) -> i128
    ensures { greatest_of a b ≡ Ok result }
{
    a.max(b)
}

/// The less of two numbers.
fn less(a: i128, b: i128) -> i128
    ensures { least_of a b ≡ Ok result }
{
    a.min(b)
}

/// Whether a condition is true at a place of a run; both sides of `.AND.` and `.OR.` are evaluated. Notes are made of what
/// it reads, up to its fault.
///
/// # Errors
///
/// Those of the first of its expressions that faults.
#[cycle(truth_of)]
pub fn truth_of(
    condition: &Cond,
    around: &Surroundings,
    notes: &mut Notes,
) -> Result<bool, RunFault>
    ensures truth { result ≡ truth_at around.now (cond_tree condition.now) }
    ensures noted { HasNoted notes.old (truth_seen_at around.now (cond_tree condition.now)) notes.new }
{
    match condition {
        Cond::Rel(relation, a, b) => {
            let left = whole_value(a, around, notes);
            let right = next_side(&left, b, around, notes);
            return related(relation, left, right);
        }
        Cond::Not(a) => return denied(truth_of(a, around, notes)),
        Cond::And(a, b) => {
            let left = truth_of(a, around, notes);
            let right = next_truth(&left, b, around, notes);
            return both(left, right);
        }
        Cond::Or(a, b) => {
            let left = truth_of(a, around, notes);
            let right = next_truth(&left, b, around, notes);
            return either(left, right);
        }
    }
}

/// Whether a condition is true, where the one before it has no fault; else that fault.
#[cycle(truth_of)]
fn next_truth(
    first: &Result<bool, RunFault>,
    condition: &Cond,
    around: &Surroundings,
    notes: &mut Notes,
) -> Result<bool, RunFault>
    ensures truth { result ≡ next_result first.now (truth_at around.now (cond_tree condition.now)) }
    ensures noted { HasNoted notes.old (seen_next first.now (truth_seen_at around.now (cond_tree condition.now))) notes.new }
{
    match first {
        Ok(_) => return truth_of(condition, around, notes),
        Err(fault) => return Err(*fault),
    }
}
