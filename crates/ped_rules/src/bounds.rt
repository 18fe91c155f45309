//! Plain bounds: those that can be evaluated anywhere in the outermost DO, since they depend only on the DO variables
//! around them (this project).

ghost use Rattle.std.specs.Prelude.{◌≡◌, ◌↔◌, ◌⊎◌, ◌≤◌, ◌&&◌, ◌||◌, not, [], length, map, IfOk, IsTrue};
ghost use Rattle.ped_base.specs.Lists as Lists;
ghost use Rattle.ped_tree.specs.Names.Collecting.{with_names};
ghost use Rattle.ped_tree.specs.Numbering.{statement_with};
ghost use Rattle.ped_tree.specs.Views.{expr_tree, pack_exprs, stmt_trees, program_tree, head_of};
ghost use Rattle.ped_tree.specs.Nests.{indices_of};
ghost use Rattle.ped_refs.specs.Loops.{nest_of};
ghost use Rattle.ped_loop_runs.specs.ped_flow.specs.PlainBounds as Plain;
ghost use Rattle.ped_loop_runs.specs.ped_flow.specs.PlainBounds.{nest_round, setting_round, IsConstant, IsFixed, IsExtreme, IsPlainlyBuilt, ArePlainlyBuilt, IsPlain};
ghost use Rattle.ped_loop_runs.specs.ped_flow.specs.Questions.{IsLoop, LoopOf};
ghost use Rattle.ped_loop_runs.specs.ped_steps.specs.Scenes.{IsSceneOf};
ghost use Rattle.ped_loop_runs.specs.ped_symbols.specs.Kinds.{table_of};
ghost use Rattle.ped_rules.specs.CodePlain.{tree_at, values_at, IsPlaced, HasInterval};
ghost use Rattle.ped_rules.specs.Rules.{TellsPlain};

use ped_affine::{Setting, assigned, interval, loop_variables};
use ped_base::{Name, NoMemory};
use ped_loop_runs::{Flow, Scene, loop_at, loops_round};
use ped_refs::{Loop, is_index};
use ped_tree::constants::constant;
use ped_tree::names::NameSet;
use ped_tree::{Do, Expr, Intrinsic, Program};
use std::alloc::Global;
use std::sync::ledger::Ledger;

/// The place of a bound of a DO, and what the bound may depend on.
#[derive(Clone, Copy)]
pub(crate) struct Place<'a> {
    /// The flow of the scalars of the program.
    pub(crate) flow: &'a Flow<'a>,
    /// The named constants, the variables of all DO loops, and what the outermost DO assigns.
    pub(crate) setting: &'a Setting<'a>,
    /// The number of the DO.
    pub(crate) number: u32,
    /// The DO loops around it, the outermost first.
    pub(crate) round: &'a [Loop<'a>],
}

/// Whether both bounds of the DO with this number are plain.
pub fn are_plain<L: Ledger>(
    alloc: Global,
    scene: &Scene<L>,
    number: u32,
    d: &Do,
) -> Result<bool, NoMemory>
    requires scene { IsSceneOf (program_tree scene.now.tree.now) scene.now }
    requires is { IsLoop (program_tree scene.now.tree.now) number (head_of d.now) (stmt_trees d.now.body.items) }
    ensures { IfOk result (TellsPlain (program_tree scene.now.tree.now) number (head_of d.now)) }
{
    let first = is_plain(alloc, scene, number, &d.first)?;
    let last = is_plain(alloc, scene, number, &d.last)?;
    Ok(both(first, last))
}

/// Whether a bound of the DO with this number is plain: built of constants, variables of DO loops around it and scalars
/// that keep their value in the outermost DO, by sign, sum, difference, product with a constant, MAX and MIN, where no
/// part may leave 2^62 (this project).
pub fn is_plain<L: Ledger>(
    alloc: Global,
    scene: &Scene<L>,
    number: u32,
    bound: &Expr,
) -> Result<bool, NoMemory>
    requires scene { IsSceneOf (program_tree scene.now.tree.now) scene.now }
    requires is { LoopOf (program_tree scene.now.tree.now) number }
    ensures { IfOk result (λ r. IsTrue r ↔ IsPlain (table_of (program_tree scene.now.tree.now)).constants (program_tree scene.now.tree.now) number (expr_tree bound.now)) }
{
    let round = loops_round(alloc, scene.tree, number)?;
    let variables = loop_variables(alloc, &scene.tree.body)?;
    let changed = assigned_round(alloc, scene.tree, outermost_or(number, &round))?;
    let setting = Setting {
        constants: scene.symbols.consts(),
        loop_variables: &variables,
        assigned: &changed,
    };
    let place = Place {
        flow: scene.flow,
        setting: &setting,
        number,
        round: &round,
    };
    Ok(is_plain_there(&place, bound))
}

/// Whether a bound at this place is plain. At most six loops are in a nest.
fn is_plain_there(place: &Place, e: &Expr) -> bool
    requires placed { IsPlaced place.now }
    requires short { length place.now.round.now ≤ 6 }
    ensures { IsTrue result ↔ IsPlain (values_at place.now) (tree_at place.now) place.now.number (expr_tree e.now) }
{
    both(is_built(place, e), is_near(place, e))
}

/// Whether no part of a bound at this place may leave 2^62.
fn is_near(place: &Place, e: &Expr) -> bool
    requires { length place.now.round.now ≤ 6 }
    ensures { IsTrue result ↔ HasInterval place.now (expr_tree e.now) }
{
    interval(place.setting, place.round, e).is_some()
}

/// The number of the outermost of these DO loops, or else this one.
fn outermost_or(number: u32, round: &[Loop]) -> u32
    ensures { result ≡ Plain.outermost_or number (nest_of round.now) }
{
    match round.first() {
        Some(l) => l.number,
        None => number,
    }
}

/// What the DO with this number assigns.
fn assigned_round(alloc: Global, program: &Program, number: u32) -> Result<NameSet, NoMemory>
    requires { LoopOf (program_tree program.now) number }
    ensures { IfOk result (λ names. names ≡ with_names [] (Plain.assigned_by (statement_with number (program_tree program.now)))) }
{
    match loop_at(program, number) {
        Some(d) => {
            return assigned(alloc, d);
        }
        None => {
            return Ok(NameSet::new(alloc));
        }
    }
}

/// Whether an expression is built as a plain bound is.
#[tactic(auto, using(crate::proofs::HeadLaws::PlainAnswers::of_either, crate::proofs::HeadLaws::PlainAnswers::of_both))]
#[cycle(plainness)]
fn is_built(place: &Place, e: &Expr) -> bool
    requires { IsPlaced place.now }
    ensures { IsTrue result ↔ IsPlainlyBuilt (values_at place.now) (tree_at place.now) place.now.number (expr_tree e.now) }
{
    match e {
        Expr::Int(_) => return true,
        Expr::Var(name) => return either(is_constant(place, e), is_told(place, name)),
        Expr::Element(_, _) => return false,
        Expr::Neg(a) => return either(is_constant(place, e), is_built(place, a)),
        Expr::Add(a, b) => {
            let parts = both(is_built(place, a), is_built(place, b));
            return either(is_constant(place, e), parts);
        }
        Expr::Sub(a, b) => {
            let parts = both(is_built(place, a), is_built(place, b));
            return either(is_constant(place, e), parts);
        }
        Expr::Mul(a, b) => {
            let first = both(is_constant(place, a), is_built(place, b));
            let second = both(is_built(place, a), is_constant(place, b));
            return either(is_constant(place, e), either(first, second));
        }
        Expr::Div(_, _) => return is_constant(place, e),
        Expr::Pow(_, _) => return is_constant(place, e),
        Expr::Call(f, arguments) => {
            let extreme = both(is_extreme(*f), are_built(place, arguments));
            return either(is_constant(place, e), extreme);
        }
    }
}

/// Whether all arguments are built as plain bounds are.
#[cycle(plainness)]
fn are_built(place: &Place, arguments: &[Expr]) -> bool
    requires { IsPlaced place.now }
    ensures { IsTrue result ↔ ArePlainlyBuilt (values_at place.now) (tree_at place.now) place.now.number (pack_exprs (map expr_tree arguments.now)) }
{
    for argument in arguments {
        if !is_built(place, argument) {
            return false;
        }
    }
    true
}

/// Whether an expression is constant.
fn is_constant(place: &Place, e: &Expr) -> bool
    ensures { IsTrue result ↔ IsConstant (setting_round (values_at place.now) (tree_at place.now) place.now.number) (expr_tree e.now) }
{
    constant(e, place.setting.constants).is_some()
}

/// Whether the name is the variable of a DO around the bound, or a scalar that keeps its value in the outermost DO.
#[tactic(auto, using(crate::proofs::HeadLaws::PlainAnswers::of_either, crate::proofs::HeadLaws::PlainAnswers::of_both))]
fn is_told(place: &Place, name: &Name) -> bool
    requires { IsPlaced place.now }
    ensures { IsTrue result ↔ (IsTrue (Lists.is_among name.now (indices_of (nest_round (tree_at place.now) place.now.number))) ⊎ IsFixed (values_at place.now) (tree_at place.now) place.now.number name.now) }
{
    either(is_index(name, place.round), is_fixed(place, name))
}

/// Whether a scalar keeps its value in the outermost DO.
fn is_fixed(place: &Place, name: &Name) -> bool
    requires { IsPlaced place.now }
    ensures { IsTrue result ↔ IsFixed (values_at place.now) (tree_at place.now) place.now.number name.now }
{
    if !is_kept(place, name) {
        return false;
    }
    place.flow.assigned_before(place.number, name)
}

/// Whether the outermost DO doesn't assign the scalar, and no DO of the program has it as its variable.
fn is_kept(place: &Place, name: &Name) -> bool
    ensures { result ≡ (not (Lists.is_among name.now place.now.setting.now.assigned.now) && not (Lists.is_among name.now place.now.setting.now.loop_variables.now)) }
{
    !place.setting.assigned.contains(name) && !place.setting.loop_variables.contains(name)
}

/// Whether the intrinsic function is MAX or MIN.
fn is_extreme(f: Intrinsic) -> bool
    ensures { IsTrue result ↔ IsExtreme f }
{
    match f {
        Intrinsic::Max | Intrinsic::Min => true,
        Intrinsic::Abs | Intrinsic::Mod => false,
    }
}

fn either(a: bool, b: bool) -> bool
    ensures { result ≡ (a || b) }
{
    a || b
}

fn both(a: bool, b: bool) -> bool
    ensures { result ≡ (a && b) }
{
    a && b
}
