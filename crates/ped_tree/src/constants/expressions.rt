//! The values of constant expressions (ANSI X3.9-1978, section 6.1.3).

ghost use Rattle.std.specs.Prelude.{◌≡◌, map};
ghost use Rattle.ped_tree.specs.Tree.{Call};
ghost use Rattle.ped_tree.specs.Views.{expr_tree, pack_exprs};
ghost use Rattle.ped_tree.specs.Constants.NamedConstants.{value_named};
ghost use Rattle.ped_tree.specs.Constants.ConstantExpressions.{constant_value};

use crate::constants::named::Consts;
use crate::{Expr, Intrinsic};
use ped_base::Name;
use ped_base::arithmetic::{
    absolute_value, difference, greatest, least, negation, power, product, quotient, remainder, sum,
};

/// The value of an expression of literals, these named constants, operators and intrinsic functions, evaluated from
/// left to right: none exactly where it contains something else, an intrinsic function has another number of
/// arguments than it takes, or an operation faults. It takes no memory.
#[cycle(constant)]
pub fn constant(e: &Expr, consts: &Consts) -> Option<i128>
    ensures { result ≡ constant_value consts.now (expr_tree e.now) }
{
    match e {
        Expr::Int(value) => Some(i128::from(*value)),
        Expr::Var(name) => named(name, consts),
        Expr::Element(_, _) => None,
        Expr::Neg(a) => negation(constant(a, consts)?).ok(),
        Expr::Add(a, b) => sum(constant(a, consts)?, constant(b, consts)?).ok(),
        Expr::Sub(a, b) => difference(constant(a, consts)?, constant(b, consts)?).ok(),
        Expr::Mul(a, b) => product(constant(a, consts)?, constant(b, consts)?).ok(),
        Expr::Div(a, b) => quotient(constant(a, consts)?, constant(b, consts)?).ok(),
        Expr::Pow(a, b) => power(constant(a, consts)?, constant(b, consts)?).ok(),
        Expr::Call(Intrinsic::Mod, arguments) => remainder_of_two(arguments, consts),
        Expr::Call(Intrinsic::Abs, arguments) => absolute_value_of_one(arguments, consts),
        Expr::Call(Intrinsic::Max, arguments) => greatest_of_all(arguments, consts),
        Expr::Call(Intrinsic::Min, arguments) => least_of_all(arguments, consts),
    }
}

/// The value of a named constant.
fn named(name: &Name, consts: &Consts) -> Option<i128>
    ensures { result ≡ value_named consts.now name.now }
{
    Some(i128::from(consts.get(name)?))
}

/// MOD of two constant arguments.
#[cycle(constant)]
#[tactic(auto, using(crate::proofs::ConstantLaws::Arguments::mod_of_others))]
fn remainder_of_two(arguments: &[Expr], consts: &Consts) -> Option<i128>
    ensures { result ≡ constant_value consts.now (Call Intrinsic.Mod (pack_exprs (map expr_tree arguments.now))) }
{
    let [dividend, divisor] = arguments else {
        return None;
    };
    remainder(constant(dividend, consts)?, constant(divisor, consts)?).ok()
}

/// ABS of one constant argument.
#[cycle(constant)]
#[tactic(auto, using(crate::proofs::ConstantLaws::Arguments::abs_of_others))]
fn absolute_value_of_one(arguments: &[Expr], consts: &Consts) -> Option<i128>
    ensures { result ≡ constant_value consts.now (Call Intrinsic.Abs (pack_exprs (map expr_tree arguments.now))) }
{
    let [argument] = arguments else {
        return None;
    };
    absolute_value(constant(argument, consts)?).ok()
}

/// MAX of two or more constant arguments.
#[cycle(constant)]
#[tactic(auto, using(crate::proofs::ConstantLaws::Arguments::max_of_few))]
fn greatest_of_all(arguments: &[Expr], consts: &Consts) -> Option<i128>
    ensures { result ≡ constant_value consts.now (Call Intrinsic.Max (pack_exprs (map expr_tree arguments.now))) }
{
    if arguments.len() < 2 {
        return None;
    }
    let mut value = constant(&arguments[0], consts)?;
    for argument in &arguments[1..] {
        value = greatest(value, constant(argument, consts)?).ok()?;
    }
    Some(value)
}

/// MIN of two or more constant arguments.
#[cycle(constant)]
#[tactic(auto, using(crate::proofs::ConstantLaws::Arguments::min_of_few))]
fn least_of_all(arguments: &[Expr], consts: &Consts) -> Option<i128>
    ensures { result ≡ constant_value consts.now (Call Intrinsic.Min (pack_exprs (map expr_tree arguments.now))) }
{
    if arguments.len() < 2 {
        return None;
    }
    let mut value = constant(&arguments[0], consts)?;
    for argument in &arguments[1..] {
        value = least(value, constant(argument, consts)?).ok()?;
    }
    Some(value)
}
