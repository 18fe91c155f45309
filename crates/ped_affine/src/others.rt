//! Variables in subscripts that are neither DO variables around a reference nor assigned by the outermost common loop
//! (Allen and Kennedy, section 3.1).

ghost use Rattle.std.specs.Prelude.{◌≡◌, ◌++◌, filter, IfOk, OnOk};
ghost use Rattle.ped_tree.specs.Views.{expr_tree};
ghost use Rattle.ped_affine.specs.AffineForms.{form_variables};
ghost use Rattle.ped_affine.specs.PairViews as Spec;
ghost use Rattle.ped_affine.specs.Arguments.{setting_of, site};

use crate::settings::{Place, Setting};
use ped_base::{Name, NoMemory};
use ped_refs::is_index;
use ped_tree::Expr;
use std::alloc::Global;

/// Those variables of two subscripts, as often as they occur there. Where there are none, they take no memory.
pub(crate) fn other_variables(
    alloc: Global,
    setting: &Setting,
    source: &Place,
    sink: &Place,
    e: &Expr,
    g: &Expr,
) -> Result<Vec<Name>, NoMemory>
    ensures { IfOk result (λ names. names.items ≡ Spec.other_variables (setting_of setting.now) (site source.now) (site sink.now) (expr_tree e.now) (expr_tree g.now)) }
{
    let mut names = Vec::new(alloc);
    add_others(&mut names, setting, source, sink, e)?;
    add_others(&mut names, setting, source, sink, g)?;
    Ok(names)
}

/// Adds those variables of a subscript.
#[cycle(others)]
fn add_others(
    names: &mut Vec<Name>,
    setting: &Setting,
    source: &Place,
    sink: &Place,
    e: &Expr,
) -> Result<(), NoMemory>
    ensures { OnOk result (names.new.items ≡ names.old.items ++ filter (Spec.is_other (setting_of setting.now) (site source.now) (site sink.now)) (form_variables (expr_tree e.now))) }
{
    match e {
        Expr::Var(name) => {
            if is_other(setting, source, sink, name) {
                names.push(*name)?;
            }
            Ok(())
        }
        Expr::Neg(a) => add_others(names, setting, source, sink, a),
        Expr::Add(a, b) => {
            add_others(names, setting, source, sink, a)?;
            add_others(names, setting, source, sink, b)
        }
        Expr::Sub(a, b) => {
            add_others(names, setting, source, sink, a)?;
            add_others(names, setting, source, sink, b)
        }
        Expr::Mul(a, b) => {
            add_others(names, setting, source, sink, a)?;
            add_others(names, setting, source, sink, b)
        }
        Expr::Int(_) | Expr::Element(_, _) | Expr::Div(_, _) | Expr::Pow(_, _) | Expr::Call(_, _) =>
            Ok(()),
    }
}

/// Whether a variable is no loop's around either reference, and the outermost common loop doesn't assign it.
fn is_other(setting: &Setting, source: &Place, sink: &Place, name: &Name) -> bool
    ensures { result ≡ Spec.is_other (setting_of setting.now) (site source.now) (site sink.now) name.now }
{
    !is_index(name, source.nest) && !is_index(name, sink.nest) && !setting.assigned.contains(name)
}
