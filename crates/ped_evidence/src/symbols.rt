//! The symbols of a pair: variables that have one value throughout an execution of the outermost DO round both.

ghost use Rattle.std.specs.Prelude.{◌≡◌, [], ◌∷◌, ◌++◌, filter, map, IfOk, OnOk};
ghost use Rattle.std.specs.List.{flat_map};
ghost use Rattle.ped_tree.specs.Views.{expr_tree};
ghost use Rattle.ped_tree.specs.Names.Collecting.{with_names};
ghost use Rattle.ped_affine.specs.AffineForms.{form_variables};
ghost use Rattle.ped_affine.specs.Arguments.{setting_of, site};
ghost use Rattle.ped_evidence.specs.Kept.{level_of, levels_kept, trees_of, IsPair};
ghost use Rattle.ped_evidence.specs.Symbols as Spec;

use crate::levels::Level;
use ped_affine::{Place, Setting};
use ped_base::{Name, NoMemory};
use ped_refs::is_index;
use ped_tree::Expr;
use ped_tree::names::NameSet;
use std::alloc::Global;

/// An ordered pair of references in a setting, with the loops round both.
#[derive(Clone, Copy)]
pub struct Pair<'a> {
    /// What ranges and forms depend on.
    pub setting: Setting<'a>,
    /// The place of the source.
    pub source: Place<'a>,
    /// The place of the sink.
    pub sink: Place<'a>,
    /// The loops round the source.
    pub source_levels: &'a [Level<'a>],
    /// The loops round the sink.
    pub sink_levels: &'a [Level<'a>],
}

/// The symbols of a pair, in the order in which they come first.
pub fn symbols(alloc: Global, pair: &Pair) -> Result<NameSet, NoMemory>
    requires { IsPair pair.now }
    ensures { IfOk result (λ names. names ≡ Spec.symbols_of (setting_of pair.now.setting) (site pair.now.source) (site pair.now.sink)) }
{
    let mut names = NameSet::new(alloc);
    add_of_side(
        alloc,
        &mut names,
        pair,
        pair.source_levels,
        pair.source.subscripts,
    )?;
    add_of_side(
        alloc,
        &mut names,
        pair,
        pair.sink_levels,
        pair.sink.subscripts,
    )?;
    Ok(names)
}

/// Adds the symbols in the bounds of loops and in subscripts.
fn add_of_side(
    alloc: Global,
    names: &mut NameSet,
    pair: &Pair,
    levels: &[Level],
    subscripts: &[Expr],
) -> Result<(), NoMemory>
    ensures { OnOk result (names.new ≡ with_names names.old (filter (Spec.is_symbol (setting_of pair.now.setting) (site pair.now.source) (site pair.now.sink))
        (flat_map Spec.names_in_bounds (levels_kept levels.now) ++ flat_map form_variables (map expr_tree subscripts.now)))) }
{
    for level in levels {
        add_of_level(alloc, names, pair, level)?;
    }
    for subscript in subscripts {
        add_of(names, pair, subscript)?;
    }
    Ok(())
}

/// Adds the symbols in the bounds of a loop.
fn add_of_level(
    alloc: Global,
    names: &mut NameSet,
    pair: &Pair,
    level: &Level,
) -> Result<(), NoMemory>
    ensures { OnOk result (names.new ≡ with_names names.old (filter (Spec.is_symbol (setting_of pair.now.setting) (site pair.now.source) (site pair.now.sink))
        (Spec.names_in_bounds (level_of level.now)))) }
{
    let lower = level.lower_bounds(alloc)?;
    let upper = level.upper_bounds(alloc)?;
    if level.falls() {
        add_of_all(names, pair, &upper)?;
        add_of_all(names, pair, &lower)
    } else {
        add_of_all(names, pair, &lower)?;
        add_of_all(names, pair, &upper)
    }
}

/// Adds the symbols in bounds.
fn add_of_all(names: &mut NameSet, pair: &Pair, bounds: &[&Expr]) -> Result<(), NoMemory>
    ensures { OnOk result (names.new ≡ with_names names.old (filter (Spec.is_symbol (setting_of pair.now.setting) (site pair.now.source) (site pair.now.sink))
        (flat_map form_variables (trees_of bounds.now)))) }
{
    for bound in bounds {
        add_of(names, pair, bound)?;
    }
    Ok(())
}

/// Adds the symbols of which the form of an expression can be made.
#[cycle(names)]
fn add_of(names: &mut NameSet, pair: &Pair, e: &Expr) -> Result<(), NoMemory>
    ensures { OnOk result (names.new ≡ with_names names.old (filter (Spec.is_symbol (setting_of pair.now.setting) (site pair.now.source) (site pair.now.sink))
        (form_variables (expr_tree e.now)))) }
{
    match e {
        Expr::Var(name) => add_name(names, pair, name),
        Expr::Neg(a) => add_of(names, pair, a),
        Expr::Add(a, b) => {
            add_of(names, pair, a)?;
            add_of(names, pair, b)
        }
        Expr::Sub(a, b) => {
            add_of(names, pair, a)?;
            add_of(names, pair, b)
        }
        Expr::Mul(a, b) => {
            add_of(names, pair, a)?;
            add_of(names, pair, b)
        }
        Expr::Int(_) | Expr::Element(_, _) | Expr::Div(_, _) | Expr::Pow(_, _) | Expr::Call(_, _) =>
            Ok(()),
    }
}

/// Adds a name, where it is a symbol.
fn add_name(names: &mut NameSet, pair: &Pair, name: &Name) -> Result<(), NoMemory>
    ensures { OnOk result (names.new ≡ with_names names.old (filter (Spec.is_symbol (setting_of pair.now.setting) (site pair.now.source) (site pair.now.sink))
        (name.now ∷ []))) }
{
    if is_symbol(pair, name) {
        return names.insert(name);
    }
    Ok(())
}

/// Whether a name is a symbol.
fn is_symbol(pair: &Pair, name: &Name) -> bool
    ensures { result ≡ Spec.is_symbol (setting_of pair.now.setting) (site pair.now.source) (site pair.now.sink) name.now }
{
    pair.setting.constants.get(name).is_none()
        && !is_index(name, pair.source.nest)
        && !is_index(name, pair.sink.nest)
        && !pair.setting.assigned.contains(name)
}
