//! The unknowns of a system in their order, and what is made of them.

ghost use Rattle.std.specs.Prelude.{◌≡◌, ◌≤◌, ◌<◌, ◌+◌, ◌-◌, ◌++◌, ◌∷◌, [], ◌^◌, pos, map, length, take, drop, replicate, filter, IfOk, IfSome, OnOk, option_map};
ghost use Rattle.ped_tree.specs.Views.{expr_tree};
ghost use Rattle.ped_refs.specs.Loops.{nest_of};
ghost use Rattle.ped_affine.specs.Arguments.{setting_of};
ghost use Rattle.ped_certificates.specs.Limits.{IsWithin, IsRow};
ghost use Rattle.ped_evidence.specs.Kept.{columns_of, form_of, layout_kept, level_of, levels_kept, AreRows, IsForm, IsLayout};
ghost use Rattle.ped_evidence.specs.Forms as Forms;
ghost use Rattle.ped_evidence.specs.Layouts as Spec;

use crate::affine::{Unknowns, affine};
use crate::forms::{
    Form, add_zeros, at_least_zero, difference_of, is_zero, multiple, number, unknown,
};
use crate::levels::Level;
use ped_affine::Setting;
use ped_base::{Listed, Name, NoMemory};
use ped_certificates::Row;
use ped_refs::Loop;
use ped_tree::Expr;
use std::alloc::Global;

/// How many unknowns of each kind there are.
#[derive(Clone, Copy)]
pub struct Columns {
    /// The loops round the source.
    pub source: usize,
    /// The loops round the sink.
    pub sink: usize,
    /// The quotients.
    pub quotients: usize,
    /// The symbols.
    pub symbols: usize,
}

/// What the rows of a pair depend on beside the pair.
#[derive(Clone, Copy)]
pub struct Layout<'a> {
    /// What ranges and forms depend on.
    pub setting: Setting<'a>,
    /// The symbols.
    pub symbols: &'a [Name],
    /// How many unknowns there are.
    pub columns: Columns,
}

impl Columns {
    /// How many unknowns there are.
    pub fn width(&self) -> usize
        requires { Spec.width (columns_of self.now) < 2 ^ 64 }
        ensures { result ≡ Spec.width (columns_of self.now) }
    {
        self.source + self.sink + self.quotients + self.symbols
    }

    /// The variable of a DO, where this many unknowns come before those of its side.
    pub fn index(&self, alloc: Global, before: usize, level: &Level) -> Result<Form, NoMemory>
        requires few { Spec.width (columns_of self.now) < 2 ^ 64 }
        requires within { before + length level.now.around.now < self.now.source + self.now.sink }
        ensures form { IfOk result (λ f. form_of f ≡ Spec.index (columns_of self.now) before (level_of level.now)) }
        ensures fits { IfOk result (IsForm (Spec.width (columns_of self.now)) (2 ^ 62) (2 ^ 62)) }
    {
        unknown(alloc, self.width(), before + level.around.len() + 1)
    }

    /// A multiple of the quotient with this number, counted from 0.
    pub fn steps(&self, alloc: Global, number: usize, step: i64) -> Result<Form, NoMemory>
        requires few { Spec.width (columns_of self.now) < 2 ^ 64 }
        requires within { number < self.now.quotients }
        requires step { IsWithin (2 ^ 62) step }
        ensures form { IfOk result (λ f. form_of f ≡ Spec.steps (columns_of self.now) number step) }
        ensures fits { IfOk result (IsForm (Spec.width (columns_of self.now)) (2 ^ 62) (2 ^ 62)) }
    {
        multiple(
            alloc,
            self.width(),
            self.source + self.sink + number + 1,
            i128::from(step),
        )
    }

    /// The symbol with this number, counted from 0.
    pub fn symbol(&self, alloc: Global, number: usize) -> Result<Form, NoMemory>
        requires few { Spec.width (columns_of self.now) < 2 ^ 64 }
        requires within { number < self.now.symbols }
        ensures form { IfOk result (λ f. form_of f ≡ Spec.symbol (columns_of self.now) number) }
        ensures fits { IfOk result (IsForm (Spec.width (columns_of self.now)) (2 ^ 62) (2 ^ 62)) }
    {
        unknown(
            alloc,
            self.width(),
            self.source + self.sink + self.quotients + number + 1,
        )
    }

    /// A form in the variables of so many loops and in symbols, as one over all unknowns.
    fn widened(
        &self,
        alloc: Global,
        before: usize,
        loops: usize,
        f: &Form,
    ) -> Result<Form, NoMemory>
        requires few { Spec.width (columns_of self.now) < 2 ^ 64 }
        requires within { before + loops ≤ self.now.source + self.now.sink }
        requires form { IsForm (loops + self.now.symbols) (2 ^ 31) (2 ^ 62) f.now }
        ensures form { IfOk result (λ r. form_of r ≡ Spec.widened (columns_of self.now) before loops (form_of f.now)) }
        ensures fits { IfOk result (IsForm (Spec.width (columns_of self.now)) (2 ^ 62) (2 ^ 62)) }
    {
        self.spread(alloc, before, loops, f)
    }

    /// The same, whatever its numbers.
    fn spread(&self, alloc: Global, before: usize, loops: usize, f: &Form) -> Result<Form, NoMemory>
        requires few { Spec.width (columns_of self.now) < 2 ^ 64 }
        requires within { before + loops ≤ self.now.source + self.now.sink }
        requires form { IsForm (loops + self.now.symbols) (2 ^ 31) (2 ^ 62) f.now }
        ensures { IfOk result (λ r. form_of r ≡ Spec.widened (columns_of self.now) before loops (form_of f.now)) }
    {
        let between = self.source + self.sink + self.quotients - (before + loops);
        let (of_loops, of_symbols) = f.coefficients.as_slice().split_at(loops);
        let mut coefficients = Listed::new(alloc);
        add_zeros(&mut coefficients, before)?;
        add_all(&mut coefficients, of_loops)?;
        add_zeros(&mut coefficients, between)?;
        add_all(&mut coefficients, of_symbols)?;
        Ok(Form {
            coefficients,
            constant: f.constant,
        })
    }
    /// The first form less the second.
    fn less(&self, alloc: Global, a: &Form, b: &Form) -> Result<Form, NoMemory>
        requires first { IsForm (Spec.width (columns_of self.now)) (2 ^ 62) (2 ^ 62) a.now }
        requires second { IsForm (Spec.width (columns_of self.now)) (2 ^ 62) (2 ^ 62) b.now }
        ensures form { IfOk result (λ f. form_of f ≡ Forms.less (form_of a.now) (form_of b.now)) }
        ensures fits { IfOk result (IsForm (Spec.width (columns_of self.now)) (2 ^ 63) (2 ^ 63)) }
    {
        difference_of(alloc, a, b)
    }

    /// A difference of two forms less a third one.
    fn still_less(&self, alloc: Global, a: &Form, b: &Form) -> Result<Form, NoMemory>
        requires first { IsForm (Spec.width (columns_of self.now)) (2 ^ 63) (2 ^ 63) a.now }
        requires second { IsForm (Spec.width (columns_of self.now)) (2 ^ 62) (2 ^ 62) b.now }
        ensures form { IfOk result (λ f. form_of f ≡ Forms.less (form_of a.now) (form_of b.now)) }
        ensures fits { IfOk result (IsForm (Spec.width (columns_of self.now)) (2 ^ 64) (2 ^ 64)) }
    {
        difference_of(alloc, a, b)
    }

    /// The row that says that the first form is at most the second.
    pub fn at_most(&self, alloc: Global, a: &Form, b: &Form) -> Result<Row, NoMemory>
        requires first { IsForm (Spec.width (columns_of self.now)) (2 ^ 62) (2 ^ 62) a.now }
        requires second { IsForm (Spec.width (columns_of self.now)) (2 ^ 62) (2 ^ 62) b.now }
        ensures row { IfOk result (λ r. r ≡ Forms.at_most (form_of a.now) (form_of b.now)) }
        ensures fits { IfOk result (IsRow (Spec.width (columns_of self.now)) (2 ^ 64)) }
    {
        let difference = self.less(alloc, b, a)?;
        Ok(at_least_zero(difference))
    }

    /// The row that says that the first form is less than the second.
    pub fn below(&self, alloc: Global, a: &Form, b: &Form) -> Result<Row, NoMemory>
        requires few { Spec.width (columns_of self.now) < 2 ^ 64 }
        requires first { IsForm (Spec.width (columns_of self.now)) (2 ^ 62) (2 ^ 62) a.now }
        requires second { IsForm (Spec.width (columns_of self.now)) (2 ^ 62) (2 ^ 62) b.now }
        ensures row { IfOk result (λ r. r ≡ Forms.below (Spec.width (columns_of self.now)) (form_of a.now) (form_of b.now)) }
        ensures fits { IfOk result (IsRow (Spec.width (columns_of self.now)) (2 ^ 64)) }
    {
        let one = number(alloc, self.width(), 1)?;
        let difference = self.less(alloc, b, a)?;
        let beyond = self.still_less(alloc, &difference, &one)?;
        Ok(at_least_zero(beyond))
    }

    /// The row that says that both forms are equal.
    pub fn equal(&self, alloc: Global, a: &Form, b: &Form) -> Result<Row, NoMemory>
        requires first { IsForm (Spec.width (columns_of self.now)) (2 ^ 62) (2 ^ 62) a.now }
        requires second { IsForm (Spec.width (columns_of self.now)) (2 ^ 62) (2 ^ 62) b.now }
        ensures row { IfOk result (λ r. r ≡ Forms.equal (form_of a.now) (form_of b.now)) }
        ensures fits { IfOk result (IsRow (Spec.width (columns_of self.now)) (2 ^ 64)) }
    {
        let difference = self.less(alloc, a, b)?;
        Ok(is_zero(difference))
    }

    /// The row that says that the first form less the second is the third one.
    pub fn apart(&self, alloc: Global, a: &Form, b: &Form, by: &Form) -> Result<Row, NoMemory>
        requires first { IsForm (Spec.width (columns_of self.now)) (2 ^ 62) (2 ^ 62) a.now }
        requires second { IsForm (Spec.width (columns_of self.now)) (2 ^ 62) (2 ^ 62) b.now }
        requires third { IsForm (Spec.width (columns_of self.now)) (2 ^ 62) (2 ^ 62) by.now }
        ensures row { IfOk result (λ r. r ≡ Forms.is_zero (Forms.less (Forms.less (form_of a.now) (form_of b.now)) (form_of by.now))) }
        ensures fits { IfOk result (IsRow (Spec.width (columns_of self.now)) (2 ^ 64)) }
    {
        let difference = self.less(alloc, a, b)?;
        let rest = self.still_less(alloc, &difference, by)?;
        Ok(is_zero(rest))
    }

    /// Adds a row.
    pub fn push(&self, rows: &mut Listed<Row>, row: Row) -> Result<(), NoMemory>
        requires rows { AreRows self.now rows.old }
        requires row { IsRow (Spec.width (columns_of self.now)) (2 ^ 64) row }
        ensures rows { OnOk result (rows.new ≡ rows.old ++ row ∷ []) }
        ensures fits { OnOk result (AreRows self.now rows.new) }
    {
        rows.push(row)
    }
}

/// Adds numbers.
fn add_all(numbers: &mut Listed<i128>, others: &[i128]) -> Result<(), NoMemory>
    ensures { OnOk result (numbers.new ≡ numbers.old ++ others.now) }
{
    for n in others {
        numbers.push(*n)?;
    }
    Ok(())
}

impl Layout<'_> {
    /// An expression inside these loops, as a form over all unknowns.
    pub fn placed(
        &self,
        alloc: Global,
        before: usize,
        around: &[Loop],
        e: &Expr,
    ) -> Result<Option<Form>, NoMemory>
        requires layout { IsLayout self.now }
        requires within { before + length around.now ≤ self.now.columns.source + self.now.columns.sink }
        ensures form { IfOk result (λ f. option_map form_of f ≡ Spec.placed (layout_kept self.now) before (nest_of around.now) (expr_tree e.now)) }
        ensures fits { IfOk result (λ f. IfSome f (IsForm (Spec.width (columns_of self.now.columns)) (2 ^ 62) (2 ^ 62))) }
    {
        let form = self.form_at(alloc, around, e)?;
        match &form {
            Some(f) => Ok(Some(self.columns.widened(alloc, before, around.len(), f)?)),
            None => Ok(None),
        }
    }

    /// An expression inside these loops, as a form in their variables and in the symbols.
    fn form_at(&self, alloc: Global, around: &[Loop], e: &Expr) -> Result<Option<Form>, NoMemory>
        requires { IsLayout self.now }
        ensures form { IfOk result (λ f. option_map form_of f ≡ Spec.form_at (layout_kept self.now).setting self.now.symbols.now (nest_of around.now) (expr_tree e.now)) }
        ensures fits { IfOk result (λ f. IfSome f (IsForm (length around.now + self.now.columns.symbols) (2 ^ 31) (2 ^ 62))) }
    {
        let unknowns = Unknowns {
            constants: self.setting.constants,
            around,
            symbols: self.symbols,
        };
        affine(alloc, &unknowns, e)
    }
}

/// Whether the step of a loop is neither 1 nor -1.
pub fn strides(level: &Level) -> bool
    ensures { result ≡ Spec.strides (level_of level.now) }
{
    let range = level.range;
    range.step != 1 && range.step != -1
}

/// Whether the initial value of a loop has a form.
fn has_first(
    alloc: Global,
    setting: &Setting,
    symbols: &[Name],
    level: &Level,
) -> Result<bool, NoMemory>
    ensures { IfOk result (λ has. has ≡ Spec.has_first (setting_of setting.now) symbols.now (level_of level.now)) }
{
    let unknowns = Unknowns {
        constants: setting.constants,
        around: level.around,
        symbols,
    };
    let form = affine(alloc, &unknowns, &level.statement.first)?;
    Ok(form.is_some())
}

/// Whether a loop has a quotient of its own.
pub fn has_own(
    alloc: Global,
    setting: &Setting,
    symbols: &[Name],
    level: &Level,
) -> Result<bool, NoMemory>
    ensures { IfOk result (λ has. has ≡ Spec.has_own (setting_of setting.now) symbols.now (level_of level.now)) }
{
    if !strides(level) {
        return Ok(false);
    }
    has_first(alloc, setting, symbols, level)
}

/// Whether a common loop has a quotient for both sides.
pub fn has_shared(
    alloc: Global,
    setting: &Setting,
    symbols: &[Name],
    level: &Level,
) -> Result<bool, NoMemory>
    ensures { IfOk result (λ has. has ≡ Spec.has_shared (setting_of setting.now) symbols.now (level_of level.now)) }
{
    let range = level.range;
    if !strides(level) || !range.steady {
        return Ok(false);
    }
    let has = has_first(alloc, setting, symbols, level)?;
    Ok(!has)
}

/// How many loops have a quotient of their own.
pub fn count_own(
    alloc: Global,
    setting: &Setting,
    symbols: &[Name],
    levels: &[Level],
) -> Result<usize, NoMemory>
    ensures count { IfOk result (λ n. n ≡ length (filter (Spec.has_own (setting_of setting.now) symbols.now) (levels_kept levels.now))) }
    ensures few { IfOk result (λ n. n ≤ length levels.now) }
{
    let mut count = 0;
    for level in levels {
        if has_own(alloc, setting, symbols, level)? {
            count += 1;
        }
    }
    Ok(count)
}

/// How many common loops have a quotient for both sides.
pub fn count_shared(
    alloc: Global,
    setting: &Setting,
    symbols: &[Name],
    levels: &[Level],
) -> Result<usize, NoMemory>
    ensures count { IfOk result (λ n. n ≡ length (filter (Spec.has_shared (setting_of setting.now) symbols.now) (levels_kept levels.now))) }
    ensures few { IfOk result (λ n. n ≤ length levels.now) }
{
    let mut count = 0;
    for level in levels {
        if has_shared(alloc, setting, symbols, level)? {
            count += 1;
        }
    }
    Ok(count)
}
