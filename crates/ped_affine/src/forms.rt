//! Affine forms of subscripts: a coefficient for each unknown and a constant, all within their limits (Allen and
//! Kennedy, section 3.1; this project).

ghost use Rattle.std.specs.Prelude.{◌≡◌, ◌≤◌, ◌^◌, ◌+ℤ◌, ◌-ℤ◌, IfOk, IfSome, unsigned_abs, length};
ghost use Rattle.std.specs.Option.{ForSome};
ghost use Rattle.ped_views.specs.Limits.{IsSmallConstant};

use crate::coefficients::{
    add_all, add_of_loops, add_of_names, add_zeros, are_zeros, multiply_all, negate_all, sum,
};
use crate::intervals::is_near;
use ped_base::{Name, NoMemory, is_among};
use ped_refs::{Loop, is_index};
use ped_tree::constants::Consts;
use ped_views::product;
use std::alloc::Global;

/// What a form is over: named constants with their values, and unknowns, which are the variables of the loops around a
/// subscript, the outermost first, and other variables after them.
#[derive(Clone, Copy)]
pub(crate) struct Terms<'a, 'b, 'c> {
    /// The named constants.
    pub constants: &'a Consts,
    /// The loops around the subscript.
    pub nest: &'b [Loop<'b>],
    /// The other variables.
    pub others: &'c [Name],
}

/// An affine form: a coefficient for each unknown, within 2^31 of zero, and a constant within 2^62. No coefficients at
/// all stand for zeros, so a constant takes no memory.
#[derive(Drop)]
pub(crate) struct Form {
    /// The coefficients.
    pub coefficients: Vec<i64>,
    /// The constant.
    pub constant: i64,
}

impl Terms<'_, '_, '_> {
    ghost use Rattle.ped_base.specs.Lists as Lists;
    ghost use Rattle.ped_affine.specs.AffineForms as Spec;
    ghost use Rattle.ped_affine.specs.KeptForms.{unknowns_of, coefficients_of, kept, form_kept, plain_form, IsOver, IsComplete};

    /// The form of a constant, where that is within 2^62 of zero.
    pub(crate) fn constant(&self, alloc: Global, n: i128) -> Option<Form>
        ensures form { kept (unknowns_of self.now) result ≡ Spec.within_limits (Spec.constant_form (unknowns_of self.now) n) }
        ensures over { IfSome result (IsOver (unknowns_of self.now)) }
    {
        if is_near(n) {
            Some(Form {
                coefficients: Vec::new(alloc),
                constant: n as i64,
            })
        } else {
            None
        }
    }

    /// The form with the opposite sign.
    pub(crate) fn negation(&self, f: Option<Form>) -> Option<Form>
        requires { ForSome f (IsOver (unknowns_of self.now)) }
        ensures form { kept (unknowns_of self.now) result ≡ Spec.negation (kept (unknowns_of self.now) f) }
        ensures over { IfSome result (IsOver (unknowns_of self.now)) }
    {
        match f {
            Some(f) => Some(self.negated(f)),
            None => None,
        }
    }

    /// The sum of two forms, where it stays within the limits.
    pub(crate) fn sum(&self, a: Option<Form>, b: Option<Form>) -> Option<Form>
        requires first { ForSome a (IsOver (unknowns_of self.now)) }
        requires second { ForSome b (IsOver (unknowns_of self.now)) }
        ensures form { kept (unknowns_of self.now) result ≡ Spec.combination ◌+ℤ◌ (kept (unknowns_of self.now) a) (kept (unknowns_of self.now) b) }
        ensures over { IfSome result (IsOver (unknowns_of self.now)) }
    {
        match (a, b) {
            (Some(a), Some(b)) => self.total(a, b),
            _ => None,
        }
    }

    /// The difference of two forms, where it stays within the limits.
    pub(crate) fn difference(&self, a: Option<Form>, b: Option<Form>) -> Option<Form>
        requires first { ForSome a (IsOver (unknowns_of self.now)) }
        requires second { ForSome b (IsOver (unknowns_of self.now)) }
        ensures form { kept (unknowns_of self.now) result ≡ Spec.combination ◌-ℤ◌ (kept (unknowns_of self.now) a) (kept (unknowns_of self.now) b) }
        ensures over { IfSome result (IsOver (unknowns_of self.now)) }
    {
        self.sum(a, self.negation(b))
    }

    /// The product of two forms, where one is constant and the product stays within the limits.
    pub(crate) fn product(&self, a: Option<Form>, b: Option<Form>) -> Option<Form>
        requires first { ForSome a (IsOver (unknowns_of self.now)) }
        requires second { ForSome b (IsOver (unknowns_of self.now)) }
        ensures form { kept (unknowns_of self.now) result ≡ Spec.product (kept (unknowns_of self.now) a) (kept (unknowns_of self.now) b) }
        ensures over { IfSome result (IsOver (unknowns_of self.now)) }
    {
        match (a, b) {
            (Some(a), Some(b)) => {
                if are_zeros(&a.coefficients) {
                    self.multiple(a.constant, b)
                } else if are_zeros(&b.coefficients) {
                    self.multiple(b.constant, a)
                } else {
                    None
                }
            }
            _ => None,
        }
    }

    /// A form with the opposite sign.
    fn negated(&self, mut f: Form) -> Form
        requires { IsOver (unknowns_of self.now) f }
        ensures form { form_kept (unknowns_of self.now) result ≡ Spec.opposite (form_kept (unknowns_of self.now) f) }
        ensures over { IsOver (unknowns_of self.now) result }
    {
        negate_all(&mut f.coefficients);
        f.constant = -f.constant;
        f
    }

    /// The sum of two forms.
    fn total(&self, a: Form, b: Form) -> Option<Form>
        requires first { IsOver (unknowns_of self.now) a }
        requires second { IsOver (unknowns_of self.now) b }
        ensures form { kept (unknowns_of self.now) result ≡ Spec.within_limits (Spec.combined_form ◌+ℤ◌ (form_kept (unknowns_of self.now) a) (form_kept (unknowns_of self.now) b)) }
        ensures over { IfSome result (IsOver (unknowns_of self.now)) }
    {
        if b.coefficients.is_empty() {
            self.with_constant(a, b.constant)
        } else if a.coefficients.is_empty() {
            self.with_constant(b, a.constant)
        } else {
            self.total_of_both(a, b)
        }
    }

    /// A form with this number added to its constant.
    fn with_constant(&self, mut f: Form, n: i64) -> Option<Form>
        requires form { IsOver (unknowns_of self.now) f }
        requires more { IsSmallConstant n }
        ensures form { kept (unknowns_of self.now) result ≡ Spec.within_limits (Spec.form (form_kept (unknowns_of self.now) f).coefficients (f.constant +ℤ n)) }
        ensures over { IfSome result (IsOver (unknowns_of self.now)) }
    {
        let constant = sum(f.constant, n);
        if is_near(constant) {
            f.constant = constant as i64;
            Some(f)
        } else {
            None
        }
    }

    /// The sum of two forms with coefficients.
    fn total_of_both(&self, mut a: Form, b: Form) -> Option<Form>
        requires first { IsOver (unknowns_of self.now) a }
        requires second { IsOver (unknowns_of self.now) b }
        requires as_many { length a.coefficients.items ≡ length b.coefficients.items }
        ensures form { kept (unknowns_of self.now) result ≡ Spec.within_limits (Spec.form (coefficients_of (unknowns_of self.now) (Spec.combined ◌+ℤ◌ a.coefficients.items b.coefficients.items)) (a.constant +ℤ b.constant)) }
        ensures over { IfSome result (IsOver (unknowns_of self.now)) }
    {
        if add_all(&mut a.coefficients, &b.coefficients) {
            self.with_constant(a, b.constant)
        } else {
            None
        }
    }

    /// A form multiplied by a number.
    fn multiple(&self, n: i64, mut f: Form) -> Option<Form>
        requires factor { IsSmallConstant n }
        requires form { IsOver (unknowns_of self.now) f }
        ensures form { kept (unknowns_of self.now) result ≡ Spec.within_limits (Spec.times n (form_kept (unknowns_of self.now) f)) }
        ensures over { IfSome result (IsOver (unknowns_of self.now)) }
    {
        let constant = product(n, f.constant);
        if multiply_all(&mut f.coefficients, n) && is_near(constant) {
            f.constant = constant as i64;
            Some(f)
        } else {
            None
        }
    }

    /// The form of a variable, where it is an unknown.
    pub(crate) fn variable(&self, alloc: Global, name: &Name) -> Result<Option<Form>, NoMemory>
        ensures form { IfOk result (λ f. kept (unknowns_of self.now) f ≡ Spec.variable_form (unknowns_of self.now) name.now) }
        ensures over { IfOk result (λ f. IfSome f (IsOver (unknowns_of self.now))) }
    {
        if !self.has_unknown(name) {
            return Ok(None);
        }
        let mut coefficients = Vec::with_capacity(alloc, self.nest.len())?;
        add_of_loops(&mut coefficients, self.nest, name)?;
        add_of_names(&mut coefficients, self.others, name)?;
        Ok(Some(Form {
            coefficients,
            constant: 0,
        }))
    }

    /// Whether the variable is an unknown.
    fn has_unknown(&self, name: &Name) -> bool
        ensures { result ≡ Lists.is_among name.now (unknowns_of self.now) }
    {
        is_index(name, self.nest) || is_among(name, self.others)
    }

    /// The form with a coefficient for each unknown.
    pub(crate) fn filled(&self, alloc: Global, f: Form) -> Result<Form, NoMemory>
        requires { IsOver (unknowns_of self.now) f }
        ensures form { IfOk result (λ g. plain_form g ≡ form_kept (unknowns_of self.now) f) }
        ensures complete { IfOk result (IsComplete (unknowns_of self.now)) }
    {
        if !f.coefficients.is_empty() {
            return Ok(f);
        }
        let mut coefficients = Vec::with_capacity(alloc, self.nest.len())?;
        add_zeros(&mut coefficients, self.nest.len())?;
        add_zeros(&mut coefficients, self.others.len())?;
        Ok(Form {
            coefficients,
            constant: f.constant,
        })
    }
}
