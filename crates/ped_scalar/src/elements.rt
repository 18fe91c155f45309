//! New programs with elements of an array in place of a scalar.

ghost use Rattle.std.specs.Prelude.{◌≡◌, ◌++◌, ◌∷◌, ◌+◌, ◌<◌, ◌≤◌, ◌^◌, [], map, IfOk, unsigned_abs};
ghost use Rattle.ped_tree.specs.Tree;
ghost use Rattle.ped_tree.specs.Views.{expr_tree, stmt_tree, stmt_trees, do_tree, decl_tree, program_tree};
ghost use Rattle.ped_tree.specs.Numbering.{statements_count};
ghost use Rattle.ped_tree.specs.Views.{head_of};
ghost use Rattle.ped_rules.specs.ped_flow.specs.Questions.{IsLoop};
ghost use Rattle.ped_symbolic.specs.Arithmetic;
ghost use Rattle.ped_symbolic.specs.Substitution.{statements_substituted};
ghost use Rattle.ped_rules.specs.ped_steps.specs.Replacing as Replacing;
ghost use Rattle.ped_scalar.specs.Expanding as Spec;
ghost use Rattle.ped_rules.specs.ScalarArrays as ScalarArrays;
ghost use Rattle.ped_rules.specs.CodeSpans.{span_in, IsNear};

use ped_base::{Name, NoMemory, both};
use ped_rules::{Span, body_with, literal};
use ped_symbolic::substitute_in_statements;
use ped_tree::{Bound, Decl, Declarator, Do, Expr, Program, Stmt, copy_decls};
use std::alloc::Global;

/// What the elements of a scalar are: those of an array, over the values of a DO's variable.
#[derive(Clone, Copy)]
pub(crate) struct Elements {
    /// The scalar.
    pub(crate) scalar: Name,
    /// The array.
    pub(crate) array: Name,
    /// The values of the DO's variable.
    pub(crate) span: Span,
    /// Whether the scalar is live after the DO.
    pub(crate) live: bool,
}

impl Elements {
    /// The program with the elements in place of the scalar in the body of the DO with this number.
    pub(crate) fn expand(
        &self,
        alloc: Global,
        program: &Program,
        number: u32,
        d: &Do,
    ) -> Result<Program, NoMemory>
        requires few { statements_count (program_tree program.now).body + 1 < 2 ^ 32 }
        requires is { IsLoop (program_tree program.now) number (head_of d.now) (stmt_trees d.now.body.items) }
        requires near { IsNear self.now.span }
        ensures tree { IfOk result (λ p. program_tree p ≡ Spec.expanded (program_tree program.now) number self.now.scalar self.now.live self.now.array (span_in self.now.span)) }
        ensures lines { IfOk result (λ p. p.lines.items ≡ []) }
    {
        let mut decls = copy_decls(&program.decls, alloc)?;
        decls.push(self.declaration(alloc)?)?;
        let new = self.statements(alloc, d)?;
        let body = body_with(alloc, &program.body, number, &new)?;
        Ok(Program {
            decls,
            body,
            lines: Vec::new(alloc),
        })
    }

    /// The declaration of the array.
    fn declaration(&self, alloc: Global) -> Result<Decl, NoMemory>
        requires near { IsNear self.now.span }
        ensures { IfOk result (λ decl. decl_tree decl ≡ ScalarArrays.declaration self.now.array (span_in self.now.span)) }
    {
        let lower = literal(alloc, self.span.first.min(self.span.last))?;
        let upper = literal(alloc, self.span.first.max(self.span.last));
        let (lower, upper) = both(lower, upper)?;
        let mut bounds = Vec::new(alloc);
        bounds.push(Bound { lower, upper })?;
        let mut declarators = Vec::new(alloc);
        declarators.push(Declarator {
            name: self.array,
            bounds,
        })?;
        Ok(Decl::Integer(declarators))
    }

    /// The DO with the elements in place of the scalar, and after it the assignment of the last one, where the scalar
    /// is live.
    fn statements(&self, alloc: Global, d: &Do) -> Result<Vec<Stmt>, NoMemory>
        requires near { IsNear self.now.span }
        ensures { IfOk result (λ new. stmt_trees new.items ≡ Spec.with_elements self.now.scalar self.now.array self.now.live self.now.span.last (do_tree d.now)) }
    {
        let mut new = Vec::new(alloc);
        new.push(self.loop_with(alloc, d)?)?;
        if self.live {
            new.push(self.last(alloc)?)?;
        }
        Ok(new)
    }

    /// The DO with the elements in place of the scalar.
    fn loop_with(&self, alloc: Global, d: &Do) -> Result<Stmt, NoMemory>
        ensures { IfOk result (λ new. stmt_tree new ≡ Tree.Do (head_of d.now) (statements_substituted self.now.scalar (ScalarArrays.element self.now.array (Tree.Var d.now.variable)) (stmt_trees d.now.body.items))) }
    {
        let element = element(alloc, self.array, Expr::scalar(d.variable))?;
        let substituted = substitute_in_statements(alloc, &d.body, &self.scalar, &element);
        drop(element);
        let body = substituted?;
        Ok(Stmt::of_loop(d.with_body(body, alloc)?))
    }

    /// The assignment of the last element to the scalar.
    fn last(&self, alloc: Global) -> Result<Stmt, NoMemory>
        requires near { IsNear self.now.span }
        ensures { IfOk result (λ new. stmt_tree new ≡ Tree.Assign (Tree.Var self.now.scalar) (ScalarArrays.element self.now.array (Arithmetic.literal self.now.span.last))) }
    {
        let last = literal(alloc, self.span.last)?;
        let element = element(alloc, self.array, last)?;
        Ok(Stmt::assignment(Expr::scalar(self.scalar), element))
    }
}

/// An element of an array with one subscript.
fn element(alloc: Global, array: Name, subscript: Expr) -> Result<Expr, NoMemory>
    ensures { IfOk result (λ e. expr_tree e ≡ ScalarArrays.element array (expr_tree subscript)) }
{
    let mut subscripts = Vec::new(alloc);
    subscripts.push(subscript)?;
    Ok(Expr::element(array, subscripts))
}
