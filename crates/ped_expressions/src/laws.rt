//! What the grammar of expressions and conditions determines. Each function here does nothing; its
//! contract is the law.

ghost use Rattle.std.specs.Prelude.{◌≡◌, ◌↔◌, ℕ, List, IsFalse};
ghost use Rattle.ped_tree.specs.Tree.{ExprTree, CondTree};
ghost use Rattle.ped_tree.specs.Grammar.ExpressionForms.{ReadsExpr, ReadsReference};
ghost use Rattle.ped_tree.specs.Grammar.ConditionForms.{ReadsCond};
ghost use Rattle.ped_tree.specs.Grammar.Literals.{has_large_literal, cond_has_large_literal};
ghost use Rattle.ped_tree.specs.Printing.{alone, expr_text, whole, cond_text};

/// A text reads as one expression at most.
pub fn one_expression()
    ensures { (text : List ℕ) (a b : ExprTree) → ReadsExpr text a → ReadsExpr text b → a ≡ b }
{}

/// A text reads as one scalar or element at most.
pub fn one_reference()
    ensures { (text : List ℕ) (a b : ExprTree) → ReadsReference text a → ReadsReference text b → a ≡ b }
{}

/// A text reads as one condition at most.
pub fn one_condition()
    ensures { (text : List ℕ) (a b : CondTree) → ReadsCond text a → ReadsCond text b → a ≡ b }
{}

/// The printed text of an expression that some text reads as, with no literal above 2147483647, reads
/// as it and as nothing else.
pub fn printed_expression()
    ensures { (text : List ℕ) (e u : ExprTree) → ReadsExpr text e → IsFalse (has_large_literal e) → ReadsExpr (expr_text alone e) u ↔ (u ≡ e) }
{
    one_expression();
}

/// The same of a scalar or an element.
pub fn printed_reference()
    ensures { (text : List ℕ) (e u : ExprTree) → ReadsReference text e → IsFalse (has_large_literal e) → ReadsReference (expr_text alone e) u ↔ (u ≡ e) }
{
    one_reference();
}

/// The same of a condition.
pub fn printed_condition()
    ensures { (text : List ℕ) (c u : CondTree) → ReadsCond text c → IsFalse (cond_has_large_literal c) → ReadsCond (cond_text whole c) u ↔ (u ≡ c) }
{
    one_condition();
}
