//! PRIVATE lists of DO loops.

ghost use Rattle.std.specs.Prelude.{◌≡◌};
ghost use Rattle.ped_tree.specs.Views.{stmt_trees, head_of};
ghost use Rattle.ped_rules.specs.Rules.{has_private};

use ped_tree::Do;

/// Whether a DO has PRIVATE names (ParaScope).
pub(crate) fn has_list(d: &Do) -> bool
    ensures { result ≡ has_private (head_of d.now) (stmt_trees d.now.body.items) }
{
    !d.private.is_empty()
}
