//! PRIVATE lists, variables of DO loops, and PARALLEL DO loops.

ghost use Rattle.std.specs.Prelude.{◌≡◌, ◌||◌};
ghost use Rattle.std.specs.List.{list_any};
ghost use Rattle.ped_base.specs.Lists as Lists;
ghost use Rattle.ped_tree.specs.NamesIn as Names;
ghost use Rattle.ped_tree.specs.Tree;
ghost use Rattle.ped_tree.specs.Views.{stmt_trees, head_of};
ghost use Rattle.ped_refs.specs.Loops.{nest_of};
ghost use Rattle.ped_rules.specs.ped_symbols.specs.NameRefusals as Refusals;

use ped_base::{Name, is_among};
use ped_refs::Loop;
use ped_rules::{is_private_in, is_private_round, is_some_parallel};
use ped_tree::Do;

/// Whether the DO or one of these around it is a PARALLEL DO.
pub(crate) fn is_in_parallel(d: &Do, round: &[Loop]) -> bool
    ensures { result ≡ ((head_of d.now).parallel || list_any (λ m. m.head.parallel) (nest_of round.now)) }
{
    d.parallel || is_some_parallel(round)
}

/// Whether a name occurs twice in the list.
pub(crate) fn has_twice(names: &[Name]) -> bool
    ensures { result ≡ Refusals.has_twice names.now }
{
    for place in 0..names.len() {
        if is_among(&names[place], &names[place + 1..]) {
            return true;
        }
    }
    false
}

/// Whether one of these names is in the PRIVATE list of the DO, of one in it or of one of these around it.
pub(crate) fn is_some_private(names: &[Name], d: &Do, round: &[Loop]) -> bool
    ensures { result ≡ list_any (λ x. Lists.is_among x (Names.private_names_in (Tree.Do (head_of d.now) (stmt_trees d.now.body.items))) || list_any (λ l. Lists.is_among x l.head.private) (nest_of round.now)) names.now }
{
    for name in names {
        if is_private_in(name, d) || is_private_round(name, round) {
            return true;
        }
    }
    false
}
