//! What the exit of a DO writes, as notes (ANSI X3.9-1978, section 11.10.7).

ghost use Rattle.std.specs.Prelude.{◌≡◌};
ghost use Rattle.ped_tree.specs.Views.{stmt_trees};
ghost use Rattle.ped_eval.specs.Loops as Loops;
ghost use Rattle.ped_eval.specs.Plans.{entered_by};
ghost use Rattle.ped_tree.specs.Views.{head_of};
ghost use Rattle.ped_eval.specs.Noting.{noted, AreNoted, HasAdded};

use crate::notes::Notes;
use crate::plans::Plan;
use crate::scopes::Scope;
use ped_base::Name;
use ped_tree::Do;
use std::alloc::Global;

/// The notes of the exit of a DO: its variable, its PRIVATE names by the references after those in its bounds, and what
/// else is private to its iterations.
pub(crate) fn exit_notes(alloc: Global, scope: &Scope, d: &Do, plan: &Plan) -> Notes
    ensures { AreNoted result (noted (Loops.exit_touches (entered_by (head_of d.now) plan.now plan.now.behind) scope.now)) }
{
    let mut notes = Notes::from_reference(alloc, plan.behind);
    notes.touch(&scope.cell(&d.variable), true);
    refer_all(&mut notes, scope, d.private.as_slice());
    touch_all(&mut notes, scope, plan.inner.as_slice());
    notes
}

/// Notes writes of scalars, by the next references.
fn refer_all(notes: &mut Notes, scope: &Scope, names: &[Name])
    ensures { HasAdded notes.old (noted (Loops.undefined_by scope.now notes.old.next names.now)) notes.new }
{
    for name in names {
        notes.refer(&scope.cell(name), true);
    }
}

/// Notes writes of scalars, by no reference.
fn touch_all(notes: &mut Notes, scope: &Scope, names: &[Name])
    ensures { HasAdded notes.old (noted (Loops.undefined_all scope.now names.now)) notes.new }
{
    for name in names {
        notes.touch(&scope.cell(name), true);
    }
}
