//! Statements that a walk for a scalar can skip, by what is known of them.

ghost use Rattle.std.specs.Prelude.{◌≡◌, ◌+◌, ◌<◌, ◌≤◌, ◌⊎◌, None, Some, IfSome};
ghost use Rattle.ped_tree.specs.Views.{stmt_tree};
ghost use Rattle.ped_tree.specs.Numbering.{statement_count};
ghost use Rattle.ped_flow.specs.Summaries as Spec;
ghost use Rattle.ped_flow.specs.Kept.{name_of, constants_of, first_outside};
ghost use Rattle.ped_flow.specs.Entries.{entry_at, IsEntry, IsKnown};

use crate::asked::Scalar;
use crate::entries::Entry;
use crate::row_walks::is_numbered;
use ped_tree::Stmt;

/// The number after a statement in which nothing happens to the scalar.
pub(crate) fn past(scalar: &Scalar, s: &Stmt, number: u32) -> Option<u32>
    requires { IsKnown scalar.now (stmt_tree s.now) number }
    ensures passing { IfSome result (λ next. Spec.summary_of (constants_of scalar.now) (name_of scalar.now) (stmt_tree s.now) number ≡ Spec.passing) }
    ensures number { IfSome result (λ next. next ≡ number + statement_count (stmt_tree s.now)) }
{
    match scalar.place {
        Some(place) => match known(scalar, s, number) {
            Some(entry) => {
                if entry.touched.get(place) {
                    return None;
                }
                return Some(entry.behind);
            }
            None => {
                return None;
            }
        },
        None => {
            return None;
        }
    }
}

/// The number after a statement in which nothing reads the scalar outside the loops of it.
pub(crate) fn shut(scalar: &Scalar, s: &Stmt, number: u32) -> Option<u32>
    requires { IsKnown scalar.now (stmt_tree s.now) number }
    ensures none { IfSome result (λ next. first_outside (constants_of scalar.now) (name_of scalar.now) (stmt_tree s.now) number ≡ None) }
    ensures number { IfSome result (λ next. next ≡ number + statement_count (stmt_tree s.now)) }
{
    match scalar.place {
        Some(place) => match known(scalar, s, number) {
            Some(entry) => {
                if entry.part.loose.get(place) {
                    return None;
                }
                return Some(entry.behind);
            }
            None => {
                return None;
            }
        },
        None => {
            return None;
        }
    }
}

/// The number after a statement that neither is the statement `l` nor has it in it.
pub(crate) fn elsewhere(scalar: &Scalar, l: u32, s: &Stmt, number: u32) -> Option<u32>
    requires { IsKnown scalar.now (stmt_tree s.now) number }
    ensures away { IfSome result (λ next. (l < number) ⊎ (number + statement_count (stmt_tree s.now) ≤ l)) }
    ensures number { IfSome result (λ next. next ≡ number + statement_count (stmt_tree s.now)) }
{
    match known(scalar, s, number) {
        Some(entry) => {
            if number <= l && l < entry.behind {
                return None;
            }
            return Some(entry.behind);
        }
        None => {
            return None;
        }
    }
}

/// What is known of a statement, where it has a number.
fn known<'a>(scalar: &Scalar<'a>, s: &Stmt, number: u32) -> Option<&'a Entry>
    requires { IsKnown scalar.now (stmt_tree s.now) number }
    ensures { IfSome result (λ e. IsEntry scalar.now.places.now e.now (stmt_tree s.now) number) }
{
    if !is_numbered(s) {
        return None;
    }
    entry_of(scalar.table, number)
}

/// What a table knows of the statement with a number.
fn entry_of<'a>(table: &'a [Option<Entry>], number: u32) -> Option<&'a Entry>
    ensures { IfSome result (λ e. entry_at table.now number ≡ Some e.now) }
{
    let place = number as usize;
    if place >= table.len() {
        return None;
    }
    match &table[place] {
        Some(entry) => {
            return Some(entry);
        }
        None => {
            return None;
        }
    }
}
