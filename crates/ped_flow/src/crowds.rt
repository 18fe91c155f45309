//! Whether rows for all scalars pay. A question about a loop asks about the variable of each loop in it, so they pay where
//! a loop has many others in it.

use ped_tree::Stmt;

/// A statement with more loops than these is crowded.
const FEW_LOOPS: u32 = 16;

/// Whether a statement among these is crowded.
pub(crate) fn is_crowded(body: &[Stmt]) -> bool {
    for s in body {
        if spare(s, FEW_LOOPS).is_none() {
            return true;
        }
    }
    false
}

/// How many of these loops a statement leaves; none where it has more.
#[cycle(crowds)]
fn spare(s: &Stmt, few: u32) -> Option<u32> {
    match s {
        Stmt::Do(d) => match few.checked_sub(1) {
            Some(others) => {
                return spare_in_all(&d.body, others);
            }
            None => {
                return None;
            }
        },
        Stmt::If {
            condition: _,
            then_part,
            else_part,
        } => match spare_in_all(then_part, few) {
            Some(others) => {
                return spare_in_all(else_part, others);
            }
            None => {
                return None;
            }
        },
        Stmt::Assign { left: _, right: _ } => {
            return Some(few);
        }
        Stmt::Print(_) => {
            return Some(few);
        }
        Stmt::Read(_) => {
            return Some(few);
        }
        Stmt::Stop => {
            return Some(few);
        }
        Stmt::Comment(_) => {
            return Some(few);
        }
    }
}

/// How many of these loops statements leave; none where they have more.
#[cycle(crowds)]
fn spare_in_all(body: &[Stmt], few: u32) -> Option<u32> {
    let mut left = few;
    for s in body {
        match spare(s, left) {
            Some(others) => {
                left = others;
            }
            None => {
                return None;
            }
        }
    }
    Some(left)
}
