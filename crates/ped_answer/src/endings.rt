//! Outcomes of two runs compared.

ghost use Rattle.std.specs.Prelude.{◌≡◌, ◌↔◌, IsTrue, map};
ghost use Rattle.ped_session.specs.ped_rules.specs.ped_eval.specs.Outcomes.{Ended};
ghost use Rattle.ped_session.specs.ped_rules.specs.ped_eval.specs.OutcomeViews.{outcome_view, row_view};
ghost use Rattle.ped_answer.specs.Generated.{EndAlike};

use ped_base::Bytes;
use ped_session::{LiveRow, Outcome};

/// Whether both runs ended, with the same output and the same values of the live-out variables.
pub fn end_alike(first: &Outcome, second: &Outcome) -> bool
    ensures { IsTrue result ↔ EndAlike (outcome_view first.now) (outcome_view second.now) }
{
    match first {
        Outcome::Ended { output, live } => {
            return has_ended(second, output.as_slice(), live.as_slice());
        }
        Outcome::Fault { .. } => return false,
    }
}

/// Whether a run ended with this output and these live-out variables.
fn has_ended(outcome: &Outcome, output: &[Bytes], live: &[LiveRow]) -> bool
    ensures { IsTrue result ↔ (outcome_view outcome.now ≡ Ended output.now (map row_view live.now)) }
{
    match outcome {
        Outcome::Ended {
            output: lines,
            live: rows,
        } => return same_ends(lines.as_slice(), rows.as_slice(), output, live),
        Outcome::Fault { .. } => return false,
    }
}

/// Whether these are the same lines, and the same live-out variables with the same values.
fn same_ends(lines: &[Bytes], rows: &[LiveRow], output: &[Bytes], live: &[LiveRow]) -> bool
    ensures { IsTrue result ↔ (lines.now ≡ output.now) × (rows.now ≡ live.now) }
{
    same_lines(lines, output) && same_rows(rows, live)
}

/// Whether these are the same lines.
fn same_lines(left: &[Bytes], right: &[Bytes]) -> bool
    ensures { IsTrue result ↔ (left.now ≡ right.now) }
{
    if left.len() != right.len() {
        return false;
    }
    for (i, line) in left.iter().enumerate() {
        if !same_line(line, &right[i]) {
            return false;
        }
    }
    true
}

/// Whether this is the same line.
fn same_line(left: &Bytes, right: &Bytes) -> bool
    ensures { IsTrue result ↔ (left.now ≡ right.now) }
{
    same_bytes(left.as_slice(), right.as_slice())
}

/// Whether these are the same bytes.
fn same_bytes(left: &[u8], right: &[u8]) -> bool
    ensures { IsTrue result ↔ (left.now ≡ right.now) }
{
    left == right
}

/// Whether these are the same live-out variables with the same values.
fn same_rows(left: &[LiveRow], right: &[LiveRow]) -> bool
    ensures { IsTrue result ↔ (left.now ≡ right.now) }
{
    if left.len() != right.len() {
        return false;
    }
    for (i, row) in left.iter().enumerate() {
        if !same_row(row, &right[i]) {
            return false;
        }
    }
    true
}

/// Whether this is the same live-out variable with the same values.
fn same_row(left: &LiveRow, right: &LiveRow) -> bool
    ensures { IsTrue result ↔ (left.now ≡ right.now) }
{
    same_bytes(left.name.as_bytes(), right.name.as_bytes())
        && same_values(left.values.as_slice(), right.values.as_slice())
}

/// Whether these are the same values, and the same are undefined.
fn same_values(left: &[Option<i128>], right: &[Option<i128>]) -> bool
    ensures { IsTrue result ↔ (left.now ≡ right.now) }
{
    left == right
}
