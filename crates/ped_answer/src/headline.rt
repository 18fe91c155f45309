//! The headline: what holds for each answer to words and files, by the definitions of `specs/Headline.antt`. No
//! function here does anything; its contract is the law. `runs_are_as_before` is the third part of the headline, on
//! what programs mean.

ghost use Rattle.std.specs.Prelude.{ℕ, List, Option};
ghost use Rattle.ped_io.specs.Outside.{Contents};
ghost use Rattle.ped_words.specs.Requests as plain;
ghost use Rattle.ped_answer.specs.declared.answering.Status.{Status};
ghost use Rattle.ped_answer.specs.Answer.{IsWhole, Answers};
ghost use Rattle.ped_answer.specs.Headline.{PanesRequest, HistoryRequest, RunsRequest, UnitsRequest, CausesRequest, EvidenceRequest, AutoRequest, CoveredRequest};

use crate::generating::{made_programs_are_trusted, made_programs_have_no_list};
use std::sync::ledger::Ledger;

/// In each answer to `show`, and in each to a session at each `source`, `deps`, `deps S`, `show` and `calls`, the panes are
/// those that come of reading the printed text of the present program afresh, whatever was done before.
pub fn panes_are_afresh()
    ensures { (request : Option plain.Request) (files : Contents) (s : Status) (bytes : List ℕ) → IsWhole s →
        Answers request files s bytes → PanesRequest request files bytes }
{
    ped_session::sources_are_printed();
}

/// In each answer to `show`, and in each to a session at each `deps`, `deps S`, `show` and `calls`, the panes cover the run
/// in order of the present program, on whatever data. Two accesses that references make to one cell, one of them a write, in
/// one execution of a DO around both have a row with their directions; two that race have one that a
/// PARALLEL DO carries. In the pane of calls two such accesses have a row with their level where one is made in the block of
/// a CALL, but not both in one execution of it; of races it isn't said there. Where two accesses conflict so and have no row, a
/// DO makes one of them itself: it reads its variable in its body, or stores it when it is left. And what a row marked proven
/// says occurs, in each of its directions, once the run has left the outermost DO, except for variables that are copied.
pub fn panes_cover_runs()
    ensures { (request : Option plain.Request) (files : Contents) (s : Status) (bytes : List ℕ) → IsWhole s →
        Answers request files s bytes → CoveredRequest request files bytes }
{
    panes_are_afresh();
    ped_session::conflicts_are_covered();
    ped_session::races_are_covered();
    ped_session::calls_are_covered();
    ped_rows::proven_dependences_occur();
}

/// In each answer to a session the sources are one after another: `undo` and `redo` go along them, byte for byte, and
/// are accepted exactly where there is one to go to; a change puts its source after the present one; and nothing else
/// moves.
pub fn history_is_kept()
    ensures { (request : Option plain.Request) (files : Contents) (s : Status) (bytes : List ℕ) → IsWhole s →
        Answers request files s bytes → HistoryRequest request files bytes }
{}

/// In each answer to a session each transformation or `reject` at a statement that is there is refused exactly where something
/// forbids it, and reports the first cause; where the statement isn't there, it reports that.
pub fn refusals_have_causes()
    ensures { (request : Option plain.Request) (files : Contents) (s : Status) (bytes : List ℕ) → IsWhole s →
        Answers request files s bytes → CausesRequest request files bytes }
{}

/// In each answer to a session, after what is said of a step comes a row for each line of its evidence that proves nothing
/// in the present program. What each other line claims is so: in no run of that program do its references conflict in
/// directions that its pattern fits.
pub fn evidence_is_so()
    ensures { (request : Option plain.Request) (files : Contents) (s : Status) (bytes : List ℕ) → IsWhole s →
        Answers request files s bytes → EvidenceRequest request files bytes }
{
    ped_session::disproved_never_meets();
}

/// In each answer to a session each `run` of its script shows what the programs show from which the present one has come
/// by transformations alone, if they are tidy and without C$PED REJECT and run on the data without a fault and without a
/// race. They may have C$PED REJECT lines where no list of sums is live, if on the data these are true of each program on the
/// way, and all these are tidy. And so it is on all data and with all choices, whether a `run` shows it or not. The report of
/// `generate` says that its programs end alike, if the run of the first one ends.
pub fn runs_are_as_before()
    ensures { (request : Option plain.Request) (files : Contents) (s : Status) (bytes : List ℕ) → IsWhole s →
        Answers request files s bytes → RunsRequest request files bytes }
{
    ped_session::runs_are_as_before();
    ped_session::interleavings_keep_the_meaning();
    ped_session::transformations_keep_the_meaning();
    ped_session::without_choices();
    made_programs_have_no_list();
    made_programs_are_trusted();
}

/// In each answer on a file, the program that is shown, or on which the session opens, does what the file's program units do.
/// On all data on which these run without a fault it has their outcome. On all data on which they meet a fault it meets the
/// same, unless a CALL reads a variable of its own that is undefined. In a session on whose data they run without a fault,
/// each `run` of its script shows their outcome: without choices before the first change, where no list of sums is live; and
/// with whatever choices after transformations alone, where the opened program is tidy and without C$PED REJECT and
/// runs without a race.
pub fn units_run_as_expanded()
    ensures { (request : Option plain.Request) (files : Contents) (s : Status) (bytes : List ℕ) → IsWhole s →
        Answers request files s bytes → UnitsRequest request files bytes }
{
    ped_call_runs::expansions_run_alike();
    ped_call_runs::expansions_fault_alike();
    ped_session::runs_are_as_before();
    ped_session::without_lists();
    ped_session::without_choices();
}

/// In each answer to a session each `auto` lists steps that lead, one after another, to its source, which has come from
/// the former one by transformations alone, as each of these steps is one; its lines are a script that is read as them;
/// and it reports the first cause against `parallel` at each DO that is left.
pub fn auto_is_told<L: Ledger>()
    ensures { (request : Option plain.Request) (files : Contents) (s : Status) (bytes : List ℕ) → IsWhole s →
        Answers request files s bytes → AutoRequest request files bytes }
{
    ped_session::auto_is_a_script::<L>();
}
