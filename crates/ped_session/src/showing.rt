//! What is shown of the present program. Nothing here changes the session.

ghost use Rattle.std.specs.Prelude.{◌≡◌, IfOk, Some};
ghost use Rattle.ped_transformations.specs.ped_graph.specs.DependencePane.{IsDependencePane, IsDependencePaneOf};
ghost use Rattle.ped_transformations.specs.Advice.{IsAdvice};
ghost use Rattle.ped_transformations.specs.ped_inline.specs.CallsPane.{IsCallsPane};
ghost use Rattle.ped_session.specs.Panes.{IsSourcePane, ArePanes};
ghost use Rattle.ped_session.specs.Panes as Panes;
ghost use Rattle.ped_session.specs.OutcomeTexts.{IsRunText};
ghost use Rattle.ped_session.specs.RaceRows.{IsRaceRow};
ghost use Rattle.ped_session.specs.Steps.{Shows, ShowsStatement, ShowsSystem, Prints, ShowsAnswer};

use crate::outcome_texts::outcome_text;
use crate::race_rows::race_row;
use crate::replies::{Refusal, Reply};
use crate::running::run_present;
use crate::session::Session;
use ped_base::{Bytes, NoMemory, push_number};
use ped_order::{flow_of, races};
use ped_print::source_pane;
use ped_script::{Position, Query, Sign};
use ped_transformations::{Scene, advice, calls_pane, system_text};
use std::alloc::Global;
use std::sync::ledger::Ledger;

impl<L: Ledger> Session<L> {
    /// What is asked for.
    pub(crate) fn show(&self, alloc: Global, query: &Query) -> Result<Reply, NoMemory>
        ensures { IfOk result (λ reply. ShowsAnswer query.now self.now reply self.now) }
    {
        match query {
            Query::Source => return self.show_source(alloc),
            Query::Deps(None) => return self.show_all_dependences(alloc),
            Query::Deps(Some(number)) => return self.show_dependences_of(alloc, *number),
            Query::Show => return self.show_both(alloc),
            Query::Calls => return self.show_calls(alloc),
            Query::Print => return self.show_text(alloc),
            Query::Advise(number) => return self.show_advice(alloc, *number),
            Query::System(source, sink, pattern) => {
                return self.show_system(alloc, source, sink, pattern.as_slice());
            }
            Query::Tested => return self.show_tested(alloc),
        }
    }

    /// The source pane.
    fn show_source(&self, alloc: Global) -> Result<Reply, NoMemory>
        ensures { IfOk result (λ reply. Shows IsSourcePane self.now reply self.now) }
    {
        Ok(Reply::Shown(source_pane(alloc, self.versions.present().program)?))
    }

    /// The dependence pane.
    fn show_all_dependences(&self, alloc: Global) -> Result<Reply, NoMemory>
        ensures { IfOk result (λ reply. Shows IsDependencePane self.now reply self.now) }
    {
        Ok(Reply::Shown(self.versions.present().graph.dependence_pane(alloc, None)?))
    }

    /// The dependence pane of the statement with this number, where there is one.
    fn show_dependences_of(&self, alloc: Global, number: u32) -> Result<Reply, NoMemory>
        ensures { IfOk result (λ reply. ShowsStatement (λ t. IsDependencePaneOf t (Some number)) number self.now reply self.now) }
    {
        let graph = self.versions.present().graph;
        if !graph.has_statement(number) {
            return Ok(Reply::Refused(Refusal::NoSuchStatement));
        }
        Ok(Reply::Shown(graph.dependence_pane(alloc, Some(number))?))
    }

    /// How many pairs of references the last accepted change, undo or redo has tested, or the opening.
    fn show_tested(&self, alloc: Global) -> Result<Reply, NoMemory>
        ensures { IfOk result (λ reply. Prints (Panes.tested_row self.now.tested) self.now reply self.now) }
    {
        Ok(Reply::Shown(tested_row(alloc, self.tested())?))
    }

    /// Both panes.
    fn show_both(&self, alloc: Global) -> Result<Reply, NoMemory>
        ensures { IfOk result (λ reply. Shows ArePanes self.now reply self.now) }
    {
        let present = self.versions.present();
        let mut panes = source_pane(alloc, present.program)?;
        let dependences = present.graph.dependence_pane(alloc, None)?;
        panes.extend_from_slice(dependences.as_slice())?;
        Ok(Reply::Shown(panes))
    }

    /// The pane of calls.
    fn show_calls(&self, alloc: Global) -> Result<Reply, NoMemory>
        ensures { IfOk result (λ reply. Shows IsCallsPane self.now reply self.now) }
    {
        let present = self.versions.present();
        let flow = flow_of(alloc, present.program)?;
        let scene = Scene {
            tree: present.program,
            symbols: present.symbols,
            graph: present.graph,
            flow: &flow,
        };
        Ok(Reply::Shown(calls_pane(alloc, &scene)?))
    }

    /// The source lines alone.
    fn show_text(&self, alloc: Global) -> Result<Reply, NoMemory>
        ensures { IfOk result (λ reply. Prints self.now.present self.now reply self.now) }
    {
        let mut text = Bytes::new(alloc);
        text.extend_from_slice(self.source())?;
        Ok(Reply::Shown(text))
    }

    /// The advice on the statement with this number, where there is one.
    fn show_advice(&self, alloc: Global, number: u32) -> Result<Reply, NoMemory>
        ensures { IfOk result (λ reply. ShowsStatement (λ t. IsAdvice t number) number self.now reply self.now) }
    {
        let present = self.versions.present();
        if !present.graph.has_statement(number) {
            return Ok(Reply::Refused(Refusal::NoSuchStatement));
        }
        let flow = flow_of(alloc, present.program)?;
        let scene = Scene {
            tree: present.program,
            symbols: present.symbols,
            graph: present.graph,
            flow: &flow,
        };
        Ok(Reply::Shown(advice(alloc, &scene, number)?))
    }

    /// The system of two references and a pattern, where evidence may speak of them in the present program.
    fn show_system(
        &self,
        alloc: Global,
        source: &Position,
        sink: &Position,
        pattern: &[Sign],
    ) -> Result<Reply, NoMemory>
        ensures { IfOk result (λ reply. ShowsSystem source.now sink.now pattern.now self.now reply self.now) }
    {
        let present = self.versions.present();
        match system_text(
            alloc,
            present.program,
            present.symbols,
            source,
            sink,
            pattern,
        )? {
            Some(text) => Ok(Reply::Shown(text)),
            None => Ok(Reply::Refused(Refusal::NoSuchPair)),
        }
    }

    /// The outcome of the present program on these data, with these choices: that of what it is lowered to.
    pub(crate) fn show_run(
        &self,
        alloc: Global,
        choices: &[u64],
        input: &[u8],
    ) -> Result<Reply, NoMemory>
        ensures { IfOk result (λ reply. Shows (IsRunText choices.now input.now) self.now reply self.now) }
    {
        let outcome = run_present(alloc, &self.versions.present(), input, choices)?;
        Ok(Reply::Shown(outcome_text(alloc, &outcome)?))
    }

    /// The first race of the present program on these data, a fault that comes before any, or that there is neither.
    pub(crate) fn show_races(&self, alloc: Global, input: &[u8]) -> Result<Reply, NoMemory>
        ensures { IfOk result (λ reply. Shows (IsRaceRow input.now) self.now reply self.now) }
    {
        let present = self.versions.present();
        let report = races(alloc, present.program, present.symbols, input)?;
        Ok(Reply::Shown(race_row(alloc, &report)?))
    }
}

/// The row that says how many pairs were tested.
fn tested_row(alloc: Global, tested: u64) -> Result<Bytes, NoMemory>
    ensures { IfOk result (λ row. row ≡ Panes.tested_row tested) }
{
    let mut row = Bytes::new(alloc);
    row.extend_from_slice(b"tested ")?;
    push_number(&mut row, tested)?;
    row.push(b'\n')?;
    Ok(row)
}
