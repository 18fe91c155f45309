//! Versions of a program, and what leads from one to another.

ghost use Rattle.std.specs.Prelude.{◌≡◌, ◌≢◌, ◌+◌, ◌≤◌, List, length, IfOk, IfErr, OnOk};
ghost use Rattle.ped_tree.specs.Tree.{ProgramTree};
ghost use Rattle.ped_tree.specs.Numbering.{statements_count};
ghost use Rattle.ped_tree.specs.Views.{program_tree};
ghost use Rattle.ped_tree.specs.Grammar.Refusal.{Finding};
ghost use Rattle.ped_refs.specs.References.{references, pair_count};
ghost use Rattle.ped_valid.specs.ped_symbols.specs.NameRefusals.{IsValid};
ghost use Rattle.ped_valid.specs.ped_symbols.specs.Kinds.{table_of};
ghost use Rattle.ped_valid.specs.Validity.{ReadsValid, RefusesText};
ghost use Rattle.ped_valid.specs.Refusals.{IsRefusalOf};
ghost use Rattle.ped_update.specs.ped_graph.specs.ped_edges.specs.Edges as plain;
ghost use Rattle.ped_update.specs.ped_graph.specs.Dependences.{AreEdges};
ghost use Rattle.ped_versions.specs.States.{opened};
ghost use Rattle.ped_versions.specs.Holding.{IsPresent};

use crate::changes::ChangeKind;
use ped_base::{Bytes, NoMemory};
use ped_history::History;
use ped_print::print;
use ped_tree::Program;
use ped_update::{Delta, Graph};
use ped_valid::{OpenRefusal, Opened, Symbols, open_program};
use ped_verdict::Steps;
use std::alloc::Global;
use std::marker::Model;
use std::sync::ledger::Ledger;

/// A valid program.
#[derive(Drop)]
pub(crate) struct Version {
    /// The program.
    pub(crate) program: Program,
    /// What its names stand for.
    pub(crate) symbols: Symbols,
    /// Its printed text.
    pub(crate) text: Bytes,
}

/// A change that can be taken back, or done again.
#[derive(Drop)]
pub(crate) struct Entry<L: Ledger> {
    /// The text on its other side.
    pub(crate) text: Bytes,
    /// Its kind.
    pub(crate) change: ChangeKind,
    /// What leads to the program there.
    pub(crate) way: Way<L>,
}

/// What leads to another program.
#[derive(Drop)]
pub(crate) enum Way<L: Ledger> {
    /// That program, apart.
    Apart(Apart<L>),
    /// The DO with this number is a PARALLEL DO there, or isn't one. All else is the same, also what names stand for and
    /// the graph.
    Flag { number: u32, parallel: bool },
}

/// A program in a history.
#[derive(Drop)]
pub(crate) struct Apart<L: Ledger> {
    /// The program.
    pub(crate) program: Program,
    /// What its names stand for.
    pub(crate) symbols: Symbols,
    /// What takes the graph there.
    pub(crate) delta: Delta<L>,
}

/// The versions of a program: the present one with its graph, and past and future ones. Contracts see their sources.
#[derive(Drop)]
pub struct Versions<L: Ledger> {
    pub(crate) present: Version,
    pub(crate) graph: Graph<L>,
    pub(crate) history: History<Entry<L>>,
    pub(crate) tested: u64,
}

/// The present program with what its names stand for and its graph.
#[derive(Clone, Copy)]
pub struct Present<'a, L: Ledger> {
    /// The program.
    pub program: &'a Program,
    /// What its names stand for.
    pub symbols: &'a Symbols,
    /// Its graph.
    pub graph: &'a Graph<L>,
}

impl<L: Ledger> Model for Versions<L> {
    ghost use Rattle.std.specs.Prelude.{map};
    ghost use Rattle.ped_versions.specs.States.{State};
    ghost use Rattle.ped_versions.specs.Holding.{other_of, IsConsistent};

    ghost Value = { State };

    ghost view = { λ s. record { past = map other_of s.history.past; present = s.present.text; future = map other_of s.history.future; tested = s.tested } };

    ghost invariant = { λ s. IsConsistent s.present s.graph s.history.past s.history.future };
}

impl<L: Ledger> Versions<L> {
    /// One version, that of the program of a text. Its source is the program's printed text, and each pair of
    /// references is tested once. If memory runs out, no more pairs were tested.
    ///
    /// # Errors
    ///
    /// `At` exactly where the text is refused, with its first refusal; then nothing is tested. `NoMemory` where memory
    /// runs out.
    pub fn open(
        alloc: Global,
        text: &[u8],
        steps: &mut Steps<L>,
    ) -> Result<Versions<L>, OpenRefusal>
        ensures opened { IfOk result (λ s. (t : ProgramTree) × ReadsValid text.now t × (s ≡ opened t)) }
        ensures refused { IfErr result (IsRefusalOf text.now) }
        ensures ticks { OnOk result ((t : ProgramTree) → ReadsValid text.now t → steps.new ≡ steps.old + pair_count (references t)) }
        ensures untested { IfErr result (λ e. e ≢ OpenRefusal.NoMemory → steps.new ≡ steps.old) }
        ensures none { (f : Finding) → RefusesText text.now f → steps.new ≡ steps.old }
        ensures least { steps.old ≤ steps.new }
        ensures most { (t : ProgramTree) → ReadsValid text.now t → steps.new ≤ steps.old + pair_count (references t) }
    {
        let program = open_program(alloc, text)?;
        match Versions::begin(alloc, program, steps) {
            Ok(versions) => Ok(versions),
            Err(NoMemory) => Err(OpenRefusal::NoMemory),
        }
    }

    /// One version, that of a valid program. Its source is the program's printed text, and each pair of references is
    /// tested once. If memory runs out, no more pairs were tested.
    pub fn begin(alloc: Global, new: Opened, steps: &mut Steps<L>) -> Result<Versions<L>, NoMemory>
        requires valid { IsValid (program_tree new.program) }
        requires symbols { new.symbols ≡ table_of (program_tree new.program) }
        ensures opened { IfOk result (λ s. s ≡ opened (program_tree new.program)) }
        ensures ticks { OnOk result (steps.new ≡ steps.old + pair_count (references (program_tree new.program))) }
        ensures least { steps.old ≤ steps.new }
        ensures most { steps.new ≤ steps.old + pair_count (references (program_tree new.program)) }
    {
        let text = print(alloc, &new.program)?;
        let graph = Graph::build(alloc, &new.program, new.symbols.consts(), steps)?;
        let tested = graph.pair_count();
        Ok(Versions {
            present: Version {
                program: new.program,
                symbols: new.symbols,
                text,
            },
            graph,
            history: History::new(alloc),
            tested,
        })
    }

    /// The present program with what its names stand for and its graph.
    pub fn present<'a>(&'a self) -> Present<'a, L>
        ensures is { IsPresent result }
        ensures reads { ReadsValid self.now.present (program_tree result.program.now) }
    {
        Present {
            program: &self.present.program,
            symbols: &self.present.symbols,
            graph: &self.graph,
        }
    }

    /// The present source.
    pub fn source(&self) -> &[u8]
        ensures { result.now ≡ self.now.present }
    {
        self.present.text.as_slice()
    }

    /// How many numbered statements the present program has.
    pub fn statements(&self) -> u64
        ensures { (t : ProgramTree) → ReadsValid self.now.present t → result ≡ statements_count t.body }
    {
        self.graph.statement_count()
    }

    /// How many ordered pairs of references the present program has.
    pub fn pairs(&self) -> u64
        ensures { (t : ProgramTree) → ReadsValid self.now.present t → result ≡ pair_count (references t) }
    {
        self.graph.pair_count()
    }

    /// How many dependences the present program has.
    pub fn edges(&self, alloc: Global) -> Result<u64, NoMemory>
        ensures { IfOk result (λ n. (t : ProgramTree) → ReadsValid self.now.present t → (edges : List plain.Edge) → AreEdges t edges → n ≡ length edges) }
    {
        let found = self.graph.edges(alloc)?;
        Ok(found.as_slice().len() as u64)
    }

    /// How many pairs of references the last accepted change, undo or redo has tested, or the opening.
    pub fn tested(&self) -> u64
        ensures { result ≡ self.now.tested }
    {
        self.tested
    }
}
