//! The dependence graph of a program.

ghost use Rattle.std.specs.Prelude.{◌≡◌, ◌+◌, ◌≤◌, ◌<◌, List, Some, is_some, map, length, slice_get, All, IfOk, OnOk};
ghost use Rattle.ped_tree.specs.Tree.{ProgramTree};
ghost use Rattle.ped_tree.specs.Numbering.{statement_with, statements_count};
ghost use Rattle.ped_tree.specs.Views.{program_tree};
ghost use Rattle.ped_symbols.specs.NameRefusals.{IsValid};
ghost use Rattle.ped_symbols.specs.Kinds.{table_of};
ghost use Rattle.ped_refs.specs.References.{Reference, references, pairs, pair_count};
ghost use Rattle.ped_edges.specs.CodeEdges.{edge_of, HasAtMostSixLoops};
ghost use Rattle.ped_edges.specs.Edges as plain;
ghost use Rattle.ped_graph.specs.Dependences.{PairEdges, AreEdges};
ghost use Rattle.ped_graph.specs.DependencePane as Pane;
ghost use Rattle.ped_graph.specs.Held.{Held, held_of};
ghost use Rattle.ped_graph.specs.Parts.{Fit, turned};

use crate::edges::{edges_asked, edges_of_pair};
use crate::extents::extents;
use crate::frames::Frame;
use crate::parts::{Parts, Slot, exchange_kept, turn};
use crate::preparing::all_pairs;
use crate::printing::pane_of_pairs;
use crate::selections::{Question, Region, extent_of, has_number, keep_carried_in, keep_touching};
use crate::testing::test_all;
use ped_base::{Bytes, NoMemory};
use ped_edges::{Edge, edges_pane};
use ped_tree::Program;
use ped_tree::constants::Consts;
use ped_verdict::{Steps, Verdict};
use ped_views::PairView;
use std::alloc::Global;
use std::marker::Model;
use std::mem;
use std::sync::ledger::Ledger;

/// The dependence graph of a program: one verdict for each ordered pair of references to one name with a write and
/// a common DO (Allen and Kennedy, section 2.2). Contracts see what it holds.
#[derive(Drop)]
pub struct Graph<L: Ledger> {
    frame: Frame,
    verdicts: Vec<Slot<L>>,
}

impl<L: Ledger> Model for Graph<L> {
    ghost use Rattle.ped_graph.specs.Held.{Held};
    ghost use Rattle.ped_graph.specs.CodeFacts.{views_in, AreWhole};

    ghost Value = { Held };

    ghost view = { λ g. record { frame = g.frame; views = views_in g.verdicts.items } };

    ghost invariant = { λ g. AreWhole g.frame g.verdicts.items };
}

/// A program before its pairs are tested: what is known of them, and the views that are to be tested, in the order
/// of the pairs. Contracts see what its graph would hold.
#[derive(Drop)]
pub struct Prepared {
    /// What is known without a test.
    pub frame: Frame,
    /// The views of the pairs.
    pub views: Vec<PairView>,
}

impl Model for Prepared {
    ghost use Rattle.ped_graph.specs.Held.{Held};

    ghost Value = { Held };

    ghost view = { λ p. record { frame = p.frame; views = p.views.items } };
}

impl Prepared {
    /// The dependences of a pair, which isn't tested: no verdict is made and no test counted. Pairs count from 0.
    pub fn edges_of(&self, alloc: Global, n: u64) -> Result<Vec<Edge>, NoMemory>
        requires pairs { n < length self.now.frame.pairs }
        requires views { n < length self.now.views }
        ensures edges { IfOk result (λ edges. (t : ProgramTree) (p : Reference × Reference) → self.now ≡ held_of t → slice_get (pairs (references t)) n ≡ Some p
            → PairEdges t p.0 p.1 (map edge_of edges.items)) }
        ensures short { IfOk result (λ edges. All HasAtMostSixLoops edges.items) }
    {
        let place = n as usize;
        edges_of_pair(alloc, &self.frame.pairs()[place], &self.views[place])
    }
}

/// What the graph of a valid program knows before its pairs are tested, where these are its named constants.
pub fn prepare(alloc: Global, program: &Program, consts: &Consts) -> Result<Prepared, NoMemory>
    requires valid { IsValid (program_tree program.now) }
    requires constants { consts.now ≡ (table_of (program_tree program.now)).constants }
    ensures { IfOk result (λ prepared. prepared ≡ held_of (program_tree program.now)) }
{
    let extents = extents(alloc, &program.body)?;
    let pairs = all_pairs(alloc, program, consts)?;
    Ok(Prepared {
        frame: Frame {
            pairs: pairs.facts,
            extents,
        },
        views: pairs.views,
    })
}

impl<L: Ledger> Graph<L> {
    /// The graph of a valid program, whose named constants these are. Each pair is tested once. If memory runs out,
    /// no more pairs were tested than there are.
    pub fn build(
        alloc: Global,
        program: &Program,
        consts: &Consts,
        steps: &mut Steps<L>,
    ) -> Result<Graph<L>, NoMemory>
        requires valid { IsValid (program_tree program.now) }
        requires constants { consts.now ≡ (table_of (program_tree program.now)).constants }
        ensures built { IfOk result (λ graph. graph ≡ held_of (program_tree program.now)) }
        ensures ticks { OnOk result (steps.new ≡ steps.old + pair_count (references (program_tree program.now))) }
        ensures least { steps.old ≤ steps.new }
        ensures most { steps.new ≤ steps.old + pair_count (references (program_tree program.now)) }
    {
        let prepared = prepare(alloc, program, consts)?;
        let verdicts = test_all(alloc, prepared.views, steps)?;
        Ok(Graph {
            frame: prepared.frame,
            verdicts,
        })
    }

    /// What is known of the program without a test.
    pub fn frame(&self) -> &Frame
        ensures { result.now ≡ self.now.frame }
    {
        &self.frame
    }

    /// The verdict of a pair; pairs count from 0.
    pub fn verdict(&self, n: u64) -> &Verdict<L>
        requires { n < length self.now.frame.pairs }
        ensures { slice_get self.now.views n ≡ Some result.now }
    {
        self.verdicts[n as usize].verdict()
    }

    /// Exchanges the frame and the verdicts for those of another program. A pair of both with the same view keeps its
    /// verdict, which moves. The parts then lead back. It takes no memory and tests nothing.
    pub fn exchange(&mut self, parts: &mut Parts<L>)
        requires { (other : Held) × Fit parts.old self.old other }
        ensures exchanged { (other : Held) → Fit parts.old self.old other → (self.new ≡ other) × Fit parts.new other self.old }
        ensures kept { parts.new.kept ≡ map turned parts.old.kept }
    {
        exchange_kept(&mut self.verdicts, &mut parts.slots, &parts.kept);
        turn(&mut parts.kept);
        mem::swap(&mut self.verdicts, &mut parts.slots);
        mem::swap(&mut self.frame, &mut parts.frame);
    }

    /// How many ordered pairs of references the program has.
    pub fn pair_count(&self) -> u64
        ensures { (t : ProgramTree) → self.now ≡ held_of t → result ≡ pair_count (references t) }
    {
        self.frame.pair_count()
    }

    /// How many numbered statements the program has.
    pub fn statement_count(&self) -> u64
        ensures { (t : ProgramTree) → self.now ≡ held_of t → result ≡ statements_count t.body }
    {
        self.frame.extents().len() as u64
    }

    /// Whether the program has a statement with this number; they count from 1.
    pub fn has_statement(&self, number: u32) -> bool
        ensures { (t : ProgramTree) → self.now ≡ held_of t → result ≡ is_some (statement_with number t) }
    {
        has_number(self.frame.extents(), number)
    }

    /// The dependences of the program, in the order of the pane.
    pub fn edges(&self, alloc: Global) -> Result<Vec<Edge>, NoMemory>
        ensures edges { IfOk result (λ edges. (t : ProgramTree) → self.now ≡ held_of t → AreEdges t (map edge_of edges.items)) }
        ensures short { IfOk result (λ edges. All HasAtMostSixLoops edges.items) }
    {
        edges_asked(alloc, self.frame.pairs(), &self.verdicts, Question::All)
    }

    /// The dependences of a level, 1 for the outermost loop, with both references in the body of the DO with this
    /// number, in the order of the pane; none where no statement has this number.
    pub fn edges_at(&self, alloc: Global, statement: u32, level: u8) -> Result<Vec<Edge>, NoMemory>
        ensures edges { IfOk result (λ edges. (t : ProgramTree) → self.now ≡ held_of t
            → (all : List plain.Edge) × AreEdges t all × (map edge_of edges.items ≡ Pane.edges_at t statement level all)) }
        ensures short { IfOk result (λ edges. All HasAtMostSixLoops edges.items) }
    {
        let extent = self.extent(statement);
        let question = Question::Within(Region {
            number: statement,
            extent,
        });
        let mut edges = edges_asked(alloc, self.frame.pairs(), &self.verdicts, question)?;
        keep_carried_in(&mut edges, statement, extent, level);
        Ok(edges)
    }

    /// The dependence pane of the program; of a statement, the pane with the rows alone whose source or sink is the
    /// statement or is in it.
    pub fn dependence_pane(&self, alloc: Global, of: Option<u32>) -> Result<Bytes, NoMemory>
        ensures { IfOk result (λ pane. (t : ProgramTree) → self.now ≡ held_of t → Pane.IsDependencePaneOf t of pane) }
    {
        match of {
            Some(number) => self.pane_of(alloc, number),
            None => self.whole_pane(alloc),
        }
    }

    /// The dependence pane of the program.
    fn whole_pane(&self, alloc: Global) -> Result<Bytes, NoMemory>
        ensures { IfOk result (λ pane. (t : ProgramTree) → self.now ≡ held_of t → Pane.IsDependencePane t pane) }
    {
        pane_of_pairs(alloc, self.frame.pairs(), &self.verdicts)
    }

    /// The dependence pane with the rows of a statement alone.
    fn pane_of(&self, alloc: Global, number: u32) -> Result<Bytes, NoMemory>
        ensures { IfOk result (λ pane. (t : ProgramTree) → self.now ≡ held_of t → Pane.IsDependencePaneOf t (Some number) pane) }
    {
        let extent = self.extent(number);
        let question = Question::Touching(Region { number, extent });
        let mut edges = edges_asked(alloc, self.frame.pairs(), &self.verdicts, question)?;
        keep_touching(&mut edges, number, extent);
        edges_pane(alloc, &edges)
    }

    /// How many numbered statements the statement with this number has; 0 where there is none.
    fn extent(&self, number: u32) -> u32
        ensures { (t : ProgramTree) → self.now ≡ held_of t → result ≡ Pane.extent_of t number }
    {
        extent_of(self.frame.extents(), number)
    }
}
