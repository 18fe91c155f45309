//! Steps back and forward along the history, which take no memory.

ghost use Rattle.std.specs.Prelude.{◌≡◌, is_ok};
ghost use Rattle.ped_tree.specs.Views.{program_tree};
ghost use Rattle.ped_valid.specs.ped_symbols.specs.Kinds.{table_of};
ghost use Rattle.ped_valid.specs.ped_symbols.specs.NameRefusals.{IsValid};
ghost use Rattle.ped_update.specs.ped_graph.specs.Held.{held_of};
ghost use Rattle.ped_update.specs.Deltas.{TakesTo};
ghost use Rattle.ped_versions.specs.Changing.{MovesBack, MovesForward};
ghost use Rattle.ped_versions.specs.Holding.{tree_of, IsVersion, IsWay, LeadsFrom, led_by};

use crate::flags::set_flag;
use crate::versions::{Apart, Entry, Version, Versions, Way};
use ped_history::{NothingToRedo, NothingToUndo};
use ped_tree::Program;
use ped_update::Graph;
use ped_valid::Symbols;
use std::mem::{replace, swap};
use std::sync::ledger::Ledger;

impl<L: Ledger> Versions<L> {
    /// Goes to the newest past version.
    ///
    /// # Errors
    ///
    /// `NothingToUndo` exactly where there is none; then nothing changes.
    pub fn undo(&mut self) -> Result<(), NothingToUndo>
        ensures { MovesBack self.old.past self.old (is_ok result) self.new }
    {
        match self.history.back() {
            Ok(entry) => {
                exchange(&mut self.present, &mut self.graph, entry);
                self.tested = 0;
                Ok(())
            }
            Err(NothingToUndo) => Err(NothingToUndo),
        }
    }

    /// Goes to the next future version.
    ///
    /// # Errors
    ///
    /// `NothingToRedo` exactly where there is none; then nothing changes.
    pub fn redo(&mut self) -> Result<(), NothingToRedo>
        ensures { MovesForward self.old.future self.old (is_ok result) self.new }
    {
        match self.history.forward() {
            Ok(entry) => {
                exchange(&mut self.present, &mut self.graph, entry);
                self.tested = 0;
                Ok(())
            }
            Err(NothingToRedo) => Err(NothingToRedo),
        }
    }
}

/// Goes from the present program to that of an entry, which then leads back.
fn exchange<L: Ledger>(present: &mut Version, graph: &mut Graph<L>, entry: &mut Entry<L>)
    requires version { IsVersion present.old }
    requires graph { graph.old ≡ held_of (tree_of present.old) }
    requires leads { LeadsFrom (tree_of present.old) entry.old }
    ensures text { present.new.text ≡ entry.old.text }
    ensures program { tree_of present.new ≡ led_by entry.old.way (tree_of present.old) }
    ensures symbols { present.new.symbols ≡ table_of (tree_of present.new) }
    ensures graph { graph.new ≡ held_of (tree_of present.new) }
    ensures other { entry.new.text ≡ present.old.text }
    ensures change { entry.new.change ≡ entry.old.change }
    ensures back { led_by entry.new.way (tree_of present.new) ≡ tree_of present.old }
    ensures way { IsWay entry.new.way (tree_of present.new) }
{
    swap(&mut present.text, &mut entry.text);
    let no_way = Way::Flag {
        number: 0,
        parallel: false,
    };
    let way = replace(&mut entry.way, no_way);
    let back = go(&mut present.program, &mut present.symbols, graph, way);
    let gone = replace(&mut entry.way, back);
    drop(gone);
}

/// Goes from a program, whose names and graph these are, along a way. The way back.
fn go<L: Ledger>(
    program: &mut Program,
    symbols: &mut Symbols,
    graph: &mut Graph<L>,
    way: Way<L>,
) -> Way<L>
    requires valid { IsValid (program_tree program.old) }
    requires symbols { symbols.old ≡ table_of (program_tree program.old) }
    requires graph { graph.old ≡ held_of (program_tree program.old) }
    requires way { IsWay way (program_tree program.old) }
    ensures program { program_tree program.new ≡ led_by way (program_tree program.old) }
    ensures symbols { symbols.new ≡ table_of (program_tree program.new) }
    ensures graph { graph.new ≡ held_of (program_tree program.new) }
    ensures back { led_by result (program_tree program.new) ≡ program_tree program.old }
    ensures way { IsWay result (program_tree program.new) }
{
    match way {
        Way::Apart(apart) => {
            let other = come(program, symbols, graph, apart);
            return Way::Apart(other);
        }
        Way::Flag { number, parallel } => {
            set_flag(program, number, parallel);
            return Way::Flag {
                number,
                parallel: !parallel,
            };
        }
    }
}

/// Exchanges a program, whose names and graph these are, with one that is apart.
fn come<L: Ledger>(
    program: &mut Program,
    symbols: &mut Symbols,
    graph: &mut Graph<L>,
    apart: Apart<L>,
) -> Apart<L>
    requires symbols { symbols.old ≡ table_of (program_tree program.old) }
    requires graph { graph.old ≡ held_of (program_tree program.old) }
    requires other { apart.symbols ≡ table_of (program_tree apart.program) }
    requires way { TakesTo apart.delta (held_of (program_tree program.old)) (held_of (program_tree apart.program)) }
    ensures program { program_tree program.new ≡ program_tree apart.program }
    ensures symbols { symbols.new ≡ table_of (program_tree program.new) }
    ensures graph { graph.new ≡ held_of (program_tree program.new) }
    ensures back { program_tree result.program ≡ program_tree program.old }
    ensures other { result.symbols ≡ table_of (program_tree result.program) }
    ensures way { TakesTo result.delta (held_of (program_tree program.new)) (held_of (program_tree result.program)) }
{
    let mut other = apart;
    swap(program, &mut other.program);
    swap(symbols, &mut other.symbols);
    ped_update::swap(graph, &mut other.delta);
    other
}
