//! PRINT (ANSI X3.9-1978, section 12.8).

ghost use Rattle.std.specs.Prelude.{◌≡◌, ◌+◌, ◌++◌, ℕ, List, map, Ok, Err, OnOk};
ghost use Rattle.std.specs.Fmt.{signed_decimal};
ghost use Rattle.ped_tree.specs.Tree.{Print, Value};
ghost use Rattle.ped_tree.specs.Views.{expr_tree, item_tree};
ghost use Rattle.ped_store.specs.Keeping.{memory_of};
ghost use Rattle.ped_eval.specs.ScopeViews.{names_at};
ghost use Rattle.ped_eval.specs.Runs as Runs;
ghost use Rattle.ped_eval.specs.Statements.{item_text, printed_line};
ghost use Rattle.ped_eval.specs.Readiness.{setting_by, IsReady, CanDo};
ghost use Rattle.ped_eval.specs.Agreement.{before};
ghost use Rattle.ped_eval.specs.Told.{Ran, StaysReady};
ghost use Rattle.ped_eval.specs.Watched.{IfRan, Watched};
ghost use Rattle.ped_eval.specs.Noting.{HasNoted, HasAdded};
ghost use Rattle.ped_eval.specs.StatementNotes.{print_noted};
ghost use Rattle.ped_eval.specs.Items.{blank_before, IsPrinted, IsAdded, IfPrinted};

use crate::evaluation::value_of;
use crate::notes::Notes;
use crate::states::{Flow, RunError, State};
use crate::surroundings::Surroundings;
use crate::telling::tell;
use crate::watches::Watch;
use ped_base::{Bytes, NoMemory, push_signed};
use ped_store::{Cell, RunFault};
use ped_symbols::Symbols;
use ped_tree::{Expr, PrintItem};
use std::alloc::Global;

/// Why a PRINT has written nothing.
#[derive(Clone, Copy)]
pub enum PrintError {
    /// A fault of an item.
    Fault(RunFault),
    /// Want of memory.
    NoMemory,
}

impl From<NoMemory> for PrintError {
    ghost use Rattle.std.specs.Prelude.{◌≡◌};
    ghost use Rattle.ped_eval.specs.declared.printing.PrintError.TheVariants as variant;

    ghost from_gives = { λ _ e. e ≡ variant.NoMemory };

    fn from(_: NoMemory) -> PrintError {
        PrintError::NoMemory
    }
}

/// Runs the PRINT with this number, and gives a watch what it reads and writes.
pub(crate) fn watched_print<W: Watch>(
    alloc: Global,
    symbols: &Symbols,
    state: &mut State,
    watch: &mut W,
    items: &[PrintItem],
    number: u32,
) -> Result<Flow, RunError>
    requires can { CanDo symbols.now state.old.scope number (Print (map item_tree items.now)) }
    requires ready { IsReady symbols.now state.old.scope (memory_of state.old.store) }
    ensures told { Ran state.old.scope number (memory_of state.old.store) (number + 1) result (memory_of state.new.store)
        (Runs.run (setting_by symbols.now) (Print (map item_tree items.now)) number state.old.scope) }
    ensures ready { StaysReady symbols.now result state.old.scope state.new.scope (memory_of state.new.store) }
    ensures watched { Watched W.follows watch.old watch.new state.old.scope (before state.old.scope number) (memory_of state.old.store).cells result
        (Runs.run (setting_by symbols.now) (Print (map item_tree items.now)) number state.old.scope) }
{
    let mut notes = Notes::of_statement(alloc, watch);
    let answer = run_print(alloc, symbols, state, items, number, &mut notes);
    tell(alloc, watch, &state.scope, number, &notes)?;
    answer
}

/// Runs the PRINT with this number: its items are evaluated, and then the line is written.
fn run_print(
    alloc: Global,
    symbols: &Symbols,
    state: &mut State,
    items: &[PrintItem],
    number: u32,
    notes: &mut Notes,
) -> Result<Flow, RunError>
    requires can { CanDo symbols.now state.old.scope number (Print (map item_tree items.now)) }
    requires ready { IsReady symbols.now state.old.scope (memory_of state.old.store) }
    ensures told { Ran state.old.scope number (memory_of state.old.store) (number + 1) result (memory_of state.new.store)
        (Runs.run (setting_by symbols.now) (Print (map item_tree items.now)) number state.old.scope) }
    ensures ready { StaysReady symbols.now result state.old.scope state.new.scope (memory_of state.new.store) }
    ensures scope { state.new.scope ≡ state.old.scope }
    ensures noted { IfRan result (HasAdded notes.old (print_noted notes.old.next (printed_line (names_at (memory_of state.old.store) state.old.scope symbols.now.constants) (map item_tree items.now) (memory_of state.old.store).cells)) notes.new) }
{
    match line_of(alloc, symbols, state, items, notes) {
        Ok(line) => {
            state.store.put_line(alloc, line.as_slice())?;
            notes.refer(&Cell::Out, true);
            return Ok(Flow::Going);
        }
        Err(error) => match &error {
            PrintError::Fault(fault) => return Err(RunError::Fault {
                fault: *fault,
                statement: number,
            }),
            PrintError::NoMemory => return Err(RunError::NoMemory),
        },
    }
}

/// The line that a PRINT of these items writes; notes are made of what they read.
///
/// # Errors
///
/// The first fault of an item, or out of memory.
pub fn line_of(
    alloc: Global,
    symbols: &Symbols,
    state: &State,
    items: &[PrintItem],
    notes: &mut Notes,
) -> Result<Bytes, PrintError>
    ensures noted { IfPrinted result (HasNoted notes.old (printed_line (names_at (memory_of state.now.store) state.now.scope symbols.now.constants) (map item_tree items.now) (memory_of state.now.store).cells).seen notes.new) }
    ensures line { IsPrinted (printed_line (names_at (memory_of state.now.store) state.now.scope symbols.now.constants) (map item_tree items.now) (memory_of state.now.store).cells).result result }
{
    let mut line = Bytes::new(alloc);
    for i in 0..items.len() {
        add_blank(&mut line, i)?;
        match add_item(&mut line, symbols, state, &items[i], notes) {
            Ok(()) => {}
            Err(error) => return Err(error),
        }
    }
    Ok(line)
}

/// Adds the blank that goes before each item but the first.
fn add_blank(line: &mut Bytes, item: usize) -> Result<(), NoMemory>
    ensures { OnOk result (line.new ≡ line.old ++ blank_before item) }
{
    if item == 0 {
        return Ok(());
    }
    line.push(b' ')
}

/// Adds the text of an item to a line.
fn add_item(
    line: &mut Bytes,
    symbols: &Symbols,
    state: &State,
    item: &PrintItem,
    notes: &mut Notes,
) -> Result<(), PrintError>
    ensures noted { IfPrinted result (HasNoted notes.old (item_text (names_at (memory_of state.now.store) state.now.scope symbols.now.constants) (item_tree item.now) (memory_of state.now.store).cells).seen notes.new) }
    ensures added { IsAdded (item_text (names_at (memory_of state.now.store) state.now.scope symbols.now.constants) (item_tree item.now) (memory_of state.now.store).cells).result line.old line.new result }
{
    match item {
        PrintItem::Value(e) => return add_value(line, symbols, state, e, notes),
        PrintItem::Text(text) => return Ok(line.extend_from_slice(text.as_slice())?),
    }
}

/// Adds the value of an expression to a line.
fn add_value(
    line: &mut Bytes,
    symbols: &Symbols,
    state: &State,
    e: &Expr,
    notes: &mut Notes,
) -> Result<(), PrintError>
    ensures noted { IfPrinted result (HasNoted notes.old (item_text (names_at (memory_of state.now.store) state.now.scope symbols.now.constants) (Value (expr_tree e.now)) (memory_of state.now.store).cells).seen notes.new) }
    ensures added { IsAdded (item_text (names_at (memory_of state.now.store) state.now.scope symbols.now.constants) (Value (expr_tree e.now)) (memory_of state.now.store).cells).result line.old line.new result }
{
    let around = Surroundings {
        store: &state.store,
        scope: &state.scope,
        consts: symbols.consts(),
    };
    match value_of(e, &around, notes) {
        Ok(number) => return Ok(push_signed(line, number)?),
        Err(fault) => return Err(PrintError::Fault(fault)),
    }
}
