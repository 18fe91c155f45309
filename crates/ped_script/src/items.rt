//! What a script is made of: commands, each with its line.

use ped_base::{Bytes, Listed, Name, Names};
use ped_certificates::{Evidence, Position, Sign};

/// A command. The number of a statement, the number of a line and the size of a strip are at most 999,999,999.
#[derive(Drop)]
pub enum Command {
    /// Prints the source pane.
    Source,
    /// Prints the dependence pane; where a statement is given, only the rows whose source or sink is that
    /// statement or is inside it.
    Deps(Option<u32>),
    /// Prints the source pane and the dependence pane.
    Show,
    /// Prints the pane of calls: the blocks that CALLs were expanded to, and the dependences with each block as one statement.
    Calls,
    /// Prints the source lines alone.
    Print,
    /// Reports for each step that needs only this statement whether it is refused, and why.
    Advise(u32),
    /// Puts lines in the place of others.
    Replace {
        /// The number of the first line that goes.
        first: u64,
        /// The number of the last line that goes.
        last: u64,
        /// The lines that come.
        lines: Listed<Bytes>,
    },
    /// Puts lines after another line.
    Insert {
        /// The number of the line before them, 0 for the front.
        after: u64,
        /// The lines that come.
        lines: Listed<Bytes>,
    },
    /// Removes lines.
    Delete {
        /// The number of the first line that goes.
        first: u64,
        /// The number of the last line that goes.
        last: u64,
    },
    /// Interchanges this loop and the loop in it.
    Interchange(u32),
    /// Reverses this loop.
    Reverse(u32),
    /// Skews the loop in this loop, by a factor of -999,999,999 to 999,999,999.
    Skew(u32, i64),
    /// Cuts this loop into strips of a size.
    Strip(u32, i64),
    /// Peels an iteration off a loop.
    Peel {
        /// The number of the loop.
        statement: u32,
        /// Whether the last iteration is peeled, and not the first.
        last: bool,
    },
    /// Distributes this loop over the statements in it.
    Distribute(u32),
    /// Fuses this loop with the next.
    Fuse(u32),
    /// Puts the statements of this block, which a CALL was expanded to, in its place.
    Inline(u32),
    /// Expands a scalar into an array over the iterations of this loop.
    Expand(u32, Name),
    /// Makes a scalar private to the iterations of this loop.
    Privatise(u32, Name),
    /// Gives each iteration of this loop sums of its own for one to eight scalars, which are added at its exit.
    Reduce(u32, Names),
    /// Makes this loop parallel.
    Parallel(u32),
    /// Interchanges this loop and the loop in it, with evidence against dependences.
    InterchangeBy(u32, Evidence),
    /// Reverses this loop, with evidence against dependences.
    ReverseBy(u32, Evidence),
    /// Makes this loop parallel, with evidence against dependences.
    ParallelBy(u32, Evidence),
    /// Makes this loop serial.
    Serial(u32),
    /// Rejects the pending dependences of a variable in this loop.
    Reject(u32, Name),
    /// Makes loops parallel by steps that are accepted, and says why each other loop stays serial.
    Auto,
    /// Goes back by one change.
    Undo,
    /// Goes forward by one change.
    Redo,
    /// Runs the program with these choices, each below 10^18.
    Run(Listed<u64>),
    /// Looks for a race in the run in order.
    Races,
    /// Prints how many pairs of references were tested last.
    Tested,
    /// Prints the system of a pair of references, the source first, and a pattern of their directions.
    System(Position, Position, Listed<Sign>),
}

/// A line of a script that asks for something.
#[derive(Drop)]
pub struct Item {
    /// The number of the line, from 1; of a command with a text that of the line with its words.
    pub line: u64,
    /// What the line asks for; none where it is no command, or one whose text has no end.
    pub command: Option<Command>,
}

/// The items of a script in their order.
pub type Script = Listed<Item>;
