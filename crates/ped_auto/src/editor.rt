//! What `auto` needs from an editor.

ghost use Rattle.std.specs.Prelude.{◌≡◌, ◌≤◌, ◌+◌, ◌-◌, ℕ, map, IfOk, OnErr};
ghost use Rattle.ped_rules.specs.ped_flow.specs.ped_tree.specs.Tree.{ProgramTree};
ghost use Rattle.ped_refs.specs.Occurrences.{name_text};
ghost use Rattle.ped_rules.specs.ped_steps.specs.Causes.{Cause};
ghost use Rattle.ped_rules.specs.Scalars as Scalars;
ghost use Rattle.ped_auto.specs.SerialLoops as Loops;
ghost use Rattle.ped_auto.specs.SerialLoops.{count_of, IsNumber};
ghost use Rattle.ped_auto.specs.CarriedNames.{AreCarried};
ghost use Rattle.ped_auto.specs.Editing.{Editing, IsEditing, CanTry, Answers};

use ped_base::{Name, NoMemory};
use ped_refs::RefName;
use ped_rules::Refused;
use ped_script::Command;
use ped_verdict::Steps;
use std::alloc::Global;
use std::sync::ledger::Ledger;

/// An editor on a program. Contracts see its states: which program is present in one, to which state a command leads
/// that is accepted, with how many tests of pairs, and the first cause for which a command is refused.
pub trait Editor<L: Ledger> {
    /// What it makes of its states and of commands.
    ghost editing: { Editing Self };

    /// How many numbered statements the present program has.
    fn count(&self) -> u32
        ensures { (t : ProgramTree) × editing.Reads self.now t × (result ≡ count_of t) };

    /// Whether the statement with this number is a DO and no PARALLEL DO.
    fn is_serial_loop(&self, number: u32) -> bool
        requires { (t : ProgramTree) × editing.Reads self.now t × IsNumber t number }
        ensures { (t : ProgramTree) × editing.Reads self.now t × (result ≡ Loops.is_serial_loop t number) };

    /// The names of the dependences that the DO with this number carries and the user hasn't rejected: each once, in
    /// the order of the pane, the data lines and the output last. The only error is running out of memory.
    fn carried(&self, alloc: Global, number: u32) -> Result<Vec<RefName>, NoMemory>
        requires { (t : ProgramTree) × editing.Reads self.now t × IsNumber t number }
        ensures { IfOk result (λ names. (t : ProgramTree) × editing.Reads self.now t × AreCarried t number (map name_text names.items)) };

    /// Whether the name is that of a scalar variable.
    fn is_scalar(&self, name: &Name) -> bool
        ensures { (t : ProgramTree) × editing.Reads self.now t × (result ≡ Scalars.is_scalar t name.now) };

    /// Takes a transformation of a statement of the present program: nothing where it is accepted, and else the first
    /// cause against it, which leaves the editor as it was and tests no pair. If memory runs out, the editor is as it
    /// was, and no more pairs were tested than the command tests.
    fn step(
        &mut self,
        alloc: Global,
        command: &Command,
        steps: &mut Steps<L>,
    ) -> Result<Option<Refused>, NoMemory>
        requires { CanTry editing self.old command.now }
        ensures answers { IfOk result (λ answer. Answers editing self.old command.now answer self.new (steps.new - steps.old)) }
        ensures kept { OnErr result (self.new ≡ self.old) }
        ensures least { steps.old ≤ steps.new }
        ensures most { (next : Self) (tests : ℕ) → editing.Accepts self.old command.now next tests → steps.new ≤ steps.old + tests }
        ensures none { (why : Cause) → editing.Refuses self.old command.now why → steps.new ≡ steps.old };

    /// What is true of every editor.
    ghost laws: { IsEditing editing };
}
