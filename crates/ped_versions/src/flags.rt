//! A DO that becomes a PARALLEL DO, or ceases to be one, where it stands.

ghost use Rattle.std.specs.Prelude.{◌≡◌, ◌+◌, ◌<◌, ◌^◌, OnOk, OnErr};
ghost use Rattle.ped_tree.specs.Numbering.{statement_count, statements_count};
ghost use Rattle.ped_tree.specs.Views.{stmt_tree, stmt_trees, do_tree, program_tree};
ghost use Rattle.ped_tree.specs.Tree.{ProgramTree};
ghost use Rattle.ped_update.specs.ped_graph.specs.Held.{held_of};
ghost use Rattle.ped_versions.specs.Changing.{IsFlagText};
ghost use Rattle.ped_versions.specs.Flags.{flag_one, flag_all, flagged};
ghost use Rattle.ped_versions.specs.States.{changed_to};

use crate::changes::ChangeKind;
use crate::versions::{Entry, Versions, Way};
use ped_base::{Bytes, NoMemory};
use ped_tree::{Do, Program, Stmt, count_statement, count_statements};
use std::mem::replace;
use std::sync::ledger::Ledger;

impl<L: Ledger> Versions<L> {
    /// Makes the DO with this number a PARALLEL DO, or a DO, by a change of this kind, where this is the text of the
    /// present program so. The flag is set where it stands: what names stand for and the graph are the same, and nothing
    /// is tested. All memory is taken before anything changes.
    pub fn change_flag(
        &mut self,
        number: u32,
        parallel: bool,
        text: Bytes,
        change: ChangeKind,
    ) -> Result<(), NoMemory>
        requires { IsFlagText number parallel self.old text }
        ensures changes { OnOk result (self.new ≡ changed_to text change 0 self.old) }
        ensures graph { (t : ProgramTree) → held_of (flagged t number parallel) ≡ held_of t }
        ensures kept { OnErr result (self.new ≡ self.old) }
    {
        self.history.reserve()?;
        set_flag(&mut self.present.program, number, parallel);
        let other = replace(&mut self.present.text, text);
        self.tested = 0;
        self.history.push(Entry {
            text: other,
            change,
            way: Way::Flag {
                number,
                parallel: !parallel,
            },
        });
        Ok(())
    }
}

/// Makes the DO with this number a PARALLEL DO, or a DO, where it stands. It takes no memory.
pub(crate) fn set_flag(program: &mut Program, number: u32, parallel: bool)
    requires { statements_count (program_tree program.old).body + 1 < 2 ^ 32 }
    ensures { program_tree program.new ≡ flagged (program_tree program.old) number parallel }
{
    set_in(&mut program.body, 1, number, parallel);
}

/// The same among statements, of which the first has this number.
#[cycle(flags)]
fn set_in(statements: &mut [Stmt], first: u32, number: u32, parallel: bool)
    requires { first + statements_count (stmt_trees statements.old) < 2 ^ 32 }
    ensures { stmt_trees statements.new ≡ flag_all parallel number (stmt_trees statements.old) first }
{
    let mut own = first;
    for i in 0..statements.len() {
        own += set_at(&mut statements[i], own, number, parallel);
    }
}

/// The same of a statement, which has the number `own`, and of those in it. How many these are.
#[cycle(flags)]
fn set_at(statement: &mut Stmt, own: u32, number: u32, parallel: bool) -> u32
    requires { own + statement_count (stmt_tree statement.old) < 2 ^ 32 }
    ensures flagged { stmt_tree statement.new ≡ flag_one parallel number (stmt_tree statement.old) own }
    ensures count { result ≡ statement_count (stmt_tree statement.old) }
{
    let count = count_statement(statement);
    let old = replace(statement, Stmt::Stop);
    let new = flagged_at(old, own, number, parallel);
    let gone = replace(statement, new);
    drop(gone);
    count
}

/// The same of a statement, which has the number `own`, and of those in it.
#[cycle(flags)]
fn flagged_at(statement: Stmt, own: u32, number: u32, parallel: bool) -> Stmt
    requires { own + statement_count (stmt_tree statement) < 2 ^ 32 }
    ensures { stmt_tree result ≡ flag_one parallel number (stmt_tree statement) own }
{
    match statement {
        Stmt::Do(d) => return flagged_loop(d, own, number, parallel),
        Stmt::If {
            condition,
            then_part,
            else_part,
        } => {
            if own == number {
                return Stmt::block_if(condition, then_part, else_part);
            }
            let behind = own + 1 + count_statements(&then_part);
            let mut then_new = then_part;
            let mut else_new = else_part;
            set_in(&mut then_new, own + 1, number, parallel);
            set_in(&mut else_new, behind, number, parallel);
            return Stmt::block_if(condition, then_new, else_new);
        }
        Stmt::Assign { left, right } => return Stmt::Assign { left, right },
        Stmt::Print(items) => return Stmt::Print(items),
        Stmt::Read(items) => return Stmt::Read(items),
        Stmt::Stop => return Stmt::Stop,
        Stmt::Comment(text) => return Stmt::Comment(text),
    }
}

/// The same of a DO.
#[cycle(flags)]
fn flagged_loop(d: Do, own: u32, number: u32, parallel: bool) -> Stmt
    requires { own + statement_count (do_tree d) < 2 ^ 32 }
    ensures { stmt_tree result ≡ flag_one parallel number (do_tree d) own }
{
    let mut new = d;
    if own == number {
        new.parallel = parallel;
        return Stmt::of_loop(new);
    }
    set_in(&mut new.body, own + 1, number, parallel);
    Stmt::of_loop(new)
}
