//! Each CALL expanded to a marked block with the statements of its subroutine (ANSI X3.9-1978, section 15.9.3).

ghost use Rattle.std.specs.Prelude.{◌≡◌, ◌≤◌, ◌<◌, ◌+◌, ◌⊎◌, [], ℕ, List, Some, IfOk, IfErr, OnOk, MatchOption, map, length, slice_get};
ghost use Rattle.ped_tree.specs.Tree.{Assign, If};
ghost use Rattle.ped_tree.specs.Views.{expr_tree, pack_exprs, cond_tree, stmt_tree, stmt_trees};
ghost use Rattle.ped_tree.specs.Numbering as Numbering;
ghost use Rattle.ped_tree.specs.Grammar.LimitNumbers.{most_blocks_nested};
ghost use Rattle.ped_print.specs.Lengths.{limited};
ghost use Rattle.ped_links.specs.ped_symbols.specs.Kinds.{table_of};
ghost use Rattle.ped_links.specs.ped_units.specs.Units as Units;
ghost use Rattle.ped_links.specs.ped_units.specs.Refusals.{for_names};
ghost use Rattle.ped_links.specs.ped_units.specs.Expanding as Spec;
ghost use Rattle.ped_calls.specs.Giving.{given_of};
ghost use Rattle.ped_calls.specs.Meaning.{meanings_of};
ghost use Rattle.ped_calls.specs.Courses.{units_of, KnowsFile, IsUnderWay, GoesOn, StopsAt, Passes, IsTooDeep, AreTooDeep, expanded_at, all_expanded_at, called_at, block_at, inside_at, IsMissing, IsFound};
ghost use Rattle.ped_links.specs.ped_units.specs.Views.{program_unit_of};
ghost use Rattle.ped_calls.specs.declared.expanding.Stopped.TheVariants as variant;

use crate::binding::{add_names, bind};
use crate::blocks::{bare_block, begun, block, joined};
use crate::calls::{arguments_replaced, called_name};
use crate::giving::Given;
use crate::replacing::{
    Meanings, all_replaced, assignment_replaced, cond_replaced, items_replaced, loop_replaced,
};
use indexmap::IndexMap;
use ped_base::{Name, NoMemory};
use ped_limits::{MOST_BLOCKS_NESTED, statement_count};
use ped_links::{ProgramUnit, Symbols, number_of};
use ped_tree::constants::Consts;
use ped_tree::{Cond, Do, Expr, Stmt};
use std::alloc::{AllocFailed, Global};

/// Why CALLs aren't expanded any further.
#[derive(Clone, Copy, PartialEq, Eq)]
pub enum Stopped {
    /// There would be too many statements, or too many blocks in one another.
    Past,
    /// Memory ran out.
    OutOfMemory,
}

impl From<NoMemory> for Stopped {
    ghost from_gives = { λ _ e. e ≡ variant.OutOfMemory };

    fn from(_: NoMemory) -> Stopped {
        Stopped::OutOfMemory
    }
}

impl<T: Drop> From<AllocFailed<T>> for Stopped {
    ghost from_gives = { λ _ e. e ≡ variant.OutOfMemory };

    fn from(_: AllocFailed<T>) -> Stopped {
        Stopped::OutOfMemory
    }
}

/// The units of a file with what their names stand for, and the numbers of the subroutines.
#[derive(Clone, Copy)]
pub struct File<'u> {
    /// The units, the main program first.
    pub units: &'u [ProgramUnit],
    /// What their names stand for.
    pub tables: &'u [Symbols],
    /// The number of the first subroutine of each name.
    pub numbers: &'u IndexMap<Name, usize>,
}

/// What goes along while CALLs are expanded.
#[derive(Drop)]
pub struct Course {
    /// How many statements may still come.
    pub room: usize,
    /// The names that are taken and the arrays that were given names.
    pub given: Given,
}

/// Where statements are expanded: in how many CALLs, in how many more at most, with what stands for their names, and by which
/// named constants.
#[derive(Clone, Copy)]
pub struct Within<'m> {
    depth: usize,
    deeper: usize,
    meanings: &'m Meanings,
    constants: &'m Consts,
}

/// A subroutine with what its names stand for.
#[derive(Clone, Copy)]
pub struct Subroutine<'u> {
    unit: &'u ProgramUnit,
    table: &'u Symbols,
}

impl<'u> File<'u> {
    /// Statements of the main program with their CALLs expanded. Without recursion CALLs are nested in one another no
    /// deeper than there are subroutines.
    pub fn main(
        &self,
        alloc: Global,
        course: &mut Course,
        statements: &[Stmt],
    ) -> Result<Vec<Stmt>, Stopped>
        requires file { KnowsFile self.now }
        requires course { IsUnderWay course.old }
        ensures statements { IfOk result (λ all. stmt_trees all.items ≡ (Spec.all_expanded_in [] (Spec.main_call_expanded (units_of self.now.units.now)) (stmt_trees statements.now) (given_of course.old.given)).statements) }
        ensures course { OnOk result (GoesOn course.old course.new
            (Numbering.statements_count (stmt_trees statements.now))
            (Numbering.statements_count (Spec.all_expanded_in [] (Spec.main_call_expanded (units_of self.now.units.now)) (stmt_trees statements.now) (given_of course.old.given)).statements)
            (Spec.all_expanded_in [] (Spec.main_call_expanded (units_of self.now.units.now)) (stmt_trees statements.now) (given_of course.old.given)).state) }
        ensures stopped { IfErr result (λ e. StopsAt e (Passes course.old.room
            (Numbering.statements_count (stmt_trees statements.now))
            (Numbering.statements_count (Spec.all_expanded_in [] (Spec.main_call_expanded (units_of self.now.units.now)) (stmt_trees statements.now) (given_of course.old.given)).statements)
            (AreTooDeep 0 (Spec.all_expanded_in [] (Spec.main_call_expanded (units_of self.now.units.now)) (stmt_trees statements.now) (given_of course.old.given)).statements))) }
    {
        let meanings = Meanings::nothing(alloc);
        let within = Within {
            depth: 0,
            deeper: self.units.len() - 1,
            meanings: &meanings,
            constants: self.tables[0].consts(),
        };
        self.statements(alloc, course, &within, statements)
    }

    /// Statements with what stands for their names, and with their CALLs expanded.
    #[cycle(expand)]
    fn statements(
        &self,
        alloc: Global,
        course: &mut Course,
        within: &Within,
        statements: &[Stmt],
    ) -> Result<Vec<Stmt>, Stopped>
        requires file { KnowsFile self.now }
        requires course { IsUnderWay course.old }
        ensures statements { IfOk result (λ all. stmt_trees all.items ≡ (all_expanded_at self.now within.now (stmt_trees statements.now) (given_of course.old.given)).statements) }
        ensures course { OnOk result (GoesOn course.old course.new
            (Numbering.statements_count (stmt_trees statements.now))
            (Numbering.statements_count (all_expanded_at self.now within.now (stmt_trees statements.now) (given_of course.old.given)).statements)
            (all_expanded_at self.now within.now (stmt_trees statements.now) (given_of course.old.given)).state) }
        ensures stopped { IfErr result (λ e. StopsAt e (Passes course.old.room
            (Numbering.statements_count (stmt_trees statements.now))
            (Numbering.statements_count (all_expanded_at self.now within.now (stmt_trees statements.now) (given_of course.old.given)).statements)
            (AreTooDeep within.now.depth (all_expanded_at self.now within.now (stmt_trees statements.now) (given_of course.old.given)).statements))) }
    {
        let mut all = Vec::new(alloc);
        for statement in statements {
            all.push(self.statement(alloc, course, within, statement)?)?;
        }
        Ok(all)
    }

    /// A statement with what stands for its names, and with its CALLs expanded.
    #[cycle(expand)]
    fn statement(
        &self,
        alloc: Global,
        course: &mut Course,
        within: &Within,
        statement: &Stmt,
    ) -> Result<Stmt, Stopped>
        requires file { KnowsFile self.now }
        requires course { IsUnderWay course.old }
        ensures statement { IfOk result (λ s. stmt_tree s ≡ (expanded_at self.now within.now (stmt_tree statement.now) (given_of course.old.given)).statement) }
        ensures course { OnOk result (GoesOn course.old course.new
            (Numbering.statement_count (stmt_tree statement.now))
            (Numbering.statement_count (expanded_at self.now within.now (stmt_tree statement.now) (given_of course.old.given)).statement)
            (expanded_at self.now within.now (stmt_tree statement.now) (given_of course.old.given)).state) }
        ensures stopped { IfErr result (λ e. StopsAt e (Passes course.old.room
            (Numbering.statement_count (stmt_tree statement.now))
            (Numbering.statement_count (expanded_at self.now within.now (stmt_tree statement.now) (given_of course.old.given)).statement)
            (IsTooDeep within.now.depth (expanded_at self.now within.now (stmt_tree statement.now) (given_of course.old.given)).statement))) }
    {
        match statement {
            Stmt::Assign { left, right } => self.assignment(alloc, course, within, left, right),
            Stmt::If {
                condition,
                then_part,
                else_part,
            } => {
                let then_part = self.statements(alloc, course, within, then_part)?;
                match self.statements(alloc, course, within, else_part) {
                    Ok(else_part) => Ok(conditional(
                        alloc,
                        within.meanings,
                        condition,
                        then_part,
                        else_part,
                    )?),
                    Err(stopped) => {
                        drop(then_part);
                        Err(stopped)
                    }
                }
            }
            Stmt::Do(d) => {
                let body = self.statements(alloc, course, within, &d.body)?;
                Ok(Stmt::of_loop(loop_replaced(alloc, within.meanings, d, body)?))
            }
            Stmt::Print(items) => Ok(Stmt::print(items_replaced(alloc, within.meanings, items)?)),
            Stmt::Read(items) => Ok(Stmt::read(all_replaced(alloc, within.meanings, items)?)),
            Stmt::Stop => Ok(Stmt::stop()),
            Stmt::Comment(_) => Ok(statement.copy(alloc)?),
        }
    }

    /// An assignment with what stands for its names, or the block of the CALL that it is.
    #[cycle(expand)]
    fn assignment(
        &self,
        alloc: Global,
        course: &mut Course,
        within: &Within,
        left: &Expr,
        right: &Expr,
    ) -> Result<Stmt, Stopped>
        requires file { KnowsFile self.now }
        requires course { IsUnderWay course.old }
        ensures statement { IfOk result (λ s. stmt_tree s ≡ (expanded_at self.now within.now (Assign (expr_tree left.now) (expr_tree right.now)) (given_of course.old.given)).statement) }
        ensures course { OnOk result (GoesOn course.old course.new
            1
            (Numbering.statement_count (expanded_at self.now within.now (Assign (expr_tree left.now) (expr_tree right.now)) (given_of course.old.given)).statement)
            (expanded_at self.now within.now (Assign (expr_tree left.now) (expr_tree right.now)) (given_of course.old.given)).state) }
        ensures stopped { IfErr result (λ e. StopsAt e (Passes course.old.room
            1
            (Numbering.statement_count (expanded_at self.now within.now (Assign (expr_tree left.now) (expr_tree right.now)) (given_of course.old.given)).statement)
            (IsTooDeep within.now.depth (expanded_at self.now within.now (Assign (expr_tree left.now) (expr_tree right.now)) (given_of course.old.given)).statement))) }
    {
        match called_name(left, right) {
            Some(name) => {
                let arguments = arguments_replaced(alloc, within.meanings, right)?;
                self.call(alloc, course, within, name, &arguments)
            }
            None => Ok(assignment_replaced(alloc, within.meanings, left, right)?),
        }
    }

    /// The block of a CALL, whose arguments have what stands for their names.
    #[cycle(expand)]
    fn call(
        &self,
        alloc: Global,
        course: &mut Course,
        within: &Within,
        name: &Name,
        arguments: &[Expr],
    ) -> Result<Stmt, Stopped>
        requires file { KnowsFile self.now }
        requires course { IsUnderWay course.old }
        ensures statement { IfOk result (λ s. stmt_tree s ≡ (called_at self.now within.now name.now (map expr_tree arguments.now) (given_of course.old.given)).statement) }
        ensures course { OnOk result (GoesOn course.old course.new
            1
            (Numbering.statement_count (called_at self.now within.now name.now (map expr_tree arguments.now) (given_of course.old.given)).statement)
            (called_at self.now within.now name.now (map expr_tree arguments.now) (given_of course.old.given)).state) }
        ensures stopped { IfErr result (λ e. StopsAt e (Passes course.old.room
            1
            (Numbering.statement_count (called_at self.now within.now name.now (map expr_tree arguments.now) (given_of course.old.given)).statement)
            (IsTooDeep within.now.depth (called_at self.now within.now name.now (map expr_tree arguments.now) (given_of course.old.given)).statement))) }
    {
        match self.found(within, name) {
            Some(called) => self.block(alloc, course, within, &called, name, arguments),
            None => Ok(bare_block(alloc, name, arguments)?),
        }
    }

    /// The subroutine of a name, where CALLs may be nested deeper and there is one.
    fn found(&self, within: &Within, name: &Name) -> Option<Subroutine<'u>>
        requires { KnowsFile self.now }
        ensures { MatchOption result (IsMissing self.now within.now name.now) (λ s. IsFound self.now within.now name.now s) }
    {
        if within.deeper == 0 {
            return None;
        }
        match number_of(self.numbers, name) {
            Some(number) => Some(self.subroutine(number)),
            None => None,
        }
    }

    /// The subroutine with a number.
    #[tactic(auto, using(std::proofs::lemmas::Option::slice_get_read, crate::proofs::MainSteps::table_found))]
    fn subroutine(&self, number: usize) -> Subroutine<'u>
        requires file { KnowsFile self.now }
        requires unit { number < length self.now.units.now }
        requires table { number < length self.now.tables.now }
        ensures unit { slice_get self.now.units.now number ≡ Some result.unit.now }
        ensures table { result.table.now ≡ table_of (for_names (program_unit_of result.unit.now)) }
    {
        Subroutine {
            unit: &self.units[number],
            table: &self.tables[number],
        }
    }

    /// The block of a CALL of a subroutine: the comment that names the CALL, the assignments of arguments, and the expanded
    /// statements of the subroutine.
    #[cycle(expand)]
    fn block(
        &self,
        alloc: Global,
        course: &mut Course,
        within: &Within,
        called: &Subroutine,
        name: &Name,
        arguments: &[Expr],
    ) -> Result<Stmt, Stopped>
        requires file { KnowsFile self.now }
        requires course { IsUnderWay course.old }
        requires found { IsFound self.now within.now name.now called.now }
        ensures statement { IfOk result (λ s. stmt_tree s ≡ (block_at self.now within.now called.now name.now (map expr_tree arguments.now) (given_of course.old.given)).statement) }
        ensures course { OnOk result (GoesOn course.old course.new
            1
            (Numbering.statement_count (block_at self.now within.now called.now name.now (map expr_tree arguments.now) (given_of course.old.given)).statement)
            (block_at self.now within.now called.now name.now (map expr_tree arguments.now) (given_of course.old.given)).state) }
        ensures stopped { IfErr result (λ e. StopsAt e (Passes course.old.room
            1
            (Numbering.statement_count (block_at self.now within.now called.now name.now (map expr_tree arguments.now) (given_of course.old.given)).statement)
            (IsTooDeep within.now.depth (block_at self.now within.now called.now name.now (map expr_tree arguments.now) (given_of course.old.given)).statement))) }
    {
        let mut front = begun(alloc, name, arguments)?;
        let mut meanings = Meanings::nothing(alloc);
        bind(
            alloc,
            &mut course.given,
            within.constants,
            called.unit.formals.as_slice(),
            arguments,
            &mut meanings,
            &mut front,
        )?;
        let statements = self.inside(alloc, course, within, called, front.len() - 1, meanings)?;
        Ok(block(alloc, joined(front, statements)?))
    }

    /// The expanded statements of a subroutine, where these stand for its dummy arguments and this many assignments
    /// come before.
    #[cycle(expand)]
    fn inside(
        &self,
        alloc: Global,
        course: &mut Course,
        within: &Within,
        called: &Subroutine,
        assignments: usize,
        formals: Meanings,
    ) -> Result<Vec<Stmt>, Stopped>
        requires file { KnowsFile self.now }
        requires course { IsUnderWay course.old }
        requires found { (x : List ℕ) × IsFound self.now within.now x called.now }
        ensures statements { IfOk result (λ all. stmt_trees all.items ≡ (inside_at self.now within.now called.now (meanings_of formals) (given_of course.old.given)).statements) }
        ensures course { OnOk result (GoesOn course.old course.new
            0
            (assignments + Numbering.statements_count (inside_at self.now within.now called.now (meanings_of formals) (given_of course.old.given)).statements)
            (inside_at self.now within.now called.now (meanings_of formals) (given_of course.old.given)).state) }
        ensures stopped { IfErr result (λ e. StopsAt e (Passes course.old.room
            0
            (assignments + Numbering.statements_count (inside_at self.now within.now called.now (meanings_of formals) (given_of course.old.given)).statements)
            ((most_blocks_nested ≤ within.now.depth) ⊎ AreTooDeep (within.now.depth + 1) (inside_at self.now within.now called.now (meanings_of formals) (given_of course.old.given)).statements))) }
    {
        take_room(course, within.depth, assignments, &called.unit.program.body)?;
        let mut meanings = formals;
        add_names(
            alloc,
            &mut meanings,
            &mut course.given,
            called.unit,
            called.table,
        )?;
        let none = Consts::new(alloc);
        let inner = Within {
            depth: within.depth + 1,
            deeper: within.deeper - 1,
            meanings: &meanings,
            constants: &none,
        };
        self.statements(alloc, course, &inner, &called.unit.program.body)
    }
}

/// Takes room for the block of a CALL that is nested in this many others, with this many assignments and these
/// statements.
fn take_room(
    course: &mut Course,
    depth: usize,
    assignments: usize,
    statements: &[Stmt],
) -> Result<(), Stopped>
    requires { IsUnderWay course.old }
    ensures room { OnOk result (course.new.room + (assignments + Numbering.statements_count (stmt_trees statements.now)) ≡ course.old.room) }
    ensures depth { OnOk result (depth < most_blocks_nested) }
    ensures given { OnOk result (course.new.given ≡ course.old.given) }
    ensures stopped { IfErr result (λ e. StopsAt e ((most_blocks_nested ≤ depth) ⊎ (course.old.room < assignments + Numbering.statements_count (stmt_trees statements.now)))) }
{
    let count = count_from(assignments, statements);
    if depth >= MOST_BLOCKS_NESTED || count > course.room {
        return Err(Stopped::Past);
    }
    course.room -= count;
    Ok(())
}

/// How many statements these are with this many others; `usize::MAX` where there are more.
pub fn count_from(others: usize, statements: &[Stmt]) -> usize
    ensures { result ≡ limited (others + Numbering.statements_count (stmt_trees statements.now)) }
{
    let mut count = others;
    for statement in statements {
        count = count.saturating_add(statement_count(statement));
    }
    count
}

/// The IF with what stands for the names in its condition, and with these parts.
fn conditional(
    alloc: Global,
    m: &Meanings,
    condition: &Cond,
    then_part: Vec<Stmt>,
    else_part: Vec<Stmt>,
) -> Result<Stmt, NoMemory>
    ensures { IfOk result (λ s. stmt_tree s ≡ If (Spec.cond_replaced (meanings_of m.now) (cond_tree condition.now)) (stmt_trees then_part.items) (stmt_trees else_part.items)) }
{
    match cond_replaced(alloc, m, condition) {
        Ok(condition) => Ok(Stmt::block_if(condition, then_part, else_part)),
        Err(error) => {
            drop(then_part);
            drop(else_part);
            Err(error)
        }
    }
}
