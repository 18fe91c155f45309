//! Files of program units opened as the programs that they expand to.

ghost use Rattle.std.specs.Prelude.{◌≡◌, ◌≤◌, ◌<◌, ◌+◌, ◌++◌, [], ℕ, IfOk, IfErr, OnOk, MatchOption, map};
ghost use Rattle.std.specs.List.{flat_map};
ghost use Rattle.ped_tree.specs.Tree.{ProgramTree};
ghost use Rattle.ped_tree.specs.NamesIn.{first_occurrences};
ghost use Rattle.ped_tree.specs.Names.Collecting.{with_names};
ghost use Rattle.ped_tree.specs.Numbering.{statements_count};
ghost use Rattle.ped_tree.specs.Views.{decl_tree, stmt_trees, program_tree};
ghost use Rattle.ped_tree.specs.Printing.{program_text};
ghost use Rattle.ped_tree.specs.Grammar.LimitNumbers.{most_statements};
ghost use Rattle.ped_links.specs.ped_symbols.specs.Declarations.{program_name};
ghost use Rattle.ped_links.specs.ped_symbols.specs.Kinds.{table_of};
ghost use Rattle.ped_links.specs.ped_symbols.specs.NameRefusals.{IsValid};
ghost use Rattle.ped_links.specs.ped_units.specs.Expanding.{nothing_given, expansion as plain_expansion};
ghost use Rattle.ped_links.specs.ped_units.specs.Verdicts.{IsExpansion, IsFirstPast};
ghost use Rattle.ped_links.specs.ped_units.specs.Units.{ProgramUnits};
ghost use Rattle.ped_tree.specs.Grammar.RefusalViews.{kind_of};
ghost use Rattle.ped_calls.specs.Courses.{KnowsFile, IsUnderWay, units_of};
ghost use Rattle.ped_calls.specs.Opening.{Judges, JudgesProgram, StartsWell, IsPastAt, FindsPast};
ghost use Rattle.ped_calls.specs.Giving.{given_of, HasNext};
ghost use Rattle.ped_links.specs.ped_units.specs.Views.{IsUnitRefusalOf};

use crate::expanding::{Course, File, Stopped, count_from};
use crate::first_calls::first_calls;
use crate::giving::Given;
use crate::settling::settled;
use ped_base::{Bytes, Name, NoMemory};
use ped_fits::fits;
use ped_limits::MOST_STATEMENTS;
use ped_links::{
    NameRefusal, OpenRefusal, Opened, Symbols, UnitFinding, UnitRefusal, UnitRule, look_at_calls,
    open_program, placed_calls, read_units, symbols_of, tables, unit_numbers,
};
use ped_print::print;
use ped_tree::grammar::RefusalKind;
use ped_tree::names::NameSet;
use ped_tree::{Decl, Program, Stmt};
use std::alloc::Global;

/// The printed text of the program that a file of program units expands to.
///
/// # Errors
///
/// As those of `expansion`.
pub fn expand_units(alloc: Global, text: &[u8]) -> Result<Bytes, UnitRefusal>
    ensures printed { IfOk result (λ bytes. (t : ProgramTree) × IsExpansion text.now t × (bytes ≡ program_text t)) }
    ensures refused { IfErr result (λ e. IsUnitRefusalOf text.now e) }
{
    let opened = expansion(alloc, text)?;
    Ok(print(alloc, &opened.program)?)
}

/// The program that a file of program units expands to, with what its names stand for. A file without units is the
/// program that it reads as.
///
/// # Errors
///
/// `At` exactly where the file is refused, with its first refusal: those of lines decide before those of statements, these
/// before those of names, these before those of CALLs, and these before limits that expanding passes; among each the
/// least line and then the least number. `NoMemory` where memory runs out.
pub fn expansion(alloc: Global, text: &[u8]) -> Result<Opened, UnitRefusal>
    ensures tree { IfOk result (λ o. IsExpansion text.now (program_tree o.program)) }
    ensures table { IfOk result (λ o. o.symbols ≡ table_of (program_tree o.program)) }
    ensures refused { IfErr result (λ e. IsUnitRefusalOf text.now e) }
{
    match open_program(alloc, text) {
        Ok(opened) => Ok(opened),
        Err(OpenRefusal::NoMemory) => Err(UnitRefusal::NoMemory),
        Err(OpenRefusal::At(_)) => expansion_of_units(alloc, text),
    }
}

/// The program that the units of a file expand to.
fn expansion_of_units(alloc: Global, text: &[u8]) -> Result<Opened, UnitRefusal>
    ensures tree { IfOk result (λ o. IsExpansion text.now (program_tree o.program)) }
    ensures table { IfOk result (λ o. o.symbols ≡ table_of (program_tree o.program)) }
    ensures refused { IfErr result (λ e. IsUnitRefusalOf text.now e) }
{
    let units = read_units(alloc, text)?;
    let tables = tables(alloc, &units)?;
    look_at_calls(alloc, &units, &tables)?;
    let numbers = unit_numbers(alloc, &units)?;
    let file = File {
        units: &units,
        tables: &tables,
        numbers: &numbers,
    };
    expanded(alloc, &file)
}

/// The program that the units of a file expand to, where their names and their CALLs are right.
fn expanded(alloc: Global, file: &File) -> Result<Opened, UnitRefusal>
    requires file { KnowsFile file.now }
    requires starts { StartsWell (units_of file.now.units.now) }
    ensures tree { IfOk result (λ o. (program_tree o.program ≡ plain_expansion (units_of file.now.units.now)) × IsValid (program_tree o.program)) }
    ensures table { IfOk result (λ o. o.symbols ≡ table_of (program_tree o.program)) }
    ensures refused { IfErr result (IsPastAt (units_of file.now.units.now)) }
{
    match judged(alloc, file, &file.units[0].program.body)? {
        Judgement::Valid(opened) => Ok(opened),
        Judgement::PastStatements => Err(first_past(alloc, file)?),
        Judgement::PastStorage => Err(first_past(alloc, file)?),
    }
}

/// What comes of expanding the first CALLs.
#[derive(Drop)]
enum Judgement {
    /// A valid program.
    Valid(Opened),
    /// A limit of statements is passed.
    PastStatements,
    /// A limit of storage and references is passed.
    PastStorage,
}

/// What comes of expanding the CALLs in these statements of the main program.
fn judged(alloc: Global, file: &File, statements: &[Stmt]) -> Result<Judgement, NoMemory>
    requires { KnowsFile file.now }
    ensures { IfOk result (λ j. (later : ℕ) → statements_count (stmt_trees statements.now) + later ≡ statements_count (units_of file.now.units.now).main.tree.body
        → Judges (units_of file.now.units.now) (stmt_trees statements.now) later j) }
{
    match room(&file.units[0].program.body) {
        Some(room) => judged_within(alloc, file, room, statements),
        None => Ok(Judgement::PastStatements),
    }
}

/// The same, where there is room for this many more statements.
fn judged_within(
    alloc: Global,
    file: &File,
    room: usize,
    statements: &[Stmt],
) -> Result<Judgement, NoMemory>
    requires file { KnowsFile file.now }
    requires room { room + statements_count (units_of file.now.units.now).main.tree.body ≡ most_statements }
    ensures { IfOk result (λ j. (later : ℕ) → statements_count (stmt_trees statements.now) + later ≡ statements_count (units_of file.now.units.now).main.tree.body
        → Judges (units_of file.now.units.now) (stmt_trees statements.now) later j) }
{
    let mut course = start(alloc, file, room)?;
    match file.main(alloc, &mut course, statements) {
        Ok(body) => {
            let arrays = arrays_given(course);
            let program = settled(alloc, &file.units[0].program.decls, arrays, body)?;
            judged_program(alloc, program)
        }
        Err(Stopped::Past) => Ok(Judgement::PastStatements),
        Err(Stopped::OutOfMemory) => Err(NoMemory),
    }
}

/// The arrays that were given names.
fn arrays_given(course: Course) -> Vec<Decl>
    ensures { result.items ≡ course.given.arrays.items }
{
    let given = course.given;
    given.arrays
}

/// How many statements may still be added to these; none where there are too many already.
fn room(statements: &[Stmt]) -> Option<usize>
    ensures { MatchOption result (most_statements < statements_count (stmt_trees statements.now)) (λ n. n + statements_count (stmt_trees statements.now) ≡ most_statements) }
{
    let count = count_from(0, statements);
    if count > MOST_STATEMENTS {
        None
    } else {
        Some(MOST_STATEMENTS - count)
    }
}

/// The state before the first CALL is expanded, where there is room for this many more statements.
fn start(alloc: Global, file: &File, room: usize) -> Result<Course, NoMemory>
    requires file { KnowsFile file.now }
    requires few { room ≤ most_statements }
    ensures room { IfOk result (λ c. c.room ≡ room) }
    ensures given { IfOk result (λ c. given_of c.given ≡ nothing_given (units_of file.now.units.now)) }
    ensures underway { IfOk result IsUnderWay }
{
    let taken = taken(alloc, &file.tables[0], &file.units[0].program.decls)?;
    Ok(Course {
        room,
        given: Given::new(alloc, taken),
    })
}

/// Whether a program is valid, or which of its limits it passes.
fn judged_program(alloc: Global, program: Program) -> Result<Judgement, NoMemory>
    requires { program.lines.items ≡ [] }
    ensures { IfOk result (JudgesProgram (program_tree program)) }
{
    if !fits(&program) {
        return Ok(Judgement::PastStatements);
    }
    match symbols_of(alloc, &program) {
        Ok(symbols) => Ok(Judgement::Valid(Opened { program, symbols })),
        Err(NameRefusal::At(_)) => Ok(Judgement::PastStorage),
        Err(NameRefusal::NoMemory) => Err(NoMemory),
    }
}

/// The names of a table, and that in PROGRAM too.
fn taken(alloc: Global, table: &Symbols, decls: &[Decl]) -> Result<NameSet, NoMemory>
    ensures { IfOk result (λ taken. taken ≡ first_occurrences [] (map (λ e. e.0) table.now.kinds ++ flat_map program_name (map decl_tree decls.now))) }
{
    let mut taken = NameSet::new(alloc);
    let names = table.names(alloc)?;
    add_all(&mut taken, names.as_slice())?;
    add_program_names(&mut taken, decls)?;
    Ok(taken)
}

fn add_all(taken: &mut NameSet, names: &[Name]) -> Result<(), NoMemory>
    ensures { OnOk result (taken.new ≡ with_names taken.old names.now) }
{
    for name in names {
        taken.insert(name)?;
    }
    Ok(())
}

fn add_program_names(taken: &mut NameSet, decls: &[Decl]) -> Result<(), NoMemory>
    ensures { OnOk result (taken.new ≡ with_names taken.old (flat_map program_name (map decl_tree decls.now))) }
{
    for decl in decls {
        add_program_name(taken, decl)?;
    }
    Ok(())
}

fn add_program_name(taken: &mut NameSet, decl: &Decl) -> Result<(), NoMemory>
    ensures { OnOk result (taken.new ≡ with_names taken.old (program_name (decl_tree decl.now))) }
{
    match decl {
        Decl::Program(name) => taken.insert(name),
        Decl::Implicit
        | Decl::Integer(_)
        | Decl::Dimension(_)
        | Decl::Parameter(_)
        | Decl::Save(_)
        | Decl::Comment(_) => Ok(()),
    }
}

/// The refusal at the first CALL of the main program by whose expansion a limit is passed, where the program with all CALLs
/// expanded isn't valid.
fn first_past(alloc: Global, file: &File) -> Result<UnitRefusal, NoMemory>
    requires file { KnowsFile file.now }
    requires starts { StartsWell (units_of file.now.units.now) }
    requires invalid { IsValid (plain_expansion (units_of file.now.units.now)) → ⊥ }
    ensures { IfOk result (IsPastAt (units_of file.now.units.now)) }
{
    let found = placed_calls(alloc, &file.units[0])?;
    let calls = found.calls.as_slice();
    let mut place = 0;
    while place < calls.len() {
        match past_at(alloc, file, place + 1)? {
            Some(kind) => return Ok(past(kind, calls[place].line)),
            None => place += 1,
        }
    }
    unreachable!()
}

/// The limit that is passed where this many CALLs are expanded.
fn past_at(alloc: Global, file: &File, count: usize) -> Result<Option<RefusalKind>, NoMemory>
    requires { KnowsFile file.now }
    ensures { IfOk result (FindsPast (units_of file.now.units.now) count) }
{
    let mut left = count;
    let statements = first_calls(alloc, &mut left, &file.units[0].program.body)?;
    match judged(alloc, file, &statements)? {
        Judgement::Valid(opened) => {
            drop(opened);
            Ok(None)
        }
        Judgement::PastStatements => Ok(Some(RefusalKind::Limit)),
        Judgement::PastStorage => Ok(Some(RefusalKind::StorageLimit)),
    }
}

/// A limit of texts that is passed at a line.
fn past(kind: RefusalKind, line: u64) -> UnitRefusal
    ensures { (us : ProgramUnits) → IsFirstPast us (kind_of kind) line → IsPastAt us result }
{
    UnitRefusal::At(UnitFinding {
        rule: UnitRule::Text(kind),
        line,
    })
}
