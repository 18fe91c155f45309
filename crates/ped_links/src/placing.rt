//! The CALLs of a unit at their places, and the PRIVATE statements that name dummy arguments.

ghost use Rattle.std.specs.Prelude.{◌≡◌, ◌++◌, ◌||◌, [], ◌∷◌, List, Some, map, drop, length, IfOk, OnOk};
ghost use Rattle.std.specs.List.{flat_map};
ghost use Rattle.ped_tree.specs.Tree as Tree;
ghost use Rattle.ped_tree.specs.Grammar.ProgramRefusals as Rules;
ghost use Rattle.ped_tree.specs.Views.{expr_tree, decl_tree, stmt_tree, stmt_trees, pack_exprs};
ghost use Rattle.ped_units.specs.ped_valid.specs.ped_symbols.specs.NameRefusals as Names;
ghost use Rattle.ped_units.specs.ped_valid.specs.ped_symbols.specs.Sites.{stmt_sites, stmts_sites, decl_sites, private_site, program_sites};
ghost use Rattle.ped_units.specs.Units.{call_of, called_in};
ghost use Rattle.ped_units.specs.Linking.{calls_of, calls_in, all_calls_in};
ghost use Rattle.ped_links.specs.Placing.{around_of, argument_name, call_here, placed_call, private_lines, Passes};
ghost use Rattle.ped_units.specs.Views.{program_unit_of};

use ped_base::{Listed, Name, Names, NoMemory, is_among};
use ped_tree::{Decl, Expr, Stmt};
use ped_units::ProgramUnit;
use std::alloc::Global;

/// A CALL at its place in a unit.
#[derive(Drop)]
pub struct PlacedCall {
    /// The line of its statement.
    pub line: u64,
    /// The subroutine's name.
    pub name: Name,
    /// For each argument the name that it is, where it is one.
    pub arguments: Listed<Option<Name>>,
    /// The loops around it.
    pub around: Around,
}

/// What is known of the DO loops around a statement.
#[derive(Drop)]
pub struct Around {
    /// Their variables.
    pub variables: Names,
    /// Their PRIVATE names.
    pub private: Names,
    /// Whether one is a PARALLEL DO.
    pub parallel: bool,
}

impl Around {
    /// Around a statement outside of loops.
    fn nothing(alloc: Global) -> Around
        ensures { result ≡ around_of [] }
    {
        Around {
            variables: Names::new(alloc),
            private: Names::new(alloc),
            parallel: false,
        }
    }

    /// The same, by copies.
    fn copy(&self, alloc: Global) -> Result<Around, NoMemory>
        ensures { IfOk result (λ around. around ≡ self.now) }
    {
        let variables = copied(alloc, self.variables.as_slice())?;
        let private = copied(alloc, self.private.as_slice())?;
        Ok(Around {
            variables,
            private,
            parallel: self.parallel,
        })
    }

    /// In the body of a loop with this variable and these PRIVATE names.
    fn within(
        &self,
        alloc: Global,
        variable: &Name,
        private: &[Name],
        parallel: bool,
    ) -> Result<Around, NoMemory>
        ensures { IfOk result (λ around. around ≡ record { variables = self.now.variables ++ variable.now ∷ []; private = self.now.private ++ private.now; parallel = self.now.parallel || parallel }) }
    {
        let mut variables = copied(alloc, self.variables.as_slice())?;
        variables.push(*variable)?;
        let mut names = copied(alloc, self.private.as_slice())?;
        add_names(&mut names, private)?;
        Ok(Around {
            variables,
            private: names,
            parallel: self.parallel || parallel,
        })
    }
}

/// A copy of names.
fn copied(alloc: Global, names: &[Name]) -> Result<Names, NoMemory>
    ensures { IfOk result (λ copy. copy ≡ names.now) }
{
    Ok(Listed::from_vec(names.to_vec(alloc)?))
}

fn add_names(names: &mut Names, others: &[Name]) -> Result<(), NoMemory>
    ensures { OnOk result (names.new ≡ names.old ++ others.now) }
{
    for name in others {
        names.push(*name)?;
    }
    Ok(())
}

/// What a walk over the statements of a unit has found.
#[derive(Drop)]
pub struct Found {
    /// The CALLs, in text order.
    pub calls: Vec<PlacedCall>,
    /// The lines of the PRIVATE statements that name dummy arguments.
    pub private: Vec<u64>,
}

/// The CALLs of a unit in text order, and the lines on which PRIVATE names dummy arguments.
pub fn placed_calls(alloc: Global, unit: &ProgramUnit) -> Result<Found, NoMemory>
    ensures calls { IfOk result (λ found. found.calls.items ≡ map placed_call (calls_of (program_unit_of unit.now))) }
    ensures private { IfOk result (λ found. found.private.items ≡ private_lines unit.now.formals unit.now.program.lines.items (program_sites (program_unit_of unit.now).tree)) }
{
    let around = Around::nothing(alloc);
    let mut walk = Walk {
        found: Found {
            calls: Vec::new(alloc),
            private: Vec::new(alloc),
        },
        lines: &unit.program.lines,
    };
    walk.pass_declarations(&unit.program.decls);
    pass_all(
        alloc,
        unit.formals.as_slice(),
        &around,
        &mut walk,
        &unit.program.body,
    )?;
    Ok(walk.found)
}

/// A walk over the statements of a unit, with the lines that are still to come.
#[derive(Drop)]
struct Walk<'l> {
    found: Found,
    lines: &'l [u64],
}

impl<'l> Walk<'l> {
    /// The next line; 0 where there is none.
    fn next_line(&mut self) -> u64
        ensures line { result ≡ Names.next_line self.old.lines.now }
        ensures lines { self.new.lines.now ≡ drop 1 self.old.lines.now }
        ensures found { self.new.found ≡ self.old.found }
    {
        match self.lines.split_first() {
            Some((line, rest)) => {
                self.lines = rest;
                *line
            }
            None => 0,
        }
    }

    /// Goes over the lines of declarations.
    fn pass_declarations(&mut self, decls: &[Decl])
        ensures lines { self.new.lines.now ≡ drop (length (flat_map decl_sites (map decl_tree decls.now))) self.old.lines.now }
        ensures found { self.new.found ≡ self.old.found }
    {
        for decl in decls {
            self.pass_declaration(decl);
        }
    }

    /// Goes over the line of a declaration; a comment has none.
    fn pass_declaration(&mut self, decl: &Decl)
        ensures lines { self.new.lines.now ≡ drop (length (decl_sites (decl_tree decl.now))) self.old.lines.now }
        ensures found { self.new.found ≡ self.old.found }
    {
        match decl {
            Decl::Comment(_) => {}
            Decl::Program(_)
            | Decl::Implicit
            | Decl::Integer(_)
            | Decl::Dimension(_)
            | Decl::Parameter(_)
            | Decl::Save(_) => {
                self.next_line();
            }
        }
    }

    /// Goes over the PRIVATE statement of a DO, where it has one.
    fn pass_private(&mut self, formals: &[Name], names: &[Name]) -> Result<(), NoMemory>
        ensures { OnOk result (Passes formals.now (private_site names.now) [] self.old.found self.old.lines.now self.new.found self.new.lines.now) }
    {
        if names.is_empty() {
            return Ok(());
        }
        let line = self.next_line();
        if meets(names, formals) {
            self.found.private.push(line)?;
        }
        Ok(())
    }

    /// Adds the CALL that an assignment with these sides is, where it is one.
    fn add_call(
        &mut self,
        alloc: Global,
        around: &Around,
        line: u64,
        left: &Expr,
        right: &Expr,
    ) -> Result<(), NoMemory>
        ensures calls { OnOk result (self.new.found.calls.items ≡ self.old.found.calls.items ++ call_here around.now line (call_of (expr_tree left.now) (expr_tree right.now))) }
        ensures private { OnOk result (self.new.found.private ≡ self.old.found.private) }
        ensures lines { OnOk result (self.new.lines.now ≡ self.old.lines.now) }
    {
        match left {
            Expr::Int(_) => self.add_called(alloc, around, line, right),
            _ => Ok(()),
        }
    }

    /// Adds the CALL with this name and these arguments, where it is one.
    fn add_called(
        &mut self,
        alloc: Global,
        around: &Around,
        line: u64,
        called: &Expr,
    ) -> Result<(), NoMemory>
        ensures calls { OnOk result (self.new.found.calls.items ≡ self.old.found.calls.items ++ call_here around.now line (called_in (expr_tree called.now))) }
        ensures private { OnOk result (self.new.found.private ≡ self.old.found.private) }
        ensures lines { OnOk result (self.new.lines.now ≡ self.old.lines.now) }
    {
        match called {
            Expr::Var(name) => self.add(alloc, around, line, name, &[]),
            Expr::Element(name, arguments) => self.add(alloc, around, line, name, arguments),
            _ => Ok(()),
        }
    }

    fn add(
        &mut self,
        alloc: Global,
        around: &Around,
        line: u64,
        name: &Name,
        arguments: &[Expr],
    ) -> Result<(), NoMemory>
        ensures calls { OnOk result (self.new.found.calls.items ≡ self.old.found.calls.items ++ call_here around.now line (Some (record { name = name.now; arguments = pack_exprs (map expr_tree arguments.now) }))) }
        ensures private { OnOk result (self.new.found.private ≡ self.old.found.private) }
        ensures lines { OnOk result (self.new.lines.now ≡ self.old.lines.now) }
    {
        let arguments = names_of(alloc, arguments)?;
        let around = around.copy(alloc)?;
        self.found.calls.push(PlacedCall {
            line,
            name: *name,
            arguments,
            around,
        })?;
        Ok(())
    }
}

/// Goes over statements with these loops around them.
#[cycle(pass)]
fn pass_all(
    alloc: Global,
    formals: &[Name],
    around: &Around,
    walk: &mut Walk,
    statements: &[Stmt],
) -> Result<(), NoMemory>
    ensures { OnOk result ((loops : List Tree.Head) → around.now ≡ around_of loops → Passes formals.now (stmts_sites (stmt_trees statements.now)) (map placed_call (all_calls_in loops walk.old.lines.now (stmt_trees statements.now))) walk.old.found walk.old.lines.now walk.new.found walk.new.lines.now) }
{
    for statement in statements {
        pass(alloc, formals, around, walk, statement)?;
    }
    Ok(())
}

#[cycle(pass)]
fn pass(
    alloc: Global,
    formals: &[Name],
    around: &Around,
    walk: &mut Walk,
    statement: &Stmt,
) -> Result<(), NoMemory>
    ensures { OnOk result ((loops : List Tree.Head) → around.now ≡ around_of loops → Passes formals.now (stmt_sites (stmt_tree statement.now)) (map placed_call (calls_in loops walk.old.lines.now (stmt_tree statement.now))) walk.old.found walk.old.lines.now walk.new.found walk.new.lines.now) }
{
    match statement {
        Stmt::Comment(_) => Ok(()),
        Stmt::If {
            condition: _,
            then_part,
            else_part,
        } => {
            walk.next_line();
            pass_all(alloc, formals, around, walk, then_part)?;
            pass_all(alloc, formals, around, walk, else_part)
        }
        Stmt::Do(d) => {
            walk.next_line();
            walk.pass_private(formals, d.private.as_slice())?;
            let within = around.within(alloc, &d.variable, d.private.as_slice(), d.parallel)?;
            pass_all(alloc, formals, &within, walk, &d.body)
        }
        Stmt::Assign { left, right } => {
            let line = walk.next_line();
            walk.add_call(alloc, around, line, left, right)
        }
        Stmt::Print(_) | Stmt::Read(_) | Stmt::Stop => {
            walk.next_line();
            Ok(())
        }
    }
}

/// For each of the expressions the name that it is, where it is one.
fn names_of(alloc: Global, exprs: &[Expr]) -> Result<Listed<Option<Name>>, NoMemory>
    ensures { IfOk result (λ names. names ≡ map argument_name (map expr_tree exprs.now)) }
{
    let mut names = Listed::new(alloc);
    for e in exprs {
        names.push(name_of(e))?;
    }
    Ok(names)
}

fn name_of(e: &Expr) -> Option<Name>
    ensures { result ≡ argument_name (expr_tree e.now) }
{
    match e {
        Expr::Var(name) => Some(*name),
        _ => None,
    }
}

/// Whether one of the names is among the others.
fn meets(names: &[Name], others: &[Name]) -> bool
    ensures { result ≡ Rules.meets names.now others.now }
{
    for name in names {
        if is_among(name, others) {
            return true;
        }
    }
    false
}
