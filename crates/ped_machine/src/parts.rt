//! What remains of an iteration outside open PARALLEL DO loops.

ghost use Rattle.std.specs.Prelude.{◌≡◌, ◌<◌, ◌+◌, ◌^◌, [], ◌∷◌, length, true, is_none, Some, None, MatchOption, OnOk, OnErr};
ghost use Rattle.ped_tree.specs.Views.{stmt_tree, stmt_trees};
ghost use Rattle.ped_tree.specs.Numbering.{statements_count};
ghost use Rattle.ped_interleavings.specs.ped_eval.specs.Scopes.{Scope};
ghost use Rattle.ped_interleavings.specs.Lefts.{is_finished};
ghost use Rattle.ped_machine.specs.Parts.{part_view, turn_view, parts_of, parts_left, advanced, counted, with_statements, with_next_turn, statements_behind, behind_first, begins_with_comment, first_turn, first_statements, has_some, first_number, first_count, is_comment, CanTurnOn, FirstGoesOn, IsFirstBlock, IsNext, IsSettled, IsSpent, IsWithoutComments};

use ped_base::NoMemory;
use ped_eval::Plan;
use ped_tree::{Do, Stmt, count_statement};
use std::alloc::Global;

/// An iteration of a DO whose end is still to be done.
#[derive(Drop)]
pub struct Turn<'a> {
    /// The DO.
    pub d: &'a Do,
    /// What stays the same in all its iterations.
    pub plan: Plan,
    /// How many iterations there have been before this one.
    pub earlier: u64,
}

/// The statements that remain, and the end of an iteration of a DO after them, where they are its body.
#[derive(Drop)]
pub struct Part<'a> {
    /// The statements.
    pub stmts: &'a [Stmt],
    /// The number of the first.
    pub first: u32,
    /// The iteration that ends after them.
    pub turn: Option<Turn<'a>>,
}

/// What is to be done next.
#[derive(Clone, Copy)]
pub enum Next<'a> {
    /// Nothing is left.
    Nothing,
    /// The end of an iteration of a DO.
    EndsTurn,
    /// A statement with its number.
    Begins {
        /// The statement.
        stmt: &'a Stmt,
        /// Its number.
        number: u32,
    },
}

/// Statements with their number.
#[derive(Clone, Copy)]
pub struct Block<'a> {
    /// The statements.
    pub stmts: &'a [Stmt],
    /// The number of the first.
    pub first: u32,
}

/// Parts, of which contracts see first the one that is done first.
#[derive(Drop)]
pub struct Parts<'a> {
    items: Vec<Part<'a>>,
}

impl<'a> Parts<'a> {
    /// Nothing is left.
    pub fn new(alloc: Global) -> Parts<'a>
        ensures { parts_of result ≡ [] }
    {
        Parts {
            items: Vec::new(alloc),
        }
    }

    /// Puts a part before the others. If memory runs out, they are as they were.
    pub fn push(&mut self, part: Part<'a>) -> Result<(), NoMemory>
        ensures ok { OnOk result (parts_of self.new ≡ part_view part.entry ∷ (parts_of self.old)) }
        ensures err { OnErr result (parts_of self.new ≡ parts_of self.old) }
    {
        self.items.push(part)?;
        Ok(())
    }

    /// Drops the first part.
    pub fn pop(&mut self)
        ensures { parts_of self.new ≡ behind_first (parts_of self.old) }
    {
        self.items.pop();
    }

    /// The statements of the first part.
    fn block(&self) -> Option<Block<'a>>
        ensures { MatchOption result ((parts_of self.now) ≡ []) (λ b. IsFirstBlock (parts_of self.now) b) }
    {
        match self.items.last() {
            None => return None,
            Some(part) => return Some(Block {
                stmts: part.stmts,
                first: part.first,
            }),
        }
    }

    /// Makes these the statements of the first part.
    pub fn set_block(&mut self, block: Block<'a>)
        ensures { parts_of self.new ≡ with_statements (stmt_trees block.entry.stmts.now) block.entry.first (parts_of self.old) }
    {
        if let Some(part) = self.items.last_mut() {
            part.stmts = block.stmts;
            part.first = block.first;
        }
    }

    /// The iteration that ends after the first part.
    pub fn turn(&self) -> Option<&Turn<'a>>
        ensures { MatchOption result (first_turn (parts_of self.now) ≡ None) (λ t. first_turn (parts_of self.now) ≡ Some (turn_view t.now)) }
    {
        match self.items.last() {
            None => return None,
            Some(part) => match &part.turn {
                None => return None,
                Some(turn) => return Some(turn),
            },
        }
    }

    /// Whether no iteration ends after the first part.
    fn has_no_turn(&self) -> bool
        ensures { result ≡ is_none (first_turn (parts_of self.now)) }
    {
        match self.turn() {
            None => return true,
            Some(_) => return false,
        }
    }

    /// Counts one iteration more before the one that ends after the first part.
    fn count_turn(&mut self)
        requires { CanTurnOn (first_turn (parts_of self.old)) }
        ensures { parts_of self.new ≡ counted (parts_of self.old) }
    {
        if let Some(part) = self.items.last_mut() {
            if let Some(turn) = &mut part.turn {
                turn.earlier += 1;
            }
        }
    }

    /// Whether nothing is left.
    pub fn is_over(&mut self) -> bool
        ensures over { (scope : Scope) → result ≡ is_finished (parts_left (parts_of self.old) scope) }
        ensures settled { IsSettled (parts_of self.old) (parts_of self.new) }
    {
        self.settle();
        self.block().is_none()
    }

    /// What is to be done next. Comments and parts of which nothing is left are passed over.
    pub fn next(&mut self) -> Next<'a>
        ensures next { IsNext result (parts_of self.new) }
        ensures settled { IsSettled (parts_of self.old) (parts_of self.new) }
    {
        self.settle();
        match self.block() {
            None => return Next::Nothing,
            Some(block) => match block.stmts.first() {
                Some(stmt) => return Next::Begins {
                    stmt,
                    number: block.first,
                },
                None => return Next::EndsTurn,
            },
        }
    }

    /// Passes over comments and parts of which nothing is left.
    fn settle(&mut self)
        ensures settled { IsSettled (parts_of self.old) (parts_of self.new) }
        ensures goes { FirstGoesOn (parts_of self.new) }
    {
        while self.is_spent() {
            self.pop();
        }
    }

    /// Passes over the comments before the first statement, and says whether nothing is left of the first part.
    fn is_spent(&mut self) -> bool
        ensures settled { IsSettled (parts_of self.old) (parts_of self.new) }
        ensures spent { IsSpent result (parts_of self.new) }
        ensures length { length (parts_of self.new) ≡ length (parts_of self.old) }
    {
        match self.block() {
            None => return false,
            Some(block) => {
                let stmts = without_comments(block.stmts);
                self.set_block(Block {
                    stmts,
                    first: block.first,
                });
                if has_some(stmts) {
                    return false;
                }
                return self.has_no_turn();
            }
        }
    }

    /// Passes over the first statement, and answers the statements as they were.
    pub fn advance(&mut self) -> Block<'a>
        requires few { first_number (parts_of self.old) + statements_count (first_statements (parts_of self.old)) < 2 ^ 31 }
        ensures advanced { parts_of self.new ≡ advanced (parts_of self.old) }
        ensures block { with_statements (stmt_trees result.stmts.now) result.first (parts_of self.old) ≡ (parts_of self.old) }
    {
        match self.block() {
            None => return Block {
                stmts: &[],
                first: 0,
            },
            Some(block) => {
                self.set_block(behind_statement(&block));
                return block;
            }
        }
    }

    /// Goes on with the next iteration of the DO, all whose body is left.
    pub fn turn_on(&mut self)
        requires few { CanTurnOn (first_turn (parts_of self.old)) }
        ensures { parts_of self.new ≡ with_next_turn (parts_of self.old) }
    {
        match self.turn() {
            None => {}
            Some(turn) => {
                let block = Block {
                    stmts: &turn.d.body,
                    first: turn.plan.number + 1,
                };
                self.set_block(block);
                self.count_turn();
            }
        }
    }
}

/// The statements after the first one, with their number.
fn behind_statement<'a>(block: &Block<'a>) -> Block<'a>
    requires { block.now.first + statements_count (stmt_trees block.now.stmts.now) < 2 ^ 31 }
    ensures stmts { stmt_trees result.stmts.now ≡ statements_behind (stmt_trees block.now.stmts.now) }
    ensures first { result.first ≡ block.now.first + first_count (stmt_trees block.now.stmts.now) }
{
    match block.stmts.split_first() {
        Some((stmt, rest)) => return Block {
            stmts: rest,
            first: block.first + count_statement(stmt),
        },
        None => return *block,
    }
}

/// The statements after the comments at the front.
pub fn without_comments(stmts: &[Stmt]) -> &[Stmt]
    ensures { IsWithoutComments (stmt_trees stmts.now) (stmt_trees result.now) }
{
    let mut left = stmts;
    while begins_with_comment(left) {
        left = behind_first_one(left);
    }
    left
}

/// The statements after the first one.
fn behind_first_one(stmts: &[Stmt]) -> &[Stmt]
    ensures stmts { stmt_trees result.now ≡ statements_behind (stmt_trees stmts.now) }
    ensures less { begins_with_comment (stmt_trees stmts.now) ≡ true → length result.now < length stmts.now }
{
    match stmts.split_first() {
        Some((_, rest)) => return rest,
        None => return stmts,
    }
}

/// Whether there are any statements.
fn has_some(stmts: &[Stmt]) -> bool
    ensures { result ≡ has_some (stmt_trees stmts.now) }
{
    match stmts.first() {
        Some(_) => return true,
        None => return false,
    }
}

/// Whether the first of these statements is a comment.
fn begins_with_comment(stmts: &[Stmt]) -> bool
    ensures { result ≡ begins_with_comment (stmt_trees stmts.now) }
{
    match stmts.first() {
        Some(stmt) => return is_comment(stmt),
        None => return false,
    }
}

/// Whether it is a comment.
fn is_comment(stmt: &Stmt) -> bool
    ensures { result ≡ is_comment (stmt_tree stmt.now) }
{
    match stmt {
        Stmt::Comment(_) => return true,
        Stmt::Assign { left: _, right: _ }
        | Stmt::If {
            condition: _,
            then_part: _,
            else_part: _,
        }
        | Stmt::Do(_)
        | Stmt::Print(_)
        | Stmt::Read(_)
        | Stmt::Stop => return false,
    }
}
