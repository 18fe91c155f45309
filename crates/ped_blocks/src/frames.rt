//! Open blocks: block IFs and DO loops that have begun, each with the statements before it. A block
//! that ends is added after these as one statement.

ghost use Rattle.std.specs.Prelude.{◌≡◌, [], ◌∷◌, ◌++◌, map, IfOk, IfErr, Some, false};
ghost use Rattle.ped_tree.specs.Tree;
ghost use Rattle.ped_tree.specs.Views.{cond_tree, stmt_tree, stmt_trees};
ghost use Rattle.ped_tree.specs.Grammar.BlockForms.{whole_head};
ghost use Rattle.ped_tree.specs.Grammar.ItemViews.{do_head};
ghost use Rattle.ped_blocks.specs.Machine;
ghost use Rattle.ped_blocks.specs.BlockViews.{arms_of, ends_at, frame_of};
ghost use Rattle.ped_tree.specs.Views.{head_of};

use ped_base::{Names, NoMemory};
use ped_tree::grammar::DoStatement;
use ped_tree::{Cond, Do, Stmt};
use std::alloc::Global;

/// A condition with the THEN part that follows it.
#[derive(Drop)]
pub struct Arm {
    /// The condition.
    pub condition: Cond,
    /// The statements of the part.
    pub then_part: Vec<Stmt>,
}

/// The THEN part after the condition of an IF or of an ELSE IF.
#[derive(Drop)]
pub struct ThenBlock {
    /// The statements before the IF.
    pub before: Vec<Stmt>,
    /// The conditions before this one, each with its THEN part.
    pub arms: Vec<Arm>,
    /// The condition.
    pub condition: Cond,
}

/// The ELSE part of an IF.
#[derive(Drop)]
pub struct ElseBlock {
    /// The statements before the IF.
    pub before: Vec<Stmt>,
    /// The conditions of the IF, each with its THEN part.
    pub arms: Vec<Arm>,
}

/// A DO loop.
#[derive(Drop)]
pub struct LoopBlock {
    /// The statements before the loop.
    pub before: Vec<Stmt>,
    /// The label of the statement that ends it, none where it has none.
    pub label: Option<u32>,
    /// The loop, without a body so far.
    pub head: Do,
}

/// An open block.
#[derive(Drop)]
pub enum Frame {
    /// A THEN part.
    Then(ThenBlock),
    /// An ELSE part.
    Else(ElseBlock),
    /// A DO loop.
    Loop(LoopBlock),
}

impl Frame {
    /// The loop, where this is a loop that ends at this label; else the block as it was.
    pub fn loop_with(self, label: u32) -> Result<LoopBlock, Frame>
        ensures ok { IfOk result (λ b. frame_of self ≡ Machine.do_frame (map stmt_tree b.before.items) (Some label) (head_of b.head)) }
        ensures err { IfErr result (λ f. f ≡ self) }
        ensures stays { IfErr result (λ f. ends_at label (frame_of f) ≡ false) }
    {
        match self {
            Frame::Loop(block) => {
                if block.label == Some(label) {
                    Ok(block)
                } else {
                    Err(Frame::Loop(block))
                }
            }
            Frame::Then(block) => Err(Frame::Then(block)),
            Frame::Else(block) => Err(Frame::Else(block)),
        }
    }
}

impl LoopBlock {
    /// The loop that a DO statement begins after these statements, with its rejected names.
    pub fn new(
        alloc: Global,
        before: Vec<Stmt>,
        statement: DoStatement,
        rejected: Names,
    ) -> LoopBlock
        ensures { frame_of (Frame.Loop result) ≡ Machine.do_frame (map stmt_tree before.items) statement.label (whole_head (do_head statement) [] rejected) }
    {
        let DoStatement {
            label,
            variable,
            first,
            last,
            step,
            parallel,
        } = statement;
        let head = Do {
            variable,
            first,
            last,
            step,
            parallel,
            private: Names::new(alloc),
            rejected,
            body: Vec::new(alloc),
        };
        LoopBlock {
            before,
            label,
            head,
        }
    }

    /// The statements with the loop after them, which has this body.
    pub fn ended(self, body: Vec<Stmt>) -> Result<Vec<Stmt>, NoMemory>
        ensures { IfOk result (λ all. map stmt_tree all.items
            ≡ map stmt_tree self.before.items ++ Tree.Do (head_of self.head) (stmt_trees body.items) ∷ []) }
    {
        let LoopBlock {
            mut before,
            label: _,
            head,
        } = self;
        before.push(Stmt::of_loop(Do { body, ..head }))?;
        Ok(before)
    }

    /// The loop with these private names.
    pub fn with_private(self, names: Names) -> LoopBlock
        ensures { frame_of (Frame.Loop result) ≡ Machine.do_frame (map stmt_tree self.before.items) self.label (record (head_of self.head) { private = names }) }
    {
        let LoopBlock {
            before,
            label,
            head,
        } = self;
        let head = Do {
            private: names,
            ..head
        };
        LoopBlock {
            before,
            label,
            head,
        }
    }
}

impl ThenBlock {
    /// The THEN part of an IF with this condition, after these statements.
    #[tactic(auto, using(crate::proofs::OpenBlocks::no_arms))]
    pub fn new(alloc: Global, before: Vec<Stmt>, condition: Cond) -> ThenBlock
        ensures { frame_of (Frame.Then result) ≡ Machine.then_frame (map stmt_tree before.items) [] (cond_tree condition) }
    {
        ThenBlock {
            before,
            arms: Vec::new(alloc),
            condition,
        }
    }

    /// The conditions so far with this THEN part after the last, and the statements before the IF.
    #[tactic(auto, using(crate::proofs::OpenBlocks::last_arm))]
    pub fn ended_part(self, then_part: Vec<Stmt>) -> Result<ElseBlock, NoMemory>
        ensures { IfOk result (λ b. frame_of (Frame.Else b)
            ≡ Machine.else_frame (map stmt_tree self.before.items)
            (record { condition = cond_tree self.condition; then_part = map stmt_tree then_part.items } ∷ arms_of self.arms.items)) }
    {
        let ThenBlock {
            before,
            mut arms,
            condition,
        } = self;
        arms.push(Arm {
            condition,
            then_part,
        })?;
        Ok(ElseBlock { before, arms })
    }
}

impl ElseBlock {
    /// The THEN part of a further condition.
    pub fn with_condition(self, condition: Cond) -> Frame
        ensures { frame_of result ≡ Machine.then_frame (map stmt_tree self.before.items) (arms_of self.arms.items) (cond_tree condition) }
    {
        let ElseBlock { before, arms } = self;
        Frame::Then(ThenBlock {
            before,
            arms,
            condition,
        })
    }

    /// The statements with the IF after them, which has this ELSE part.
    pub fn ended(self, alloc: Global, else_part: Vec<Stmt>) -> Result<Vec<Stmt>, NoMemory>
        ensures { IfOk result (λ all. map stmt_tree all.items
            ≡ map stmt_tree self.before.items ++ Machine.chained (arms_of self.arms.items) (map stmt_tree else_part.items)) }
    {
        let ElseBlock { mut before, arms } = self;
        let mut chain = chained(alloc, arms, else_part)?;
        before.append(&mut chain)?;
        Ok(before)
    }
}

/// Conditions as IFs in the ELSE parts of one another, the last of which has this ELSE part.
#[tactic(auto, using(crate::proofs::OpenBlocks::last_arm, crate::proofs::OpenBlocks::no_arms))]
fn chained(alloc: Global, arms: Vec<Arm>, else_part: Vec<Stmt>) -> Result<Vec<Stmt>, NoMemory>
    ensures { IfOk result (λ all. map stmt_tree all.items ≡ Machine.chained (arms_of arms.items) (map stmt_tree else_part.items)) }
{
    let mut arms = arms;
    let mut part = else_part;
    while let Some(
        Arm {
            condition,
            then_part,
        },
    ) = arms.pop()
    {
        let statement = Stmt::block_if(condition, then_part, part);
        part = alone(alloc, statement)?;
    }
    Ok(part)
}

/// A list of one statement.
pub fn alone(alloc: Global, statement: Stmt) -> Result<Vec<Stmt>, NoMemory>
    ensures { IfOk result (λ all. map stmt_tree all.items ≡ stmt_tree statement ∷ []) }
{
    let mut all = Vec::new(alloc);
    all.push(statement)?;
    Ok(all)
}
