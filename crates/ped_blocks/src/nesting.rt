//! Executable statements nested into the blocks that are open.

ghost use Rattle.std.specs.Prelude.{◌≡◌, ◌++◌, ◌∷◌, [], map, IfOk, OnOk};
ghost use Rattle.ped_tree.specs.Tree;
ghost use Rattle.ped_tree.specs.Views.{cond_tree, stmt_tree, stmt_trees};
ghost use Rattle.ped_tree.specs.Grammar.BlockForms.{comments_of, whole_head};
ghost use Rattle.ped_tree.specs.Grammar.Occurrences as Spec;
ghost use Rattle.ped_tree.specs.Grammar.StatementViews.{note_of, statement_of};
ghost use Rattle.ped_tree.specs.Grammar.ItemViews.{behind_logical, do_head, item_of};
ghost use Rattle.ped_blocks.specs.Machine;
ghost use Rattle.ped_blocks.specs.BlockViews.{blocks_of, frame_of, nesting_of, statement_with};

use crate::directives::rejected_names;
use crate::frames::{ElseBlock, Frame, LoopBlock, ThenBlock, alone};
use ped_base::{Listed, Names, NoMemory};
use ped_tree::grammar::{DoStatement, Item, NoteLine, Statement};
use ped_tree::{Cond, Stmt};
use std::alloc::Global;

/// The open blocks, and the statements so far of the innermost.
#[derive(Drop)]
pub struct Nesting {
    /// The open blocks, the outermost first.
    pub frames: Vec<Frame>,
    /// The statements so far of the innermost, or of the program where none is open.
    pub current: Vec<Stmt>,
}

impl Nesting {
    /// No block is open, and there is no statement so far.
    #[tactic(auto, using(crate::proofs::OpenBlocks::no_blocks))]
    pub fn new(alloc: Global) -> Nesting
        ensures { nesting_of result ≡ Machine.nest [] [] }
    {
        Nesting {
            frames: Vec::new(alloc),
            current: Vec::new(alloc),
        }
    }

    /// The nesting after an executable statement that says this, with the comments before it.
    #[tactic(auto, using(crate::proofs::Items::by_label))]
    pub fn with_item(
        self,
        alloc: Global,
        statement: Statement,
        item: Item,
    ) -> Result<Nesting, NoMemory>
        ensures { IfOk result (λ n. nesting_of n ≡ Machine.nest_item (statement_of statement) (item_of item)
            (blocks_of self.frames.items) (map stmt_tree self.current.items ++ comments_of (statement_of statement))) }
    {
        let Statement {
            line: _,
            label,
            text: _,
            comments,
            directives,
        } = statement;
        let Ok(nesting) = self.with_comments(comments) else {
            drop(item);
            return Err(NoMemory);
        };
        nesting.with_content(alloc, label, &directives, item)
    }

    /// The nesting after what a statement says that has this label and these directives.
    fn with_content(
        self,
        alloc: Global,
        label: Option<u32>,
        directives: &Listed<NoteLine>,
        item: Item,
    ) -> Result<Nesting, NoMemory>
        ensures { IfOk result (λ n. nesting_of n ≡ Machine.nest_item (statement_with label (map note_of directives.now)) (item_of item)
            (blocks_of self.frames.items) (map stmt_tree self.current.items)) }
    {
        match item {
            Item::Simple(stmt) => self.with_statement(label, stmt),
            Item::Continue => self.with_label(label),
            Item::LogicalIf(condition, behind) => {
                self.with_logical_if(alloc, label, condition, behind)
            }
            Item::BlockIf(condition) => self.begin_if(alloc, condition),
            Item::ElseIf(condition) => self.begin_else_if(alloc, condition),
            Item::Else => self.begin_else(alloc),
            Item::EndIf => self.end_if(alloc),
            Item::Do(statement) => self.begin_do(alloc, statement, directives),
            Item::EndDo => self.end_do(label),
            Item::Private(names) => self.with_private(names),
            Item::Declaration(decl) => {
                drop(decl);
                Ok(self)
            }
            Item::SaveAll | Item::End => Ok(self),
        }
    }

    /// The comments come after the statements so far of the innermost block.
    fn with_comments(self, comments: Listed<NoteLine>) -> Result<Nesting, NoMemory>
        ensures { IfOk result (λ n. nesting_of n ≡ Machine.nest (blocks_of self.frames.items)
            (map stmt_tree self.current.items ++ map (λ n. Tree.Comment n.text) (map note_of comments))) }
    {
        let Nesting {
            frames,
            mut current,
        } = self;
        push_comments(&mut current, comments)?;
        Ok(Nesting { frames, current })
    }

    /// The statement comes after the others, and the loops end that end at its label.
    fn with_statement(self, label: Option<u32>, stmt: Stmt) -> Result<Nesting, NoMemory>
        ensures { IfOk result (λ n. nesting_of n ≡ Machine.close_labelled label (blocks_of self.frames.items) (map stmt_tree self.current.items ++ stmt_tree stmt ∷ [])) }
    {
        let Nesting {
            frames,
            mut current,
        } = self;
        current.push(stmt)?;
        Nesting { frames, current }.with_label(label)
    }

    /// A logical IF comes after the others, and the loops end that end at its label.
    fn with_logical_if(
        self,
        alloc: Global,
        label: Option<u32>,
        condition: Cond,
        behind: Option<Stmt>,
    ) -> Result<Nesting, NoMemory>
        ensures { IfOk result (λ n. nesting_of n ≡ Machine.close_labelled label (blocks_of self.frames.items)
            (map stmt_tree self.current.items ++ Tree.If (cond_tree condition) (behind_logical behind) Tree.no_stmts ∷ [])) }
    {
        let stmt = logical_if(alloc, condition, behind)?;
        self.with_statement(label, stmt)
    }

    /// The loops end that end at this label, where there is one.
    fn with_label(self, label: Option<u32>) -> Result<Nesting, NoMemory>
        ensures { IfOk result (λ n. nesting_of n ≡ Machine.close_labelled label (blocks_of self.frames.items) (map stmt_tree self.current.items)) }
    {
        match label {
            Some(label) => self.close_loops(label),
            None => Ok(self),
        }
    }

    /// The innermost loops that end at this label end.
    fn close_loops(self, label: u32) -> Result<Nesting, NoMemory>
        ensures { IfOk result (λ n. nesting_of n ≡ Machine.close_loops label (blocks_of self.frames.items) (map stmt_tree self.current.items)) }
    {
        let Nesting {
            mut frames,
            mut current,
        } = self;
        while let Some(frame) = frames.pop() {
            match frame.loop_with(label) {
                Ok(block) => current = block.ended(current)?,
                Err(other) => return Nesting { frames, current }.within(other),
            }
        }
        Ok(Nesting { frames, current })
    }

    /// This block is the innermost, within those that are open.
    #[tactic(auto, using(crate::proofs::OpenBlocks::last_block))]
    fn within(self, frame: Frame) -> Result<Nesting, NoMemory>
        ensures { IfOk result (λ n. nesting_of n ≡ Machine.nest (frame_of frame ∷ blocks_of self.frames.items) (map stmt_tree self.current.items)) }
    {
        let Nesting {
            mut frames,
            current,
        } = self;
        frames.push(frame)?;
        Ok(Nesting { frames, current })
    }

    /// A block IF begins.
    fn begin_if(self, alloc: Global, condition: Cond) -> Result<Nesting, NoMemory>
        ensures { IfOk result (λ n. nesting_of n ≡ Machine.nest (Machine.then_frame (map stmt_tree self.current.items) [] (cond_tree condition) ∷ blocks_of self.frames.items) []) }
    {
        let Nesting { frames, current } = self;
        let block = ThenBlock::new(alloc, current, condition);
        let current = Vec::new(alloc);
        Nesting { frames, current }.within(Frame::Then(block))
    }

    /// ELSE IF ends a THEN part, and begins another.
    #[tactic(auto, using(crate::proofs::OpenBlocks::last_block, crate::proofs::OpenBlocks::no_blocks))]
    fn begin_else_if(self, alloc: Global, condition: Cond) -> Result<Nesting, NoMemory>
        ensures { IfOk result (λ n. nesting_of n ≡ Machine.take_else_if (cond_tree condition) (blocks_of self.frames.items) (map stmt_tree self.current.items)) }
    {
        let Nesting {
            mut frames,
            current,
        } = self;
        match frames.pop() {
            Some(Frame::Then(block)) => {
                Nesting { frames, current }.begin_next_part(alloc, block, condition)
            }
            Some(Frame::Else(block)) => {
                drop(condition);
                Nesting { frames, current }.within(Frame::Else(block))
            }
            Some(Frame::Loop(block)) => {
                drop(condition);
                Nesting { frames, current }.within(Frame::Loop(block))
            }
            None => {
                drop(condition);
                Ok(Nesting { frames, current })
            }
        }
    }

    /// The statements of the innermost block end this THEN part, and that of a further condition begins.
    fn begin_next_part(
        self,
        alloc: Global,
        block: ThenBlock,
        condition: Cond,
    ) -> Result<Nesting, NoMemory>
        ensures { IfOk result (λ n. nesting_of n ≡ Machine.take_else_if (cond_tree condition) (frame_of (Frame.Then block) ∷ blocks_of self.frames.items) (map stmt_tree self.current.items)) }
    {
        let Nesting { frames, current } = self;
        let Ok(block) = block.ended_part(current) else {
            drop(condition);
            return Err(NoMemory);
        };
        let current = Vec::new(alloc);
        Nesting { frames, current }.within(block.with_condition(condition))
    }

    /// ELSE ends a THEN part, and begins the ELSE part.
    #[tactic(auto, using(crate::proofs::OpenBlocks::last_block, crate::proofs::OpenBlocks::no_blocks))]
    fn begin_else(self, alloc: Global) -> Result<Nesting, NoMemory>
        ensures { IfOk result (λ n. nesting_of n ≡ Machine.take_else (blocks_of self.frames.items) (map stmt_tree self.current.items)) }
    {
        let Nesting {
            mut frames,
            current,
        } = self;
        match frames.pop() {
            Some(Frame::Then(block)) => Nesting { frames, current }.begin_else_part(alloc, block),
            Some(Frame::Else(block)) => Nesting { frames, current }.within(Frame::Else(block)),
            Some(Frame::Loop(block)) => Nesting { frames, current }.within(Frame::Loop(block)),
            None => Ok(Nesting { frames, current }),
        }
    }

    /// The statements of the innermost block end this THEN part, and the ELSE part begins.
    fn begin_else_part(self, alloc: Global, block: ThenBlock) -> Result<Nesting, NoMemory>
        ensures { IfOk result (λ n. nesting_of n ≡ Machine.take_else (frame_of (Frame.Then block) ∷ blocks_of self.frames.items) (map stmt_tree self.current.items)) }
    {
        let Nesting { frames, current } = self;
        let block = block.ended_part(current)?;
        let current = Vec::new(alloc);
        Nesting { frames, current }.within(Frame::Else(block))
    }

    /// END IF ends an IF.
    #[tactic(auto, using(crate::proofs::OpenBlocks::last_block, crate::proofs::OpenBlocks::no_blocks))]
    fn end_if(self, alloc: Global) -> Result<Nesting, NoMemory>
        ensures { IfOk result (λ n. nesting_of n ≡ Machine.take_end_if (blocks_of self.frames.items) (map stmt_tree self.current.items)) }
    {
        let Nesting {
            mut frames,
            current,
        } = self;
        match frames.pop() {
            Some(Frame::Then(block)) => Nesting { frames, current }.end_then_part(alloc, block),
            Some(Frame::Else(block)) => Nesting { frames, current }.end_else_part(alloc, block),
            Some(Frame::Loop(block)) => Nesting { frames, current }.within(Frame::Loop(block)),
            None => Ok(Nesting { frames, current }),
        }
    }

    /// The statements of the innermost block end this THEN part, and the IF ends without an ELSE part.
    fn end_then_part(self, alloc: Global, block: ThenBlock) -> Result<Nesting, NoMemory>
        ensures { IfOk result (λ n. nesting_of n ≡ Machine.take_end_if (frame_of (Frame.Then block) ∷ blocks_of self.frames.items) (map stmt_tree self.current.items)) }
    {
        let Nesting { frames, current } = self;
        let block = block.ended_part(current)?;
        let current = Vec::new(alloc);
        Nesting { frames, current }.end_else_part(alloc, block)
    }

    /// The statements of the innermost block end this ELSE part and its IF.
    fn end_else_part(self, alloc: Global, block: ElseBlock) -> Result<Nesting, NoMemory>
        ensures { IfOk result (λ n. nesting_of n ≡ Machine.take_end_if (frame_of (Frame.Else block) ∷ blocks_of self.frames.items) (map stmt_tree self.current.items)) }
    {
        let Nesting { frames, current } = self;
        let current = block.ended(alloc, current)?;
        Ok(Nesting { frames, current })
    }

    /// A DO loop begins, with the names that its directives reject.
    fn begin_do(
        self,
        alloc: Global,
        statement: DoStatement,
        directives: &Listed<NoteLine>,
    ) -> Result<Nesting, NoMemory>
        ensures { IfOk result (λ n. nesting_of n ≡ Machine.nest
            (Machine.do_frame (map stmt_tree self.current.items) statement.label (whole_head (do_head statement) [] (Spec.rejected_names (map note_of directives.now))) ∷ blocks_of self.frames.items) []) }
    {
        let Nesting { frames, current } = self;
        let Ok(rejected) = rejected_names(alloc, directives.as_slice()) else {
            drop(statement);
            return Err(NoMemory);
        };
        let block = LoopBlock::new(alloc, current, statement, rejected);
        let current = Vec::new(alloc);
        Nesting { frames, current }.within(Frame::Loop(block))
    }

    /// END DO ends a DO without a label, and a DO with a label where it carries that label.
    #[tactic(auto, using(crate::proofs::OpenBlocks::last_block, crate::proofs::OpenBlocks::no_blocks))]
    fn end_do(self, label: Option<u32>) -> Result<Nesting, NoMemory>
        ensures { IfOk result (λ n. nesting_of n ≡ Machine.take_end_do label (blocks_of self.frames.items) (map stmt_tree self.current.items)) }
    {
        let Nesting {
            mut frames,
            current,
        } = self;
        match frames.pop() {
            Some(Frame::Then(block)) => Nesting { frames, current }.within(Frame::Then(block)),
            Some(Frame::Else(block)) => Nesting { frames, current }.within(Frame::Else(block)),
            Some(Frame::Loop(block)) => Nesting { frames, current }.end_loop(block, label),
            None => Ok(Nesting { frames, current }),
        }
    }

    /// The same, where this loop is the innermost block.
    fn end_loop(self, block: LoopBlock, label: Option<u32>) -> Result<Nesting, NoMemory>
        ensures { IfOk result (λ n. nesting_of n ≡ Machine.take_end_do label (frame_of (Frame.Loop block) ∷ blocks_of self.frames.items) (map stmt_tree self.current.items)) }
    {
        if block.label.is_some() {
            return self.within(Frame::Loop(block))?.with_label(label);
        }
        let Nesting { frames, current } = self;
        let current = block.ended(current)?;
        Ok(Nesting { frames, current })
    }

    /// PRIVATE belongs to the DO before it.
    #[tactic(auto, using(crate::proofs::OpenBlocks::last_block, crate::proofs::OpenBlocks::no_blocks))]
    fn with_private(self, names: Names) -> Result<Nesting, NoMemory>
        ensures { IfOk result (λ n. nesting_of n ≡ Machine.take_private names (blocks_of self.frames.items) (map stmt_tree self.current.items)) }
    {
        let Nesting {
            mut frames,
            current,
        } = self;
        match frames.pop() {
            Some(Frame::Then(block)) => Nesting { frames, current }.within(Frame::Then(block)),
            Some(Frame::Else(block)) => Nesting { frames, current }.within(Frame::Else(block)),
            Some(Frame::Loop(block)) => {
                let block = block.with_private(names);
                Nesting { frames, current }.within(Frame::Loop(block))
            }
            None => Ok(Nesting { frames, current }),
        }
    }
}

/// Adds comments to statements.
fn push_comments(stmts: &mut Vec<Stmt>, comments: Listed<NoteLine>) -> Result<(), NoMemory>
    ensures { OnOk result (map stmt_tree stmts.new.items
        ≡ map stmt_tree stmts.old.items ++ map (λ n. Tree.Comment n.text) (map note_of comments)) }
{
    for comment in comments.into_vec() {
        let NoteLine { line: _, text } = comment;
        stmts.push(Stmt::comment(text))?;
    }
    Ok(())
}

/// A logical IF as a block IF, which has no ELSE part.
fn logical_if(alloc: Global, condition: Cond, behind: Option<Stmt>) -> Result<Stmt, NoMemory>
    ensures { IfOk result (λ s. stmt_tree s ≡ Tree.If (cond_tree condition) (behind_logical behind) Tree.no_stmts) }
{
    let Ok(then_part) = then_part(alloc, behind) else {
        drop(condition);
        return Err(NoMemory);
    };
    Ok(Stmt::block_if(condition, then_part, Vec::new(alloc)))
}

/// The statement after a logical IF, where there is one, as a THEN part.
fn then_part(alloc: Global, behind: Option<Stmt>) -> Result<Vec<Stmt>, NoMemory>
    ensures { IfOk result (λ all. stmt_trees all.items ≡ behind_logical behind) }
{
    match behind {
        Some(stmt) => alone(alloc, stmt),
        None => Ok(Vec::new(alloc)),
    }
}
