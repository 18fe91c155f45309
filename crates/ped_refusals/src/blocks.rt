//! Open blocks: the IFs and the DO loops whose ends haven't been reached (ANSI X3.9-1978, sections 11.6
//! and 11.10). Lists of them have the innermost last.

ghost use Rattle.std.specs.Prelude.{◌≡◌, ◌+◌, ◌<◌, ◌≤◌, ◌^◌, List, [], ◌∷◌, ◌++◌, length, take, IfOk, OnOk, MatchOption, ◌||◌, if◌then◌else◌};
ghost use Rattle.ped_tree.specs.Grammar.Contexts as Contexts;
ghost use Rattle.ped_tree.specs.Grammar.Contexts.{Block as PlainBlock, in_do};
ghost use Rattle.ped_tree.specs.Grammar.ProgramRefusals as Spec;
ghost use Rattle.ped_base.specs.Lists.{has_some};
ghost use Rattle.ped_tree.specs.Views.{stmt_tree};
ghost use Rattle.ped_tree.specs.Grammar.StatementViews.{statement_of};
ghost use Rattle.ped_tree.specs.Grammar.ItemViews.{item_of, do_head};
ghost use Rattle.ped_refusals.specs.OpenBlocks.{loop_of, block_of, blocks_of};

use ped_base::{Listed, Name, Names, NoMemory};
use ped_tree::Stmt;
use ped_tree::grammar::{DoStatement, Item, Statement};
use std::alloc::Global;

/// A DO loop that is open.
#[derive(Drop)]
pub struct OpenLoop {
    /// The label of the statement that ends it, none where it has none.
    pub label: Option<u32>,
    /// The DO variable.
    pub variable: Name,
    /// The names of its PRIVATE statement, none before that.
    pub private: Names,
    /// The line of its PRIVATE statement, 0 before that.
    pub private_line: u64,
}

/// An open block.
#[derive(Drop)]
pub enum Block {
    /// The THEN part of an IF, which counts with each of its ELSE IFs.
    Then(usize),
    /// The ELSE part, counted in the same way.
    Else(usize),
    /// A DO loop.
    Loop(OpenLoop),
}

/// The innermost block and those around it.
#[tactic(auto, using(crate::proofs::Opening::blocks_push))]
pub fn split_innermost(blocks: &[Block]) -> Option<(&Block, &[Block])>
    ensures is { MatchOption result (blocks_of blocks.now ≡ []) (λ p. blocks_of blocks.now ≡ block_of p.0.now ∷ blocks_of p.1.now) }
    ensures less { MatchOption result (blocks.now ≡ []) (λ p. length p.1.now + 1 ≡ length blocks.now) }
    ensures front { MatchOption result (blocks.now ≡ []) (λ p. p.1.now ≡ take (length p.1.now) blocks.now) }
{
    match blocks.split_last() {
        Some((block, outer)) => Some((block, outer)),
        None => None,
    }
}

/// Whether the innermost block is a DO.
pub fn is_in_do(blocks: &[Block]) -> bool
    ensures { result ≡ Spec.is_in_do (blocks_of blocks.now) }
{
    match split_innermost(blocks) {
        Some((Block::Loop(_), _)) => true,
        _ => false,
    }
}

/// Whether a block is open.
pub fn is_in_block(blocks: &[Block]) -> bool
    ensures { result ≡ has_some (blocks_of blocks.now) }
{
    match split_innermost(blocks) {
        Some(_) => true,
        None => false,
    }
}

/// Whether a DO with this label is open.
pub fn has_do(blocks: &[Block], label: u32) -> bool
    ensures { result ≡ Contexts.has_do label (blocks_of blocks.now) }
{
    let mut left = blocks;
    while let Some((block, outer)) = split_innermost(left) {
        if is_loop_with(block, label) {
            return true;
        }
        left = outer;
    }
    false
}

fn is_loop_with(block: &Block, label: u32) -> bool
    ensures { (outer : List PlainBlock) → Contexts.has_do label (block_of block.now ∷ outer) ≡ (result || Contexts.has_do label outer) }
{
    match block {
        Block::Loop(d) => d.label == Some(label),
        Block::Then(_) | Block::Else(_) => false,
    }
}

/// Whether a DO with the label of a statement is open.
pub fn carries_open(blocks: &[Block], label: Option<u32>) -> bool
    ensures { result ≡ Contexts.carries_open label (blocks_of blocks.now) }
{
    match label {
        Some(label) => has_do(blocks, label),
        None => false,
    }
}

/// Whether the innermost block is a DO without a label.
pub fn is_in_bare_do(blocks: &[Block]) -> bool
    ensures { result ≡ Contexts.is_in_bare_do (blocks_of blocks.now) }
{
    match split_innermost(blocks) {
        Some((Block::Loop(d), _)) => d.label.is_none(),
        _ => false,
    }
}

/// Whether an IF is open whose ELSE part hasn't begun, with loops alone in it.
pub fn takes_else(blocks: &[Block]) -> bool
    ensures { result ≡ Spec.takes_else (blocks_of blocks.now) }
{
    let mut left = blocks;
    while let Some((block, outer)) = split_innermost(left) {
        match block {
            Block::Then(_) => return true,
            Block::Else(_) => return false,
            Block::Loop(_) => left = outer,
        }
    }
    false
}

/// Whether an IF is open.
pub fn has_if(blocks: &[Block]) -> bool
    ensures { result ≡ Contexts.has_if (blocks_of blocks.now) }
{
    let mut left = blocks;
    while let Some((block, outer)) = split_innermost(left) {
        match block {
            Block::Then(_) | Block::Else(_) => return true,
            Block::Loop(_) => left = outer,
        }
    }
    false
}

/// How many loops are open.
pub fn loop_depth(blocks: &[Block]) -> usize
    requires { Spec.block_depth (blocks_of blocks.now) < 2 ^ 64 }
    ensures { result ≡ Spec.loop_depth (blocks_of blocks.now) }
{
    let mut left = blocks;
    let mut depth = 0;
    while let Some((block, outer)) = split_innermost(left) {
        match block {
            Block::Loop(_) => depth += 1,
            Block::Then(_) | Block::Else(_) => {}
        }
        left = outer;
    }
    depth
}

/// How many loops and IFs are open, each ELSE IF an IF more.
pub fn block_depth(blocks: &[Block]) -> usize
    requires { Spec.block_depth (blocks_of blocks.now) < 2 ^ 64 }
    ensures { result ≡ Spec.block_depth (blocks_of blocks.now) }
{
    let mut left = blocks;
    let mut depth = 0;
    while let Some((block, outer)) = split_innermost(left) {
        depth += depth_of(block);
        left = outer;
    }
    depth
}

fn depth_of(block: &Block) -> usize
    ensures { (outer : List PlainBlock) → Spec.block_depth (block_of block.now ∷ outer) ≡ Spec.block_depth outer + result }
{
    match block {
        Block::Then(ifs) | Block::Else(ifs) => *ifs,
        Block::Loop(_) => 1,
    }
}

/// The variables of the open loops.
pub fn open_variables(alloc: Global, blocks: &[Block]) -> Result<Vec<Name>, NoMemory>
    ensures { IfOk result (λ names. names.items ≡ Contexts.open_variables (blocks_of blocks.now)) }
{
    let mut left = blocks;
    let mut names = Vec::new(alloc);
    while let Some((block, outer)) = split_innermost(left) {
        push_variable(&mut names, block)?;
        left = outer;
    }
    Ok(names)
}

fn push_variable(names: &mut Vec<Name>, block: &Block) -> Result<(), NoMemory>
    ensures { OnOk result ((outer : List PlainBlock) → names.new.items ++ Contexts.open_variables outer ≡ names.old.items ++ Contexts.open_variables (block_of block.now ∷ outer)) }
{
    match block {
        Block::Loop(d) => Ok(names.push(d.variable)?),
        Block::Then(_) | Block::Else(_) => Ok(()),
    }
}

/// The blocks that are open where the innermost loops with this label are closed.
pub fn outside(blocks: &[Block], label: u32) -> &[Block]
    ensures is { blocks_of result.now ≡ Spec.closed label (blocks_of blocks.now) }
    ensures front { result.now ≡ take (length result.now) blocks.now }
{
    let mut left = blocks;
    while let Some((block, outer)) = split_innermost(left) {
        if !closes(block, label) {
            break;
        }
        left = outer;
    }
    left
}

fn closes(block: &Block, label: u32) -> bool
    ensures { (outer : List PlainBlock) → Spec.closed label (block_of block.now ∷ outer) ≡ (if result then Spec.closed label outer else block_of block.now ∷ outer) }
{
    match block {
        Block::Loop(d) => d.label == Some(label),
        Block::Then(_) | Block::Else(_) => false,
    }
}

/// Takes the blocks on after a statement that says this, where `behind_do` is whether the statement
/// before it is a DO.
pub fn take_on(
    alloc: Global,
    blocks: &mut Vec<Block>,
    behind_do: bool,
    statement: &Statement,
    item: &Item,
) -> Result<(), NoMemory>
    requires { Spec.block_depth (blocks_of blocks.old.items) + 1 < 2 ^ 64 }
    ensures { OnOk result (blocks_of blocks.new.items
        ≡ Contexts.blocks_behind behind_do (statement_of statement.now) (item_of item.now) (blocks_of blocks.old.items)) }
{
    match item {
        Item::Private(names) => {
            if behind_do {
                keep_private(blocks, statement.line, copied(alloc, names.as_slice())?)?;
            }
            leave_by(blocks, statement.label);
        }
        Item::End => blocks.clear(),
        Item::BlockIf(_) => {
            leave_by(blocks, statement.label);
            open_block(blocks, Block::Then(1))?;
        }
        Item::ElseIf(_) => {
            begin_else_if(blocks)?;
            leave_by(blocks, statement.label);
        }
        Item::Else => {
            begin_else(blocks)?;
            leave_by(blocks, statement.label);
        }
        Item::EndIf => {
            end_if(blocks);
            leave_by(blocks, statement.label);
        }
        Item::Do(d) => {
            leave_by(blocks, statement.label);
            open_block(blocks, begun(alloc, d))?;
        }
        Item::EndDo => end_do(blocks, statement.label),
        Item::Declaration(_)
        | Item::SaveAll
        | Item::Simple(_)
        | Item::Continue
        | Item::LogicalIf(_, _) => leave_by(blocks, statement.label),
    }
    Ok(())
}

/// Ends what a statement's label ends, where it has one: the outermost loop with that label, and all that
/// was begun in it.
pub fn leave_by(blocks: &mut Vec<Block>, label: Option<u32>)
    ensures { blocks_of blocks.new.items ≡ Contexts.left_by label (blocks_of blocks.old.items) }
{
    if let Some(label) = label {
        let left = outside_all(blocks, label).len();
        blocks.truncate(left);
    }
}

/// The blocks around the outermost loop with this label, all blocks where there is none.
fn outside_all(blocks: &[Block], label: u32) -> &[Block]
    ensures is { blocks_of result.now ≡ Contexts.left_by_label label (blocks_of blocks.now) }
    ensures front { result.now ≡ take (length result.now) blocks.now }
{
    for (i, block) in blocks.iter().enumerate() {
        if is_loop_with(block, label) {
            return &blocks[..i];
        }
    }
    blocks
}

/// Ends what was begun in the innermost IF, where there is one.
fn leave_in_if(blocks: &mut Vec<Block>)
    ensures { blocks_of blocks.new.items ≡ Contexts.left_in_if (blocks_of blocks.old.items) }
{
    let left = up_to_if(blocks).len();
    blocks.truncate(left);
}

/// The blocks up to the innermost IF, all blocks where there is none.
fn up_to_if(blocks: &[Block]) -> &[Block]
    ensures is { blocks_of result.now ≡ Contexts.left_in_if (blocks_of blocks.now) }
    ensures front { result.now ≡ take (length result.now) blocks.now }
{
    let mut left = blocks;
    while let Some((block, outer)) = split_innermost(left) {
        match block {
            Block::Then(_) | Block::Else(_) => return left,
            Block::Loop(_) => left = outer,
        }
    }
    blocks
}

/// A loop that has just begun.
fn begun(alloc: Global, d: &DoStatement) -> Block
    ensures { block_of result ≡ in_do (Contexts.begun d.now.label (do_head d.now)) }
{
    Block::Loop(OpenLoop {
        label: d.label,
        variable: d.variable,
        private: Listed::new(alloc),
        private_line: 0,
    })
}

/// Whether a statement is STOP.
pub fn is_stop(stmt: &Stmt) -> bool
    ensures { result ≡ Contexts.is_stop (stmt_tree stmt.now) }
{
    match stmt {
        Stmt::Stop => true,
        _ => false,
    }
}

#[tactic(auto, using(crate::proofs::Opening::blocks_push))]
fn open_block(blocks: &mut Vec<Block>, block: Block) -> Result<(), NoMemory>
    ensures { OnOk result (blocks_of blocks.new.items ≡ block_of block ∷ blocks_of blocks.old.items) }
{
    blocks.push(block)?;
    Ok(())
}

#[tactic(auto, using(crate::proofs::Opening::blocks_push))]
fn close_innermost(blocks: &mut Vec<Block>) -> Option<Block>
    ensures { MatchOption result ((blocks_of blocks.old.items ≡ []) × (blocks_of blocks.new.items ≡ [])) (λ b. blocks_of blocks.old.items ≡ block_of b ∷ blocks_of blocks.new.items) }
{
    blocks.pop()
}

/// PRIVATE on this line belongs to the innermost block, which is a DO.
fn keep_private(blocks: &mut Vec<Block>, line: u64, names: Names) -> Result<(), NoMemory>
    ensures { OnOk result (blocks_of blocks.new.items ≡ Contexts.with_private line names (blocks_of blocks.old.items)) }
{
    match close_innermost(blocks) {
        Some(Block::Loop(d)) => open_block(blocks, with_private(d, line, names)),
        Some(other) => open_block(blocks, other),
        None => Ok(()),
    }
}

/// The loop with the names and the line of its PRIVATE statement.
fn with_private(d: OpenLoop, line: u64, names: Names) -> Block
    ensures { block_of result ≡ in_do (record (loop_of d) { private = names; private_line = line }) }
{
    Block::Loop(OpenLoop {
        label: d.label,
        variable: d.variable,
        private: names,
        private_line: line,
    })
}

fn copied(alloc: Global, names: &[Name]) -> Result<Names, NoMemory>
    ensures { IfOk result (λ copy. copy ≡ names.now) }
{
    Ok(Listed::from_vec(Vec::from_slice(alloc, names)?))
}

fn begin_else_if(blocks: &mut Vec<Block>) -> Result<(), NoMemory>
    requires { Spec.block_depth (blocks_of blocks.old.items) + 1 < 2 ^ 64 }
    ensures { OnOk result (blocks_of blocks.new.items ≡ Contexts.with_else_if (Contexts.left_in_if (blocks_of blocks.old.items))) }
{
    leave_in_if(blocks);
    match close_innermost(blocks) {
        Some(Block::Then(ifs)) => open_block(blocks, Block::Then(ifs + 1)),
        Some(other) => open_block(blocks, other),
        None => Ok(()),
    }
}

fn begin_else(blocks: &mut Vec<Block>) -> Result<(), NoMemory>
    ensures { OnOk result (blocks_of blocks.new.items ≡ Contexts.with_else (Contexts.left_in_if (blocks_of blocks.old.items))) }
{
    leave_in_if(blocks);
    match close_innermost(blocks) {
        Some(Block::Then(ifs)) => open_block(blocks, Block::Else(ifs)),
        Some(other) => open_block(blocks, other),
        None => Ok(()),
    }
}

fn end_if(blocks: &mut Vec<Block>)
    ensures { blocks_of blocks.new.items ≡ Contexts.without_if (Contexts.left_in_if (blocks_of blocks.old.items)) }
{
    leave_in_if(blocks);
    if !is_in_do(blocks) {
        drop(close_innermost(blocks));
    }
}

/// END DO ends what its label ends, where a DO with that label is open; else the innermost block, where
/// that is a DO without a label.
fn end_do(blocks: &mut Vec<Block>, label: Option<u32>)
    ensures { let before = blocks_of blocks.old.items in
        blocks_of blocks.new.items ≡ (if Contexts.carries_open label before then Contexts.left_by label before else Contexts.without_do before) }
{
    if carries_open(blocks, label) {
        leave_by(blocks, label);
    } else if is_in_bare_do(blocks) {
        drop(close_innermost(blocks));
    }
}
