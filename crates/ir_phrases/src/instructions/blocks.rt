//! Reads the blocks of a function.
ghost use Rattle.std.specs.Prelude.{◌≡◌, map};
ghost use Rattle.ir_terminals.specs.PhraseRows.Row.{begins, optional};
ghost use Rattle.ir_phrases.specs.Instructions.Blocks.{block_shape, block_row, block_list_row, blocks_row};
ghost use Rattle.ir_phrases.specs.Instructions.View.{block_view};
ghost use Rattle.ir_terminals.specs.Follows.{Follows};
ghost use Rattle.ir_terminals.specs.Position.{tokens_left};
ghost use Rattle.ir_terminals.specs.Role.{class};
ghost use Rattle.ir_terminals.specs.Tokens.{label_row};

use crate::instructions::block::WrittenBlock;
use crate::instructions::endings::{ending, is_ending_next};
use crate::instructions::instructions::{instructions, is_instruction_next};
use ir_terminals::{Cursor, Fault, Local, Terminal};

/// `LABEL?`
fn label(cursor: &mut Cursor) -> Result<Option<Local>, Fault>
    ensures { Follows (λ _. optional class label_row) (λ x. x) cursor.old result cursor.new }
{
    if !cursor.is_class_next(Terminal::Label) {
        return Ok(None);
    }
    let label = cursor.label()?;
    Ok(Some(label))
}

/// `LABEL? INST* END`
#[tactic(auto, unfolding(crate::specs::Instructions::Blocks::block_core))]
fn block(cursor: &mut Cursor) -> Result<WrittenBlock, Fault>
    ensures { Follows block_row block_view cursor.old result cursor.new }
{
    let label = label(cursor)?;
    let instructions = instructions(cursor)?;
    let ending = ending(cursor)?;
    Ok(WrittenBlock {
        label,
        instructions,
        ending,
    })
}

/// Whether a block is next.
#[tactic(auto, using(crate::proofs::OnInstructions::Firsts::block_begins))]
fn is_block_next(cursor: &Cursor) -> bool
    ensures { result ≡ begins class block_shape.first (tokens_left cursor.now) }
{
    cursor.is_class_next(Terminal::Label) || is_instruction_next(cursor) || is_ending_next(cursor)
}

/// For how many blocks there is room at first, behind one that was read: for it alone where no other is next.
fn first_room(cursor: &Cursor) -> usize {
    if is_block_next(cursor) { 4 } else { 1 }
}

/// `BLOCK+`
fn block_list(cursor: &mut Cursor) -> Result<Vec<WrittenBlock>, Fault>
    ensures { Follows block_list_row (λ x. map block_view x.items) cursor.old result cursor.new }
{
    let first = block(cursor)?;
    let mut blocks = Vec::with_capacity(cursor.alloc(), first_room(cursor))?;
    blocks.push(first)?;
    'list: while is_block_next(cursor) {
        blocks.push(block(cursor)?)?;
    }
    blocks.shrink_to_fit();
    Ok(blocks)
}

/// `{ BLOCK+ }`: the blocks of a definition, of which there is at least one.
pub fn blocks_of(cursor: &mut Cursor) -> Result<Vec<WrittenBlock>, Fault>
    ensures { Follows blocks_row (λ x. map block_view x.items) cursor.old result cursor.new }
{
    cursor.take_class(Terminal::OpenBrace)?;
    let blocks = block_list(cursor)?;
    cursor.take_class(Terminal::CloseBrace)?;
    Ok(blocks)
}
