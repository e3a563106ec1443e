//! The blocks of a function.
ghost use Rattle.std.specs.Prelude.{◌≡◌, ◌<◌, ◌≤◌, ◌+◌, ◌^◌, map, flat_map, length, All, OnOk, IfOk};
ghost use Rattle.std.specs.List.{sum_by};
ghost use Rattle.ir_phrases.specs.Instructions.View.{block_view};
ghost use Rattle.ir_syntax.specs.Counts.{block_count};
ghost use Rattle.type_table.specs.Types.{structs};
ghost use Rattle.module_arena.specs.Known.{upto};
ghost use Rattle.module_arena.specs.Mentions as mentions;
ghost use Rattle.item_build.specs.Types.Holding.{entries};
ghost use Rattle.item_build.specs.Types.Stands.{Grows};
ghost use Rattle.item_build.specs.Buildable.Bodies.{CanBlock};
ghost use Rattle.ir_resolve.specs.InstructionBuild.Named.{called_of};
ghost use Rattle.ir_resolve.specs.Built.{block_results_count, block_built, blocks_built, IsBlock, AreBlocks};

use crate::instruction_build::{Locals, build_ending};
use crate::instructions::build_instructions;
use ir_base::ItemList;
use ir_phrases::instructions::WrittenBlock;
use item_build::types::Builder;
use module_arena::{BlockId, BlockList, ValueId, copied_name};
use std::alloc::{AllocError, Global};

/// The block that is written, which has that id and whose results are the values from the next one on, and the value behind these.
fn build_block(
    builder: &mut Builder,
    alloc: Global,
    locals: &Locals,
    id: BlockId,
    first: ValueId,
    written: &WrittenBlock,
) -> Result<(module_arena::Block, ValueId), AllocError>
    requires can { CanBlock (structs builder.old.arena.table) (entries builder.old.arena) (called_of locals.now.values.names.items) (called_of locals.now.blocks.names.items) (block_view written.now) }
    requires few_values { length locals.now.values.names.items < 2 ^ 32 }
    requires few_blocks { length locals.now.blocks.names.items < 2 ^ 32 }
    requires there { id < length locals.now.blocks.names.items }
    requires few { first + length written.now.instructions.items < 2 ^ 32 }
    ensures grows { OnOk result (Grows builder.old.arena builder.new.arena) }
    ensures is { IfOk result (λ made. IsBlock (called_of locals.now.values.names.items) (called_of locals.now.blocks.names.items) builder.new.arena made.0
        (block_built (called_of locals.now.values.names.items) (called_of locals.now.blocks.names.items) id first (block_view written.now))) }
    ensures in_order { IfOk result (λ made. mentions.block_results made.0 ≡ upto first (block_results_count (block_view written.now))) }
    ensures next { IfOk result (λ made. made.1 ≡ first + block_results_count (block_view written.now)) }
{
    let name = copied_name(alloc, &locals.blocks.names[id.number() as usize])?;
    let (instructions, next) = build_instructions(
        builder,
        alloc,
        locals,
        first,
        &written.instructions,
    )?;
    let end = build_ending(builder, alloc, locals, &written.ending)?;
    let block = module_arena::Block {
        name,
        instructions,
        end,
    };
    Ok((block, next))
}

/// The blocks that are written, all of the function, whose results are the values from the first one on.
pub(crate) fn build_blocks(
    builder: &mut Builder,
    alloc: Global,
    locals: &Locals,
    first: ValueId,
    written: &[WrittenBlock],
) -> Result<BlockList, AllocError>
    requires can { All (λ b. CanBlock (structs builder.old.arena.table) (entries builder.old.arena) (called_of locals.now.values.names.items) (called_of locals.now.blocks.names.items) (block_view b)) written.now }
    requires few_values { length locals.now.values.names.items < 2 ^ 32 }
    requires few_blocks { length locals.now.blocks.names.items < 2 ^ 32 }
    requires there { length written.now ≤ length locals.now.blocks.names.items }
    requires few { first + sum_by block_count (map block_view written.now) < 2 ^ 32 }
    ensures grows { OnOk result (Grows builder.old.arena builder.new.arena) }
    ensures are { IfOk result (λ list. AreBlocks (called_of locals.now.values.names.items) (called_of locals.now.blocks.names.items) builder.new.arena list
        (blocks_built (called_of locals.now.values.names.items) (called_of locals.now.blocks.names.items) 0 first (map block_view written.now))) }
    ensures in_order { IfOk result (λ list. flat_map mentions.block_results list ≡ upto first (sum_by block_results_count (map block_view written.now))) }
{
    let mut list = Vec::with_capacity(alloc, written.len())?;
    let mut next = first;
    let mut id: u32 = 0;
    for block in written {
        let (made, behind) = build_block(builder, alloc, locals, BlockId::new(id), next, block)?;
        list.push(made)?;
        next = behind;
        id = id + 1;
    }
    Ok(ItemList::from_vec(list))
}
