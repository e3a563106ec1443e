//! The blocks of a function, one after the other.
ghost use Rattle.std.specs.Prelude.{◌≡◌, ◌+◌, ◌^◌, ◌<◌, IfOk, Some, length, slice_get};
ghost use Rattle.module_arena.specs.Changes.{function_in};
ghost use Rattle.module_arena.specs.Lists.{function_blocks};
ghost use Rattle.module_arena.specs.Valid.{blocks_demands, instructions_demands};
ghost use Rattle.module_arena.specs.View.{module_of};
ghost use Rattle.instruction_verify.specs.Uses.Edges.{MayBeSourced};
ghost use Rattle.entry_verify.specs.Types.Judged.{Judged};
ghost use Rattle.path_verify.specs.Ready.{IsReady, block_in, blocks_in};

use crate::facts::FunctionFacts;
use crate::instructions::{judge_ending, judge_instruction};
use entry_verify::types::VerifyFault;
use instruction_verify::uses::{PhiJudge, Site, is_phi};
use module_arena::{Block, BlockId, Operand};
use std::alloc::{AllocError, Global};

/// What the instructions of a block, and then its end, are asked. The first of them has that number.
fn judge_block(
    alloc: Global,
    facts: &FunctionFacts<'_>,
    phis: &mut PhiJudge,
    operands: &mut Vec<Operand>,
    id: BlockId,
    first: u64,
    block: &Block,
) -> Result<(), VerifyFault>
    requires ready { IsReady facts.now.judge.now facts.now.function.now facts.now.classes.now facts.now.value_types.now.items facts.now.rows }
    requires sourced { MayBeSourced facts.now.function.now phis.old }
    requires block { slice_get (function_blocks facts.now.function.now) id ≡ Some block.now }
    requires few { first + length block.now.instructions < 2 ^ 64 }
    ensures sourced { MayBeSourced facts.now.function.now phis.new }
    ensures judged { Judged (instructions_demands (module_of facts.now.judge.now) (function_in facts.now.judge.now facts.now.function.now) (block_in facts.now.judge.now facts.now.function.now block.now) 0 first (block_in facts.now.judge.now facts.now.function.now block.now).instructions) result }
{
    let count = block.instructions.len();
    let mut behind_phis = true;
    'instructions: for before in 0..count {
        let instruction = block.instructions.at(before);
        let site = Site {
            number: first + before as u64,
            block: id,
            before,
        };
        judge_instruction(
            alloc,
            facts,
            phis,
            operands,
            &site,
            behind_phis,
            instruction,
        )?;
        behind_phis &= is_phi(instruction);
    }
    let site = Site {
        number: first + count as u64,
        block: id,
        before: count,
    };
    judge_ending(alloc, facts, operands, &site, &block.end)
}

/// The number of the first instruction behind a block, of which the first has that number. It is refused past 64 bits, which is more
/// than memory has room for.
fn number_behind(first: u64, block: &Block) -> Result<u64, AllocError>
    ensures { IfOk result (λ next. next ≡ first + length block.now.instructions + 1) }
{
    let end = first
        .checked_add(block.instructions.len() as u64)
        .ok_or(AllocError)?;
    end.checked_add(1).ok_or(AllocError)
}

/// What the blocks of a function are asked, in their order.
pub(crate) fn judge_blocks(
    alloc: Global,
    facts: &FunctionFacts<'_>,
    phis: &mut PhiJudge,
    operands: &mut Vec<Operand>,
) -> Result<(), VerifyFault>
    requires ready { IsReady facts.now.judge.now facts.now.function.now facts.now.classes.now facts.now.value_types.now.items facts.now.rows }
    requires sourced { MayBeSourced facts.now.function.now phis.old }
    ensures { Judged (blocks_demands (module_of facts.now.judge.now) (function_in facts.now.judge.now facts.now.function.now) 0 (blocks_in facts.now.judge.now facts.now.function.now)) result }
{
    let function = facts.function;
    let mut number = 0;
    'in_order: for index in 0..function.block_count() {
        let id = BlockId::new(index as u32);
        let block = function.block(id);
        let next = number_behind(number, block)?;
        judge_block(alloc, facts, phis, operands, id, number, block)?;
        number = next;
    }
    Ok(())
}
