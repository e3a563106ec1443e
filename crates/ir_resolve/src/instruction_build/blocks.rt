//! Ids for a block and for the results of its instructions.
ghost use Rattle.std.specs.Prelude.{◌≡◌, ◌<◌, ◌+◌, ◌-◌, ◌^◌, ◌++◌, ◌∷◌, [], map, filter_map, length, OnOk, IfOk};
ghost use Rattle.ir_phrases.specs.Instructions.View.{block_view};
ghost use Rattle.module_arena.specs.Module as m;
ghost use Rattle.module_arena.specs.View.{local_view};
ghost use Rattle.name_rules.specs.Bodies.{block_in};
ghost use Rattle.name_rules.specs.Locals.{next_after, announced_block};

use crate::instruction_build::called::number_behind;
use crate::instruction_build::local_ids::LocalIds;
use ir_phrases::instructions::WrittenBlock;
use std::alloc::{AllocError, Global};

/// Gives the next ids to the block and to the results of its instructions, and hands back the next number behind them. Only memory may be
/// wanting.
#[tactic(auto, using(crate::proofs::OnInstructionBuild::Gathered::behind_one_le))]
pub fn add_block<'a>(
    values: &mut LocalIds<'a>,
    blocks: &mut LocalIds<'a>,
    alloc: Global,
    next: u32,
    written: &'a WrittenBlock,
) -> Result<u32, AllocError>
    requires numbers { next + length written.now.instructions.items < 2 ^ 32 - 2 }
    requires few_values { length values.old.names.items + length written.now.instructions.items < 2 ^ 32 - 1 }
    requires few_blocks { length blocks.old.names.items < 2 ^ 32 - 1 }
    ensures next { IfOk result (λ after. after ≡ next_after next (announced_block (block_view written.now))) }
    ensures label { OnOk result (map local_view blocks.new.names.items
        ≡ map local_view blocks.old.names.items ++ (block_in next (block_view written.now)).name ∷ []) }
    ensures results { OnOk result (map local_view values.new.names.items
        ≡ map local_view values.old.names.items ++ filter_map (λ (i : m.Instruction). i.result) (block_in next (block_view written.now)).instructions) }
{
    blocks.add(alloc, next, &written.label)?;
    let inside = number_behind(next, &written.label);
    values.add_results(alloc, inside, &written.instructions)
}
