//! The instructions of a block.
ghost use Rattle.std.specs.Prelude.{◌≡◌, ◌<◌, ◌+◌, ◌-◌, ◌^◌, map, flat_map, length, All, OnOk, IfOk};
ghost use Rattle.std.specs.List.{sum_by};
ghost use Rattle.ir_phrases.specs.Instructions.View.{instruction_view};
ghost use Rattle.type_table.specs.Types.{structs};
ghost use Rattle.module_arena.specs.Known.{upto};
ghost use Rattle.module_arena.specs.Mentions as mentions;
ghost use Rattle.item_build.specs.Types.Holding.{entries};
ghost use Rattle.item_build.specs.Types.Stands.{Grows};
ghost use Rattle.item_build.specs.Buildable.Bodies.{CanInstruction};
ghost use Rattle.ir_resolve.specs.InstructionBuild.Named.{called_of};
ghost use Rattle.ir_resolve.specs.Built.{result_count, instructions_built, AreInsts};

use crate::instruction_build::{Locals, build_instruction, gives_result};
use ir_base::ItemList;
use ir_phrases::instructions::Instruction;
use item_build::types::Builder;
use module_arena::{InstList, ValueId};
use std::alloc::{AllocError, Global};

/// The value behind the result of the instruction, where it has one.
fn value_behind(next: ValueId, written: &Instruction) -> ValueId
    requires { next < 2 ^ 32 - 1 }
    ensures { result ≡ next + result_count (instruction_view written.now) }
{
    if gives_result(written) {
        ValueId::new(next.number() + 1)
    } else {
        next
    }
}

/// The instructions that are written, whose results are the values from the next one on, and the value behind these.
pub(crate) fn build_instructions(
    builder: &mut Builder,
    alloc: Global,
    locals: &Locals,
    first: ValueId,
    written: &[Instruction],
) -> Result<(InstList, ValueId), AllocError>
    requires can { All (λ i. CanInstruction (structs builder.old.arena.table) (entries builder.old.arena) (called_of locals.now.values.names.items) (called_of locals.now.blocks.names.items) (instruction_view i)) written.now }
    requires few_values { length locals.now.values.names.items < 2 ^ 32 }
    requires few_blocks { length locals.now.blocks.names.items < 2 ^ 32 }
    requires few { first + length written.now < 2 ^ 32 }
    ensures grows { OnOk result (Grows builder.old.arena builder.new.arena) }
    ensures are { IfOk result (λ made. AreInsts (called_of locals.now.values.names.items) (called_of locals.now.blocks.names.items) builder.new.arena made.0
        (instructions_built (called_of locals.now.values.names.items) first (map instruction_view written.now))) }
    ensures in_order { IfOk result (λ made. flat_map mentions.result_of made.0 ≡ upto first (sum_by result_count (map instruction_view written.now))) }
    ensures next { IfOk result (λ made. made.1 ≡ first + sum_by result_count (map instruction_view written.now)) }
{
    let mut list = Vec::with_capacity(alloc, written.len())?;
    let mut next = first;
    for instruction in written {
        let inst = build_instruction(builder, alloc, locals, next, instruction)?;
        list.push(inst)?;
        next = value_behind(next, instruction);
    }
    Ok((ItemList::from_vec(list), next))
}
