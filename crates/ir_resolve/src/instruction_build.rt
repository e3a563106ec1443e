//! Instructions and the ends of blocks, as an arena has them.
//!
//! It stands on `item_build::types`, and on the names of a function that it gathers. It promises that an instruction and an end of the
//! arena are the ones that are written. Definitions: `specs/InstructionBuild/Meant`, `specs/InstructionBuild/Named`, `specs/InstructionBuild/Made`, and `Locals` of `name_rules`.
//!
//! ```
//! // `block` is `entry: %x = add i32 1, 2 ret i32 %x`, as `ir_phrases::instructions` has it.
//! let mut locals = Locals::new(alloc); // for this function and, once it is cleared, for those behind it
//! add_block(&mut locals.values, &mut locals.blocks, alloc, 0, &block)? // 0: no number is taken, since both have names
//! build_instruction(&mut builder, alloc, &locals, ValueId::new(0), &block.instructions[0])? // an Inst::Binary
//! build_ending(&mut builder, alloc, &locals, &block.ending)? // an Ending::Return, of the value 0
//! ```
ghost use Rattle.std.specs.Prelude.{◌≡◌, ◌<◌, ◌^◌, length, OnOk, IfOk, true};
ghost use Rattle.ir_phrases.specs.Instructions.View.{instruction_view, ending_view};
ghost use Rattle.type_table.specs.Types.{structs};
ghost use Rattle.module_arena.specs.Mentions as mentions;
ghost use Rattle.name_rules.specs.Bodies.{ending_in};
ghost use Rattle.name_rules.specs.Locals.{has_result};
ghost use Rattle.item_build.specs.Types.Holding.{entries};
ghost use Rattle.item_build.specs.Types.Stands.{Grows};
ghost use Rattle.item_build.specs.Buildable.Bodies.{CanInstruction, CanEnding};
ghost use Rattle.ir_resolve.specs.InstructionBuild.Meant.{IsInst, IsEnding};
ghost use Rattle.ir_resolve.specs.InstructionBuild.Named.{called_of, result_of, built};

mod blocks;
mod called;
mod endings;
mod gathering;
mod local_ids;
mod locals;
mod numbers;
mod operations;
mod phrases;
mod places;
mod signatures;
mod targets;
mod values;

use crate::instruction_build::endings::{build_branch, build_return, build_switch};
use crate::instruction_build::operations::build_operation;
use crate::instruction_build::targets::find_block;
pub use blocks::add_block;
pub use called::gives_result;
use ir_phrases::instructions::WrittenEnding;
use item_build::types::Builder;
pub use local_ids::LocalIds;
pub use locals::Locals;
use module_arena::{Ending, Inst, ValueId};
use std::alloc::{AllocError, Global};

/// The instruction that is written; its result, where it has one, is the next value. It is refused for want of memory alone.
pub fn build_instruction(
    builder: &mut Builder,
    alloc: Global,
    locals: &Locals,
    next: ValueId,
    written: &ir_phrases::instructions::Instruction,
) -> Result<Inst, AllocError>
    requires can { CanInstruction (structs builder.old.arena.table) (entries builder.old.arena) (called_of locals.now.values.names.items) (called_of locals.now.blocks.names.items) (instruction_view written.now) }
    requires few_values { length locals.now.values.names.items < 2 ^ 32 }
    requires few_blocks { length locals.now.blocks.names.items < 2 ^ 32 }
    ensures grows { OnOk result (Grows builder.old.arena builder.new.arena) }
    ensures is { IfOk result (λ i. IsInst (called_of locals.now.values.names.items) (called_of locals.now.blocks.names.items) builder.new.arena i (built (called_of locals.now.values.names.items) next (instruction_view written.now))) }
    ensures gives { IfOk result (λ i. mentions.result_of i ≡ result_of next (instruction_view written.now)) }
{
    let has_result = gives_result(written);
    build_operation(builder, alloc, locals, next, has_result, &written.operation)
}

/// The end of a block that is written. It is refused for want of memory alone.
pub fn build_ending(
    builder: &mut Builder,
    alloc: Global,
    locals: &Locals,
    written: &WrittenEnding,
) -> Result<Ending, AllocError>
    requires can { CanEnding (structs builder.old.arena.table) (entries builder.old.arena) (called_of locals.now.values.names.items) (called_of locals.now.blocks.names.items) (ending_view written.now) }
    requires few_values { length locals.now.values.names.items < 2 ^ 32 }
    requires few_blocks { length locals.now.blocks.names.items < 2 ^ 32 }
    ensures grows { OnOk result (Grows builder.old.arena builder.new.arena) }
    ensures is { IfOk result (λ e. IsEnding (called_of locals.now.values.names.items) (called_of locals.now.blocks.names.items) builder.new.arena e (ending_in (ending_view written.now))) }
{
    match written {
        WrittenEnding::ReturnVoid => Ok(Ending::ReturnVoid),
        WrittenEnding::Return(value) => build_return(builder, alloc, locals, value),
        WrittenEnding::Jump(target) => Ok(Ending::Jump(find_block(locals, target))),
        WrittenEnding::Branch(branch) => build_branch(builder, alloc, locals, branch),
        WrittenEnding::Switch(switch) => build_switch(builder, alloc, locals, switch),
        WrittenEnding::Unreachable => Ok(Ending::Unreachable),
    }
}
