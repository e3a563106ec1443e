//! Operations, each by the function of its phrase.
ghost use Rattle.std.specs.Prelude.{◌≡◌, ◌<◌, ◌^◌, cond, length, Some, None, IfOk, OnOk};
ghost use Rattle.ir_phrases.specs.Instructions.View.{operation_view};
ghost use Rattle.name_rules.specs.Bodies.{operation_in};
ghost use Rattle.item_build.specs.Types.Stands.{Grows};
ghost use Rattle.ir_resolve.specs.InstructionBuild.Parts.{value_names, block_names};
ghost use Rattle.ir_resolve.specs.InstructionBuild.Made.{Makes, TakesOperation, defined_by};

use crate::instruction_build::locals::Locals;
use crate::instruction_build::phrases::{
    build_binary, build_cast, build_compare, build_extraction, build_freeze, build_insertion,
    build_select,
};
use crate::instruction_build::places::{
    build_alloca, build_call, build_element_address, build_load, build_phi, build_store,
};
use ir_phrases::instructions::Operation;
use item_build::types::Builder;
use module_arena::{Inst, ValueId};
use std::alloc::{AllocError, Global};

/// The next value, where there is one to define.
fn defined_value(has_result: bool, next: ValueId) -> Option<ValueId>
    ensures { result ≡ cond has_result (Some next) None }
{
    if has_result { Some(next) } else { None }
}

/// The operation that is written, which defines the next value, where it defines one.
pub(crate) fn build_operation(
    builder: &mut Builder,
    alloc: Global,
    locals: &Locals,
    next: ValueId,
    has_result: bool,
    written: &Operation,
) -> Result<Inst, AllocError>
    requires can { TakesOperation builder.old.arena locals.now (operation_view written.now) }
    requires few_values { length locals.now.values.names.items < 2 ^ 32 }
    requires few_blocks { length locals.now.blocks.names.items < 2 ^ 32 }
    ensures grows { OnOk result (Grows builder.old.arena builder.new.arena) }
    ensures is { IfOk result (λ i. Makes (value_names locals.now) (block_names locals.now) builder.new.arena (defined_by has_result next (operation_view written.now)) i (operation_in (operation_view written.now))) }
{
    match written {
        Operation::Binary {
            opcode,
            flags,
            operands,
        } => build_binary(builder, alloc, locals, next, *opcode, *flags, operands),
        Operation::Compare {
            flags,
            predicate,
            operands,
        } => build_compare(builder, alloc, locals, next, *flags, *predicate, operands),
        Operation::Cast {
            opcode,
            flags,
            conversion,
        } => build_cast(builder, alloc, locals, next, *opcode, *flags, conversion),
        Operation::Select(choice) => build_select(builder, alloc, locals, next, choice),
        Operation::Freeze(value) => build_freeze(builder, alloc, locals, next, value),
        Operation::Phi(phi) => build_phi(builder, alloc, locals, next, phi),
        Operation::Load { flags, load } => build_load(builder, alloc, locals, next, *flags, load),
        Operation::Store { flags, store } => build_store(builder, alloc, locals, *flags, store),
        Operation::Alloca(alloca) => build_alloca(builder, alloc, locals, next, alloca),
        Operation::GetElementPtr { flags, address } => {
            build_element_address(builder, alloc, locals, next, *flags, address)
        }
        Operation::Call(call) => {
            let defined = defined_value(has_result, next);
            build_call(builder, alloc, locals, defined, call)
        }
        Operation::ExtractValue(part) => build_extraction(builder, alloc, locals, next, part),
        Operation::InsertValue(part) => build_insertion(builder, alloc, locals, next, part),
    }
}
