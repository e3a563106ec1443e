//! Instructions that compute from their operands alone.
ghost use Rattle.std.specs.Prelude.{◌≡◌, ◌<◌, ◌^◌, length, Some, IfOk, OnOk};
ghost use Rattle.ir_phrases.specs.Constants.View.{type_view, value_view, typed_value_view};
ghost use Rattle.ir_phrases.specs.Instructions.Tree as tree;
ghost use Rattle.name_rules.specs.Bodies.{operation_in};
ghost use Rattle.name_rules.specs.Written.{type_in, value_in, operand_in};
ghost use Rattle.item_build.specs.Types.Stands.{Grows};
ghost use Rattle.ir_resolve.specs.InstructionBuild.Meant.{IsValue, IsOperand};
ghost use Rattle.ir_resolve.specs.InstructionBuild.Parts.{value_names, block_names, TakesValue, TakesOperand};
ghost use Rattle.ir_resolve.specs.InstructionBuild.Made.{Makes, TakesOperation};

use crate::instruction_build::locals::Locals;
use crate::instruction_build::numbers::indices_of;
use crate::instruction_build::values::{build_operand, build_value};
use ir_phrases::constants::TypedValue;
use ir_phrases::instructions::{CastParts, Extraction, Operands, WrittenChoice, WrittenInsertion};
use ir_tables::{Flags, Opcode, Predicate};
use item_build::types::Builder;
use module_arena::{Boxed, Choice, Inst, Operand, Value, ValueId};
use std::alloc::{AllocError, Global};

/// The two operands of an operation.
#[derive(Clone, Copy)]
struct Sides {
    left: Operand,
    right: Value,
}

/// The two operands that are written, the right one at the type of the left one.
fn build_sides(
    builder: &mut Builder,
    alloc: Global,
    locals: &Locals,
    operands: &Operands,
) -> Result<Sides, AllocError>
    requires left { TakesOperand builder.old.arena locals.now (typed_value_view operands.now.left) }
    requires right { TakesValue builder.old.arena locals.now (value_view operands.now.right) }
    requires few_values { length locals.now.values.names.items < 2 ^ 32 }
    ensures grows { OnOk result (Grows builder.old.arena builder.new.arena) }
    ensures left { IfOk result (λ s. IsOperand (value_names locals.now) (block_names locals.now) builder.new.arena s.left (operand_in (typed_value_view operands.now.left))) }
    ensures right { IfOk result (λ s. IsValue (value_names locals.now) (block_names locals.now) builder.new.arena s.right (value_in (type_in (type_view operands.now.left.ty)) (value_view operands.now.right))) }
{
    let left = build_operand(builder, alloc, locals, &operands.left)?;
    let right = build_value(builder, alloc, locals, &operands.left.ty, &operands.right)?;
    Ok(Sides { left, right })
}

/// An operation on two operands of one type.
pub(crate) fn build_binary(
    builder: &mut Builder,
    alloc: Global,
    locals: &Locals,
    next: ValueId,
    opcode: Opcode,
    flags: Flags,
    operands: &Operands,
) -> Result<Inst, AllocError>
    requires can { TakesOperation builder.old.arena locals.now (tree.Binary opcode flags (typed_value_view operands.now.left) (value_view operands.now.right)) }
    requires few_values { length locals.now.values.names.items < 2 ^ 32 }
    ensures grows { OnOk result (Grows builder.old.arena builder.new.arena) }
    ensures is { IfOk result (λ i. Makes (value_names locals.now) (block_names locals.now) builder.new.arena (Some next) i (operation_in (tree.Binary opcode flags (typed_value_view operands.now.left) (value_view operands.now.right)))) }
{
    let sides = build_sides(builder, alloc, locals, operands)?;
    Ok(Inst::Binary(opcode, flags, next, sides.left, sides.right))
}

/// A comparison.
pub(crate) fn build_compare(
    builder: &mut Builder,
    alloc: Global,
    locals: &Locals,
    next: ValueId,
    flags: Flags,
    predicate: Predicate,
    operands: &Operands,
) -> Result<Inst, AllocError>
    requires can { TakesOperation builder.old.arena locals.now (tree.Compare flags predicate (typed_value_view operands.now.left) (value_view operands.now.right)) }
    requires few_values { length locals.now.values.names.items < 2 ^ 32 }
    ensures grows { OnOk result (Grows builder.old.arena builder.new.arena) }
    ensures is { IfOk result (λ i. Makes (value_names locals.now) (block_names locals.now) builder.new.arena (Some next) i (operation_in (tree.Compare flags predicate (typed_value_view operands.now.left) (value_view operands.now.right)))) }
{
    let sides = build_sides(builder, alloc, locals, operands)?;
    Ok(Inst::Compare(flags, predicate, next, sides.left, sides.right))
}

/// A cast to a type.
pub(crate) fn build_cast(
    builder: &mut Builder,
    alloc: Global,
    locals: &Locals,
    next: ValueId,
    opcode: Opcode,
    flags: Flags,
    conversion: &CastParts,
) -> Result<Inst, AllocError>
    requires can { TakesOperation builder.old.arena locals.now (tree.Cast opcode flags (typed_value_view conversion.now.value) (type_view conversion.now.to)) }
    requires few_values { length locals.now.values.names.items < 2 ^ 32 }
    ensures grows { OnOk result (Grows builder.old.arena builder.new.arena) }
    ensures is { IfOk result (λ i. Makes (value_names locals.now) (block_names locals.now) builder.new.arena (Some next) i (operation_in (tree.Cast opcode flags (typed_value_view conversion.now.value) (type_view conversion.now.to)))) }
{
    let operand = build_operand(builder, alloc, locals, &conversion.value)?;
    let to = builder.add_type(alloc, &conversion.to)?;
    Ok(Inst::Convert(opcode, flags, next, operand, to))
}

/// `select`
pub(crate) fn build_select(
    builder: &mut Builder,
    alloc: Global,
    locals: &Locals,
    next: ValueId,
    choice: &WrittenChoice,
) -> Result<Inst, AllocError>
    requires can { TakesOperation builder.old.arena locals.now (tree.Select (typed_value_view choice.now.condition) (typed_value_view choice.now.first) (typed_value_view choice.now.second)) }
    requires few_values { length locals.now.values.names.items < 2 ^ 32 }
    ensures grows { OnOk result (Grows builder.old.arena builder.new.arena) }
    ensures is { IfOk result (λ i. Makes (value_names locals.now) (block_names locals.now) builder.new.arena (Some next) i (operation_in (tree.Select (typed_value_view choice.now.condition) (typed_value_view choice.now.first) (typed_value_view choice.now.second)))) }
{
    let condition = build_operand(builder, alloc, locals, &choice.condition)?;
    let first = build_operand(builder, alloc, locals, &choice.first)?;
    let second = build_operand(builder, alloc, locals, &choice.second)?;
    let parts = Boxed::new(
        alloc,
        Choice {
            condition,
            first,
            second,
        },
    )?;
    Ok(Inst::Select(next, parts))
}

/// `freeze`
pub(crate) fn build_freeze(
    builder: &mut Builder,
    alloc: Global,
    locals: &Locals,
    next: ValueId,
    written: &TypedValue,
) -> Result<Inst, AllocError>
    requires can { TakesOperation builder.old.arena locals.now (tree.Freeze (typed_value_view written.now)) }
    requires few_values { length locals.now.values.names.items < 2 ^ 32 }
    ensures grows { OnOk result (Grows builder.old.arena builder.new.arena) }
    ensures is { IfOk result (λ i. Makes (value_names locals.now) (block_names locals.now) builder.new.arena (Some next) i (operation_in (tree.Freeze (typed_value_view written.now)))) }
{
    let operand = build_operand(builder, alloc, locals, written)?;
    Ok(Inst::Freeze(next, operand))
}

/// `extractvalue`
pub(crate) fn build_extraction(
    builder: &mut Builder,
    alloc: Global,
    locals: &Locals,
    next: ValueId,
    extraction: &Extraction,
) -> Result<Inst, AllocError>
    requires can { TakesOperation builder.old.arena locals.now (tree.ExtractValue (typed_value_view extraction.now.value) extraction.now.indices.items) }
    requires few_values { length locals.now.values.names.items < 2 ^ 32 }
    ensures grows { OnOk result (Grows builder.old.arena builder.new.arena) }
    ensures is { IfOk result (λ i. Makes (value_names locals.now) (block_names locals.now) builder.new.arena (Some next) i (operation_in (tree.ExtractValue (typed_value_view extraction.now.value) extraction.now.indices.items))) }
{
    let aggregate = build_operand(builder, alloc, locals, &extraction.value)?;
    let indices = indices_of(alloc, &extraction.indices)?;
    Ok(Inst::ExtractValue(next, aggregate, indices))
}

/// `insertvalue`
pub(crate) fn build_insertion(
    builder: &mut Builder,
    alloc: Global,
    locals: &Locals,
    next: ValueId,
    insertion: &WrittenInsertion,
) -> Result<Inst, AllocError>
    requires can { TakesOperation builder.old.arena locals.now (tree.InsertValue (typed_value_view insertion.now.value) (typed_value_view insertion.now.part) insertion.now.indices.items) }
    requires few_values { length locals.now.values.names.items < 2 ^ 32 }
    ensures grows { OnOk result (Grows builder.old.arena builder.new.arena) }
    ensures is { IfOk result (λ i. Makes (value_names locals.now) (block_names locals.now) builder.new.arena (Some next) i (operation_in (tree.InsertValue (typed_value_view insertion.now.value) (typed_value_view insertion.now.part) insertion.now.indices.items))) }
{
    let aggregate = build_operand(builder, alloc, locals, &insertion.value)?;
    let part = build_operand(builder, alloc, locals, &insertion.part)?;
    let indices = indices_of(alloc, &insertion.indices)?;
    let parts = Boxed::new(
        alloc,
        module_arena::Insertion {
            aggregate,
            part,
            indices,
        },
    )?;
    Ok(Inst::InsertValue(next, parts))
}
