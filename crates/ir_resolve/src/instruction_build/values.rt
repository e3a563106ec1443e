//! Values and operands.
ghost use Rattle.std.specs.Prelude.{◌≡◌, ◌<◌, ◌^◌, map, length, All, IfOk, IfSome, OnOk};
ghost use Rattle.ir_phrases.specs.Constants.View.{type_view, value_view, typed_value_view};
ghost use Rattle.type_table.specs.Tree.{ptr};
ghost use Rattle.type_table.specs.Types.{structs};
ghost use Rattle.name_rules.specs.Written.{type_in, value_in, operand_in};
ghost use Rattle.item_build.specs.Types.Fitting.{CanBe};
ghost use Rattle.item_build.specs.Types.Stands.{Grows};
ghost use Rattle.ir_resolve.specs.InstructionBuild.Meant.{IsValue, IsOperand};
ghost use Rattle.ir_resolve.specs.InstructionBuild.Parts.{value_names, block_names, TakesValue, TakesOperand, Each};

use crate::instruction_build::locals::Locals;
use ir_base::{ItemList, Place};
use ir_phrases::constants::{Type, TypedValue, WrittenValue};
use item_build::types::Builder;
use module_arena::{Operand, OperandList, Value, ValueId};
use std::alloc::{AllocError, Global};

/// The value that is written, at the type that stands before it. It is refused for want of memory alone.
pub(crate) fn build_value(
    builder: &mut Builder,
    alloc: Global,
    locals: &Locals,
    ty: &Type,
    written: &WrittenValue,
) -> Result<Value, AllocError>
    requires ty { CanBe (structs builder.old.arena.table) (type_in (type_view ty.now)) }
    requires can { TakesValue builder.old.arena locals.now (value_view written.now) }
    requires few_values { length locals.now.values.names.items < 2 ^ 32 }
    ensures grows { OnOk result (Grows builder.old.arena builder.new.arena) }
    ensures is { IfOk result (λ v. IsValue (value_names locals.now) (block_names locals.now) builder.new.arena v (value_in (type_in (type_view ty.now)) (value_view written.now))) }
{
    match written {
        WrittenValue::Local(local) => {
            let id = locals.values.find(local);
            Ok(Value::Local(ValueId::new(id)))
        }
        WrittenValue::Constant(constant) => {
            let id = builder.add_constant(alloc, constant, ty)?;
            Ok(Value::Known(id))
        }
    }
}

/// What a call calls: a value that stands at the type of addresses. It is refused for want of memory alone.
pub(crate) fn build_callee(
    builder: &mut Builder,
    alloc: Global,
    locals: &Locals,
    written: &WrittenValue,
) -> Result<Value, AllocError>
    requires can { TakesValue builder.old.arena locals.now (value_view written.now) }
    requires few_values { length locals.now.values.names.items < 2 ^ 32 }
    ensures grows { OnOk result (Grows builder.old.arena builder.new.arena) }
    ensures is { IfOk result (λ v. IsValue (value_names locals.now) (block_names locals.now) builder.new.arena v (value_in ptr (value_view written.now))) }
{
    let ty = Type::Ptr(Place { line: 0, column: 0 });
    build_value(builder, alloc, locals, &ty, written)
}

/// The operand that is written, where its type is plain and there, and where it is a local that its number finds. It calls
/// nothing, so that no register is saved for it.
#[inline(always)]
fn plain_operand(builder: &Builder, locals: &Locals, written: &TypedValue) -> Option<Operand>
    ensures { IfSome result (λ o. IsOperand (value_names locals.now) (block_names locals.now) builder.now.arena o (operand_in (typed_value_view written.now))) }
{
    let WrittenValue::Local(local) = &written.value else {
        return None;
    };
    let ty = builder.find_plain(&written.ty)?;
    let id = locals.values.find_number(local)?;
    let value = Value::Local(ValueId::new(id));
    Some(Operand { ty, value })
}

/// The operand that is written, whatever it is. It is refused for want of memory alone.
#[inline(never)]
fn build_any_operand(
    builder: &mut Builder,
    alloc: Global,
    locals: &Locals,
    written: &TypedValue,
) -> Result<Operand, AllocError>
    requires can { TakesOperand builder.old.arena locals.now (typed_value_view written.now) }
    requires few_values { length locals.now.values.names.items < 2 ^ 32 }
    ensures grows { OnOk result (Grows builder.old.arena builder.new.arena) }
    ensures is { IfOk result (λ o. IsOperand (value_names locals.now) (block_names locals.now) builder.new.arena o (operand_in (typed_value_view written.now))) }
{
    let ty = builder.add_type(alloc, &written.ty)?;
    let value = build_value(builder, alloc, locals, &written.ty, &written.value)?;
    Ok(Operand { ty, value })
}

/// The operand that is written: nearly always a local of a plain type, which has a short way. It is refused for want of
/// memory alone.
pub(crate) fn build_operand(
    builder: &mut Builder,
    alloc: Global,
    locals: &Locals,
    written: &TypedValue,
) -> Result<Operand, AllocError>
    requires can { TakesOperand builder.old.arena locals.now (typed_value_view written.now) }
    requires few_values { length locals.now.values.names.items < 2 ^ 32 }
    ensures grows { OnOk result (Grows builder.old.arena builder.new.arena) }
    ensures is { IfOk result (λ o. IsOperand (value_names locals.now) (block_names locals.now) builder.new.arena o (operand_in (typed_value_view written.now))) }
{
    if let Some(operand) = plain_operand(builder, locals, written) {
        return Ok(operand);
    }
    build_any_operand(builder, alloc, locals, written)
}

/// The operands that are written, in order. It is refused for want of memory alone.
pub(crate) fn build_operands(
    builder: &mut Builder,
    alloc: Global,
    locals: &Locals,
    written: &[TypedValue],
) -> Result<OperandList, AllocError>
    requires can { All (TakesOperand builder.old.arena locals.now) (map typed_value_view written.now) }
    requires few_values { length locals.now.values.names.items < 2 ^ 32 }
    ensures grows { OnOk result (Grows builder.old.arena builder.new.arena) }
    ensures are { IfOk result (λ os. Each (IsOperand (value_names locals.now) (block_names locals.now) builder.new.arena) os (map operand_in (map typed_value_view written.now))) }
{
    let mut operands = Vec::with_capacity(alloc, written.len())?;
    for one in written {
        let operand = build_operand(builder, alloc, locals, one)?;
        // Part by part: a loop that pushes the whole is beyond the checker.
        let value = operand.value;
        operands.push(Operand {
            ty: operand.ty,
            value,
        })?;
    }
    Ok(ItemList::from_vec(operands))
}
