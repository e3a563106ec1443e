//! Instructions that deal with memory, with blocks and with functions.
ghost use Rattle.std.specs.Prelude.{◌≡◌, ◌<◌, ◌^◌, map, length, Some, None, IfOk, OnOk};
ghost use Rattle.ir_phrases.specs.Constants.View.{type_view, typed_value_view};
ghost use Rattle.ir_phrases.specs.Instructions.Tree as tree;
ghost use Rattle.ir_phrases.specs.Instructions.View.{incoming_view, call_view};
ghost use Rattle.name_rules.specs.Bodies.{operation_in};
ghost use Rattle.item_build.specs.Types.Stands.{Grows};
ghost use Rattle.ir_resolve.specs.InstructionBuild.Parts.{value_names, block_names};
ghost use Rattle.ir_resolve.specs.InstructionBuild.Made.{Makes, TakesOperation, count_in};

use crate::instruction_build::locals::Locals;
use crate::instruction_build::signatures::build_signature;
use crate::instruction_build::targets::build_incoming_list;
use crate::instruction_build::values::{build_callee, build_operand, build_operands};
use ir_phrases::instructions::{Address, Alloca, Load, Phi, Store, WrittenCall};
use ir_tables::Flags;
use item_build::types::{Builder, alignment_of};
use module_arena::{Boxed, Inst, ValueId};
use std::alloc::{AllocError, Global};

/// `phi`
pub(crate) fn build_phi(
    builder: &mut Builder,
    alloc: Global,
    locals: &Locals,
    next: ValueId,
    phi: &Phi,
) -> Result<Inst, AllocError>
    requires can { TakesOperation builder.old.arena locals.now (tree.Phi (type_view phi.now.ty) (map incoming_view phi.now.incoming.items)) }
    requires few_values { length locals.now.values.names.items < 2 ^ 32 }
    requires few_blocks { length locals.now.blocks.names.items < 2 ^ 32 }
    ensures grows { OnOk result (Grows builder.old.arena builder.new.arena) }
    ensures is { IfOk result (λ i. Makes (value_names locals.now) (block_names locals.now) builder.new.arena (Some next) i (operation_in (tree.Phi (type_view phi.now.ty) (map incoming_view phi.now.incoming.items)))) }
{
    let ty = builder.add_type(alloc, &phi.ty)?;
    let incoming = build_incoming_list(builder, alloc, locals, &phi.ty, &phi.incoming)?;
    Ok(Inst::Phi(next, ty, incoming))
}

/// `load`
pub(crate) fn build_load(
    builder: &mut Builder,
    alloc: Global,
    locals: &Locals,
    next: ValueId,
    flags: Flags,
    load: &Load,
) -> Result<Inst, AllocError>
    requires can { TakesOperation builder.old.arena locals.now (tree.Load flags (type_view load.now.ty) (typed_value_view load.now.address) load.now.alignment) }
    requires few_values { length locals.now.values.names.items < 2 ^ 32 }
    ensures grows { OnOk result (Grows builder.old.arena builder.new.arena) }
    ensures is { IfOk result (λ i. Makes (value_names locals.now) (block_names locals.now) builder.new.arena (Some next) i (operation_in (tree.Load flags (type_view load.now.ty) (typed_value_view load.now.address) load.now.alignment))) }
{
    let ty = builder.add_type(alloc, &load.ty)?;
    let address = build_operand(builder, alloc, locals, &load.address)?;
    let alignment = alignment_of(&load.alignment);
    Ok(Inst::Load(flags, next, ty, address, alignment))
}

/// `store`, which defines no value.
pub(crate) fn build_store(
    builder: &mut Builder,
    alloc: Global,
    locals: &Locals,
    flags: Flags,
    store: &Store,
) -> Result<Inst, AllocError>
    requires can { TakesOperation builder.old.arena locals.now (tree.Store flags (typed_value_view store.now.value) (typed_value_view store.now.address) store.now.alignment) }
    requires few_values { length locals.now.values.names.items < 2 ^ 32 }
    ensures grows { OnOk result (Grows builder.old.arena builder.new.arena) }
    ensures is { IfOk result (λ i. Makes (value_names locals.now) (block_names locals.now) builder.new.arena None i (operation_in (tree.Store flags (typed_value_view store.now.value) (typed_value_view store.now.address) store.now.alignment))) }
{
    let stored = build_operand(builder, alloc, locals, &store.value)?;
    let address = build_operand(builder, alloc, locals, &store.address)?;
    let alignment = alignment_of(&store.alignment);
    Ok(Inst::Store(flags, stored, address, alignment))
}

/// `alloca`
pub(crate) fn build_alloca(
    builder: &mut Builder,
    alloc: Global,
    locals: &Locals,
    next: ValueId,
    alloca: &Alloca,
) -> Result<Inst, AllocError>
    requires can { TakesOperation builder.old.arena locals.now (tree.Alloca (type_view alloca.now.ty) (count_in alloca.now.count) alloca.now.alignment) }
    requires few_values { length locals.now.values.names.items < 2 ^ 32 }
    ensures grows { OnOk result (Grows builder.old.arena builder.new.arena) }
    ensures is { IfOk result (λ i. Makes (value_names locals.now) (block_names locals.now) builder.new.arena (Some next) i (operation_in (tree.Alloca (type_view alloca.now.ty) (count_in alloca.now.count) alloca.now.alignment))) }
{
    let ty = builder.add_type(alloc, &alloca.ty)?;
    let alignment = alignment_of(&alloca.alignment);
    match &alloca.count {
        Some(written) => {
            let count = build_operand(builder, alloc, locals, written)?;
            Ok(Inst::Alloca(next, ty, Some(count), alignment))
        }
        None => Ok(Inst::Alloca(next, ty, None, alignment)),
    }
}

/// `getelementptr`: the first operand is the base.
pub(crate) fn build_element_address(
    builder: &mut Builder,
    alloc: Global,
    locals: &Locals,
    next: ValueId,
    flags: Flags,
    address: &Address,
) -> Result<Inst, AllocError>
    requires can { TakesOperation builder.old.arena locals.now (tree.GetElementPtr flags (type_view address.now.source) (map typed_value_view address.now.operands.items)) }
    requires few_values { length locals.now.values.names.items < 2 ^ 32 }
    ensures grows { OnOk result (Grows builder.old.arena builder.new.arena) }
    ensures is { IfOk result (λ i. Makes (value_names locals.now) (block_names locals.now) builder.new.arena (Some next) i (operation_in (tree.GetElementPtr flags (type_view address.now.source) (map typed_value_view address.now.operands.items)))) }
{
    let source = builder.add_type(alloc, &address.source)?;
    let Some((first, others)) = address.operands.split_first() else {
        unreachable!();
    };
    let base = build_operand(builder, alloc, locals, first)?;
    let indices = build_operands(builder, alloc, locals, others)?;
    Ok(Inst::GetElementPtr(flags, next, source, base, indices))
}

/// `call`, which defines that value, where it defines one.
pub(crate) fn build_call(
    builder: &mut Builder,
    alloc: Global,
    locals: &Locals,
    defined: Option<ValueId>,
    call: &WrittenCall,
) -> Result<Inst, AllocError>
    requires can { TakesOperation builder.old.arena locals.now (tree.Call (call_view call.now)) }
    requires few_values { length locals.now.values.names.items < 2 ^ 32 }
    ensures grows { OnOk result (Grows builder.old.arena builder.new.arena) }
    ensures is { IfOk result (λ i. Makes (value_names locals.now) (block_names locals.now) builder.new.arena defined i (operation_in (tree.Call (call_view call.now)))) }
{
    let signature = build_signature(builder, alloc, call)?;
    let callee = build_callee(builder, alloc, locals, &call.callee)?;
    let arguments = build_operands(builder, alloc, locals, &call.arguments)?;
    let parts = Boxed::new(
        alloc,
        module_arena::Call {
            result: defined,
            signature,
            callee,
            arguments,
        },
    )?;
    Ok(Inst::Call(parts))
}
