//! The types that instructions and ends of blocks write.
ghost use Rattle.std.specs.Prelude.{◌++◌, flat_map, All, OnOk};
ghost use Rattle.record_write.specs.Order.Known.{KnowsSignature, KnowsChoice, KnowsCall, KnowsInst, KnowsInsertion, KnowsCount, KnowsCase, KnowsEnding, KnowsBlock};
ghost use Rattle.record_write.specs.Order.Written.{in_value, in_operand, in_incoming, in_signature, in_inst, in_count, in_case, in_ending, in_block, KnowsValue, IsReady, Goes};

use crate::order::TypeOrder;
use crate::order::constants::{
    note_constant, note_operand, note_operands, note_type, note_types, note_value,
};
use module_arena::{
    Arena, Block, Call, Case, Choice, Ending, Incoming, Insertion, Inst, Operand, Signature,
};
use std::alloc::AllocError;

/// Lists the types of a function type: what it returns, and then its parameters.
fn note_signature(
    order: &mut TypeOrder<'_>,
    arena: &Arena,
    signature: &Signature,
) -> Result<(), AllocError>
    requires ready { IsReady arena.now order.old }
    requires signature { KnowsSignature arena.now signature.now }
    ensures { OnOk result (Goes arena.now order.old order.new (in_signature arena.now signature.now)) }
{
    note_type(order, arena, signature.returns)?;
    note_types(order, arena, signature.parameters.as_slice())
}

/// Lists the types that the values of a phi write.
fn note_incoming(
    order: &mut TypeOrder<'_>,
    arena: &Arena,
    incoming: &[Incoming],
) -> Result<(), AllocError>
    requires ready { IsReady arena.now order.old }
    requires values { All (λ i. KnowsValue arena.now i.value) incoming.now }
    ensures { OnOk result (Goes arena.now order.old order.new (flat_map (in_incoming arena.now) incoming.now)) }
{
    for one in incoming {
        note_value(order, arena, one.value)?;
    }
    Ok(())
}

/// Lists the types of a `select`.
fn note_choice(order: &mut TypeOrder<'_>, arena: &Arena, choice: &Choice) -> Result<(), AllocError>
    requires ready { IsReady arena.now order.old }
    requires choice { KnowsChoice arena.now choice.now }
    ensures { OnOk result (Goes arena.now order.old order.new (in_operand arena.now choice.now.condition ++ in_operand arena.now choice.now.first ++ in_operand arena.now choice.now.second)) }
{
    note_operand(order, arena, choice.condition)?;
    note_operand(order, arena, choice.first)?;
    note_operand(order, arena, choice.second)
}

/// Lists the types of a `call`.
fn note_call(order: &mut TypeOrder<'_>, arena: &Arena, call: &Call) -> Result<(), AllocError>
    requires ready { IsReady arena.now order.old }
    requires call { KnowsCall arena.now call.now }
    ensures { OnOk result (Goes arena.now order.old order.new (in_signature arena.now call.now.signature ++ in_value arena.now call.now.callee ++ flat_map (in_operand arena.now) call.now.arguments)) }
{
    note_signature(order, arena, &call.signature)?;
    note_value(order, arena, call.callee)?;
    note_operands(order, arena, call.arguments.as_slice())
}

/// Lists the types of an `insertvalue`.
fn note_insertion(
    order: &mut TypeOrder<'_>,
    arena: &Arena,
    insertion: &Insertion,
) -> Result<(), AllocError>
    requires ready { IsReady arena.now order.old }
    requires insertion { KnowsInsertion arena.now insertion.now }
    ensures { OnOk result (Goes arena.now order.old order.new (in_operand arena.now insertion.now.aggregate ++ in_operand arena.now insertion.now.part)) }
{
    note_operand(order, arena, insertion.aggregate)?;
    note_operand(order, arena, insertion.part)
}

/// Lists the types of how many an `alloca` makes, where it says so.
fn note_count(
    order: &mut TypeOrder<'_>,
    arena: &Arena,
    count: Option<Operand>,
) -> Result<(), AllocError>
    requires ready { IsReady arena.now order.old }
    requires count { KnowsCount arena.now count }
    ensures { OnOk result (Goes arena.now order.old order.new (in_count arena.now count)) }
{
    match count {
        Some(count) => note_operand(order, arena, count),
        None => Ok(()),
    }
}

/// Lists the types that an instruction writes.
fn note_instruction(
    order: &mut TypeOrder<'_>,
    arena: &Arena,
    instruction: &Inst,
) -> Result<(), AllocError>
    requires ready { IsReady arena.now order.old }
    requires instruction { KnowsInst arena.now instruction.now }
    ensures { OnOk result (Goes arena.now order.old order.new (in_inst arena.now instruction.now)) }
{
    match instruction {
        Inst::Binary(_, _, _, left, right) => {
            note_operand(order, arena, *left)?;
            note_value(order, arena, *right)
        }
        Inst::Compare(_, _, _, left, right) => {
            note_operand(order, arena, *left)?;
            note_value(order, arena, *right)
        }
        Inst::Convert(_, _, _, operand, to) => {
            note_operand(order, arena, *operand)?;
            note_type(order, arena, *to)
        }
        Inst::Select(_, choice) => note_choice(order, arena, choice.get()),
        Inst::Freeze(_, operand) => note_operand(order, arena, *operand),
        Inst::Phi(_, ty, incoming) => {
            note_type(order, arena, *ty)?;
            note_incoming(order, arena, incoming.as_slice())
        }
        Inst::Load(_, _, ty, address, _) => {
            note_type(order, arena, *ty)?;
            note_operand(order, arena, *address)
        }
        Inst::Store(_, stored, address, _) => {
            note_operand(order, arena, *stored)?;
            note_operand(order, arena, *address)
        }
        Inst::Alloca(_, ty, count, _) => {
            note_type(order, arena, *ty)?;
            note_count(order, arena, *count)
        }
        Inst::GetElementPtr(_, _, source, base, indices) => {
            note_type(order, arena, *source)?;
            note_operand(order, arena, *base)?;
            note_operands(order, arena, indices.as_slice())
        }
        Inst::Call(call) => note_call(order, arena, call.get()),
        Inst::ExtractValue(_, aggregate, _) => note_operand(order, arena, *aggregate),
        Inst::InsertValue(_, insertion) => note_insertion(order, arena, insertion.get()),
    }
}

/// Lists the types that a case of a `switch` writes.
fn note_case(order: &mut TypeOrder<'_>, arena: &Arena, case: Case) -> Result<(), AllocError>
    requires ready { IsReady arena.now order.old }
    requires case { KnowsCase arena.now case }
    ensures { OnOk result (Goes arena.now order.old order.new (in_case arena.now case)) }
{
    note_type(order, arena, case.ty)?;
    note_constant(order, arena, case.value)
}

/// Lists the types that the cases of a `switch` write.
fn note_cases(order: &mut TypeOrder<'_>, arena: &Arena, cases: &[Case]) -> Result<(), AllocError>
    requires ready { IsReady arena.now order.old }
    requires cases { All (KnowsCase arena.now) cases.now }
    ensures { OnOk result (Goes arena.now order.old order.new (flat_map (in_case arena.now) cases.now)) }
{
    for case in cases {
        note_case(order, arena, *case)?;
    }
    Ok(())
}

/// Lists the types that the end of a block writes.
fn note_ending(order: &mut TypeOrder<'_>, arena: &Arena, ending: &Ending) -> Result<(), AllocError>
    requires ready { IsReady arena.now order.old }
    requires ending { KnowsEnding arena.now ending.now }
    ensures { OnOk result (Goes arena.now order.old order.new (in_ending arena.now ending.now)) }
{
    match ending {
        Ending::Return(operand) => note_operand(order, arena, *operand),
        Ending::Branch { condition, .. } => note_operand(order, arena, *condition),
        Ending::Switch { value, cases, .. } => {
            note_operand(order, arena, *value)?;
            note_cases(order, arena, cases.as_slice())
        }
        Ending::ReturnVoid => Ok(()),
        Ending::Jump(_) => Ok(()),
        Ending::Unreachable => Ok(()),
    }
}

/// Lists the types that some instructions write.
fn note_instructions(
    order: &mut TypeOrder<'_>,
    arena: &Arena,
    instructions: &[Inst],
) -> Result<(), AllocError>
    requires ready { IsReady arena.now order.old }
    requires instructions { All (KnowsInst arena.now) instructions.now }
    ensures { OnOk result (Goes arena.now order.old order.new (flat_map (in_inst arena.now) instructions.now)) }
{
    for instruction in instructions {
        note_instruction(order, arena, instruction)?;
    }
    Ok(())
}

/// Lists the types that a block writes.
pub(crate) fn note_block(
    order: &mut TypeOrder<'_>,
    arena: &Arena,
    block: &Block,
) -> Result<(), AllocError>
    requires ready { IsReady arena.now order.old }
    requires block { KnowsBlock arena.now block.now }
    ensures { OnOk result (Goes arena.now order.old order.new (in_block arena.now block.now)) }
{
    note_instructions(order, arena, block.instructions.as_slice())?;
    note_ending(order, arena, &block.end)
}
