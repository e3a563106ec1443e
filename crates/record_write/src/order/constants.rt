//! The types that constants and operands write.
ghost use Rattle.std.specs.Prelude.{◌++◌, map, flat_map, All, OnOk};
ghost use Rattle.type_table.specs.Types.{tree};
ghost use Rattle.record_write.specs.Order.Written.{in_type, in_constant, in_typed, in_value, in_operand, KnowsType, KnowsConstant, KnowsTyped, KnowsValue, KnowsOperand, IsReady, Goes};

use crate::order::TypeOrder;
use module_arena::{Arena, Const, ConstAddress, ConstId, ConstPair, Operand, TypedConst, Value};
use std::alloc::AllocError;
use type_table::TypeId;

/// Lists a type of the module.
pub(crate) fn note_type(
    order: &mut TypeOrder<'_>,
    arena: &Arena,
    ty: TypeId,
) -> Result<(), AllocError>
    requires ready { IsReady arena.now order.old }
    requires ty { KnowsType arena.now ty }
    ensures { OnOk result (Goes arena.now order.old order.new (in_type arena.now ty)) }
{
    order.note(ty)?;
    Ok(())
}

/// Lists types of the module, one behind the other.
pub(crate) fn note_types(
    order: &mut TypeOrder<'_>,
    arena: &Arena,
    types: &[TypeId],
) -> Result<(), AllocError>
    requires ready { IsReady arena.now order.old }
    requires types { All (KnowsType arena.now) types.now }
    ensures { OnOk result (Goes arena.now order.old order.new (map (tree arena.now.table) types.now)) }
{
    order.note_all(types)?;
    Ok(())
}

/// Lists the types that a constant writes. One that was gone through before has none that are new.
#[cycle(constants)]
pub(crate) fn note_constant(
    order: &mut TypeOrder<'_>,
    arena: &Arena,
    id: ConstId,
) -> Result<(), AllocError>
    requires ready { IsReady arena.now order.old }
    requires constant { KnowsConstant arena.now id }
    ensures { OnOk result (Goes arena.now order.old order.new (in_constant arena.now id)) }
{
    if order.is_gone(id.number()) {
        return Ok(());
    }
    note_parts(order, arena, id)?;
    order.mark(id.number());
    Ok(())
}

/// Lists the types that a constant writes.
#[cycle(constants)]
fn note_parts(order: &mut TypeOrder<'_>, arena: &Arena, id: ConstId) -> Result<(), AllocError>
    requires ready { IsReady arena.now order.old }
    requires constant { KnowsConstant arena.now id }
    ensures { OnOk result (Goes arena.now order.old order.new (in_constant arena.now id)) }
{
    // What holds of each arena.
    let _count = arena.variable_count();
    match arena.constant(id) {
        Const::Aggregate(_, parts) => note_constants(order, arena, parts.as_slice()),
        Const::ElementAddress(_, address) => note_address(order, arena, address.get()),
        Const::Cast(_, operand, to) => {
            note_typed(order, arena, *operand)?;
            note_type(order, arena, *to)
        }
        Const::Binary(_, _, pair) => note_pair(order, arena, *pair.get()),
        Const::Integer(_) => Ok(()),
        Const::Truth(_) => Ok(()),
        Const::Null => Ok(()),
        Const::Undef => Ok(()),
        Const::Poison => Ok(()),
        Const::ZeroInitializer => Ok(()),
        Const::Address(_) => Ok(()),
        Const::ByteString(_) => Ok(()),
    }
}

/// Lists the types that a `getelementptr` writes.
#[cycle(constants)]
fn note_address(
    order: &mut TypeOrder<'_>,
    arena: &Arena,
    address: &ConstAddress,
) -> Result<(), AllocError>
    requires ready { IsReady arena.now order.old }
    requires source { KnowsType arena.now address.now.source }
    requires operands { All (KnowsTyped arena.now) address.now.operands }
    ensures { OnOk result (Goes arena.now order.old order.new (in_type arena.now address.now.source ++ flat_map (in_typed arena.now) address.now.operands)) }
{
    note_type(order, arena, address.source)?;
    note_constants(order, arena, address.operands.as_slice())
}

/// Lists the types of two operands.
#[cycle(constants)]
fn note_pair(order: &mut TypeOrder<'_>, arena: &Arena, pair: ConstPair) -> Result<(), AllocError>
    requires ready { IsReady arena.now order.old }
    requires left { KnowsTyped arena.now pair.left }
    requires right { KnowsTyped arena.now pair.right }
    ensures { OnOk result (Goes arena.now order.old order.new (in_typed arena.now pair.left ++ in_typed arena.now pair.right)) }
{
    note_typed(order, arena, pair.left)?;
    note_typed(order, arena, pair.right)
}

/// Lists the type of a constant, and the types that it writes.
#[cycle(constants)]
fn note_typed(order: &mut TypeOrder<'_>, arena: &Arena, part: TypedConst) -> Result<(), AllocError>
    requires ready { IsReady arena.now order.old }
    requires part { KnowsTyped arena.now part }
    ensures { OnOk result (Goes arena.now order.old order.new (in_typed arena.now part)) }
{
    note_type(order, arena, part.ty)?;
    note_constant(order, arena, part.value)
}

/// Lists the types of some constants, each before those that the constant writes.
#[cycle(constants)]
fn note_constants(
    order: &mut TypeOrder<'_>,
    arena: &Arena,
    parts: &[TypedConst],
) -> Result<(), AllocError>
    requires ready { IsReady arena.now order.old }
    requires parts { All (KnowsTyped arena.now) parts.now }
    ensures { OnOk result (Goes arena.now order.old order.new (flat_map (in_typed arena.now) parts.now)) }
{
    for part in parts {
        note_typed(order, arena, *part)?;
    }
    Ok(())
}

/// Lists the types that a value writes: those of a constant.
pub(crate) fn note_value(
    order: &mut TypeOrder<'_>,
    arena: &Arena,
    value: Value,
) -> Result<(), AllocError>
    requires ready { IsReady arena.now order.old }
    requires value { KnowsValue arena.now value }
    ensures { OnOk result (Goes arena.now order.old order.new (in_value arena.now value)) }
{
    match value {
        Value::Known(id) => note_constant(order, arena, id),
        Value::Local(_) => Ok(()),
    }
}

/// Lists the type of an operand, and those that its value writes.
pub(crate) fn note_operand(
    order: &mut TypeOrder<'_>,
    arena: &Arena,
    operand: Operand,
) -> Result<(), AllocError>
    requires ready { IsReady arena.now order.old }
    requires operand { KnowsOperand arena.now operand }
    ensures { OnOk result (Goes arena.now order.old order.new (in_operand arena.now operand)) }
{
    note_type(order, arena, operand.ty)?;
    note_value(order, arena, operand.value)
}

/// The same of some operands, one behind the other.
pub(crate) fn note_operands(
    order: &mut TypeOrder<'_>,
    arena: &Arena,
    operands: &[Operand],
) -> Result<(), AllocError>
    requires ready { IsReady arena.now order.old }
    requires operands { All (KnowsOperand arena.now) operands.now }
    ensures { OnOk result (Goes arena.now order.old order.new (flat_map (in_operand arena.now) operands.now)) }
{
    for operand in operands {
        note_operand(order, arena, *operand)?;
    }
    Ok(())
}
