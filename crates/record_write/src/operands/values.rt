//! Values as operands.
ghost use Rattle.std.specs.Prelude.{◌≡◌, ◌<◌, ◌++◌, ◌∷◌, [], map, length, All, OnOk};
ghost use Rattle.type_table.specs.Tree.{Tree};
ghost use Rattle.type_table.specs.Types.{tree};
ghost use Rattle.module_arena.specs.declared.entry.Function.{Function};
ghost use Rattle.module_arena.specs.Module as m;
ghost use Rattle.record_table.specs.Fields.{block, local};
ghost use Rattle.record_table.specs.Layout.{counted};
ghost use Rattle.record_table.specs.Constants.{value};
ghost use Rattle.record_table.specs.Lines.{typed_value, incoming};
ghost use Rattle.record_table.specs.Standing.{is_wide};
ghost use Rattle.record_write.specs.Operands.Numbered.{inside, value_of, operand_of, incoming_of, label_of};
ghost use Rattle.record_write.specs.Operands.Wide.{IsBody, KnowsValue, HasValueAt, HasOperandIn, HasIncomingIn};

use crate::operands::fields::{put_index, put_number};
use crate::operands::{Numbering, put_constant, put_count};
use module_arena::{BlockId, Incoming, Operand, Value, ValueId};
use std::alloc::AllocError;
use type_table::TypeId;

/// Appends the index of a parameter or result, which is its number.
pub fn put_local(operands: &mut Vec<u64>, id: ValueId) -> Result<(), AllocError>
    ensures { OnOk result (operands.new.items ≡ operands.old.items ++ id ∷ []) }
{
    put_index(operands, id.number())
}

/// Appends the index of a block, which is its number.
pub fn put_block(operands: &mut Vec<u64>, id: BlockId) -> Result<(), AllocError>
    ensures { OnOk result (operands.new.items ≡ operands.old.items ++ id ∷ []) }
{
    put_index(operands, id.number())
}

/// Appends a local as a value: 0 and its index.
fn put_local_value(operands: &mut Vec<u64>, id: ValueId) -> Result<(), AllocError>
    ensures { OnOk result (operands.new.items ≡ operands.old.items ++ 0 ∷ id ∷ []) }
{
    put_number(operands, 0)?;
    put_local(operands, id)
}

/// Appends a value: 0 and the index of a local, or a constant, at a type of integers of more than 64 bits or at another.
pub fn put_value(
    operands: &mut Vec<u64>,
    numbering: &Numbering<'_>,
    wide: bool,
    part: Value,
) -> Result<(), AllocError>
    requires { KnowsValue (length numbering.now.constants) part }
    ensures { (f : Function) (t : Tree) → is_wide t ≡ wide → IsBody numbering.now f → HasValueAt numbering.now f t part
        → OnOk result (operands.new.items ≡ operands.old.items ++ (value (inside numbering.now f) t).spell (value_of numbering.now f part)) }
{
    match part {
        Value::Local(id) => put_local_value(operands, id),
        Value::Known(id) => put_constant(operands, numbering, wide, id),
    }
}

/// Appends a value that stands at that type.
pub fn put_value_at(
    operands: &mut Vec<u64>,
    numbering: &Numbering<'_>,
    ty: TypeId,
    part: Value,
) -> Result<(), AllocError>
    requires ty { ty < length numbering.now.table.types }
    requires known { KnowsValue (length numbering.now.constants) part }
    ensures { (f : Function) → IsBody numbering.now f → HasValueAt numbering.now f (tree numbering.now.table ty) part
        → OnOk result (operands.new.items ≡ operands.old.items ++ (value (inside numbering.now f) (tree numbering.now.table ty)).spell (value_of numbering.now f part)) }
{
    let wide = numbering.is_wide(ty);
    put_value(operands, numbering, wide, part)
}

/// Appends the index of an operand's type, and its value.
pub fn put_operand(
    operands: &mut Vec<u64>,
    numbering: &Numbering<'_>,
    part: Operand,
) -> Result<(), AllocError>
    requires ty { part.ty < length numbering.now.table.types }
    requires known { KnowsValue (length numbering.now.constants) part.value }
    ensures { (f : Function) → IsBody numbering.now f → HasOperandIn numbering.now f part
        → OnOk result (operands.new.items ≡ operands.old.items ++ (typed_value (inside numbering.now f)).spell (operand_of numbering.now f part)) }
{
    numbering.put_type(operands, part.ty)?;
    put_value_at(operands, numbering, part.ty, part.value)
}

/// Appends a count, and so many values behind their types.
pub fn put_operands(
    operands: &mut Vec<u64>,
    numbering: &Numbering<'_>,
    parts: &[Operand],
) -> Result<(), AllocError>
    requires types { All (λ part. part.ty < length numbering.now.table.types) parts.now }
    requires known { All (λ part. KnowsValue (length numbering.now.constants) part.value) parts.now }
    ensures { (f : Function) → IsBody numbering.now f → All (HasOperandIn numbering.now f) parts.now
        → OnOk result (operands.new.items ≡ operands.old.items ++ (counted (typed_value (inside numbering.now f))).spell (map (operand_of numbering.now f) parts.now)) }
{
    put_count(operands, parts.len())?;
    'parts: for part in parts {
        put_operand(operands, numbering, *part)?;
    }
    Ok(())
}

/// Appends a value of a phi of that type, and the block that it comes from.
fn put_entry(
    operands: &mut Vec<u64>,
    numbering: &Numbering<'_>,
    ty: TypeId,
    part: Incoming,
) -> Result<(), AllocError>
    requires ty { ty < length numbering.now.table.types }
    requires known { KnowsValue (length numbering.now.constants) part.value }
    ensures { (f : Function) → IsBody numbering.now f → HasIncomingIn numbering.now f (tree numbering.now.table ty) part
        → OnOk result (operands.new.items ≡ operands.old.items ++ (incoming (inside numbering.now f) (tree numbering.now.table ty)).spell (incoming_of numbering.now f part)) }
{
    put_value_at(operands, numbering, ty, part.value)?;
    put_block(operands, part.block)
}

/// Appends a count, and so many values of a phi of that type, each with the block that it comes from.
pub fn put_incoming(
    operands: &mut Vec<u64>,
    numbering: &Numbering<'_>,
    ty: TypeId,
    parts: &[Incoming],
) -> Result<(), AllocError>
    requires ty { ty < length numbering.now.table.types }
    requires known { All (λ part. KnowsValue (length numbering.now.constants) part.value) parts.now }
    ensures { (f : Function) → IsBody numbering.now f → All (HasIncomingIn numbering.now f (tree numbering.now.table ty)) parts.now
        → OnOk result (operands.new.items ≡ operands.old.items ++ (counted (incoming (inside numbering.now f) (tree numbering.now.table ty))).spell (map (incoming_of numbering.now f) parts.now)) }
{
    put_count(operands, parts.len())?;
    'parts: for part in parts {
        put_entry(operands, numbering, ty, *part)?;
    }
    Ok(())
}
