//! Constants as operands. Their types are known where they stand, and matter for wide integers alone.
ghost use Rattle.std.specs.Prelude.{◌≡◌, ◌<◌, ◌++◌, ◌∷◌, [], length, All, OnOk};
ghost use Rattle.ir_tables.specs.Opcode.{opcode_code};
ghost use Rattle.type_table.specs.Tree.{Tree};
ghost use Rattle.type_table.specs.Types.{tree};
ghost use Rattle.record_table.specs.Fields.{text, ty};
ghost use Rattle.record_table.specs.Constants.{form_code, integer_spell, spell_constant, spell_parts, spell_typed, spell_operands};
ghost use Rattle.record_table.specs.Codes.{form_view};
ghost use Rattle.record_write.specs.Operands.Numbered.{indices, constant_of, constants_in};
ghost use Rattle.record_table.specs.Standing.{is_wide, HasRoom, Stands, AllStand};
ghost use Rattle.record_write.specs.Operands.Wide.{HasTyped, form_in};

use crate::operands::fields::put_number;
use crate::operands::{Numbering, put_count};
use ir_tables::{Flags, Opcode};
use module_arena::{Const, ConstAddress, ConstId, ConstPair, TypedConst};
use record_table::ConstantForm;
use std::alloc::AllocError;

/// One more than the greatest number that an operand holds.
const HALF: u128 = 1 << 64;

/// Appends an integer: its low half, and its high half where it is of a type of more than 64 bits.
fn put_integer(operands: &mut Vec<u64>, wide: bool, number: u128) -> Result<(), AllocError>
    ensures { (t : Tree) → is_wide t ≡ wide → HasRoom (is_wide t) number → OnOk result (operands.new.items ≡ operands.old.items ++ integer_spell t number) }
{
    put_number(operands, (number % HALF) as u64)?;
    if wide {
        return put_number(operands, (number / HALF) as u64);
    }
    Ok(())
}

/// Appends a byte.
fn put_byte(operands: &mut Vec<u64>, number: u8) -> Result<(), AllocError>
    ensures { OnOk result (operands.new.items ≡ operands.old.items ++ number ∷ []) }
{
    put_number(operands, u64::from(number))
}

/// Appends a count, and so many bytes.
fn put_bytes(operands: &mut Vec<u64>, bytes: &[u8]) -> Result<(), AllocError>
    ensures { OnOk result (operands.new.items ≡ operands.old.items ++ text.spell bytes.now) }
{
    put_count(operands, bytes.len())?;
    'parts: for part in bytes {
        put_byte(operands, *part)?;
    }
    Ok(())
}

/// Appends a constant that stands at its type, which is known.
#[cycle(constants)]
pub fn put_typed(
    operands: &mut Vec<u64>,
    numbering: &Numbering<'_>,
    part: TypedConst,
) -> Result<(), AllocError>
    requires { HasTyped numbering.now part }
    ensures { Stands (tree numbering.now.table part.ty) (constant_of numbering.now part.value)
        → OnOk result (operands.new.items ≡ operands.old.items
        ++ spell_constant (indices numbering.now) (tree numbering.now.table part.ty) (constant_of numbering.now part.value)) }
{
    let wide = numbering.is_wide(part.ty);
    put_constant(operands, numbering, wide, part.value)
}

/// Appends a count, and so many constants whose types are known.
#[cycle(constants)]
fn put_parts(
    operands: &mut Vec<u64>,
    numbering: &Numbering<'_>,
    parts: &[TypedConst],
) -> Result<(), AllocError>
    requires { All (HasTyped numbering.now) parts.now }
    ensures { AllStand (constants_in numbering.now parts.now)
        → OnOk result (operands.new.items ≡ operands.old.items
        ++ length parts.now ∷ spell_parts (indices numbering.now) (constants_in numbering.now parts.now)) }
{
    put_count(operands, parts.len())?;
    'parts: for part in parts {
        put_typed(operands, numbering, *part)?;
    }
    Ok(())
}

/// Appends the index of the type of a constant, and the constant.
#[cycle(constants)]
fn put_index(
    operands: &mut Vec<u64>,
    numbering: &Numbering<'_>,
    part: TypedConst,
) -> Result<(), AllocError>
    requires { HasTyped numbering.now part }
    ensures { Stands (tree numbering.now.table part.ty) (constant_of numbering.now part.value)
        → OnOk result (operands.new.items ≡ operands.old.items ++ ((ty (indices numbering.now)).spell (tree numbering.now.table part.ty)
        ++ spell_constant (indices numbering.now) (tree numbering.now.table part.ty) (constant_of numbering.now part.value))) }
{
    numbering.put_type(operands, part.ty)?;
    put_typed(operands, numbering, part)
}

/// Appends a count, and so many constants, each behind the index of its type.
#[cycle(constants)]
fn put_indices(
    operands: &mut Vec<u64>,
    numbering: &Numbering<'_>,
    parts: &[TypedConst],
) -> Result<(), AllocError>
    requires { All (HasTyped numbering.now) parts.now }
    ensures { AllStand (constants_in numbering.now parts.now)
        → OnOk result (operands.new.items ≡ operands.old.items
        ++ length parts.now ∷ spell_typed (indices numbering.now) (constants_in numbering.now parts.now)) }
{
    put_count(operands, parts.len())?;
    'parts: for part in parts {
        put_index(operands, numbering, *part)?;
    }
    Ok(())
}

/// Appends a base, and a count of indices with their types.
#[cycle(constants)]
fn put_operands(
    operands: &mut Vec<u64>,
    numbering: &Numbering<'_>,
    parts: &[TypedConst],
) -> Result<(), AllocError>
    requires { All (HasTyped numbering.now) parts.now }
    ensures { AllStand (constants_in numbering.now parts.now)
        → OnOk result (operands.new.items ≡ operands.old.items ++ spell_operands (indices numbering.now) (constants_in numbering.now parts.now)) }
{
    if parts.is_empty() {
        return Ok(());
    }
    put_typed(operands, numbering, parts[0])?;
    put_indices(operands, numbering, &parts[1..])
}

/// Appends a `getelementptr` behind its form: flags, source type, base, and indices with their types.
#[cycle(constants)]
fn put_address(
    operands: &mut Vec<u64>,
    numbering: &Numbering<'_>,
    flags: Flags,
    address: &ConstAddress,
) -> Result<(), AllocError>
    requires source { address.now.source < length numbering.now.table.types }
    requires parts { All (HasTyped numbering.now) address.now.operands }
    ensures { AllStand (constants_in numbering.now address.now.operands)
        → OnOk result (operands.new.items ≡ operands.old.items
        ++ (flags ∷ (ty (indices numbering.now)).spell (tree numbering.now.table address.now.source)
        ++ spell_operands (indices numbering.now) (constants_in numbering.now address.now.operands))) }
{
    put_flags(operands, flags)?;
    numbering.put_type(operands, address.source)?;
    put_operands(operands, numbering, address.operands.as_slice())
}

/// Appends a cast behind its form: opcode, type, and constant.
#[cycle(constants)]
fn put_cast(
    operands: &mut Vec<u64>,
    numbering: &Numbering<'_>,
    opcode: Opcode,
    part: TypedConst,
) -> Result<(), AllocError>
    requires { HasTyped numbering.now part }
    ensures { Stands (tree numbering.now.table part.ty) (constant_of numbering.now part.value)
        → OnOk result (operands.new.items ≡ operands.old.items
        ++ (opcode_code opcode ∷ (ty (indices numbering.now)).spell (tree numbering.now.table part.ty)
        ++ spell_constant (indices numbering.now) (tree numbering.now.table part.ty) (constant_of numbering.now part.value))) }
{
    put_opcode(operands, opcode)?;
    put_index(operands, numbering, part)
}

/// Appends a binary constant behind its form: opcode, flags, and both operands.
#[cycle(constants)]
fn put_pair(
    operands: &mut Vec<u64>,
    numbering: &Numbering<'_>,
    opcode: Opcode,
    flags: Flags,
    pair: ConstPair,
) -> Result<(), AllocError>
    requires left { HasTyped numbering.now pair.left }
    requires right { HasTyped numbering.now pair.right }
    ensures { Stands (tree numbering.now.table pair.left.ty) (constant_of numbering.now pair.left.value) → Stands (tree numbering.now.table pair.right.ty) (constant_of numbering.now pair.right.value)
        → OnOk result (operands.new.items ≡ operands.old.items
        ++ (opcode_code opcode ∷ flags
        ∷ spell_constant (indices numbering.now) (tree numbering.now.table pair.left.ty) (constant_of numbering.now pair.left.value)
        ++ spell_constant (indices numbering.now) (tree numbering.now.table pair.right.ty) (constant_of numbering.now pair.right.value))) }
{
    put_opcode(operands, opcode)?;
    put_flags(operands, flags)?;
    put_typed(operands, numbering, pair.left)?;
    put_typed(operands, numbering, pair.right)
}

/// The form of a constant.
fn form_of(constant: &Const) -> ConstantForm
    ensures { form_view result ≡ form_in constant.now }
{
    match constant {
        Const::Integer(_) => ConstantForm::Number,
        Const::Null => ConstantForm::Null,
        // No valid module has a truth at another type than i1.
        Const::Undef | Const::Truth(_) => ConstantForm::Undef,
        Const::Poison => ConstantForm::Poison,
        Const::ZeroInitializer => ConstantForm::Zero,
        Const::Address(_) => ConstantForm::Global,
        Const::ByteString(_) => ConstantForm::Bytewise,
        Const::Aggregate(_, _) => ConstantForm::Listed,
        Const::ElementAddress(_, _) => ConstantForm::Element,
        Const::Cast(_, _, _) => ConstantForm::Converted,
        Const::Binary(_, _, _) => ConstantForm::Computed,
    }
}

/// Appends the code of an opcode.
fn put_opcode(operands: &mut Vec<u64>, opcode: Opcode) -> Result<(), AllocError>
    ensures { OnOk result (operands.new.items ≡ operands.old.items ++ opcode_code opcode ∷ []) }
{
    put_number(operands, u64::from(opcode.code()))
}

/// Appends the sum of the codes of flags.
fn put_flags(operands: &mut Vec<u64>, flags: Flags) -> Result<(), AllocError>
    ensures { OnOk result (operands.new.items ≡ operands.old.items ++ flags ∷ []) }
{
    put_number(operands, u64::from(flags.code()))
}

/// Appends the code of the form of a constant.
fn put_form(operands: &mut Vec<u64>, constant: &Const) -> Result<(), AllocError>
    ensures { OnOk result (operands.new.items ≡ operands.old.items ++ form_code (form_in constant.now) ∷ []) }
{
    put_number(operands, form_of(constant).code())
}

/// Appends the constant with that id, at a type of integers of more than 64 bits or at another.
#[cycle(constants)]
pub fn put_constant(
    operands: &mut Vec<u64>,
    numbering: &Numbering<'_>,
    wide: bool,
    id: ConstId,
) -> Result<(), AllocError>
    requires { id < length numbering.now.constants }
    ensures { (t : Tree) → is_wide t ≡ wide → Stands t (constant_of numbering.now id)
        → OnOk result (operands.new.items ≡ operands.old.items ++ spell_constant (indices numbering.now) t (constant_of numbering.now id)) }
{
    let known = numbering.constant(id);
    put_form(operands, known)?;
    match known {
        Const::Integer(number) => put_integer(operands, wide, *number),
        Const::Address(entry) => numbering.put_global(operands, *entry),
        Const::ByteString(bytes) => put_bytes(operands, bytes.bytes()),
        Const::Aggregate(_, parts) => put_parts(operands, numbering, parts.as_slice()),
        Const::ElementAddress(flags, address) => {
            put_address(operands, numbering, *flags, address.get())
        }
        Const::Cast(opcode, part, _) => put_cast(operands, numbering, *opcode, *part),
        Const::Binary(opcode, flags, pair) => {
            put_pair(operands, numbering, *opcode, *flags, *pair.get())
        }
        Const::Truth(_) => Ok(()),
        Const::Null => Ok(()),
        Const::Undef => Ok(()),
        Const::Poison => Ok(()),
        Const::ZeroInitializer => Ok(()),
    }
}
