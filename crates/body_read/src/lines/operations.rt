//! Instructions on numbers, and on parts of values.
ghost use Rattle.std.specs.Prelude.{IfOk};
ghost use Rattle.ir_tables.specs.declared.opcode.Opcode.TheVariants as op;
ghost use Rattle.body_read.specs.Operands.Found.{Finds};
ghost use Rattle.body_read.specs.Lines.Kept.{GivesInst, operation_in};
ghost use Rattle.body_read.specs.Lines.Operations.{computation, conversion, operation};

use crate::lines::indices::read_indices;
use crate::lines::parts::{
    binary_of, choice_of, comparison_of, conversion_of, extraction_of, freeze_of, insertion_of,
    insertion_parts, select_of,
};
use crate::operands::{read_operand, read_operand_of, read_value};
use ir_tables::Opcode;
use module_arena::{Inst, ValueId};
use record_read::{read_flags, read_predicate};
use std::alloc::AllocError;
use type_read::arena::{ModuleReader, read_type};

/// An operation on two operands of one type: flags, the type, and both values.
pub(crate) fn read_computation(
    m: &mut ModuleReader<'_>,
    defined: ValueId,
    opcode: Opcode,
) -> Result<Option<Inst>, AllocError>
    ensures { IfOk result (Finds (GivesInst defined) operation_in (λ k. (computation k opcode).read) m.old m.new) }
{
    let flags = read_flags(&mut m.reader, opcode);
    let ty = read_type(m);
    let left = read_operand_of(m, &ty)?;
    let right = read_value(m, &ty)?;
    Ok(binary_of(opcode, flags, defined, left, right))
}

/// `icmp`: flags, a predicate, the type, and both values.
pub(crate) fn read_comparison(
    m: &mut ModuleReader<'_>,
    defined: ValueId,
) -> Result<Option<Inst>, AllocError>
    ensures { IfOk result (Finds (GivesInst defined) operation_in (λ k. (operation k op.ICmp).read) m.old m.new) }
{
    let flags = read_flags(&mut m.reader, Opcode::ICmp);
    let predicate = read_predicate(&mut m.reader);
    let ty = read_type(m);
    let left = read_operand_of(m, &ty)?;
    let right = read_value(m, &ty)?;
    Ok(comparison_of(flags, predicate, defined, left, right))
}

/// A cast: flags, type, value, and the type to which it is cast.
pub(crate) fn read_conversion(
    m: &mut ModuleReader<'_>,
    defined: ValueId,
    opcode: Opcode,
) -> Result<Option<Inst>, AllocError>
    ensures { IfOk result (Finds (GivesInst defined) operation_in (λ k. (conversion k opcode).read) m.old m.new) }
{
    let flags = read_flags(&mut m.reader, opcode);
    let value = read_operand(m)?;
    let to = read_type(m);
    Ok(conversion_of(opcode, flags, defined, value, to))
}

/// `select`: the type of both arms, the condition, and the arms.
pub(crate) fn read_select(
    m: &mut ModuleReader<'_>,
    defined: ValueId,
) -> Result<Option<Inst>, AllocError>
    ensures { IfOk result (Finds (GivesInst defined) operation_in (λ k. (operation k op.Select).read) m.old m.new) }
{
    let ty = read_type(m);
    let bit = m.growing.bit();
    let condition = read_operand_of(m, &Some(bit))?;
    let first = read_operand_of(m, &ty)?;
    let second = read_operand_of(m, &ty)?;
    let choice = choice_of(condition, first, second);
    select_of(m.alloc, defined, choice)
}

/// `freeze`: type and value.
pub(crate) fn read_freeze(
    m: &mut ModuleReader<'_>,
    defined: ValueId,
) -> Result<Option<Inst>, AllocError>
    ensures { IfOk result (Finds (GivesInst defined) operation_in (λ k. (operation k op.Freeze).read) m.old m.new) }
{
    let value = read_operand(m)?;
    Ok(freeze_of(defined, value))
}

/// `extractvalue`: type, value, and indices.
pub(crate) fn read_extraction(
    m: &mut ModuleReader<'_>,
    defined: ValueId,
) -> Result<Option<Inst>, AllocError>
    ensures { IfOk result (Finds (GivesInst defined) operation_in (λ k. (operation k op.ExtractValue).read) m.old m.new) }
{
    let aggregate = read_operand(m)?;
    let indices = read_indices(m)?;
    Ok(extraction_of(defined, aggregate, indices))
}

/// `insertvalue`: both operands with their types, and indices.
pub(crate) fn read_insertion(
    m: &mut ModuleReader<'_>,
    defined: ValueId,
) -> Result<Option<Inst>, AllocError>
    ensures { IfOk result (Finds (GivesInst defined) operation_in (λ k. (operation k op.InsertValue).read) m.old m.new) }
{
    let aggregate = read_operand(m)?;
    let part = read_operand(m)?;
    let indices = read_indices(m)?;
    let insertion = insertion_parts(aggregate, part, indices);
    insertion_of(m.alloc, defined, insertion)
}
