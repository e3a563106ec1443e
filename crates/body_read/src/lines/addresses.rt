//! Instructions on memory and addresses.
ghost use Rattle.std.specs.Prelude.{IfOk};
ghost use Rattle.ir_tables.specs.declared.opcode.Opcode.TheVariants as op;
ghost use Rattle.type_table.specs.Tree.{ptr};
ghost use Rattle.body_read.specs.Operands.Found.{Finds, HasOperand, operand_at, operand_in};
ghost use Rattle.body_read.specs.Lines.Kept.{DoesInst, GivesInst, operation_in};
ghost use Rattle.body_read.specs.Lines.Operations.{operation};

use crate::lines::parts::{alloca_of, load_of, steps_of, store_of};
use crate::operands::{read_operand, read_operand_of, read_operands, read_optional_operand};
use ir_tables::Opcode;
use module_arena::{Inst, Operand, ValueId};
use record_read::{read_alignment, read_flags};
use std::alloc::AllocError;
use type_read::arena::{ModuleReader, read_type};

/// A value of the type of addresses.
fn read_address(m: &mut ModuleReader<'_>) -> Result<Option<Operand>, AllocError>
    ensures { IfOk result (Finds HasOperand operand_in (λ k. operand_at k ptr) m.old m.new) }
{
    let pointer = m.growing.pointer();
    read_operand_of(m, &Some(pointer))
}

/// `load`: flags, the type, the address, and the alignment.
pub(crate) fn read_load(
    m: &mut ModuleReader<'_>,
    defined: ValueId,
) -> Result<Option<Inst>, AllocError>
    ensures { IfOk result (Finds (GivesInst defined) operation_in (λ k. (operation k op.Load).read) m.old m.new) }
{
    let flags = read_flags(&mut m.reader, Opcode::Load);
    let ty = read_type(m);
    let address = read_address(m)?;
    let align = read_alignment(&mut m.reader);
    Ok(load_of(flags, defined, ty, address, align))
}

/// `store`: flags, the value with its type, the address, and the alignment. It has no result. None only where a rule is broken.
/// It is refused for want of memory alone.
pub fn read_store(m: &mut ModuleReader<'_>) -> Result<Option<Inst>, AllocError>
    ensures { IfOk result (Finds DoesInst operation_in (λ k. (operation k op.Store).read) m.old m.new) }
{
    let flags = read_flags(&mut m.reader, Opcode::Store);
    let stored = read_operand(m)?;
    let address = read_address(m)?;
    let align = read_alignment(&mut m.reader);
    Ok(store_of(flags, stored, address, align))
}

/// `alloca`: the type, the count where it is written, and the alignment.
pub(crate) fn read_alloca(
    m: &mut ModuleReader<'_>,
    defined: ValueId,
) -> Result<Option<Inst>, AllocError>
    ensures { IfOk result (Finds (GivesInst defined) operation_in (λ k. (operation k op.Alloca).read) m.old m.new) }
{
    let ty = read_type(m);
    let count = read_optional_operand(m)?;
    let align = read_alignment(&mut m.reader);
    Ok(alloca_of(defined, ty, count, align))
}

/// `getelementptr`: flags, the source type, the base, and the indices with their types.
pub(crate) fn read_steps(
    m: &mut ModuleReader<'_>,
    defined: ValueId,
) -> Result<Option<Inst>, AllocError>
    ensures { IfOk result (Finds (GivesInst defined) operation_in (λ k. (operation k op.GetElementPtr).read) m.old m.new) }
{
    let flags = read_flags(&mut m.reader, Opcode::GetElementPtr);
    let source = read_type(m);
    let base = read_address(m)?;
    let indices = read_operands(m)?;
    Ok(steps_of(flags, defined, source, base, indices))
}
