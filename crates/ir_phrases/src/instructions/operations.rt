//! Reads instructions behind their opcodes.
ghost use Rattle.ir_phrases.specs.Instructions.Operations.{binary_row, compare_row, cast_row, select_row, freeze_row, phi_row, load_row, store_row, alloca_row, element_address_row, extract_row, insert_row, operation_behind};
ghost use Rattle.ir_phrases.specs.Instructions.View.{operation_view};
ghost use Rattle.ir_terminals.specs.Follows.{Follows};

use crate::constants::{flags_of, type_of, typed_value_of};
use crate::instructions::boxed::{boxed, refused};
use crate::instructions::calls::call;
use crate::instructions::listed::more_parts;
use crate::instructions::metadata::attachments;
use crate::instructions::operation::{
    Address, Alloca, CastParts, Extraction, Load, Operation, Phi, Store, WrittenChoice,
    WrittenInsertion,
};
use crate::instructions::parts::{
    address, arms, cast_type, incoming, indices, next_typed_value, operand_list, operands,
};
use crate::instructions::tails::count;
use ir_tables::Opcode;
use ir_terminals::{Cursor, Fault};

/// `FLAG* TYPE VALUE , VALUE (, MD)*`
#[tactic(auto, unfolding(crate::specs::Instructions::Operations::binary_core))]
fn binary(cursor: &mut Cursor, opcode: Opcode) -> Result<Operation, Fault>
    ensures { Follows (binary_row opcode) operation_view cursor.old result cursor.new }
{
    let flags = flags_of(cursor, opcode)?;
    let operands = operands(cursor)?;
    Ok(Operation::Binary {
        opcode,
        flags,
        operands,
    })
}

/// `FLAG* PREDICATE TYPE VALUE , VALUE (, MD)*`
#[tactic(auto, unfolding(crate::specs::Instructions::Operations::compare_core))]
fn compare(cursor: &mut Cursor) -> Result<Operation, Fault>
    ensures { Follows compare_row operation_view cursor.old result cursor.new }
{
    let flags = flags_of(cursor, Opcode::ICmp)?;
    let predicate = cursor.predicate()?;
    let operands = operands(cursor)?;
    Ok(Operation::Compare {
        flags,
        predicate,
        operands,
    })
}

/// `FLAG* TYPE VALUE to TYPE (, MD)*`
#[tactic(auto, unfolding(crate::specs::Instructions::Operations::cast_core))]
fn cast(cursor: &mut Cursor, opcode: Opcode) -> Result<Operation, Fault>
    ensures { Follows (cast_row opcode) operation_view cursor.old result cursor.new }
{
    let flags = flags_of(cursor, opcode)?;
    let value = typed_value_of(cursor)?;
    let to = cast_type(cursor)?;
    let conversion = boxed(cursor.alloc(), CastParts { value, to })?;
    Ok(Operation::Cast {
        opcode,
        flags,
        conversion,
    })
}

/// `TYPE VALUE , TYPE VALUE , TYPE VALUE (, MD)*`
#[tactic(auto, unfolding(crate::specs::Instructions::Operations::select_core))]
fn select(cursor: &mut Cursor) -> Result<Operation, Fault>
    ensures { Follows select_row operation_view cursor.old result cursor.new }
{
    let condition = typed_value_of(cursor)?;
    match arms(cursor) {
        Ok((first, second)) => {
            let choice = WrittenChoice {
                condition,
                first,
                second,
            };
            Ok(Operation::Select(boxed(cursor.alloc(), choice)?))
        }
        Err(fault) => Err(refused(condition, fault)),
    }
}

/// `TYPE VALUE (, MD)*`
#[tactic(auto, unfolding(crate::specs::Instructions::Operations::freeze_core))]
fn freeze(cursor: &mut Cursor) -> Result<Operation, Fault>
    ensures { Follows freeze_row operation_view cursor.old result cursor.new }
{
    let value = typed_value_of(cursor)?;
    attachments(cursor)?;
    Ok(Operation::Freeze(boxed(cursor.alloc(), value)?))
}

/// `TYPE [ VALUE , LOCAL ] (, [ VALUE , LOCAL ])* (, MD)*`
#[tactic(auto, unfolding(crate::specs::Instructions::Operations::phi_core))]
fn phi(cursor: &mut Cursor) -> Result<Operation, Fault>
    ensures { Follows phi_row operation_view cursor.old result cursor.new }
{
    let ty = type_of(cursor)?;
    let first = incoming(cursor)?;
    let incoming = more_parts(cursor, first)?;
    Ok(Operation::Phi(boxed(cursor.alloc(), Phi { ty, incoming })?))
}

/// `FLAG* TYPE , TYPE VALUE (, align INT)? (, MD)*`
#[tactic(auto, unfolding(crate::specs::Instructions::Operations::load_core))]
fn load(cursor: &mut Cursor) -> Result<Operation, Fault>
    ensures { Follows load_row operation_view cursor.old result cursor.new }
{
    let flags = flags_of(cursor, Opcode::Load)?;
    let ty = type_of(cursor)?;
    let (address, alignment) = address(cursor)?;
    let load = Load {
        ty,
        address,
        alignment,
    };
    let load = boxed(cursor.alloc(), load)?;
    Ok(Operation::Load { flags, load })
}

/// `FLAG* TYPE VALUE , TYPE VALUE (, align INT)? (, MD)*`
#[tactic(auto, unfolding(crate::specs::Instructions::Operations::store_core))]
fn store(cursor: &mut Cursor) -> Result<Operation, Fault>
    ensures { Follows store_row operation_view cursor.old result cursor.new }
{
    let flags = flags_of(cursor, Opcode::Store)?;
    let value = typed_value_of(cursor)?;
    let (address, alignment) = address(cursor)?;
    let store = Store {
        value,
        address,
        alignment,
    };
    let store = boxed(cursor.alloc(), store)?;
    Ok(Operation::Store { flags, store })
}

/// `TYPE (, TYPE VALUE)? (, align INT)? (, MD)*`
#[tactic(auto, unfolding(crate::specs::Instructions::Operations::alloca_core))]
fn alloca(cursor: &mut Cursor) -> Result<Operation, Fault>
    ensures { Follows alloca_row operation_view cursor.old result cursor.new }
{
    let ty = type_of(cursor)?;
    let (count, alignment) = count(cursor)?;
    let alloca = Alloca {
        ty,
        count,
        alignment,
    };
    Ok(Operation::Alloca(boxed(cursor.alloc(), alloca)?))
}

/// `FLAG* TYPE , TYPE VALUE (, TYPE VALUE)* (, MD)*`
#[tactic(auto, unfolding(crate::specs::Instructions::Operations::element_address_core))]
fn element_address(cursor: &mut Cursor) -> Result<Operation, Fault>
    ensures { Follows element_address_row operation_view cursor.old result cursor.new }
{
    let flags = flags_of(cursor, Opcode::GetElementPtr)?;
    let source = type_of(cursor)?;
    let operands = operand_list(cursor)?;
    let address = boxed(cursor.alloc(), Address { source, operands })?;
    Ok(Operation::GetElementPtr { flags, address })
}

/// `TYPE VALUE (, INT)+ (, MD)*`
#[tactic(auto, unfolding(crate::specs::Instructions::Operations::extract_core))]
fn extract(cursor: &mut Cursor) -> Result<Operation, Fault>
    ensures { Follows extract_row operation_view cursor.old result cursor.new }
{
    let value = typed_value_of(cursor)?;
    let indices = indices(cursor)?;
    let extraction = boxed(cursor.alloc(), Extraction { value, indices })?;
    Ok(Operation::ExtractValue(extraction))
}

/// `TYPE VALUE , TYPE VALUE (, INT)+ (, MD)*`
#[tactic(auto, unfolding(crate::specs::Instructions::Operations::insert_core))]
fn insert(cursor: &mut Cursor) -> Result<Operation, Fault>
    ensures { Follows insert_row operation_view cursor.old result cursor.new }
{
    let value = typed_value_of(cursor)?;
    let part = next_typed_value(cursor)?;
    let indices = indices(cursor)?;
    let insertion = WrittenInsertion {
        value,
        part,
        indices,
    };
    Ok(Operation::InsertValue(boxed(cursor.alloc(), insertion)?))
}

/// What follows the opcode of an instruction that does not end a block.
#[tactic(auto, unfolding(crate::specs::Instructions::Operations::operation_core))]
pub fn operation_behind(cursor: &mut Cursor, opcode: Opcode) -> Result<Operation, Fault>
    ensures { Follows (λ limits. operation_behind limits opcode) operation_view cursor.old result cursor.new }
{
    match opcode {
        Opcode::ICmp => compare(cursor),
        Opcode::Trunc | Opcode::ZExt | Opcode::SExt | Opcode::PtrToInt | Opcode::IntToPtr => cast(
            cursor, opcode,
        ),
        Opcode::Select => select(cursor),
        Opcode::Freeze => freeze(cursor),
        Opcode::Phi => phi(cursor),
        Opcode::Load => load(cursor),
        Opcode::Store => store(cursor),
        Opcode::Alloca => alloca(cursor),
        Opcode::GetElementPtr => element_address(cursor),
        Opcode::Call => call(cursor),
        Opcode::ExtractValue => extract(cursor),
        Opcode::InsertValue => insert(cursor),
        Opcode::Ret | Opcode::Br | Opcode::Switch | Opcode::Unreachable => Err(Fault::Refused),
        Opcode::Add
        | Opcode::Sub
        | Opcode::Mul
        | Opcode::UDiv
        | Opcode::SDiv
        | Opcode::URem
        | Opcode::SRem
        | Opcode::Shl
        | Opcode::LShr
        | Opcode::AShr
        | Opcode::And
        | Opcode::Or
        | Opcode::Xor => binary(cursor, opcode),
    }
}
