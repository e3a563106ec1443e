//! Copies of constants, which serve as keys.
ghost use Rattle.std.specs.Prelude.{◌≡◌, IfOk};

use ir_base::ItemList;
use module_arena::{Boxed, Const, ConstAddress, TypedConst, TypedConstList};
use std::alloc::{AllocError, Global};

/// The same constants with their types.
fn copied_list(alloc: Global, list: &TypedConstList) -> Result<TypedConstList, AllocError>
    ensures { IfOk result (λ copy. copy ≡ list.now) }
{
    let items: Vec<TypedConst> = Vec::from_slice(alloc, list.as_slice())?;
    Ok(ItemList::from_vec(items))
}

/// The same parts of a `getelementptr`.
fn copied_address(alloc: Global, address: &ConstAddress) -> Result<ConstAddress, AllocError>
    ensures { IfOk result (λ copy. copy ≡ address.now) }
{
    Ok(ConstAddress {
        source: address.source,
        operands: copied_list(alloc, &address.operands)?,
    })
}

/// An equal constant of its own.
pub(crate) fn copied_const(alloc: Global, constant: &Const) -> Result<Const, AllocError>
    ensures { IfOk result (λ copy. copy ≡ constant.now) }
{
    Ok(match constant {
        Const::Integer(number) => Const::Integer(*number),
        Const::Truth(truth) => Const::Truth(*truth),
        Const::Null => Const::Null,
        Const::Undef => Const::Undef,
        Const::Poison => Const::Poison,
        Const::ZeroInitializer => Const::ZeroInitializer,
        Const::Address(global) => Const::Address(*global),
        Const::ByteString(bytes) => Const::ByteString(bytes.copy(alloc)?),
        Const::Aggregate(round, elements) => Const::Aggregate(
            *round,
            copied_list(alloc, elements)?,
        ),
        Const::ElementAddress(flags, address) => {
            let copy = copied_address(alloc, address.get())?;
            Const::ElementAddress(*flags, Boxed::new(alloc, copy)?)
        }
        Const::Cast(opcode, operand, to) => Const::Cast(*opcode, *operand, *to),
        Const::Binary(opcode, flags, pair) => {
            Const::Binary(*opcode, *flags, Boxed::new(alloc, *pair.get())?)
        }
    })
}
