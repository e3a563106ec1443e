//! What a constant is kept under: numbers stand for its types and parts.
ghost use Rattle.std.specs.Prelude.{◌≡◌, map, slice_index_or, IfOk};
ghost use Rattle.instruction_verify.specs.Uses.Keys.{typed_key, key_of};

use ir_base::ItemList;
use module_arena::{Boxed, Const, ConstAddress, ConstId, ConstPair, TypedConst, TypedConstList};
use std::alloc::{AllocError, Global};
use type_table::TypeId;

/// The number of a type.
fn type_class(types: &[TypeId], ty: TypeId) -> TypeId
    ensures { result ≡ slice_index_or types.now ty 0 }
{
    types
        .get(ty.number() as usize)
        .copied()
        .unwrap_or(TypeId::new(0))
}

/// The number of a constant.
fn const_class(classes: &[u64], id: ConstId) -> ConstId
    ensures { result ≡ slice_index_or classes.now id 0 }
{
    let class = classes.get(id.number() as usize).copied().unwrap_or(0);
    ConstId::new(class)
}

/// A constant with its type, by the numbers of both.
fn typed_key(types: &[TypeId], classes: &[u64], part: TypedConst) -> TypedConst
    ensures { result ≡ typed_key types.now classes.now part }
{
    TypedConst {
        ty: type_class(types, part.ty),
        value: const_class(classes, part.value),
    }
}

/// Some constants with their types, by the numbers of both.
fn typed_keys(
    alloc: Global,
    types: &[TypeId],
    classes: &[u64],
    parts: &TypedConstList,
) -> Result<TypedConstList, AllocError>
    ensures { IfOk result (λ list. list ≡ map (typed_key types.now classes.now) parts.now) }
{
    let list: Vec<TypedConst> = parts
        .as_slice()
        .iter()
        .map(|part| typed_key(types, classes, *part))
        .collect(alloc)?;
    Ok(ItemList::from_vec(list))
}

/// The parts of a `getelementptr`, by their numbers.
fn address_key(
    alloc: Global,
    types: &[TypeId],
    classes: &[u64],
    address: &ConstAddress,
) -> Result<ConstAddress, AllocError>
    ensures { IfOk result (λ key. key ≡ record { source = slice_index_or types.now address.now.source 0; operands = map (typed_key types.now classes.now) address.now.operands }) }
{
    let operands = typed_keys(alloc, types, classes, &address.operands)?;
    Ok(ConstAddress {
        source: type_class(types, address.source),
        operands,
    })
}

/// The operands of a binary constant, by their numbers.
fn pair_key(types: &[TypeId], classes: &[u64], pair: ConstPair) -> ConstPair
    ensures { result ≡ record { left = typed_key types.now classes.now pair.left; right = typed_key types.now classes.now pair.right } }
{
    ConstPair {
        left: typed_key(types, classes, pair.left),
        right: typed_key(types, classes, pair.right),
    }
}

/// The constant with the numbers of its types and parts in their places.
pub(crate) fn key_of(
    alloc: Global,
    types: &[TypeId],
    classes: &[u64],
    constant: &Const,
) -> Result<Const, AllocError>
    ensures { IfOk result (λ key. key ≡ key_of types.now classes.now constant.now) }
{
    Ok(match constant {
        Const::Integer(number) => Const::Integer(*number),
        Const::Truth(truth) => Const::Truth(*truth),
        Const::Null => Const::Null,
        Const::Undef => Const::Undef,
        Const::Poison => Const::Poison,
        Const::ZeroInitializer => Const::ZeroInitializer,
        Const::Address(global) => Const::Address(*global),
        Const::ByteString(bytes) => Const::ByteString(bytes.copy(alloc)?),
        Const::Aggregate(round, elements) => {
            Const::Aggregate(*round, typed_keys(alloc, types, classes, elements)?)
        }
        Const::ElementAddress(flags, address) => {
            let key = address_key(alloc, types, classes, address.get())?;
            Const::ElementAddress(*flags, Boxed::new(alloc, key)?)
        }
        Const::Cast(opcode, operand, to) => Const::Cast(
            *opcode,
            typed_key(types, classes, *operand),
            type_class(types, *to),
        ),
        Const::Binary(opcode, flags, pair) => {
            let key = pair_key(types, classes, *pair.get());
            Const::Binary(*opcode, *flags, Boxed::new(alloc, key)?)
        }
    })
}
