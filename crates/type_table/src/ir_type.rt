//! A type, by the ids of its parts.
ghost use Rattle.std.specs.Prelude.{◌≡◌, IfOk};
ghost use Rattle.std.proofs.Common.{ap};
ghost use Rattle.std.specs.Cmp.{partial_equiv_from_equiv};
ghost use Rattle.type_table.specs.Keys.{type_eq, body_eq, type_writes, body_writes, types_decide, bodies_decide, types_equivalent, bodies_equivalent};

use crate::{StructId, TypeId};
use ir_base::ItemList;
use std::alloc::{AllocError, Global};
use std::hash::{Hash, Hasher};

/// Some types, in order.
pub type TypeList = ItemList<TypeId>;

/// A type, by the ids of its parts (LangRef, "Type System").
///
/// ```
/// IrType::Int(32) // `i32`
/// IrType::Array(4, byte) // `[4 x i8]`, where `byte` is the id of `i8`
/// IrType::Struct(true, fields) // `<{ i8, i32 }>`, where those are the fields
/// ```
#[derive(Drop)]
pub enum IrType {
    /// An integer, by its width in bits: 1 to 128.
    Int(u8),
    /// A pointer.
    Ptr,
    /// No value.
    Void,
    /// An array, by its length and the type of its elements.
    Array(u64, TypeId),
    /// A struct without a name, packed where the flag is true, with the types of its fields.
    Struct(bool, TypeList),
    /// A named struct.
    Named(StructId),
}

/// What a named struct holds.
///
/// ```
/// StructBody::Plain(fields) // of `%pair = type { i8, i32 }`, where those are the fields
/// StructBody::Opaque // of `%pair = type opaque`
/// ```
#[derive(Drop)]
pub enum StructBody {
    /// Nothing that is known.
    Opaque,
    /// Fields at their alignments.
    Plain(TypeList),
    /// Fields without gaps.
    Packed(TypeList),
}

/// An equal list.
fn copy_list(alloc: Global, list: &TypeList) -> Result<TypeList, AllocError>
    ensures { IfOk result (λ copy. copy ≡ list.now) }
{
    Ok(ItemList::from_vec(Vec::from_slice(alloc, list.as_slice())?))
}

impl IrType {
    /// An equal type.
    pub fn copy(&self, alloc: Global) -> Result<IrType, AllocError>
        ensures { IfOk result (λ copy. copy ≡ self.now) }
    {
        Ok(match self {
            IrType::Int(width) => IrType::Int(*width),
            IrType::Ptr => IrType::Ptr,
            IrType::Void => IrType::Void,
            IrType::Array(length, element) => IrType::Array(*length, *element),
            IrType::Struct(packed, fields) => IrType::Struct(*packed, copy_list(alloc, fields)?),
            IrType::Named(id) => IrType::Named(*id),
        })
    }
}

impl StructBody {
    /// An equal body.
    pub fn copy(&self, alloc: Global) -> Result<StructBody, AllocError>
        ensures { IfOk result (λ copy. copy ≡ self.now) }
    {
        Ok(match self {
            StructBody::Opaque => StructBody::Opaque,
            StructBody::Plain(fields) => StructBody::Plain(copy_list(alloc, fields)?),
            StructBody::Packed(fields) => StructBody::Packed(copy_list(alloc, fields)?),
        })
    }
}

impl PartialEq for IrType {
    ghost eq = { type_eq };

    ghost laws = { partial_equiv_from_equiv types_equivalent };

    fn eq(&self, other: &IrType) -> bool {
        match self {
            IrType::Int(width) => matches!(other, IrType::Int(other_width) if other_width == width),
            IrType::Ptr => matches!(other, IrType::Ptr),
            IrType::Void => matches!(other, IrType::Void),
            IrType::Array(length, element) => {
                matches!(other, IrType::Array(other_length, other_element)
                    if other_length == length && other_element == element)
            }
            IrType::Struct(packed, fields) => {
                matches!(other, IrType::Struct(other_packed, other_fields)
                    if other_packed == packed && other_fields.as_slice() == fields.as_slice())
            }
            IrType::Named(id) => matches!(other, IrType::Named(other_id) if other_id == id),
        }
    }
}

impl Eq for IrType {
    ghost laws = { types_equivalent };
}

impl Hash for IrType {
    ghost hash_input = { type_writes };

    ghost respects_eq = { λ a b same. ap type_writes ((types_decide a b).0 same) };

    fn hash<H: Hasher>(&self, state: &mut H) {
        match self {
            IrType::Int(width) => {
                state.write_u8(0);
                width.hash(state);
            }
            IrType::Ptr => state.write_u8(1),
            IrType::Void => state.write_u8(2),
            IrType::Array(length, element) => {
                state.write_u8(3);
                length.hash(state);
                element.hash(state);
            }
            IrType::Struct(packed, fields) => {
                state.write_u8(4);
                packed.hash(state);
                fields.as_slice().hash(state);
            }
            IrType::Named(id) => {
                state.write_u8(5);
                id.hash(state);
            }
        }
    }
}

impl PartialEq for StructBody {
    ghost eq = { body_eq };

    ghost laws = { partial_equiv_from_equiv bodies_equivalent };

    fn eq(&self, other: &StructBody) -> bool {
        match self {
            StructBody::Opaque => matches!(other, StructBody::Opaque),
            StructBody::Plain(fields) => {
                matches!(other, StructBody::Plain(others) if others.as_slice() == fields.as_slice())
            }
            StructBody::Packed(fields) => {
                matches!(other, StructBody::Packed(others) if others.as_slice() == fields.as_slice())
            }
        }
    }
}

impl Eq for StructBody {
    ghost laws = { bodies_equivalent };
}

impl Hash for StructBody {
    ghost hash_input = { body_writes };

    ghost respects_eq = { λ a b same. ap body_writes ((bodies_decide a b).0 same) };

    fn hash<H: Hasher>(&self, state: &mut H) {
        match self {
            StructBody::Opaque => state.write_u8(0),
            StructBody::Plain(fields) => {
                state.write_u8(1);
                fields.as_slice().hash(state);
            }
            StructBody::Packed(fields) => {
                state.write_u8(2);
                fields.as_slice().hash(state);
            }
        }
    }
}
