//! Constants that are made of others, where these are known.
ghost use Rattle.std.specs.Prelude.{◌≡◌, All, None, IfOk};
ghost use Rattle.record_table.specs.Walk.{stop};
ghost use Rattle.type_read.specs.Arena.Kept.{HasConstant, IsKnownType, IsThere, Keeps};
ghost use Rattle.body_read.specs.Constants.Made.{HasTyped, KeepsMade, address_of, cast_of, pair_of, typed_of};

use ir_tables::{Flags, Opcode};
use module_arena::{Boxed, Const, ConstAddress, ConstId, ConstPair, TypedConst, TypedConstList};
use std::alloc::AllocError;
use type_read::arena::ModuleReader;
use type_table::TypeId;

/// The forms of constants that hold others.
#[derive(Clone, Copy)]
pub(crate) enum NestedForm {
    /// Constants in brackets.
    List,
    /// `getelementptr`
    Address,
    /// A cast.
    Cast,
    /// `add`, `sub` or `xor`.
    Pair,
}

/// No constant: the record breaks this rule, and what follows is not known.
pub(crate) fn stopped(m: &mut ModuleReader<'_>, rule: u8) -> Option<ConstId>
    ensures keeps { Keeps HasConstant m.old m.new result }
    ensures walk { m.new.reader.walk ≡ stop rule m.old.reader.walk }
    ensures none { result ≡ None }
{
    m.reader.stop(rule);
    m.reader.stops_where_broken();
    None
}

/// The same type.
pub fn same(ty: &Option<TypeId>) -> Option<TypeId>
    ensures { result ≡ ty.now }
{
    match ty {
        Some(ty) => Some(*ty),
        None => None,
    }
}

/// A constant with its type, where both are known.
pub(crate) fn typed(ty: Option<TypeId>, value: Option<ConstId>) -> Option<TypedConst>
    ensures { result ≡ typed_of ty value }
{
    Some(TypedConst {
        ty: ty?,
        value: value?,
    })
}

/// Keeps a cast of the part to a type, where both are known.
pub(crate) fn keep_cast(
    m: &mut ModuleReader<'_>,
    opcode: Opcode,
    part: Option<TypedConst>,
    to: Option<TypeId>,
) -> Result<Option<ConstId>, AllocError>
    requires part { IsThere (HasTyped m.old.growing.arena) part m.old.reader.walk }
    requires to { IsKnownType m.old to }
    ensures { IfOk result (KeepsMade m.old (cast_of opcode part to) m.new) }
{
    let Some(part) = part else {
        return Ok(None);
    };
    let Some(to) = to else {
        return Ok(None);
    };
    m.keep_unbroken(Const::Cast(opcode, part, to))
}

/// Keeps a binary constant of these operands, where both are known.
pub(crate) fn keep_pair(
    m: &mut ModuleReader<'_>,
    opcode: Opcode,
    flags: Flags,
    left: Option<TypedConst>,
    right: Option<TypedConst>,
) -> Result<Option<ConstId>, AllocError>
    requires left { IsThere (HasTyped m.old.growing.arena) left m.old.reader.walk }
    requires right { IsThere (HasTyped m.old.growing.arena) right m.old.reader.walk }
    ensures { IfOk result (KeepsMade m.old (pair_of opcode flags left right) m.new) }
{
    let Some(left) = left else {
        return Ok(None);
    };
    let Some(right) = right else {
        return Ok(None);
    };
    let pair = Boxed::new(m.alloc, ConstPair { left, right })?;
    m.keep_unbroken(Const::Binary(opcode, flags, pair))
}

/// Keeps an address over the source type, of a base and indices, where these are known.
pub(crate) fn keep_address(
    m: &mut ModuleReader<'_>,
    flags: Flags,
    source: Option<TypeId>,
    operands: Option<TypedConstList>,
) -> Result<Option<ConstId>, AllocError>
    requires source { IsKnownType m.old source }
    requires operands { IsThere (λ parts. All (HasTyped m.old.growing.arena) parts) operands m.old.reader.walk }
    ensures { IfOk result (KeepsMade m.old (address_of flags source operands) m.new) }
{
    let Some(source) = source else {
        return Ok(None);
    };
    let Some(operands) = operands else {
        return Ok(None);
    };
    let address = Boxed::new(m.alloc, ConstAddress { source, operands })?;
    m.keep_unbroken(Const::ElementAddress(flags, address))
}
