//! What constants fit.
ghost use Rattle.std.specs.Prelude.{◌≡◌, ◌<◌, All, map, length, Some, None};
ghost use Rattle.std.specs.List.{list_all};
ghost use Rattle.type_table.specs.Tree.{Trees};
ghost use Rattle.type_table.specs.Types.{tree, trees_at, trees, structs};
ghost use Rattle.module_arena.specs.Changes.{constant_in};
ghost use Rattle.module_arena.specs.Constants as constants;
ghost use Rattle.module_arena.specs.Known.{KnowsConst, counts};
ghost use Rattle.module_arena.specs.TypeTests.{opened, is_integer};
ghost use Rattle.module_arena.specs.Same.{same_type};
ghost use Rattle.module_arena.specs.View.{brackets_view, constant_at, constants_of};
ghost use Rattle.entry_verify.specs.Constants.ConstantParts.{are_types, have_types, own_operands_fit, index_at, is_narrower, written_in};
ghost use Rattle.entry_verify.specs.Constants.ConstantParts as constant_parts;

use crate::types::{OpenedType, TypeJudge};
use ir_tables::Opcode;
use module_arena::{Arena, Brackets, Const, ConstId, TypedConst};
use type_table::TypeId;

/// Whether a width is there, and below another.
fn is_narrower(width: Option<u8>, other: Option<u8>) -> bool
    ensures { result ≡ is_narrower width other }
{
    match (width, other) {
        (Some(width), Some(other)) => width < other,
        (None, _) | (Some(_), None) => false,
    }
}

/// Whether a cast by the opcode goes between these types.
pub fn is_cast_between(types: &TypeJudge<'_>, opcode: Opcode, from: TypeId, to: TypeId) -> bool
    requires from { from < length types.now.types }
    requires to { to < length types.now.types }
    ensures { result ≡ constants.is_cast_between opcode (tree types.now from) (tree types.now to) }
{
    match opcode {
        Opcode::Trunc => is_narrower(types.width(to), types.width(from)),
        Opcode::ZExt | Opcode::SExt => is_narrower(types.width(from), types.width(to)),
        Opcode::PtrToInt => types.is_pointer(from) & types.is_integer(to),
        Opcode::IntToPtr => types.is_integer(from) & types.is_pointer(to),
        _ => false,
    }
}

/// The number that a constant writes.
pub fn written_number(constant: &Const) -> Option<u128>
    ensures { result ≡ written_in constant.now }
{
    match constant {
        Const::Integer(number) => Some(*number),
        Const::Truth(_)
        | Const::Null
        | Const::Undef
        | Const::Poison
        | Const::ZeroInitializer
        | Const::Address(_)
        | Const::ByteString(_)
        | Const::Aggregate(_, _)
        | Const::ElementAddress(_, _)
        | Const::Cast(_, _, _)
        | Const::Binary(_, _, _) => None,
    }
}

/// Whether a byte string of that length can stand at the type.
fn is_bytes_of(types: &TypeJudge<'_>, ty: TypeId, bytes: usize) -> bool
    requires { ty < length types.now.types }
    ensures { result ≡ constants.is_bytes_of bytes (tree types.now ty) }
{
    match types.opened(ty) {
        OpenedType::Array(count, element) => (count == bytes as u64)
            & types.is_integer_of(element, 8),
        OpenedType::Struct(_, _) | OpenedType::Other => false,
    }
}

/// Whether all these constants have that type.
fn have_type(types: &TypeJudge<'_>, ty: TypeId, parts: &[TypedConst]) -> bool
    requires ty { ty < length types.now.types }
    requires known { All (λ x. x.ty < length types.now.types) parts.now }
    ensures { result ≡ list_all (λ x. same_type (tree types.now ty) (tree types.now x.ty)) parts.now }
{
    for part in parts {
        if !types.same_type(ty, part.ty) {
            return false;
        }
    }
    true
}

/// Whether these constants have these types, in order.
fn have_types(types: &TypeJudge<'_>, wanted: &[TypeId], parts: &[TypedConst]) -> bool
    requires wanted { All (λ ty. ty < length types.now.types) wanted.now }
    requires known { All (λ x. x.ty < length types.now.types) parts.now }
    ensures { result ≡ are_types (trees_at (trees types.now) wanted.now) (map (λ x. tree types.now x.ty) parts.now) }
{
    if wanted.len() != parts.len() {
        return false;
    }
    for (index, part) in parts.iter().enumerate() {
        if !types.same_type(wanted[index], part.ty) {
            return false;
        }
    }
    true
}

/// Whether the brackets are square.
fn is_square(round: Brackets) -> bool
    ensures { result ≡ constant_parts.is_square (brackets_view round) }
{
    matches!(round, Brackets::Square)
}

/// Whether the brackets are those of a struct that is packed or not.
fn are_brackets_of(round: Brackets, packed: bool) -> bool
    ensures { result ≡ constant_parts.are_brackets_of (brackets_view round) packed }
{
    match round {
        Brackets::Square => false,
        Brackets::Braces => !packed,
        Brackets::Packed => packed,
    }
}

/// Whether a list in these brackets, of these constants, has the parts of the type.
fn are_parts_of(types: &TypeJudge<'_>, ty: TypeId, round: Brackets, parts: &[TypedConst]) -> bool
    requires ty { ty < length types.now.types }
    requires known { All (λ x. x.ty < length types.now.types) parts.now }
    ensures { result ≡ constant_parts.have_types (constants.expected (brackets_view round) (opened (structs types.now) (tree types.now ty))) (map (λ x. tree types.now x.ty) parts.now) }
{
    match types.opened(ty) {
        OpenedType::Array(count, element) => {
            let all = have_type(types, element, parts);
            is_square(round) & ((parts.len() as u64 == count) & all)
        }
        OpenedType::Struct(packed, fields) => {
            let all = have_types(types, fields, parts);
            are_brackets_of(round, packed) & all
        }
        OpenedType::Other => false,
    }
}

/// Whether the constant, without what is in it, fits the type.
pub(crate) fn fits_outside(
    arena: &Arena,
    types: &TypeJudge<'_>,
    ty: TypeId,
    constant: &Const,
) -> bool
    requires same { types.now ≡ arena.now.table }
    requires ty { ty < length arena.now.table.types }
    requires known { KnowsConst (length arena.now.table.types) (counts arena.now) (length arena.now.constants) constant.now }
    ensures { result ≡ constant_parts.fits_outside (structs arena.now.table) (tree arena.now.table ty) (constant_in arena.now constant.now) }
{
    match constant {
        Const::Integer(_) => types.is_integer(ty),
        Const::Truth(_) => types.is_integer_of(ty, 1),
        Const::Null => types.is_pointer(ty),
        Const::Address(_) => types.is_pointer(ty),
        Const::ElementAddress(_, _) => types.is_pointer(ty),
        Const::Undef | Const::Poison | Const::ZeroInitializer => true,
        Const::ByteString(bytes) => is_bytes_of(types, ty, bytes.bytes().len()),
        Const::Aggregate(round, elements) => are_parts_of(types, ty, *round, elements.as_slice()),
        Const::Cast(_, _, to) => types.same_type(ty, *to),
        Const::Binary(_, _, pair) => {
            let pair = pair.get();
            let first = types.same_type(ty, pair.left.ty);
            let second = types.same_type(ty, pair.right.ty);
            types.is_integer(ty) & (first & second)
        }
    }
}

/// Whether all these indices are integers.
fn are_integers(types: &TypeJudge<'_>, indices: &[TypedConst]) -> bool
    requires { All (λ x. x.ty < length types.now.types) indices.now }
    ensures { result ≡ list_all (λ x. is_integer (tree types.now x.ty)) indices.now }
{
    for index in indices {
        if !types.is_integer(index.ty) {
            return false;
        }
    }
    true
}

/// The number that the constant with that id writes.
fn number_at(arena: &Arena, id: ConstId) -> Option<u128>
    requires { id < length arena.now.constants }
    ensures { result ≡ constants.written_number (constant_at (constants_of arena.now) id) }
{
    // The parts of each constant of an arena are earlier constants.
    let _count = arena.variable_count();
    written_number(arena.constant(id))
}

/// Whether each index leads to a part of what the index before it led to.
fn leads_to_part(
    arena: &Arena,
    types: &TypeJudge<'_>,
    source: TypeId,
    indices: &[TypedConst],
) -> bool
    requires same { types.now ≡ arena.now.table }
    requires source { source < length arena.now.table.types }
    requires known { All (λ x. (x.ty < length arena.now.table.types) × (x.value < length arena.now.constants)) indices.now }
    ensures { result ≡ constants.leads_to_part (structs arena.now.table) (tree arena.now.table source) (map (index_at arena.now) indices.now) }
{
    let mut ty = source;
    for index in indices {
        let number = number_at(arena, index.value);
        match types.indexed(ty, index.ty, number) {
            Some(part) => ty = part,
            None => return false,
        }
    }
    true
}

/// Whether the first of these indices steps over whole values of the source type, and the others lead into one.
fn indices_fit(arena: &Arena, types: &TypeJudge<'_>, source: TypeId, indices: &[TypedConst]) -> bool
    requires same { types.now ≡ arena.now.table }
    requires source { source < length arena.now.table.types }
    requires known { All (λ x. (x.ty < length arena.now.table.types) × (x.value < length arena.now.constants)) indices.now }
    ensures { result ≡ constants.indices_fit (structs arena.now.table) (tree arena.now.table source) (map (index_at arena.now) indices.now) }
{
    match indices {
        [] => true,
        [_, others @ ..] => {
            let all = are_integers(types, indices);
            let leads = leads_to_part(arena, types, source, others);
            all & leads
        }
    }
}

/// Whether these are the base and the indices of a `getelementptr` over the source type.
fn element_operands_fit(
    arena: &Arena,
    types: &TypeJudge<'_>,
    source: TypeId,
    operands: &[TypedConst],
) -> bool
    requires same { types.now ≡ arena.now.table }
    requires source { source < length arena.now.table.types }
    requires known { All (λ x. (x.ty < length arena.now.table.types) × (x.value < length arena.now.constants)) operands.now }
    ensures { result ≡ constant_parts.are_element_operands (structs arena.now.table) (tree arena.now.table source) (map (index_at arena.now) operands.now) }
{
    match operands {
        [] => false,
        [base, indices @ ..] => {
            let steps = indices_fit(arena, types, source, indices);
            types.is_pointer(base.ty) & steps
        }
    }
}

/// Whether the operands of the expression are such as it works on.
pub(crate) fn operands_fit(arena: &Arena, types: &TypeJudge<'_>, constant: &Const) -> bool
    requires same { types.now ≡ arena.now.table }
    requires known { KnowsConst (length arena.now.table.types) (counts arena.now) (length arena.now.constants) constant.now }
    ensures { result ≡ own_operands_fit (structs arena.now.table) (constant_in arena.now constant.now) }
{
    match constant {
        Const::ElementAddress(_, address) => {
            let address = address.get();
            element_operands_fit(arena, types, address.source, address.operands.as_slice())
        }
        Const::Cast(opcode, operand, to) => is_cast_between(types, *opcode, operand.ty, *to),
        Const::Integer(_)
        | Const::Truth(_)
        | Const::Null
        | Const::Undef
        | Const::Poison
        | Const::ZeroInitializer
        | Const::ByteString(_)
        | Const::Address(_)
        | Const::Aggregate(_, _)
        | Const::Binary(_, _, _) => true,
    }
}
