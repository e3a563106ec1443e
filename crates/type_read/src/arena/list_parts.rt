//! What lists of constants are made of at a type.
ghost use Rattle.std.specs.Prelude.{◌≡◌, ◌<◌, ℕ, true, length, slice_get, is_some, IfSome, Some};
ghost use Rattle.std.specs.Option.{option_copied};
ghost use Rattle.module_arena.specs.View.{brackets_view};
ghost use Rattle.record_table.specs.Constants as constants;
ghost use Rattle.type_read.specs.Arena.Kept.{tree_at};
ghost use Rattle.type_read.specs.Arena.ListParts.{IsMadeOf, body_ids, nth_part, part_ids, parts_at};

use module_arena::Brackets;
use type_table::{IrType, StructBody, TypeId, TypeList, TypeTable};

/// What a list is made of at a type.
enum ListParts<'t> {
    /// So many of one type.
    Alike(u64, TypeId),
    /// One of each of these types, in a packed struct where the flag is true.
    These(bool, &'t TypeList),
    /// No list is of the type.
    Nothing,
}

/// What a list is made of at a struct with that body.
fn body_parts(body: Option<&StructBody>) -> ListParts<'_>
    ensures { part_ids result ≡ body_ids (option_copied body.entry) }
{
    match body {
        None | Some(StructBody::Opaque) => ListParts::Nothing,
        Some(StructBody::Plain(fields)) => ListParts::These(false, fields),
        Some(StructBody::Packed(fields)) => ListParts::These(true, fields),
    }
}

/// What a list is made of at a type that is known.
fn parts_of(types: &TypeTable, ty: TypeId) -> ListParts<'_>
    requires { ty < length types.now.types }
    ensures { IsMadeOf types.now (part_ids result) (parts_at types.now (Some ty)) }
{
    let _good = types.type_count();
    match types.get(ty) {
        IrType::Int(_) => ListParts::Nothing,
        IrType::Ptr => ListParts::Nothing,
        IrType::Void => ListParts::Nothing,
        IrType::Array(length, element) => ListParts::Alike(*length, *element),
        IrType::Struct(packed, fields) => ListParts::These(*packed, fields),
        IrType::Named(id) => body_parts(types.struct_body(*id)),
    }
}

/// What a list is made of at a type. No type stands for `void`.
fn list_parts(types: &TypeTable, ty: Option<TypeId>) -> ListParts<'_>
    requires { IfSome ty (λ ty. ty < length types.now.types) }
    ensures { IsMadeOf types.now (part_ids result) (parts_at types.now ty) }
{
    match ty {
        Some(ty) => parts_of(types, ty),
        None => ListParts::Nothing,
    }
}

/// Whether a list of so many constants is of that type. No type stands for `void`.
pub fn has_parts(types: &TypeTable, ty: Option<TypeId>, count: u64) -> bool
    requires { IfSome ty (λ ty. ty < length types.now.types) }
    ensures { result ≡ constants.has_parts (parts_at types.now ty) count }
{
    match list_parts(types, ty) {
        ListParts::Alike(length, _) => length == count,
        ListParts::These(_, fields) => fields.len() as u64 == count,
        ListParts::Nothing => false,
    }
}

/// The brackets of a list of that type. No type stands for `void`.
pub fn brackets_of(types: &TypeTable, ty: Option<TypeId>) -> Brackets
    requires { IfSome ty (λ ty. ty < length types.now.types) }
    ensures { brackets_view result ≡ constants.brackets_of (parts_at types.now ty) }
{
    match list_parts(types, ty) {
        ListParts::Alike(_, _) => Brackets::Square,
        ListParts::These(true, _) => Brackets::Packed,
        ListParts::These(false, _) => Brackets::Braces,
        ListParts::Nothing => Brackets::Square,
    }
}

/// The field of that number, counted from 0.
fn field_at(fields: &TypeList, place: u64) -> Option<TypeId>
    ensures { result ≡ slice_get fields.now place }
{
    if place < fields.len() as u64 {
        Some(*fields.at(place as usize))
    } else {
        None
    }
}

/// The type of the part of a list at that place, counted from 0; of a part too many none.
pub fn part_at(types: &TypeTable, ty: Option<TypeId>, place: u64) -> Option<TypeId>
    requires { IfSome ty (λ ty. ty < length types.now.types) }
    ensures tree { tree_at types.now result ≡ constants.first_part (nth_part place (parts_at types.now ty)) }
    ensures known { IfSome result (λ part. part < length types.now.types) }
    ensures there { (count : ℕ) → place < count → constants.has_parts (parts_at types.now ty) count ≡ true → is_some result ≡ true }
{
    match list_parts(types, ty) {
        ListParts::Alike(_, element) => Some(element),
        ListParts::These(_, fields) => field_at(fields, place),
        ListParts::Nothing => None,
    }
}
