//! The parts of a type.
ghost use Rattle.std.specs.Prelude.{◌≡◌, ◌<◌, IfSome, length, slice_get, true, unwrap_or};
ghost use Rattle.std.specs.Option.{option_map, option_map_or};
ghost use Rattle.module_arena.specs.TypeTests.{lies_in_memory};
ghost use Rattle.run_rules.specs.Leaves as leaves;
ghost use Rattle.type_table.specs.Shape.{void_leaf};
ghost use Rattle.type_table.specs.Types.{structs, tree};
ghost use Rattle.run_names.specs.Shapes.Shapes.{elements_of, is_struct, offset_in, shape_in};

use crate::shapes::form::{TypeForm, form_of, parts};
use type_table::{TypeId, TypeTable};

/// More fields than a struct may have.
const FIELDS: u128 = 4_294_967_296;

/// The field with that index among fields.
fn field_of(fields: &[TypeId], index: u128) -> Option<TypeId>
    ensures { result ≡ slice_get fields.now index }
{
    if index < fields.len() as u128 {
        return Some(fields[index as usize]);
    }
    None
}

/// The type of the elements of an array, or of the field of a struct with that index, counted from 0.
pub fn element(types: &TypeTable, ty: TypeId, index: u128) -> Option<TypeId>
    requires { ty < length types.now.types }
    ensures known { IfSome result (λ part. part < length types.now.types) }
    ensures shape { option_map_or (shape_in types.now) result void_leaf ≡ leaves.element (shape_in types.now ty) index }
    ensures laid { lies_in_memory (structs types.now) (tree types.now ty) ≡ true → IfSome result (λ part. lies_in_memory (structs types.now) (tree types.now part) ≡ true) }
{
    // What holds of each table of types.
    let _count = types.type_count();
    let parts = parts(types, ty);
    match form_of(types, ty) {
        TypeForm::Array(_length) => elements_in(parts),
        TypeForm::Struct(_packed) => field_of(parts, index),
        TypeForm::Int(_) => None,
        TypeForm::Pointer => None,
        TypeForm::Nothing => None,
        TypeForm::Opaque => None,
    }
}

/// The type of the elements of an array with these parts.
fn elements_in(parts: &[TypeId]) -> Option<TypeId>
    ensures { result ≡ slice_get parts.now 0 }
{
    field_of(parts, 0)
}

/// The type of the elements of an array; None of any other type.
pub fn elements(types: &TypeTable, ty: TypeId) -> Option<TypeId>
    requires { ty < length types.now.types }
    ensures known { IfSome result (λ part. part < length types.now.types) }
    ensures shape { option_map (shape_in types.now) result ≡ elements_of (shape_in types.now ty) }
    ensures laid { lies_in_memory (structs types.now) (tree types.now ty) ≡ true → IfSome result (λ part. lies_in_memory (structs types.now) (tree types.now part) ≡ true) }
{
    // What holds of each table of types.
    let _count = types.type_count();
    let parts = parts(types, ty);
    match form_of(types, ty) {
        TypeForm::Array(_length) => elements_in(parts),
        TypeForm::Int(_) => None,
        TypeForm::Pointer => None,
        TypeForm::Nothing => None,
        TypeForm::Opaque => None,
        TypeForm::Struct(_) => None,
    }
}

/// Whether a type is a struct with a body.
pub fn is_struct(types: &TypeTable, ty: TypeId) -> bool
    requires { ty < length types.now.types }
    ensures { result ≡ is_struct (shape_in types.now ty) }
{
    match form_of(types, ty) {
        TypeForm::Struct(_) => true,
        TypeForm::Int(_) => false,
        TypeForm::Pointer => false,
        TypeForm::Nothing => false,
        TypeForm::Opaque => false,
        TypeForm::Array(_) => false,
    }
}

/// Where the field of a struct with that index begins, in bytes; 0 where there is none.
pub fn element_offset(types: &TypeTable, ty: TypeId, index: u128) -> u64
    requires known { ty < length types.now.types }
    requires laid { lies_in_memory (structs types.now) (tree types.now ty) ≡ true }
    ensures { result ≡ unwrap_or (offset_in (shape_in types.now ty) index) 0 }
{
    // What holds of each table of types.
    let _count = types.type_count();
    if index >= FIELDS {
        return 0;
    }
    types.offset(ty, index as u32).unwrap_or(0)
}
