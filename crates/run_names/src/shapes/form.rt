//! What a type is but for its parts, and its parts.
ghost use Rattle.std.specs.Prelude.{◌≡◌, ◌<◌, All, length, true};
ghost use Rattle.std.specs.Option.{option_copied};
ghost use Rattle.module_arena.specs.TypeTests.{lies_in_memory};
ghost use Rattle.run_rules.specs.Leaves as leaves;
ghost use Rattle.type_table.specs.Outline.{body_parts, parts_of, type_nesting};
ghost use Rattle.type_table.specs.Types.{structs, tree};
ghost use Rattle.run_names.specs.Shapes.Shapes.{HasCount, IsMade, body_form, laid_out, shape_in, shapes_in};

use std::slice;
use type_table::{IrType, Layout, StructBody, TypeId, TypeTable};

/// What a type is but for its parts, where the name of a struct stands for the struct's body.
#[derive(Clone, Copy)]
pub enum TypeForm {
    /// An integer, by its width in bits.
    Int(u8),
    /// A pointer.
    Pointer,
    /// `void`
    Nothing,
    /// A struct without a body.
    Opaque,
    /// An array, by its length.
    Array(u64),
    /// A struct, packed where the flag is true.
    Struct(bool),
}

/// What the body of a struct is but for its fields.
fn form_of_body(body: Option<&StructBody>) -> TypeForm
    ensures { result ≡ body_form (option_copied body.entry) }
{
    match body {
        None | Some(StructBody::Opaque) => TypeForm::Opaque,
        Some(StructBody::Plain(_)) => TypeForm::Struct(false),
        Some(StructBody::Packed(_)) => TypeForm::Struct(true),
    }
}

/// What a type is but for its parts.
pub fn form_of(types: &TypeTable, ty: TypeId) -> TypeForm
    requires { ty < length types.now.types }
    ensures shape { IsMade result (shapes_in types.now (parts_of types.now ty)) (shape_in types.now ty) }
    ensures count { HasCount result (length (parts_of types.now ty)) }
{
    // What holds of each table of types.
    let _count = types.type_count();
    match types.get(ty) {
        IrType::Int(width) => TypeForm::Int(*width),
        IrType::Ptr => TypeForm::Pointer,
        IrType::Void => TypeForm::Nothing,
        IrType::Array(count, _) => TypeForm::Array(*count),
        IrType::Struct(packed, _) => TypeForm::Struct(*packed),
        IrType::Named(id) => form_of_body(types.struct_body(*id)),
    }
}

/// The types of the fields of a struct.
fn fields_of_body(body: Option<&StructBody>) -> &[TypeId]
    ensures { result.now ≡ body_parts (option_copied body.entry) }
{
    match body {
        None | Some(StructBody::Opaque) => &[],
        Some(StructBody::Plain(fields) | StructBody::Packed(fields)) => fields.as_slice(),
    }
}

/// The types of the parts: the one of the elements, or those of the fields.
fn parts_at(types: &TypeTable, ty: TypeId) -> &[TypeId]
    requires { ty < length types.now.types }
    ensures { result.now ≡ parts_of types.now ty }
{
    // What holds of each table of types.
    let _count = types.type_count();
    match types.get(ty) {
        IrType::Int(_) => &[],
        IrType::Ptr => &[],
        IrType::Void => &[],
        IrType::Array(_, element) => slice::from_ref(element),
        IrType::Struct(_, fields) => fields.as_slice(),
        IrType::Named(id) => fields_of_body(types.struct_body(*id)),
    }
}

/// The types of the parts, each of which nests less deep than the whole.
pub fn parts(types: &TypeTable, ty: TypeId) -> &[TypeId]
    requires { ty < length types.now.types }
    ensures parts { result.now ≡ parts_of types.now ty }
    ensures known { All (λ part. part < length types.now.types) result.now }
    ensures nested { All (λ part. type_nesting types.now part < type_nesting types.now ty) result.now }
{
    // What holds of each table of types.
    let _count = types.type_count();
    parts_at(types, ty)
}

/// How a type lies in memory that does lie there (LangRef, "Data Layout").
pub fn layout_of(types: &TypeTable, ty: TypeId) -> Layout
    requires known { ty < length types.now.types }
    requires laid { lies_in_memory (structs types.now) (tree types.now ty) ≡ true }
    ensures { result ≡ laid_out (shape_in types.now ty) }
{
    types.layout(ty).unwrap()
}

/// The width of an integer type in bits; 64 of a pointer, and 0 of any other type.
pub fn width(types: &TypeTable, ty: TypeId) -> u8
    requires { ty < length types.now.types }
    ensures { result ≡ leaves.width (shape_in types.now ty) }
{
    match form_of(types, ty) {
        TypeForm::Int(width) => width,
        TypeForm::Pointer => 64,
        TypeForm::Nothing => 0,
        TypeForm::Opaque => 0,
        TypeForm::Array(_) => 0,
        TypeForm::Struct(_) => 0,
    }
}
