//! What a type is but for its parts.
ghost use Rattle.std.specs.Prelude.{◌≡◌, ◌↔◌, IsTrue};
ghost use Rattle.type_table.specs.Outline.{body_head, body_parts};

use crate::{StructBody, TypeId};

/// What a type is but for its parts, where a struct's name stands for its body.
#[derive(Clone, Copy)]
pub(crate) enum TypeOutline {
    /// An integer, by its width in bits.
    Int(u8),
    /// A pointer.
    Ptr,
    /// No value.
    Void,
    /// A struct whose fields are not known: it has no body, or an opaque one.
    Opaque,
    /// An array, by how many elements it has.
    Array(u64),
    /// A struct with fields, and whether it is packed.
    Struct(bool),
}

impl TypeOutline {
    /// What a struct with that body is.
    pub(crate) fn of_body(body: &Option<StructBody>) -> TypeOutline
        ensures { result ≡ body_head body.now }
    {
        match body {
            None | Some(StructBody::Opaque) => TypeOutline::Opaque,
            Some(StructBody::Plain(_)) => TypeOutline::Struct(false),
            Some(StructBody::Packed(_)) => TypeOutline::Struct(true),
        }
    }

    /// Whether two types are the same but for their parts.
    pub(crate) fn is_same(self, other: TypeOutline) -> bool
        ensures { IsTrue result ↔ (self ≡ other) }
    {
        match self {
            TypeOutline::Int(width) =>
                matches!(other, TypeOutline::Int(other_width) if other_width == width),
            TypeOutline::Ptr => matches!(other, TypeOutline::Ptr),
            TypeOutline::Void => matches!(other, TypeOutline::Void),
            TypeOutline::Opaque => matches!(other, TypeOutline::Opaque),
            TypeOutline::Array(length) => {
                matches!(other, TypeOutline::Array(other_length) if other_length == length)
            }
            TypeOutline::Struct(packed) => {
                matches!(other, TypeOutline::Struct(other_packed) if other_packed == packed)
            }
        }
    }
}

/// The fields of a struct with that body.
pub(crate) fn parts_of_body(body: &Option<StructBody>) -> &[TypeId]
    ensures { result.now ≡ body_parts body.now }
{
    match body {
        None | Some(StructBody::Opaque) => &[],
        Some(StructBody::Plain(fields)) => fields.as_slice(),
        Some(StructBody::Packed(fields)) => fields.as_slice(),
    }
}
