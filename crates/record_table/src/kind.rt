//! The kinds of types.
ghost use Rattle.std.specs.Prelude.{◌≡◌};
ghost use Rattle.std.specs.Option.{option_map};
ghost use Rattle.record_table.specs.TypeRecords.{kind_code, kind_of_code, kinds};
ghost use Rattle.record_table.specs.Codes.{kind_view};

/// How a type stands in the block of types.
///
/// ```
/// TypeKind::Int.code() // 1
/// TypeKind::Array.code() // 4
/// ```
#[derive(Clone, Copy, Debug, PartialEq, Eq)]
pub enum TypeKind {
    /// An integer, by its width.
    Int,
    /// A pointer.
    Ptr,
    /// `void`
    Void,
    /// An array, by its length and the type of its elements.
    Array,
    /// A struct that is written out, by its fields.
    Struct,
    /// A struct that has a name, by its number.
    Named,
}

impl TypeKind {
    /// The code of the record of such a type, counted from 1.
    pub fn code(self) -> u32
        ensures { result ≡ kind_code (kind_view self) }
    {
        match self {
            TypeKind::Int => 1,
            TypeKind::Ptr => 2,
            TypeKind::Void => 3,
            TypeKind::Array => 4,
            TypeKind::Struct => 5,
            TypeKind::Named => 6,
        }
    }

    /// The kind with this code, and None exactly where there is none.
    pub fn of_code(code: u32) -> Option<TypeKind>
        ensures { option_map kind_view result ≡ kind_of_code code kinds }
    {
        match code {
            1 => Some(TypeKind::Int),
            2 => Some(TypeKind::Ptr),
            3 => Some(TypeKind::Void),
            4 => Some(TypeKind::Array),
            5 => Some(TypeKind::Struct),
            6 => Some(TypeKind::Named),
            _ => None,
        }
    }
}
