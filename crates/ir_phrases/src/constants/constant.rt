//! Constants, as a text writes them.

use crate::constants::ty::Type;
use ir_base::Place;
use ir_tables::{Flags, Opcode};
use ir_terminals::{Number, PlacedName, PlacedText};

/// A constant that is one word (LangRef, "Simple Constants", "Undefined Values" and "Poison Values").
///
/// ```
/// Constant::Simple(Simple::True, place) // `true`
/// ```
#[derive(Clone, Copy)]
pub enum Simple {
    /// `true`
    True,
    /// `false`
    False,
    /// `null`
    Null,
    /// `undef`
    Undef,
    /// `poison`
    Poison,
    /// `zeroinitializer`
    ZeroInitializer,
}

/// The brackets round a list of constants.
///
/// ```
/// // `{ i8 1, ptr null }`, whose elements these are
/// Constant::List(place, Brackets::Braces, Box::new(alloc, elements)?)
/// ```
#[derive(Clone, Copy)]
pub enum Brackets {
    /// `[ .. ]`
    Square,
    /// `{ .. }`
    Braces,
    /// `<{ .. }>`
    Packed,
}

/// A constant, with the place of its first token (LangRef, "Constants" and "Constant Expressions").
///
/// ```
/// Constant::Simple(Simple::Null, place) // `null`
/// Constant::Global(name) // `@x`, where that is the name with its place
/// // `[i32 1, i32 2]`, whose elements are these
/// Constant::List(place, Brackets::Square, Box::new(alloc, elements)?)
/// // `ptrtoint (ptr @x to i64)`, where the parts are `ptr @x` and `i64`
/// Constant::Cast(place, Opcode::PtrToInt, Box::new(alloc, address)?, Box::new(alloc, word)?)
/// ```
#[derive(Drop)]
#[cycle(constants)]
pub enum Constant {
    /// An integer: whether it has a minus, the place of its first byte, and its magnitude.
    Integer(bool, Place, Number),
    /// A constant that is one word.
    Simple(Simple, Place),
    /// The address of a variable or a function.
    Global(PlacedName),
    /// The bytes of `c"..."`.
    Bytes(PlacedText),
    /// A list of constants.
    List(Place, Brackets, Box<Vec<TypedConstant>>),
    /// `getelementptr`: its flags, its source type, and the base with the indices behind it.
    GetElementPtr(Place, Flags, Box<Type>, Box<Vec<TypedConstant>>),
    /// `ptrtoint`, `inttoptr` or `trunc`: what is cast, and the type to which it is.
    Cast(Place, Opcode, Box<TypedConstant>, Box<Type>),
    /// `add`, `sub` or `xor`.
    Binary(Place, Opcode, Flags, Box<TypedConstant>, Box<TypedConstant>),
}

/// A constant and the type that is written before it.
///
/// ```
/// TypedConstant { ty: Type::Ptr(place), value: Constant::Simple(Simple::Null, behind) } // `ptr null`
/// ```
#[derive(Drop)]
#[cycle(constants)]
pub struct TypedConstant {
    pub ty: Type,
    pub value: Constant,
}
