//! Types, as a text writes them.

use ir_base::Place;
use ir_terminals::{Integer, PlacedName};

/// A type, with the place of its first token (LangRef, "Type System").
///
/// ```
/// // `i32`, where a text begins with it
/// Type::Integer(Place { line: 1, column: 1 }, 32)
/// // `<{ i8, ptr }>` at a place, whose fields are `i8` and `ptr`
/// Type::Struct(place, true, Box::new(alloc, fields)?)
/// ```
#[derive(Drop)]
#[cycle(ty)]
pub enum Type {
    /// `iN`, with its width in bits, from 1 to 128.
    Integer(Place, u8),
    /// `ptr`
    Ptr(Place),
    /// `void`
    Void(Place),
    /// `[ INT x TYPE ]`
    Array(Place, Box<ArrayType>),
    /// `{ TYPE,* }`, or packed `<{ TYPE,* }>`. The list is behind a box, since few types have one.
    Struct(Place, bool, Box<Vec<Type>>),
    /// `%name`
    Named(PlacedName),
}

/// What an array holds: the count of its elements as written, and their type.
///
/// ```
/// ArrayType { count, element: Type::Ptr(place) } // of `[5 x ptr]`, where the count is `5` with its place
/// ```
#[derive(Drop)]
#[cycle(ty)]
pub struct ArrayType {
    pub count: Integer,
    pub element: Type,
}
