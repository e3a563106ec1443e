//! Constants, by the ids of their parts.

use crate::{Boxed, ConstId, GlobalId};
use ir_base::{ItemList, Text};
use ir_tables::{Flags, Opcode};
use type_table::TypeId;

/// The brackets round a list of constants.
///
/// ```
/// Const::Aggregate(Brackets::Packed, elements) // `<{ i8 1, ptr null }>`, whose elements these are
/// ```
#[derive(Clone, Copy)]
pub enum Brackets {
    /// `[ .. ]`
    Square,
    /// `{ .. }`
    Braces,
    /// `<{ .. }>`
    Packed,
}

/// A constant, and the type that is written before it.
///
/// ```
/// TypedConst { ty: word, value: seven } // `i32 7`, by the ids of the two
/// ```
#[derive(Clone, Copy)]
pub struct TypedConst {
    pub ty: TypeId,
    pub value: ConstId,
}

/// Some constants with their types, in order.
pub type TypedConstList = ItemList<TypedConst>;

/// The parts of a `getelementptr` constant.
///
/// ```
/// // of `getelementptr (i32, ptr @a, i64 1)`, where `base` is `ptr @a` and `one` is `i64 1`
/// operands.push(base)?;
/// operands.push(one)?;
/// ConstAddress { source: word, operands }
/// ```
#[derive(Drop)]
pub struct ConstAddress {
    /// The type over which the indices step.
    pub source: TypeId,
    /// The base, and the indices behind it.
    pub operands: TypedConstList,
}

/// The operands of a binary constant.
///
/// ```
/// // of `add (i32 7, i32 8)`, by the ids of `i32` and of the two constants
/// let left = TypedConst { ty: word, value: seven };
/// ConstPair { left, right: TypedConst { ty: word, value: eight } }
/// ```
#[derive(Clone, Copy)]
pub struct ConstPair {
    pub left: TypedConst,
    pub right: TypedConst,
}

/// A constant (LangRef, "Constants" and "Constant Expressions"), one variant a form. It takes 32 bytes.
///
/// ```
/// Const::Integer(255) // of `i8 255` and of `i8 -1`
/// Const::Address(GlobalId::Variable(id)) // of `ptr @a`, where that is the id of the variable `a`
/// Const::ByteString(Text::from_slice(alloc, b"ret")?) // of `[3 x i8] c"ret"`
/// ```
#[derive(Drop)]
pub enum Const {
    /// At iN the number modulo 2^N, at any other type modulo 2^128. At i1 `true` is 1 and `false` is 0.
    Integer(u128),
    /// `true` or `false` at a type other than i1, which no valid module has.
    Truth(bool),
    /// `null`
    Null,
    /// `undef`
    Undef,
    /// `poison`
    Poison,
    /// `zeroinitializer`
    ZeroInitializer,
    /// The address of a variable, alias or function.
    Address(GlobalId),
    /// The bytes of `c"..."`.
    ByteString(Text),
    /// Constants in brackets.
    Aggregate(Brackets, TypedConstList),
    /// `getelementptr`
    ElementAddress(Flags, Boxed<ConstAddress>),
    /// `ptrtoint`, `inttoptr` or `trunc`: the value, and the type to which it is cast.
    Cast(Opcode, TypedConst, TypeId),
    /// `add`, `sub` or `xor`.
    Binary(Opcode, Flags, Boxed<ConstPair>),
}

const _: () = prove!(size_of::<Const>() <= 32);
