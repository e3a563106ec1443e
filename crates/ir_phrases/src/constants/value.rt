//! Values, as a text writes them.

use crate::constants::constant::Constant;
use crate::constants::ty::Type;
use ir_terminals::Local;

/// What an instruction works on: a parameter, a result or a constant.
///
/// ```
/// WrittenValue::Local(Local::Named(x)) // `%x`, where `x` is that name with its place
/// WrittenValue::Constant(Constant::Simple(Simple::Null, place)) // `null` at that place
/// ```
#[derive(Drop)]
pub enum WrittenValue {
    /// A parameter or a result, by what it is called.
    Local(Local),
    /// A constant.
    Constant(Constant),
}

/// A value and the type that is written before it.
///
/// ```
/// // `i32 %x`, where a text begins with it, and `x` is that name with its place.
/// let ty = Type::Integer(Place { line: 1, column: 1 }, 32);
/// TypedValue { ty, value: WrittenValue::Local(Local::Named(x)) }
/// ```
#[derive(Drop)]
pub struct TypedValue {
    pub ty: Type,
    pub value: WrittenValue,
}
