//! Types, constants and values: reads them from the tokens of a text (LangRef, "Type System" and "Constants").
//!
//! It stands on the terminals of `ir_terminals` and the rows of `ir_terminals::phrase_rows`. Its promise: each call reads its row of
//! the grammar, with the value of that row, or stands at the first token with which the row can't go on. Whether a
//! constant fits its type is not its concern. Definitions: `specs/Constants/Types`, `specs/Constants/Constants`, `specs/Constants/Values`.
//!
//! ```
//! let limits = Limits { nesting: 64, with_left_out: false };
//! let mut cursor = Cursor::new(alloc, b"i32 7, ptr @a", limits);
//! let first = typed_constant_of(&mut cursor)?; // a Type::Integer of 32 bits, and the Constant::Integer 7
//! cursor.take_class(Terminal::Comma)?;
//! let second = typed_constant_of(&mut cursor)?; // a Type::Ptr, and the Constant::Global `a`
//! ```
mod constant;
mod constants;
mod expressions;
mod flags;
mod footprint;
mod ty;
mod types;
mod value;
mod values;

pub use constant::{Brackets, Constant, Simple, TypedConstant};
pub use constants::{constant_of, typed_constant_of};
pub use flags::flags_of;
pub use ty::{ArrayType, Type};
pub use types::{begins_type, fields_of, type_of, value_type_of};
pub use value::{TypedValue, WrittenValue};
pub use values::{typed_value_of, value_of};
