//! Constants as records have them, read into an arena in the making.
//!
//! It stands on `type_read::arena`. It promises that what is kept is the constant that is read, and that the least rule that is
//! broken is kept. Definitions: `Constants` of `record_table`, and `specs/`.
//!
//! ```
//! // where the operands in front are 1 and 7, and `word` is `i32`
//! read_constant(&mut m, Some(word), NESTING_LIMIT)? // Some(id): the constant 7
//! // where the operand in front is 4
//! read_constant(&mut m, Some(word), NESTING_LIMIT)? // Some(id): `poison`
//! ```
mod constants;
mod made;

pub use constants::{NESTING_LIMIT, read_coded, read_constant};
pub use made::same;
