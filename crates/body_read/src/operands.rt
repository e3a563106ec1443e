//! What instructions work on, out of the operands of records: types, values behind their types, and lists of both.
//!
//! It stands on `body_read::constants`. It promises that what is found is what the operands in front stand for, that it stays so
//! while constants are added, and that the least rule that is broken is kept. Definitions: `Lines` of `record_table`, and
//! `specs/Operands/Found`.
//!
//! ```
//! // where the operands in front are 0, 1 and 7, and the first type is `i32`
//! read_operand(&mut m)? // Some(operand): `i32 7`
//! // where they are 2, 0, 1, 7, 0, 1 and 8
//! read_operands(&mut m)? // Some(operands): `i32 7` and `i32 8`
//! ```
mod operands;
mod types;
mod value;

pub use operands::{
    add_operand, operand_list, read_operand, read_operand_of, read_operands, read_optional_operand,
};
pub use types::read_types;
pub use value::read_value;
