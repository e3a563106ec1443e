//! Instructions that are no calls, out of the records of a body, read into an arena in the making.
//!
//! It stands on `body_read::operands`. It promises that an instruction is the one that is read by the layout of its opcode, that it
//! stays so while constants are added, and that the least rule that is broken is kept. Definitions: `Lines` of `record_table`,
//! and `specs/`.
//!
//! ```
//! // where the operands behind the label are 0, 1 and 7, and the first type is `i32`
//! read_operation(&mut m, Opcode::Freeze, defined)? // Some(Inst::Freeze(defined, operand)): `freeze i32 7`
//! ```
mod addresses;
mod indices;
mod opcode;
mod operations;
mod parts;
mod phi;

pub use addresses::read_store;
pub use opcode::read_operation;
