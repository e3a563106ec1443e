//! The ends of blocks out of the records of a body, read into an arena in the making.
//!
//! It stands on `body_read::operands`. It promises that an end is the one that is read by the layout of its opcode, that it stays so
//! while constants are added, and that the least rule that is broken is kept. Definitions: `Lines` of `record_table`, and
//! `specs/Endings/Ends`.
//!
//! ```
//! is_end(Opcode::Ret) // true
//! is_end(Opcode::Add) // false
//! // where the one operand is 0
//! read_ending(&mut m, Opcode::Ret)? // Some(Ending::ReturnVoid)
//! ```
mod branch;
mod ending;
mod switch;

pub use ending::{is_end, read_ending};
