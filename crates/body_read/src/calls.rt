//! Calls, and any instruction by its opcode, out of the records of a body, read into an arena in the making.
//!
//! It stands on `body_read::lines` and `body_read::operands`. It promises that an instruction is the one that is read by the layout of its
//! opcode, that its result is called as its record says, and that the least rule that is broken is kept. Definitions: `Lines`
//! of `record_table`, and `specs/`.
//!
//! ```
//! // where the operands are 0, 0, 1 and 7, and the first type is `i32`
//! let line = read_instruction(&mut m, &texts, Opcode::Freeze, defined, 3)?;
//! line.name // Some(LocalName::Numbered(3)): a label of 0 tells that there is no name
//! line.instruction // Some(Inst::Freeze(defined, operand)): `freeze i32 7`
//! ```
mod arguments;
mod call;
mod head;
mod line;
mod parameters;

pub use line::{ReadLine, read_instruction};
