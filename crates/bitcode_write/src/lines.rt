//! Instructions and the ends of blocks as the operands of records, appended to a list of numbers.
//!
//! It stands on the operands of `record_write::operands`. It promises that what is appended is what the layout of the line's opcode spells; only want of memory
//! refuses it. Definitions: `Lines` and `Standing` of `record_table`, and `specs/Lines/Ids`, `specs/Lines/Lines`, `specs/Lines/Parts`.
//!
//! ```
//! ending_opcode(&Ending::ReturnVoid) // Opcode::Ret
//! put_ending(&mut operands, &numbering, &Ending::ReturnVoid)?; // adds 0: no value is returned
//! ```
mod call;
mod ending;
mod instruction;
mod opcode;

pub use ending::put_ending;
pub use instruction::put_instruction;
pub use opcode::{ending_opcode, instruction_opcode};
