//! Instructions and blocks: reads them from the tokens of a text (LangRef, "Instruction Reference").
//!
//! It stands on the values of `ir_phrases::constants`. Its promise: each call reads its row of the grammar, with the value of
//! that row, or stands at the first token with which the row can't go on. Metadata, attributes and calling conventions
//! are read and dropped. Definitions: `specs/Instructions/Operations`, `specs/Instructions/Instructions`, `specs/Instructions/Endings`, `specs/Instructions/Blocks`.
//!
//! ```
//! let limits = Limits { nesting: 64, with_left_out: false };
//! let mut cursor = Cursor::new(alloc, b"{ %1 = add i32 %0, 1 ret i32 %1 }", limits);
//! let blocks = blocks_of(&mut cursor)?;
//! // One block without a label: its one instruction is an Operation::Binary whose result is called 1, and an
//! // WrittenEnding::Return ends it.
//! ```
mod attributes;
mod block;
mod blocks;
mod boxed;
mod calls;
mod endings;
mod footprint;
mod instructions;
mod listed;
mod metadata;
mod operation;
mod operations;
mod parts;
mod room;
mod tails;

pub use attributes::{convention, function_attributes, parameter_attributes, section};
pub use block::{Branch, Instruction, Switch, WrittenBlock, WrittenCase, WrittenEnding};
pub use blocks::blocks_of;
pub use calls::signature;
pub use metadata::{attachment, attachments};
pub use operation::{
    Address, Alloca, CastParts, Extraction, Load, Operands, Operation, Phi, SignatureTypes, Store,
    WrittenCall, WrittenChoice, WrittenIncoming, WrittenInsertion,
};
