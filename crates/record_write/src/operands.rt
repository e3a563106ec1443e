//! The operands of records: fields, constants and values, appended to a list of numbers.
//!
//! It stands on `record_table` (layouts) and `record_write::order` (indices). It promises that what is appended is what the layout spells; only want of memory
//! refuses it. Definitions: `Fields`, `Constants` and `Standing` of `record_table`, and `specs/Operands/Numbered`, `specs/Operands/Wide`.
//!
//! ```
//! let mut operands = Vec::new(alloc);
//! put_number(&mut operands, 7)?; // adds 7
//! put_alignment(&mut operands, Some(8))?; // adds 4: 8 is the third power of two, and 0 tells that none is stated
//! put_indices(&mut operands, &[5, 6])?; // adds 2, 5 and 6
//! ```
mod constants;
mod fields;
mod numbering;
mod values;

pub use constants::{put_constant, put_typed};
pub use fields::{
    put_alignment, put_count, put_flag, put_indices, put_label, put_linkage, put_number, put_text,
};
pub use numbering::Numbering;
pub use values::{
    put_block, put_incoming, put_local, put_operand, put_operands, put_value, put_value_at,
};
