//! The records of bitcode from a module: the order of what they number, and their operands.
//!
//! It stands on `record_table`. `order` promises the numbers that types, constants and values have in bitcode; `operands` the operands of
//! each record. Definitions: `specs/Order`, `specs/Operands`; `Records` of `record_table`.
//!
//! Its modules:
//!
//! - `order`: The order of what a module's records name by index: its texts in the string table,
//!   and the types that it writes.
//! - `operands`: The operands of records: fields, constants and values, appended to a list of
//!   numbers.
#![tactic(auto)]

pub mod operands;
pub mod order;
