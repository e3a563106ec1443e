//! What the records of variables, functions and aliases begin with, and what is known ahead of the block of a module.
//!
//! It stands on `record_read` and `type_read`. It promises that what stands in front in such a record is read by its layout,
//! with the least rule that it breaks, and how many entries and which structs a module's block has. Definitions: `Records` of
//! `record_table`, and `specs/`.
//!
//! ```
//! find_module(&mut reader)? // true: the reader stands in the module's block now; of a stream without one false
//!
//! // of the bitcode of `@a = global i32 7` and `define void @f() { ret void }`
//! let ahead = look_ahead(alloc, bytes, &texts)?; // ahead.counts: one variable, one function and no alias
//! ```
mod ahead;
mod fronts;
mod types;

pub use ahead::{ModuleAhead, find_module, look_ahead};
pub use fronts::{
    AliasFront, FunctionFront, VariableFront, read_alias_front, read_front_name,
    read_function_front, read_variable_front,
};
