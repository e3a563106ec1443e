//! An arena in the making, and what indices of records stand for in it: types, entries, locals and blocks, and the constants
//! that hold no others.
//!
//! It stands on `record_read` and `module_arena`. It promises that what is read is what the indices stand for, that a
//! constant that is kept is the one that is read, and that the least rule that is broken is kept. Constants that are used
//! again soon are kept once, so that short operands take no room of their own. Definitions: `Fields` and `Constants` of
//! `record_table`, and `specs/`.
//!
//! ```
//! has_parts(types, Some(pair), 2) // true, where `pair` is `{ i32, ptr }`
//! part_at(types, Some(pair), 1) // Some(id) of `ptr`
//! part_at(types, Some(pair), 2) // None
//!
//! // where the types are `i32` and `ptr`, and the operand in front is 1
//! read_type(&mut m) // Some(id) of `ptr`; behind an operand of 2 it would be None, and rule 2 broken
//! ```
mod counts;
mod globals;
mod growing_arena;
mod leaves;
mod list_parts;
mod module_reader;
mod opcodes;
mod places;
mod recent;
mod type_tests;

pub use counts::{GlobalCounts, LocalCounts};
pub use globals::{read_global, read_target};
pub use growing_arena::GrowingArena;
pub use leaves::{read_address, read_integer, read_null, read_string};
pub use list_parts::{brackets_of, has_parts, part_at};
pub use module_reader::ModuleReader;
pub use opcodes::{read_binary_opcode, read_cast_opcode};
pub use places::{read_block, read_local, read_type};
pub use type_tests::is_pointer;
