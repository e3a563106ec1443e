//! The types of a module, from the block that lists them.
//!
//! It stands on `record_read` and `module_arena`. It promises that the arena has the types and structs that the block lists,
//! under their indices, or the first record that breaks a rule. The block is gone through twice, since types name structs
//! whose records stand behind them. Definitions: `TypeRecords` of `record_table`, `specs/Listed`
//! and `specs/Pending`.
//!
//! Its modules:
//!
//! - `arena`: An arena in the making, and what indices of records stand for in it: types, entries,
//!   locals and blocks, and the constants that hold no others.
//!
//! ```
//! // in a block of types whose records are INT 32 and ARRAY 2 0
//! let ahead = gather_types(&mut reader, alloc, &texts, &mut arena)?; // no structs
//! // .. once the reader stands in that block again:
//! read_types(&mut reader, alloc, &texts, &mut arena, ahead.structs)?; // now the arena has `i32` and `[2 x i32]`
//! ```
#![tactic(auto)]

pub mod arena;
mod definition;
mod listing;
mod pending;
mod records;
mod structs;

pub use listing::read_types;
pub use structs::{StructNames, TypesAhead, gather_types, name_structs};
