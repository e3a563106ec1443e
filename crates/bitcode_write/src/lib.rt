//! The bitcode of a checked module.
//!
//! It stands on the operands of `record_write::operands` and `bitcode_write::lines` and on the writer of `bit_stream`. It promises the one spelling of the module,
//! and nothing else; only want of memory refuses it. Definitions: `Spelling` of `record_table`; of its parts `specs/Put` and `specs/Entries`.
//!
//! Its modules:
//!
//! - `lines`: Instructions and the ends of blocks as the operands of records, appended to a list of
//!   numbers.
//!
//! ```
//! let bytes = write(alloc, &checked)?; // begins with `BC`, 0xC0 and 0xDE
//! ```
#![tactic(auto)]

mod bodies;
mod byte_blocks;
mod entries;
mod globals;
pub mod lines;
mod records;
mod types;
mod writing;

pub use writing::write;
