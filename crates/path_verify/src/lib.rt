//! Whether a module is valid.
//!
//! It stands on `entry_verify::entries`, `instruction_verify`, `instruction_verify::last` and `instruction_verify::uses`. It promises that a module is accepted exactly where no function
//! is too large and all that it is asked for holds, and that else the first function that is too large, or the first demand that does
//! not hold, is told; and how often blocks are spread at most. Definitions: `specs/Verified`, and `Valid` of `module_arena`.
//! `Rows`, by which values are judged, is [`path_rows`]'s.
//!
//! ```
//! let items = read_items(alloc, b"define void @f() { ret void }")?;
//! let arena = resolve(alloc, &items)?;
//! let checked = verify(alloc, arena)?; // a module that is valid
//! ```
#![tactic(auto)]

mod all_entries;
mod blocks;
mod bodies;
mod entries;
mod facts;
mod functions;
mod instructions;
mod layout_text;
mod module_line;
mod own_operands;
mod single;
mod sizes;
mod verifying;

pub use path_rows::{Rows, Spare, Steps};
pub use verifying::{verify, verify_counted};
