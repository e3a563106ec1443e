//! Walking over a stream of the bitcode container: first judged whole, then given entry by entry.
//!
//! It stands on `bit_tree` and `bit_tree::starts`, and holds a few bytes for each abbreviation and no list of operands. Its
//! promise: a stream is judged to be a tree or to have its first refused field, and a walker over a judged stream gives
//! each entry and definition of its tree in order, with the operands of a record one by one. Definitions: `specs/Walk/Walker`.
//!
//! ```
//! judge(alloc, bytes)?;
//! let mut walker = Walker::new(alloc, bytes);
//! while let Some(event) = walker.next()? {
//!     if let Event::Held(head) = event {
//!         // a record with the code head.code, whose operands are given one by one:
//!         while let Some(operand) = walker.next_operand() {}
//!     }
//! }
//! ```
mod advance;
mod event;
mod item;
mod passing;
mod plain;
mod scope;
mod spelling;
mod starts;
mod values;
mod verdict;
mod walker;

pub use event::{BlockHead, Event, RecordHead};
pub use verdict::judge;
pub use walker::Walker;
