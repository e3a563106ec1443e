//! Whole streams of the bitcode container: each is one tree of blocks, definitions and records, or has a first
//! field that is refused.
//!
//! It stands on `bit_stream`. Its promise: what is read of a stream is its tree, judged without holding it too, and
//! what a writer wrote is read as what was written. Definitions: `specs/Stream`, `specs/Content`, `specs/Written`.
//!
//! Its modules:
//!
//! - `starts`: Which definitions BLOCKINFO gave to each block id, by the bits where they start,
//!   twelve bytes a definition.
//! - `sizes`: What a writer of a stream may be told to write, where the whole is small: fewer than
//!   2^32 words.
//!
//! ```
//! let mut writer = BitWriter::new(alloc)?;
//! writer.enter(8, 3)?;
//! writer.put_record(1, &[2])?;
//! writer.end_block()?;
//! let bytes = writer.finish();
//!
//! let entries = read_stream(alloc, bytes.bytes())?; // Entry::Block(8), Entry::Record(1) and Entry::EndBlock
//! entries.at(1).operands // [2]
//! ```
#![tactic(auto)]

mod held;
mod law;
mod read;
pub mod sizes;
pub mod starts;
mod verdict;

pub use held::{HeldEntry, HeldEntryList};
pub use law::{
    a_stream_has_one_tree, a_stream_is_a_tree_or_refused, a_tree_is_not_refused,
    what_was_written_is_read,
};
pub use read::{is_end, read_stream};
pub use verdict::judge;
