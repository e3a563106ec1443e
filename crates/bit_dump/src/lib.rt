//! Telling a stream of the bitcode container: its blocks, definitions and records as text, and how many there are.
//!
//! It stands on `bit_dump::walk` and gives no meaning to a record. Its promise: what is written is the text of the stream's
//! tree, or nothing where a field of the stream is refused, or a front of that text where a write fails or memory runs
//! out. Definitions: `specs/Text` and `specs/Tally`.
//!
//! Its modules:
//!
//! - `walk`: Walking over a stream of the bitcode container: first judged whole, then given entry
//!   by entry.
//!
//! ```
//! let mut sink = MemorySink::new(alloc, 65_536, NumberList::new(alloc))?;
//! dump(alloc, bytes, true, &mut sink)?;
//! // sink.taken() is the text of the stream's tree, and behind it how many blocks, records and definitions there are
//! ```
#![tactic(auto)]

mod counts;
mod fault;
mod judged;
mod outline;
mod pieces;
mod summary;
mod tally;
mod text;
pub mod walk;

pub use fault::DumpFault;
pub use judged::dump;
