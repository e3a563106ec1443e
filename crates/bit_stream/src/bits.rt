//! Bits in bytes, least significant first: fields, numbers in chunks, alignment and blobs, both ways.
//!
//! It stands on `ir_base` for its texts. Its promise: a read gives the number that the bits in front
//! stand for, or the fault of the field and its first bit; a write adds the bits of its number.
//! Definitions: `specs/Bits/Bits`, `specs/Bits/Reading`, `specs/Bits/Chunked`, `specs/Bits/Writing`.
//!
//! ```
//! let mut sink = BitSink::new(alloc)?;
//! sink.fixed(5, 3)?;
//! sink.vbr(100, 6)?;
//! let bytes = sink.finish();
//!
//! let mut cursor = BitCursor::new(bytes.bytes());
//! cursor.fixed(3) // Ok(5)
//! cursor.vbr(6) // Ok(100)
//! ```
mod cursor;
mod fault;
mod field;
mod law;
mod sink;

pub use cursor::BitCursor;
pub use fault::{BitFault, BitFaultKind};
pub use law::{chunks_are_read_back, field_is_read_back, what_is_read_is_in_chunks};
pub use sink::{BitSink, WholeWords};
