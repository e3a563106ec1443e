//! What stands in front of the block of a module in a stream, and behind it: the block that names the producer, and the string
//! table where there is one.
//!
//! It stands on `record_read`. It promises that a stream of another producer is refused as such, that the table's bytes are
//! those that are read, and that the first record or block that may not stand there is refused by the least rule that it
//! breaks. Definitions: `Records` of `record_table`, and `specs/`.
//!
//! ```
//! let mut reader = RecordReader::new(alloc, bytes); // over bytes that were judged
//! read_producer(&mut reader)?; // block 13, which says `integer profile 1`
//! let texts = read_texts(&mut reader, alloc)?; // block 23, the string table; then the reader stands in block 8
//! // .. once the module's block was read:
//! expect_end(&mut reader)?; // nothing stands behind it
//! ```
mod entering;
mod producer;
mod table;

pub use entering::{expect_end, read_texts};
pub use producer::read_producer;
pub use table::read_table;
