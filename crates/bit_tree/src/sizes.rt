//! What a writer of a stream may be told to write, where the whole is small: fewer than 2^32 words.
//!
//! It stands on the written streams of `bit_tree`. It promises that blocks and records without abbreviations, and blocks of bytes, may be
//! written then, whatever the lengths of the blocks are. Definitions: `specs/Sizes/Plain` says what is asked of them, `specs/Sizes/Laws` what the law is.
//!
//! ```
//! -- of a block with one record: all = a_block 8 3 (a_record 1 (2 ∷ []) no_more) no_more
//! IsWhole all -- holds: a block that is no BLOCKINFO, without abbreviations
//! weight all -- 2: one for the record, and one for its operand; so many bits are written at least
//! ```
mod laws;

pub use laws::{records_take_bits, wholes_are_short, wholes_may_be_written};
