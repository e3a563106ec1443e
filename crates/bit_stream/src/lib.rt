//! The container of LLVM bitcode (LLVM Bitcode File Format): blocks, abbreviations and records, both ways.
//!
//! It stands on `bit_stream::bits` and gives no meaning to a record. Its promise: the reader gives the entries of the bits
//! in order, or the first field that is refused with its bit, from then on; each call of the writer adds the
//! bits of its entry. Definitions: `specs/Entry` and `specs/Reader`, `specs/Spelling` and `specs/Writer`.
//!
//! Its modules:
//!
//! - `bits`: Bits in bytes, least significant first: fields, numbers in chunks, alignment and
//!   blobs, both ways.
//!
//! ```
//! let mut writer = BitWriter::new(alloc)?;
//! writer.enter(8, 3)?;
//! writer.put_record(1, &[2])?;
//! writer.end_block()?;
//! let bytes = writer.finish();
//!
//! let mut reader = BitReader::new(alloc, bytes.bytes())?;
//! reader.next_entry()? // Entry::Block(8)
//! reader.next_entry()? // Entry::Record(1), and reader.operands() are [2]
//! reader.next_entry()? // Entry::EndBlock
//! reader.next_entry()? // Entry::End
//! ```
#![tactic(auto)]

mod abbreviation;
mod admitted;
pub mod bits;
mod definition;
mod entry;
mod fault;
mod item;
mod law;
mod reader;
mod record;
mod scope;
mod spelling;
mod told;
mod writer;

pub use crate::bits::{BitFault, BitFaultKind};
pub use abbreviation::{
    AbbrevOp, Abbreviation, AbbreviationList, AdmittedAbbreviation, ChunkWidth, MOST_OPERANDS,
    Tail, ValueSpelling, WIDEST_CHUNK, WIDEST_FIELD,
};
pub use definition::defined_abbreviation;
pub use entry::Entry;
pub use fault::{StreamFault, bad_abbreviation, bad_block_length, nested_too_deep};
pub use item::{ID_LIMIT, MAX_OPEN, WORDS_LIMIT};
pub use law::{abbreviated_is_read_back, record_is_read_back};
pub use reader::{BitReader, LARGEST_STREAM, MAGIC};
pub use record::{code_by, value_by};
pub use scope::is_blockinfo;
pub use writer::BitWriter;
