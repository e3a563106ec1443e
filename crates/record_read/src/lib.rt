//! Reading records over a judged stream: entry by entry, and the operands of a record one by one, with the least rule that
//! they break.
//!
//! It stands on the walker of `bit_dump::walk`, and holds no operands. It promises that the fields are read by their layouts, a
//! rule that is broken and what follows included, and that BLOCKINFO and definitions are passed over. Definitions: `Walk`,
//! `Layout`, `Fields`, `StringTable` and `Faults` of `record_table`, and `specs/`.
//!
//! Its modules:
//!
//! - `opening`: What stands in front of the block of a module in a stream, and behind it: the block
//!   that names the producer, and the string table where there is one.
//! - `order`: The order of a module's block: what stands in it, its version and its texts, whose
//!   body is due, and what is missing at its end.
//!
//! ```
//! let mut reader = RecordReader::new(alloc, bytes);
//! reader.next()? // NextEntry::Record(code)
//! let linkage = reader.number(); // its first operand
//! reader.ask(3, linkage < 11); // breaks rule 3 where that is none
//! reader.finish(MODULE_BLOCK)?; // refused where a rule is broken, or operands are left
//! ```
#![tactic(auto)]

mod bytes;
mod codes;
mod counts;
mod entry;
mod fault;
mod lists;
mod numbers;
pub mod opening;
pub mod order;
mod reader;
mod texts;

pub use bytes::{each_is_byte, is_of_bytes};
pub use codes::{read_alignment, read_flags, read_linkage, read_predicate};
pub use counts::one_more;
pub use entry::NextEntry;
pub use fault::{BitcodeFault, misplaced};
pub use lists::{push_known, unbroken};
pub use numbers::{read_below, read_flag, read_index, read_place};
pub use reader::RecordReader;
pub use texts::{
    Texts, read_byte_string, read_label, read_last, read_local_name, read_name, read_rest,
    read_text,
};
