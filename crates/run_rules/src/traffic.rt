//! The bytes of a run on their way out and in: what was put out and is not written, what was read and is not used.
//!
//! It stands on the sinks and sources of `ir_base`, and takes memory only where it is made. It promises that all that is put is
//! written in order, and none before 65,536 bytes are there unless it is asked for; and that each byte of the input is given once, in
//! order, and none is read once a read has given none. Definitions: `specs/Traffic/Output`, `specs/Traffic/Input`.
//!
//! ```
//! let mut input = Input::new(alloc)?;
//! input.take(&mut source)? // Some(b'a'), where the source has `ab`
//!
//! let mut output = Output::new(alloc)?;
//! output.put(b"b", &mut sink)?; // the sink may not have it yet
//! output.flush(&mut sink)?; // now it has
//! ```
mod input;
mod output;

pub use input::{INPUT_PIECE, Input};
pub use output::{OUTPUT_PIECE, Output};
