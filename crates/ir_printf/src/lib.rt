//! The text of `printf`: the pieces of a pattern, and what each conversion writes.
//!
//! It stands on `ir_base` and `itoa`. Its promise: a pattern is read as its literals and conversions, whose places join to the
//! pattern, and a number or a string is written as its conversion says, for every combination of flags, width, precision
//! and length. Where arguments come from is not its concern. Definitions: `specs/Pattern`, `specs/Printed`.
//!
//! ```
//! next_piece(b"n = %5d\n", 0) // Ok(PatternPiece::Literal(0, 4))
//! next_piece(b"n = %5d\n", 4) // Ok(PatternPiece::Convert(conversion, 7)): a ConversionKind::Signed of width 5
//! number_text(alloc, &conversion, 42)? // `   42`
//! put_number(alloc, &conversion, 42, &mut written)? // adds the same to `written`
//! ```
#![tactic(auto)]

mod conversion;
mod pattern;
mod text;

pub use conversion::{Conversion, ConversionKind, Length};
pub use pattern::{BadFormat, PatternPiece, a_pattern_is_its_pieces, next_piece};
pub use text::{bytes_text, number_text, put_bytes, put_number};
