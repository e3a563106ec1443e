//! The tokens of a text as the phrases of the language see them, and a cursor that goes over them.
//!
//! It stands on `ir_base`, `ir_lexer`, `ir_tables` and `ir_terminals::phrase_rows`. Its promise: each reading call follows its row of
//! one token or of matching brackets, whatever stands behind it. What phrases are made of tokens is not its concern.
//! Definitions: `specs/Words`, `specs/Terminal`, `specs/Values`, `specs/Position`, `specs/Tokens`, `specs/LeftOut`.
//!
//! Its modules:
//!
//! - `phrase_rows`: The rows of a grammar as values: what a row's whole phrases are, with their
//!   values, what its cut phrases are, how it is read, and the lemma that the reader reads the row.
//!
//! ```
//! let limits = Limits { nesting: 64, with_left_out: false };
//! let mut cursor = Cursor::new(alloc, b"@a = global i32 7", limits);
//! let name = cursor.global_name()?; // a PlacedName: `a`, at 1:1
//! cursor.take_class(Terminal::Equals)?; // 1:4
//! cursor.terminal() // Some(Terminal::Global)
//! ```
#![tactic(auto)]

mod brackets;
mod compact;
mod cursor;
mod digits;
mod fault;
mod left_out;
mod limits;
mod number;
pub mod phrase_rows;
mod reading;
mod role;
mod terminal;
mod values;
mod words;

pub use compact::{CompactName, CompactText};
pub use cursor::Cursor;
pub use fault::Fault;
pub use limits::Limits;
pub use number::Number;
pub use role::terminal_of;
pub use terminal::Terminal;
pub use values::{Integer, Local, PlacedName, PlacedText};
