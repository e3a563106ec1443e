//! Splits a module's text into tokens, and says where each of them begins (LangRef, "Identifiers" and "Comments").
//!
//! It stands on `ir_base`. Its promise: the tokens are those of the text, each the longest that begins there, or
//! the first byte where none begins is told. What a token means to a phrase is not its concern. Definitions:
//! `specs/Table` has the spellings of each kind, `specs/Tokens` the tokens of a text.
//!
//! ```
//! let mut lexer = Lexer::new(b"ret i32 0 ; the end");
//! while let Some(token) = lexer.next()? {
//!     let spelling = lexer.spelling(&token);
//!     // `ret`, a TokenKind::Word at 1:1; `i32`, a TokenKind::Word at 1:5; `0`, a TokenKind::Integer at 1:9
//! }
//! ```
#![tactic(auto)]

mod class;
mod class_table;
mod front;
mod gap;
mod label;
mod laws;
mod lexer;
mod names;
mod place;
mod quoted;
mod run;
mod token;

pub use laws::{
    answers_ahead, list_or_bad, one_list, pieces_are_tokens, strings_stand_for_their_bytes,
};
pub use lexer::{LARGEST, Lexer};
pub use names::{bare_name_of, is_number, name_of};
pub use quoted::{is_quoted, unquote};
pub use token::{BadByte, Token, TokenKind};
