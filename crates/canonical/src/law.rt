//! Canonical text is read as its items.
//!
//! It stands on the canonical text of `canonical`, on its items, which are `canonical::items`, and on the tokens and the phrases
//! of `ir_lexer` and `ir_syntax`. It promises the laws that its calls name, of modules that canonical text can write.
//! Definitions: `specs/Law/Written` and `specs/Law/Texts` say which modules those are, `specs/Law/Laws` what the laws are.
//!
//! ```
//! -- of the module m of `@x = global i8 7`
//! canon m -- codes "@x = global i8 7\n"
//! tokens_of (canon_pieces m) -- `@x`, `=`, `global`, `i8` and `7`: the tokens of that text
//! canon_items m -- one Variable: the item that these tokens are, but for their places
//! ```
mod laws;

pub use laws::{DIGIT_LIMIT, one_list_of_items, pieces_are_tokens, tokens_are_items};
