//! Phrases of canonical text on their way to a sink: tokens, names, numbers, types and constants.
//!
//! It stands on the arena of `module_arena` and on the room of `ir_printer::gathered`. Each function puts one phrase and promises that its
//! pieces, and nothing else, were put. Nothing takes memory. Definitions: `canonical/specs`, and `specs/Phrases/Printing` for what it is
//! to put pieces.
//!
//! ```
//! let mut out = Gathered::new();
//! put_global(&mut out, &mut sink, &name, Separator::Space);
//! put_type(&mut out, &mut sink, arena.types(), ty, Separator::Nothing);
//! out.finish(&mut sink)?; // `@a i32`, where the name is `a` and the type `i32`
//! ```
mod brackets;
mod constants;
mod flags;
mod integers;
mod names;
mod numbers;
mod separator;
mod tokens;
mod types;

pub use constants::{put_constant, put_typed};
pub use flags::{put_address_flags, put_flags};
pub use names::{put_global, put_label, put_local, put_struct_name, put_text};
pub use numbers::{put_natural, put_signed};
pub use separator::Separator;
pub use tokens::{put_comma, put_token};
pub use types::{put_struct_body, put_type, put_types};
