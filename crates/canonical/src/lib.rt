//! The canonical text of a module: its tokens, and what stands between them.
//!
//! It stands on the module of `module_arena`, on the tokens of `ir_lexer` and on how `name_rules` spells names and numbers.
//! Its definitions: `specs/Phrase` says how tokens are put together, `specs/Names`, `Types`, `Constants`,
//! `Operations` and `Instructions` have the phrases, and `specs/Canonical` the whole text. `proofs/Rows` are worked examples.
//!
//! Its modules:
//!
//! - `items`: The items of the canonical text of a module.
//! - `law`: Canonical text is read as its items.
//! - `modules`: A module is the module of the items that its canonical text prints.
//! - `reads`: The canonical text of a module that is well formed and valid reads back to this
//!   module alone.
//!
//! ```
//! canon m -- of a module whose one variable is the i8 `x` with the initialiser Integer 255: codes "@x = global i8 -1\n"
//! canon empty_module -- []
//! ```
#![tactic(auto)]

pub mod items;
pub mod law;
pub mod modules;
pub mod reads;
