//! The canonical text of a module.
//!
//! It stands on `ir_printer::phrases` and `ir_printer::instructions`, and on the buffer of `ir_printer::gathered`. It promises that the canonical
//! text of the module is written, whole or, after a write that failed, a front of it, and that nothing else is. Definitions:
//! `canonical/specs/Canonical`; of its parts `specs/Blocks`, `specs/Functions`, `specs/Entries` and `specs/Listed`.
//!
//! Its modules:
//!
//! - `gathered`: Bytes on their way to a sink: a fixed room before it, so that no token costs a
//!   call of it.
//! - `phrases`: Phrases of canonical text on their way to a sink: tokens, names, numbers, types and
//!   constants.
//! - `instructions`: Instructions and ends of blocks of canonical text on their way to a sink.
//!
//! ```
//! let items = read_items(alloc, b"@a=global i32 7 ; seven")?;
//! let checked = verify(alloc, resolve(alloc, &items)?)?;
//! print_text(alloc, &checked)? // `@a = global i32 7` and a line feed
//! ```
#![tactic(auto)]

mod alias;
mod blocks;
mod entries;
mod functions;
pub mod gathered;
mod growing;
mod head;
pub mod instructions;
mod linkage;
mod module;
pub mod phrases;
mod printing;
mod structs;
mod texts;
mod variable;

pub use module::put_module;
pub use printing::{print, print_text};
