//! Judges the types, the constants and the names of a text: tells the first demand, in the order of the text, that does not
//! hold.
//!
//! It stands on the rules of `name_rules`, on the measures of structs of `type_judge::order` and the sets of `indexmap`. It
//! promises, want of memory aside, that an answer is Ok exactly where each demand holds, and else the refusal of the first that
//! does not.
//! Definitions: `specs/Judging`; the demands are those of `name_rules`, `specs/TypeDemands`.
//!
//! Its modules:
//!
//! - `order`: Puts the structs of a text into an order in which each stands behind those that its
//!   fields name.
//! - `ends`: Tells which structs of a text contain themselves by value.
//!
//! ```
//! let items = read_items(alloc, b"@a = global ptr @b")?;
//! let known = Known::of_items(alloc, &items)?;
//! known.has_global(b"a") // true
//! known.has_global(b"b") // false
//! check_global(alloc, &known, &name) // where that is the `@b` of the text: an unknown name, `@b`, at 1:17
//! ```
#![tactic(auto)]

mod asking;
mod constants;
pub mod ends;
mod globals;
mod integers;
mod known;
pub mod order;
mod types;

pub use asking::ask;
pub use constants::check_constant;
pub use globals::check_global;
pub use integers::{check_alignment, check_indices};
pub use known::{Known, global_name};
pub use types::{check_nesting, check_size, check_type, check_types, is_large};
