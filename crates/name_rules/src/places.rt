//! The first break of the items of a text is told at the least place.
//!
//! It stands on the demands of `name_rules`, and on the phrases of `ir_syntax` that give the trees. It promises the laws that
//! its calls name: no demand that fails stands before the one that is told. Definitions: `specs/Places/Places` for what stands where,
//! `specs/Places/Laws` for the laws, `first_break` of `name_rules`.
//!
//! ```
//! first_break items -- of "@a = global ptr @b\n@a = global i32 7": `b` is the name of nothing, told at 1:17
//! NoneBefore place (demands items) -- of the place 1:17: the second `@a`, at 2:1, is refused behind it
//! ```
mod laws;

pub use laws::{demands_stand_at_tokens_in_order, the_first_break_stands_at_the_least_place};
