//! The names in kept definitions: which entries are declared where others are extracted.
//!
//! It stands on `ir_base`, `type_table`, `module_arena`, `extract_rules` and `indexmap`. It promises that exactly the entries are
//! told whose names stand in what is kept, in time linear in the arena. Definitions: `specs/KeptNames/Marks`, and `specs/Flags` and
//! `specs/Extracted` of `extract_rules`.
//!
//! ```
//! let kept = choose(alloc, &checked, &selection)?;
//! let named = named_by_kept(alloc, checked.arena(), &kept)?; // of each entry, whether a kept definition names it
//! ```
mod marks;
mod named;

pub use named::named_by_kept;
