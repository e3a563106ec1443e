//! The new arena of a part before anything is defined in it: texts, types, and all entries as declarations (the tool
//! `llvm-extract`).
//!
//! It stands on `extract_core::declaring` and `extract_core::part`, which declare entries, on `entry_copy` and `entry_copy::structs`, by whose new ids
//! types and structs are known, and on `item_build::types`. It promises that exactly what the entries become is declared, none of it
//! defined yet, and which ids they have. Definitions: `specs/Entries/Stages`, the module as far as it is made, and `specs/Entries/NewIds`.
//!
//! ```
//! let mut into = Builder::new(alloc);
//! copy_ground(&mut copier, alloc, arena, &mut into)?; // the texts, the structs and the types
//! declare_entries(&mut copier, alloc, arena, &mut into, &fates)?; // the entries, whose new ids the copier knows now
//! ```
mod declaring;

pub use declaring::{copy_ground, declare_entries};
