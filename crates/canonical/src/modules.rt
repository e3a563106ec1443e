//! A module is the module of the items that its canonical text prints.
//!
//! It stands on the laws of `canonical::law`, on the items of `canonical::items` and on the module of items of `name_rules`. It
//! promises the laws that its calls name. Definitions: `specs/Modules/Exact` says what a module keeps so that its canonical items
//! stand for it, `specs/Modules/Laws` what the laws are.
//!
//! ```
//! IsExact (int 8) (Integer 255) -- holds, since 255 < 2 ^ 8
//! IsExact (int 8) (Integer 256) -- does not hold
//! -- of the module m of `@x = global i8 7`, which is an IsExactModule
//! module_of_items (canon_items m) -- m
//! ```
mod laws;

pub use laws::{canon_reads_to_no_other, items_stand_for_their_module};
