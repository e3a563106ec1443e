//! The canonical text of a module that is well formed and valid reads back to this module alone.
//!
//! It stands on the laws of `canonical::law` and `canonical::modules`, on what items ask for in `name_rules`, and on `IsWellFormed` and
//! `IsValid` of `module_arena`. It promises the laws that its calls name. Definitions: `specs/Reads/Laws`. `proofs/OnReads/Rows` has a worked
//! example.
//!
//! ```
//! -- of the module m of `@x = global i8 7`
//! canon m -- codes "@x = global i8 7\n"
//! Reads (canon m) n -- holds of m, and of no other n
//! ```
mod laws;

pub use laws::{
    canon_has_items, canon_has_tokens, canon_is_of_one_module, canon_is_read_back,
    canon_items_are_its_module, canon_items_are_unbroken,
};
