//! Linking: the one module that is made of several, as it is defined, and what its definition promises of names and symbols.
//!
//! It stands on the symbols, entries and homes of `linkage_rules`, on the first contents of `linkage_rules::contents`, and on the modules of
//! `module_arena`. It promises that fresh names are free, that no two symbols get one name, that each symbol of well-formed, valid
//! parts without a conflict is carried over with its definition and its meaning, and that such a part alone stays as it is if it has
//! no `available_externally` definition and no appending `zeroinitializer`.
//! Definitions: `specs/Rename`, `Structs`, `Linked`, `Counts`; of what is promised `Carried`, `Known`, `Merges`, `Alone`, `Laws`.
//!
//! Its modules:
//!
//! - `bodies`: What the named structs hold in the module that is made of several (the tool `llvm-
//!   link`).
//! - `valid`: What is made of parts that are well formed and valid, and have no conflict, is well
//!   formed and valid again.
//!
//! ```
//! fresh (codes "v" ∷ codes "v.1" ∷ []) (codes "v") -- `v.2`
//! -- of two parts, `@v = internal global i32 1` and `@v = internal global i32 2`
//! new_name_of parts (Local 0 (codes "v")) -- `v`
//! new_name_of parts (Local 1 (codes "v")) -- `v.1`
//! link_result parts -- `@v = internal global i32 1` and `@v.1 = internal global i32 2`
//! ```
#![tactic(auto)]

pub mod bodies;
mod law;
mod limits;
pub mod valid;

pub use law::{fresh_names_are_free, linking_carries_symbols, names_stay_apart, one_module_stays};
pub use limits::APPENDED_LIMIT;
