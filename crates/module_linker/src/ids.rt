//! What the entries and constants of several modules are in the one that is made of them (the tool `llvm-link`).
//!
//! It stands on the symbols of `linkage_rules`, on the copiers of `entry_copy`, one a part, and on the stages of `module_linker::stages`. It
//! promises that each entry of each part gets as its new id that of its symbol's entry, and that all constants of all parts are
//! copied then. Definitions: `specs/Ids/Others`, `NewIds` and `Copied` of `module_linker::stages`; for the code `specs/Ids/Filing`, `specs/Ids/Constants`.
//!
//! ```
//! // of the parts `declare void @f()` and `define void @f() { ret void }`, whose one symbol has the id `ids.at(0)`
//! set_new_ids(&mut copiers, alloc, parts, &bindings, &ids)?; // each part's `@f` is that entry now
//! copy_constants(&mut copiers, alloc, parts, &mut into)?; // so constants that name it can be copied
//! ```
mod constants;
mod filing;
mod ids;
mod places;

pub use constants::copy_constants;
pub use ids::set_new_ids;
