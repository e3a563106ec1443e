//! The entries of the module that is made of several, declared (the tool `llvm-link`): one for each symbol, in order, under its
//! new name, none of it defined yet.
//!
//! It stands on `module_linker::stages`, on the copiers of `entry_copy`, by which types are known, and on the symbols and homes of
//! `linkage_rules`. It promises that exactly the entries of the linked module are declared, and which ids they have. Definitions:
//! `specs/Entries/Definitions`, what is declared of a symbol, `specs/Entries/Room` and `specs/Entries/Step`, that there is room for it and that it is
//! there; the module while it is made: `specs/Declared` of `module_linker::stages`.
//!
//! ```
//! // of the parts `declare void @f()` and `define void @f() { ret void }`
//! let ids = declare_symbols(&copiers, alloc, parts, &bindings, &mut into, &names)?;
//! // one id: that of `declare void @f()`, which is all that is there so far
//! ```
mod declarations;
mod declaring;
mod definitions;
mod parameters;
mod types;

pub use declaring::declare_symbols;
