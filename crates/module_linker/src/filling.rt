//! The definitions of the module that is made of several (the tool `llvm-link`): initialisers, appended arrays, bodies and
//! targets, each where its symbol is defined.
//!
//! It stands on the stages of `module_linker::stages`: on entries that are declared, and on constants that the copiers of `entry_copy`
//! copied. It promises that exactly the linked module is made of them. Definitions: `specs/Filling/Elements`, `specs/Filling/Filling`,
//! `specs/Filling/Origins` and `specs/Filling/Standing`, `Filled` and `specs/Definitions` of `module_linker::stages`, and `Linked` of `link_rules`.
//!
//! ```
//! // of the parts `declare void @f()` and `define void @f() { ret void }`, with `declare void @f()` in the new arena
//! define_symbols(&copiers, alloc, parts, bindings, &mut into, &ids)?; // now it is `define void @f() { ret void }`
//! ```
mod appended;
mod bodies;
mod filling;
mod initialisers;
mod origins;
mod standing;
mod targets;

pub use filling::define_symbols;
