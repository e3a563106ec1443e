//! Linking: the one module that is made of several (the tool `llvm-link`).
//!
//! It stands on the symbols of `linkage_rules`, on `link_names::rows`, `link_names` and `link_names::counts`, which tell what the linked module
//! has, on `module_linker::ground`, `module_linker::entries`, `module_linker::ids` and `module_linker::filling`, which make it, and on the laws of `link_rules::valid` and
//! `linked_runs`. It promises that exactly the linked module is made, which runs as its parts do side by side, or that the first
//! conflict is told, or else the first count past its limit. Definitions: `specs/Faults`, and `Linked` and `Counts` of `link_rules`.
//!
//! Its modules:
//!
//! - `head`: The head of the module that is made of several (the tool `llvm-link`): its texts, and
//!   the names of its structs.
//! - `stages`: What a module that is made of several is while it is made (the tool `llvm-link`):
//!   with the types alone, with its entries declared, and while they are defined one after another.
//! - `parts`: The types of one part, and the structs that it is the first to have, in the module
//!   that is made of several (the tool `llvm-link`).
//! - `ground`: What stands before the entries in the module that is made of several (the tool
//!   `llvm-link`): its texts, its named structs, and the types of all parts.
//! - `entries`: The entries of the module that is made of several, declared (the tool `llvm-link`):
//!   one for each symbol, in order, under its new name, none of it defined yet.
//! - `ids`: What the entries and constants of several modules are in the one that is made of them
//!   (the tool `llvm-link`).
//! - `filling`: The definitions of the module that is made of several (the tool `llvm-link`):
//!   initialisers, appended arrays, bodies and targets, each where its symbol is defined.
//!
//! ```
//! let mut parts = Vec::new(alloc);
//! parts.push(first)?; // declare void @f()
//! parts.push(second)?; // define void @f() { ret void }
//! let linked = link(alloc, parts)?; // define void @f() { ret void }
//! ```
#![tactic(auto)]

pub mod entries;
mod fault;
pub mod filling;
pub mod ground;
pub mod head;
pub mod ids;
mod linking;
mod making;
pub mod parts;
pub mod stages;

pub use fault::LinkFault;
pub use linking::link;
