//! The names that entries and structs get in the module that is made of several (the tool `llvm-link`).
//!
//! It stands on the definitions of `link_rules` and the symbols of `linkage_rules`. It promises that exactly the names are
//! given which the definition of a linked module gives, in time linear in the names but for hashing: the next free number
//! behind a name is looked for from the last one on. Definitions: `specs/Naming`, and `Rename` of `link_rules`.
//!
//! Its modules:
//!
//! - `shapes`: Shapes with the names of structs in them, each once under a number: by such numbers
//!   the structs of several modules are compared (the tool `llvm-link`).
//! - `structs`: The named structs of the module that is made of several (the tool `llvm-link`): by
//!   what numbers the structs of a part are compared with those of the others.
//! - `rows`: The named structs of the module that is made of several (the tool `llvm-link`).
//! - `counts`: How large the module would be that is made of several (the tool `llvm-link`): its
//!   symbols of each kind, and the first count that is past its limit.
//!
//! ```
//! let mut naming = Naming::new(alloc);
//! naming.name_for(alloc, &name, &base)? // the name itself
//! naming.name_for(alloc, &name, &base)? // the base with the least number that is free
//! ```
#![tactic(auto)]

pub mod counts;
mod naming;
mod numbered;
pub mod rows;
pub mod shapes;
pub mod structs;
mod symbols;

pub use naming::Naming;
pub use symbols::new_names;
