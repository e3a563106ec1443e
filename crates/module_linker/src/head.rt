//! The head of the module that is made of several (the tool `llvm-link`): its texts, and the names of its structs.
//!
//! It stands on the definitions of `link_rules` and on the builder of `item_build::types`. It promises that in an arena in which
//! nothing was the module has then exactly the texts and the struct names of the linked one, and nothing else.
//! Definitions: `specs/Head/Head`, and `Linked` and `Structs` of `link_rules`.
//!
//! ```
//! // of two parts with `%T = type { i32 }` each
//! let rows = struct_rows(alloc, parts)?;
//! let mut into = Builder::new(alloc);
//! set_head(alloc, parts, &rows.names, &mut into)?; // one struct, `%T`, which has no body yet; the texts of the first that has them
//! ```
mod head;
mod naming;
mod texts;

pub use head::set_head;
