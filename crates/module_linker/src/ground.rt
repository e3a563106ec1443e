//! What stands before the entries in the module that is made of several (the tool `llvm-link`): its texts, its named structs,
//! and the types of all parts.
//!
//! It stands on `link_names::rows`, which tells the structs, on `module_linker::head` and on `module_linker::parts`. It promises that the new module has
//! exactly the texts and the structs of the linked one, that each type of each part is copied under the new names, and that
//! only memory may be wanting. Definitions: `specs/Ground/Making`, `Ground` and `Parts` of `module_linker::stages`, and `Linked` of
//! `link_rules`.
//!
//! ```
//! let rows = struct_rows(alloc, parts)?;
//! let mut into = Builder::new(alloc);
//! let copiers = copy_ground(alloc, parts, &rows, &mut into)?; // one a part, which knows the new ids of the part's types
//! ```
mod ground;

pub use ground::copy_ground;
