//! The named structs of the module that is made of several (the tool `llvm-link`).
//!
//! It stands on the walk of `link_names::structs`, the names of `link_names` and the definitions of `link_rules`. It promises that
//! the structs get exactly the names that the definition of a linked module gives them, and that of each struct of each part it
//! is told which of them it is. Each type and each struct of a part is looked at once. Definitions: `specs/Rows/Numbers`,
//! `specs/Rows/Rows`, and `Structs` of `link_rules`.
//!
//! ```
//! // of two parts with `%T = type { i32 }` each, and a third with `%T = type { i64 }`
//! let rows = struct_rows(alloc, parts)?;
//! rows.names // `T` and `T.1`
//! rows.numbers // [0], [0] and [1]: the first two parts have one struct
//! ```
mod avoided;
mod rows;

pub use rows::{StructRows, struct_rows};
