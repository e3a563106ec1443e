//! The variables of a module, declared in a new one as what they become where a part is extracted (the tool `llvm-extract`).
//!
//! It stands on `extract_core::fates`, on `entry_copy`, by whose new ids types are known, and on `item_build::types`. It promises that exactly
//! what the variables become is declared, in their order, none of it initialised yet, and which ids they have. Definitions:
//! `specs/Declaring/Stages`, the module as far as it is made, and `specs/Declaring/Declaring`, what is known of names and of new ids.
//!
//! ```
//! // of `@a = global i32 7`, which is kept, and `@b = global i32 8`, which is not and which nothing kept names
//! let ids = declare_variables(&copier, alloc, arena, &mut into, &fates.variables)?;
//! // Some(id) and None: the new arena has `@a`, a variable of the type `i32` without an initialiser so far
//! ```
mod emptied;
mod variables;

pub use variables::declare_variables;
