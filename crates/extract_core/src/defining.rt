//! Declared variables and functions, initialised and defined as what is kept of a module (the tool `llvm-extract`).
//!
//! It stands on `extract_core::declaring` and `extract_core::part`, which declare them, on `entry_copy`, by whose new ids types, constants and
//! entries are known, and on `item_build::types`. It promises that exactly the initialisers and bodies of what the entries become are
//! set, and that what is copied stays so. Definitions: `specs/Defining/Filling`, the module as far as it is made, and `specs/Defining/Naming`, what
//! definitions name.
//!
//! ```
//! // where `@a = global i32 7` and `define void @g() { ret void }` are kept, and declared in the new arena
//! initialise_variables(&copier, alloc, arena, &mut into, &fates.variables)?; // now it has `@a = global i32 7`
//! define_functions(&copier, alloc, arena, &mut into, &fates.functions)?; // and `define void @g() { ret void }`
//! ```
mod defining;
mod initialising;

pub use defining::define_functions;
pub use initialising::initialise_variables;
