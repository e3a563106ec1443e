//! The functions and aliases of a module, declared in a new one as what they become where a part is extracted (the tool
//! `llvm-extract`).
//!
//! It stands on `extract_core::declaring`, which declares the variables, on `entry_copy`, by whose new ids types are known, and on
//! `item_build::types`. It promises that exactly what the entries become is declared, in their order, none of it defined yet, and which
//! ids they have. Definitions: `specs/Part/FunctionsThere` and `specs/Part/AliasesThere`, the module as far as it is made.
//!
//! ```
//! // of `define void @f() { ret void }` and `define void @g() { call void @f() ret void }`, of which `@g` is kept
//! let ids = declare_functions(&copier, alloc, arena, &mut into, &fates.functions)?;
//! // two ids: the new arena has `declare void @f()`, and `declare void @g()`, whose body is not set yet
//! ```
mod aliases;
mod functions;

pub use aliases::declare_aliases;
pub use functions::declare_functions;
