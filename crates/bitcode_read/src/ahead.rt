//! The variables, functions and aliases of a module, declared in an arena ahead of their records, so that constants may name
//! what stands behind them.
//!
//! It stands on `bitcode_read::head` and `body_read::ahead`, and goes through a module's block once its types are known. It promises that
//! what its records declare is declared in their order, up to one that is refused for a cause, and what is known ahead of the
//! bodies that are due. Definitions: `Records` of `record_table`, and `specs/`.
//!
//! ```
//! // of the bitcode of `@a = global i32 7` and `define void @f() { ret void }`
//! let bodies = declare_entries(alloc, bytes, &texts, &mut arena)?;
//! // one BodyAhead, that of `@f`: no value, and one block; the arena has `@a` and `@f`, neither of them defined
//! ```
mod adding;
mod bodies;
mod declare;
mod entries;
mod voids;

pub use declare::declare_entries;
